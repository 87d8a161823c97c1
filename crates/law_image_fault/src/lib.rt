//! Any words have a first fault or stand for a valid disk: where they have inodes, logs and links, one of the rules of the
//! table, of pointers, pages, counts and free pages is the first that they break, or they break none.
//!
//! Each function states a law of the definitions of `dn_model`; it does nothing.
#![tactic(auto)]

ghost use Rattle.law_image_fault.specs.Rules.{FreePagesAreCounted, PagesAreDecided, LinkedImagesAreJudged, ImagesAreJudged, NoFaultIsState};

/// It is decided of each page whether it is used twice against the rules, and whether it is free.
pub fn pages_decided()
    ensures { PagesAreDecided }
{}

/// So many pages are free, and where these are two or more, there are two different ones.
pub fn free_pages_counted()
    ensures { FreePagesAreCounted }
{}

/// An image with inodes, logs and links has its first fault in the rules behind, or has no fault.
pub fn fault_or_disk()
    ensures { LinkedImagesAreJudged }
{}

/// Any words have a first fault, by the first of the twelve rules that they break, or stand for a valid disk; and they have
/// no fault exactly where they stand for one.
pub fn fault_or_state()
    ensures judged { ImagesAreJudged }
    ensures no_fault { NoFaultIsState }
{}
