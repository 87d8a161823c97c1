//! An image is read up to the links of its inodes, whatever its words are, or it has its first fault.
//!
//! Each function states a law of definitions; it does nothing. The words are any numbers here, also ones
//! that no device holds.
#![tactic(auto)]

ghost use Rattle.law_image_read.specs.Laws.{AreReadToLinks, LinksStay, PassingStands};

/// Words have the first fault of an image, by its head, its journal, its inodes, its logs or its links, or they
/// pass these rules with a state whose inodes and logs they say. What passes them keeps to that with any
/// chains, pointers and pages, since these rules don't speak of them.
pub fn image_or_fault()
    ensures read { AreReadToLinks }
    ensures stay { LinksStay }
{}

/// Words that pass all rules up to the pointers of pages stand for the state, if they say its pages too, no page
/// is used twice, the counts are near and two pages are free.
pub fn passing_stands()
    ensures { PassingStands }
{}
