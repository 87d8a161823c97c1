//! Laws of a cut: a live file's log gets a new size, maybe after a Write that fills its last kept page anew.
//!
//! Each function states laws of all disks; it does nothing.
#![tactic(auto)]

ghost use Rattle.law_cut.specs.CutLaws.{CutsMakeWrites, CutsMakeWritesWithoutRows, CutsStayValid, CutsDropPlaces, CutsResize, CutsAreCuts, CutsStayOwn, CutsTakeAndDrop, CutsDropMappings, CutsStayNear};
ghost use Rattle.law_cut.specs.DropLaws.{WritesDrop, WritesDropMappings};

/// A cut is an event of a write of no place, or of the last kept page: a valid disk stays valid, the tail decides, and
/// what has to stand before are the words past the tail and those of the page that is filled anew.
pub fn cuts_make_writes()
    ensures with_rows { CutsMakeWrites }
    ensures without_rows { CutsMakeWritesWithoutRows }
    ensures valid { CutsStayValid }
{}

/// The places from the pages of the new size on go; the last kept page is on the page that was filled anew; all others
/// stay.
pub fn cuts_drop_places()
    ensures { CutsDropPlaces }
{}

/// The file has as many bytes as the size, with zeros past the old end, and all names together lead to what the
/// operation says.
pub fn cuts_are_cuts()
    ensures bytes { CutsResize }
    ensures files { CutsAreCuts }
{}

/// A cut leaves zeros past the end of each file, keeps the prints of shared pages, and marks its place as not yet
/// worked on.
pub fn cuts_stay_own()
    ensures { CutsStayOwn }
{}

/// The pages that the cut takes are free no more, and those of the places that go come free where nobody shares them;
/// no other page comes free or is taken.
pub fn cuts_take_and_drop()
    ensures { CutsTakeAndDrop }
{}

/// The mappings of a page fall by the places that go, so that the counts of rows stay near if as many updates were raised.
pub fn cuts_stay_near()
    ensures mappings { CutsDropMappings }
    ensures near { CutsStayNear }
{}

/// The mappings of a page that isn't the event's fall by the places that an event of a write maps anew or takes away.
pub fn writes_drop_mappings()
    ensures places { WritesDrop }
    ensures mappings { WritesDropMappings }
{}
