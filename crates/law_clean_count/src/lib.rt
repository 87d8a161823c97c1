//! Laws of how long the cleaned log of an inode is: what a file's map and the map of names keep in memory tells it.
//!
//! Each function states laws of all logs and maps; it does nothing.
#![tactic(auto)]

ghost use Rattle.law_clean_count.specs.CountLaws.{WritesAreRuns, FileTakesRuns, RootTakesAdds};

/// The cleaned log of a file has a Write for each maximal run of places that one item maps. So it takes as many slots as
/// there are runs, or, where there are none, a slot for a size that isn't 0.
pub fn runs_tell_slots()
    ensures writes { WritesAreRuns }
    ensures slots { FileTakesRuns }
{}

/// The cleaned log of the root takes the slots of an Add of each name that leads anywhere.
pub fn names_tell_slots()
    ensures { RootTakesAdds }
{}
