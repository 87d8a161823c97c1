//! What several words that change together decide.
//!
//! Each function states laws of all disks; it does nothing.
ghost use Rattle.law_names.specs.AllOrNoneLaws.{AllOrNoneLeavesOldOrNew, AllOrNoneStands, DisksAreShut};

/// Where several words decide between two valid disks, each image that a stop may leave while they change stands for
/// one of them, and once they have changed the device stands for the new one. Before, the journal is closed.
pub fn all_words_decide()
    ensures images { AllOrNoneLeavesOldOrNew }
    ensures stands { AllOrNoneStands }
    ensures shut { DisksAreShut }
{}
