//! Laws of dying inodes: a removed file goes place by place, from its end on, by its cut; one without places left is
//! made free, with the pages of its log.
//!
//! Each function states laws of all disks; it does nothing.
#![tactic(auto)]

ghost use Rattle.law_dying.specs.DyingLaws.{SteppedDisksAre, FallIsOneWord, EndIsOneWord, FallKeepsLiving, EndKeepsLiving, FallStaysOwn, EndStaysOwn, FallLowersCut, FallDropsPlace, EndDropsLog};

/// The parts of the disk are those of before, but for the inode's use.
pub fn stepped_disks()
    ensures { SteppedDisksAre }
{}

/// The cut of a dying inode falls to its greatest mapped place: the word of the cut decides between two valid disks.
/// That place's page has one mapping less, and is free where it has no row; all that lives stays.
pub fn cut_falls()
    ensures one_word { FallIsOneWord }
    ensures lower { FallLowersCut }
    ensures living { FallKeepsLiving }
    ensures own { FallStaysOwn }
    ensures place { FallDropsPlace }
{}

/// A dying inode without mapped places is free: the word of its state decides between two valid disks. The pages of
/// its log are free; all that lives stays.
pub fn dying_inode_ends()
    ensures one_word { EndIsOneWord }
    ensures living { EndKeepsLiving }
    ensures own { EndStaysOwn }
    ensures log { EndDropsLog }
{}
