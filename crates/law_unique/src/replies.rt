//! What an operation answers and makes of the files.
ghost use Rattle.law_unique.specs.Operations.{HasOneListing, HasOneReply, IsGrantedOrRefused, IsOfFiles, HasOneEnd, IsLegalInParts, Commute, IsAnsweredAlike, IsGrantedAlike};

/// An operation has one reply at most, without want of room: two listings of the same files are the
/// same list, and the refusals exclude one another.
pub fn one_reply()
    ensures listing { HasOneListing }
    ensures one { HasOneReply }
    ensures either { IsGrantedOrRefused }
{}

/// What is said of an operation and of a history speaks of files name by name: it stays where all
/// names lead to the same bytes.
pub fn of_files()
    ensures { IsOfFiles }
{}

/// A history that is legal from some files leads to the same files always, and is legal exactly if
/// its parts are, one after the other.
pub fn one_end()
    ensures one { HasOneEnd }
    ensures parts { IsLegalInParts }
{}

/// Operations without a common name may be done in either order: the files are the same, and each
/// is answered as if the other were not there.
pub fn other_names()
    ensures files { Commute }
    ensures replies { IsAnsweredAlike }
    ensures granted { IsGrantedAlike }
{}
