//! Laws of cleaned logs: what a log still says, in no more items than that takes, as log cleaning in NOVA (FAST 2016).
//!
//! Each function states laws of all logs and disks; it does nothing.
#![tactic(auto)]

ghost use Rattle.law_clean.specs.CleanLaws.{RunsAreMaximal, PlacesAreInRuns, NothingIsMapped, CleanedIsSpelled, CleanedMayStand, CleanedMapsAlike, CleanedKeepsPlaces, CleanedKeepsDone, CleanedIsShorter, NamesTakeNoMore, EmptyHasNoPage, CleanedMayReplace};

/// The runs of a test are as long as they can be, and each place that passes lies in one. So a log has no run left exactly
/// where it maps no place.
pub fn runs_are_maximal()
    ensures maximal { RunsAreMaximal }
    ensures places { PlacesAreInRuns }
    ensures none { NothingIsMapped }
{}

/// The items of a cleaned log are in the ranges in which items are spelled, and may stand in a log of the inode.
pub fn cleaned_logs_are_spelled()
    ensures spelled { CleanedIsSpelled }
    ensures standing { CleanedMayStand }
{}

/// A cleaned log says what the log says: the same size, each place on its page, with the flag that it had and left
/// alone as before, and each name of the root leads where it led.
pub fn cleaned_logs_keep_places()
    ensures alike { CleanedMapsAlike }
    ensures places { CleanedKeepsPlaces }
    ensures done { CleanedKeepsDone }
{}

/// A log that is worth cleaning has more slots than the cleaned one. That of the root never has more slots than the log;
/// that of a file may, since a Write that is overwritten here and there falls into many runs. A cleaned log without items
/// has no page, and 0 for its head and tail.
pub fn cleaned_logs_are_shorter()
    ensures worth { CleanedIsShorter }
    ensures names { NamesTakeNoMore }
    ensures empty { EmptyHasNoPage }
{}

/// The log of a live inode that is worth cleaning may be replaced by the cleaned one, on unused pages.
pub fn cleaned_logs_may_replace()
    ensures { CleanedMayReplace }
{}
