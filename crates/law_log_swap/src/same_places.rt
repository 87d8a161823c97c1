//! Laws of a live inode that gets another log with the same places.
//!
//! Each function states laws of all disks; it does nothing.
ghost use Rattle.law_log_swap.specs.RelogLaws.{RelogChangesParts, RelogStaysValid, RelogSays, RelogKeepsData, RelogMovesLog, RelogStaysOwn, RelogStaysSettled};

/// A valid disk stays valid: its parts are those of before, but for the log. It says what it said, and what the log
/// says.
pub fn relogs_stay_valid()
    ensures parts { RelogChangesParts }
    ensures valid { RelogStaysValid }
    ensures says { RelogSays }
{}

/// Mappings, files, rows and counts are what they were. The pages of the new log are taken, and those of the old one
/// that it hasn't come free.
pub fn relogs_keep_data()
    ensures data { RelogKeepsData }
    ensures pages { RelogMovesLog }
{}

/// What every image of this program has stays where the new log calls no place complete too soon, and what was settled
/// stays settled where it keeps what was done.
pub fn relogs_stay_own()
    ensures own { RelogStaysOwn }
    ensures settled { RelogStaysSettled }
{}
