//! Laws of a log that is replaced by a shorter one with the same mappings.
//!
//! Each function states laws of all disks; it does nothing.
ghost use Rattle.law_log_swap.specs.Replaced.{TwoPagesAreSpared, ReplacedKeepsPlaces, BodyIsUnread, BodyStoresChangeNothing, ReplaceIsAllOrNone, BodySuffices, ReplaceLeavesOldOrNew, ReplaceStands, ReplaceSwapsLog, ReplaceStaysOwn, ReplaceStaysSettled};

/// The new log keeps the places of the old one, so that files, mappings, rows and counts stay and the disk stays valid.
/// A log of two pages leaves two pages free.
pub fn replaced_logs_keep_places()
    ensures places { ReplacedKeepsPlaces }
    ensures left { TwoPagesAreSpared }
{}

/// Of the new log's pages the disk says nothing before: while they are stored it stands, and so does each image that
/// a stop may leave.
pub fn new_pages_are_unread()
    ensures unread { BodyIsUnread }
    ensures stored { BodyStoresChangeNothing }
{}

/// Head and tail decide together, once the new pages stand: while one commit of the journal changes them, each image
/// that a stop may leave stands for what was or for what comes, and at its end the device stands for what comes.
pub fn log_is_replaced()
    ensures decide { ReplaceIsAllOrNone }
    ensures suffice { BodySuffices }
    ensures images { ReplaceLeavesOldOrNew }
    ensures stands { ReplaceStands }
{}

/// The old log's pages come free, and those of the new one are taken. What every image of this program has stays, and
/// so does what was settled.
pub fn replaced_logs_swap_pages()
    ensures pages { ReplaceSwapsLog }
    ensures own { ReplaceStaysOwn }
    ensures settled { ReplaceStaysSettled }
{}
