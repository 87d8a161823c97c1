//! Laws of rows that come into the table and go.
//!
//! Each function states laws of all disks; it does nothing.
ghost use Rattle.law_table_on_disk.specs.RowLaws.{OpenIsOneWord, OpenPutsRow, OpenStaysExact, OpenStaysOwn, LinkIsOneWord, LinkPutsRow, LinkStaysExact, LinkStaysOwn, UnusedSlotsAreUnread, ClosedSlotsAreUnread, RowsStandInChains, ChainsHoldRows, NewRowMayPoint, PointedRowMayPut, RemovedRowMayClear, StalePointersMayClear, CloseIsOneWord, UnlinkIsOneWord, RemoveTakesRow, RemoveMakesExact, RemoveStaysOwn};

/// A row comes into a direct slot: its page word decides between two valid disks, and the rows are those of before
/// and this one.
pub fn row_is_opened()
    ensures one_word { OpenIsOneWord }
    ensures one_row { OpenPutsRow }
    ensures exact { OpenStaysExact }
    ensures own { OpenStaysOwn }
{}

/// A row comes into an indirect slot: the next word of the direct slot decides between two valid disks, and the rows
/// are those of before and this one.
pub fn row_is_linked()
    ensures one_word { LinkIsOneWord }
    ensures one_row { LinkPutsRow }
    ensures exact { LinkStaysExact }
    ensures own { LinkStaysOwn }
{}

/// Nothing is said of the words of an indirect slot that no row has, and of a direct one only by its page and next
/// words: a row's words can be stored there before it comes in.
pub fn unused_slots_are_unread()
    ensures indirect { UnusedSlotsAreUnread }
    ensures direct { ClosedSlotsAreUnread }
{}

/// A row goes: the page word of its direct slot, or the next word of the slot before, decides between two valid
/// disks, and the other rows stay.
pub fn row_is_removed()
    ensures closed { CloseIsOneWord }
    ensures unlinked { UnlinkIsOneWord }
    ensures one_row { RemoveTakesRow }
    ensures exact { RemoveMakesExact }
    ensures own { RemoveStaysOwn }
{}

/// A row stands in the chain of its fingerprint's prefix, in the direct slot or an indirect one, and all that stands
/// in a chain is a row of the table.
pub fn rows_stand_in_chains()
    ensures listed { RowsStandInChains }
    ensures held { ChainsHoldRows }
{}

/// The pointer of a page may lead to the slot of a new row before the row comes in, and the row may come in then. It
/// may be cleared once the row is gone, as that of each page without a row.
pub fn pointers_go_with_rows()
    ensures led { NewRowMayPoint }
    ensures put { PointedRowMayPut }
    ensures cleared { RemovedRowMayClear }
    ensures stale { StalePointersMayClear }
{}
