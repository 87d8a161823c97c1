//! Laws of rows that come into a table, go, or get other counts, and of pointers.
//!
//! Each function states laws of all tables; it does nothing.
ghost use Rattle.law_table.specs.Rows.{CountWordDecides, RecountChangesOneRow, PointerDecides, RepointKeepsRows, FreshRowMayPoint, PointedRowMayPut, OpeningDecides, OpeningPutsRow, LinkDecides, LinkPutsRow, UnusedSlotsAreUntold, ClosedSlotsAreUntold, ClosingDecides, UnlinkDecides, TakenRowMayClear, StalePointersMayClear, RemovalTakesRow, PrefixesAreDirect, RowsStandInChains, ChainsHoldRows};

/// A row gets other counts: one word decides, and no other row changes.
pub fn row_is_counted()
    ensures one_word { CountWordDecides }
    ensures one_row { RecountChangesOneRow }
{}

/// A page gets another pointer: one word decides, and no row changes. It may lead to the slot of a new row before the
/// row comes in, and the row may come in then. It may be cleared once the row is gone, as that of each page without a
/// row.
pub fn page_is_pointed()
    ensures one_word { PointerDecides }
    ensures rows_same { RepointKeepsRows }
    ensures led { FreshRowMayPoint }
    ensures put { PointedRowMayPut }
    ensures taken { TakenRowMayClear }
    ensures stale { StalePointersMayClear }
{}

/// A row comes into its direct slot by the page word, or behind it by the direct slot's next word: the rows are those
/// of before and this one. Nothing is said of the words that are stored first.
pub fn row_comes_in()
    ensures opening { OpeningDecides }
    ensures opened { OpeningPutsRow }
    ensures link { LinkDecides }
    ensures linked { LinkPutsRow }
    ensures indirect { UnusedSlotsAreUntold }
    ensures direct { ClosedSlotsAreUntold }
{}

/// A row goes by the page word of its direct slot, or by the next word of the slot before: the other rows stay.
pub fn row_goes()
    ensures closing { ClosingDecides }
    ensures unlink { UnlinkDecides }
    ensures one_row { RemovalTakesRow }
{}

/// A row stands in the chain of its fingerprint's prefix, in the direct slot or an indirect one, and all that stands
/// in a chain is a row.
pub fn rows_stand_in_chains()
    ensures prefixes { PrefixesAreDirect }
    ensures listed { RowsStandInChains }
    ensures held { ChainsHoldRows }
{}
