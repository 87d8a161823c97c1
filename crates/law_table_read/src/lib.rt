//! A law of the table of fingerprints: any words hold chains of rows that may stand there, or the table that they
//! are read as has its first fault.
//!
//! Each function states a law of the definitions of `dn_model`; it does nothing.
#![tactic(auto)]

ghost use Rattle.law_table_read.specs.Tables.{RowsAreReadOrNot, TablesAreReadOrFaulty};

/// The words of a slot hold a row that may stand at this place of a chain, or no row may stand there. Words are any
/// numbers, also such that fit no field of a row.
pub fn row_or_none()
    ensures { RowsAreReadOrNot }
{}

/// The chains of all prefixes are read, and their rows are apart; or the table has its first fault at a slot.
pub fn table_or_fault()
    ensures { TablesAreReadOrFaulty }
{}
