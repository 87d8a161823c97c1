//! The log of an inode is read, whatever the words are, or it has its first fault.
//!
//! Each function states a law of definitions; it does nothing. The words are any numbers here, also ones
//! that no device holds.
#![tactic(auto)]

ghost use Rattle.law_log_read.specs.Laws.{FrontsAreDecided, LogsAreReadOrFaulty};

/// Slots begin with the slots of an item, or an item's slots begin with them and are more, or neither.
pub fn decided_fronts()
    ensures { FrontsAreDecided }
{}

/// Words have a log of an inode that may be read, or the place of its first fault, in slots.
pub fn log_or_fault()
    ensures { LogsAreReadOrFaulty }
{}
