//! The first fault of an image.
ghost use Rattle.law_unique.specs.FirstFaults.{HasOneLogFault, ReadLogsHaveNoFault, HasOneTableFault, ReadTablesHaveNoFault, HasOneFault, StandingHasNoFault};

/// A log has its first fault at one place at most, in slots, and none where it may be read.
pub fn one_log_fault()
    ensures one { HasOneLogFault }
    ensures none { ReadLogsHaveNoFault }
{}

/// The table has its first fault at one slot at most, and none where its chains may be read.
pub fn one_table_fault()
    ensures one { HasOneTableFault }
    ensures none { ReadTablesHaveNoFault }
{}

/// An image has one first fault at most, and none where it stands for a valid state.
pub fn one_fault()
    ensures one { HasOneFault }
    ensures none { StandingHasNoFault }
{}
