//! Laws of counts while updates are under way.
//!
//! Each function states laws of all disks; it does nothing.
ghost use Rattle.law_table_on_disk.specs.BalanceLaws.{BalancedIsNear, BalanceStays, RaiseKeepsBalance, AddedMappingKeepsBalance, DroppedMappingKeepsBalance, SettleUpKeepsBalance, SettleDownKeepsBalance, CountedIsBalanced, NewRowIsBalanced};

/// A row is balanced where its update count is the number of updates under way, and its page's mappings are its
/// references with those added and without those dropped that aren't settled. Its counts are then near, and it stays
/// balanced while its page's mappings stay.
pub fn balanced_counts_are_near()
    ensures near { BalancedIsNear }
    ensures stays { BalanceStays }
    ensures new_row { NewRowIsBalanced }
{}

/// Each step of an update keeps a row balanced: it is raised, it adds or drops a mapping, and it is settled up or
/// down. The counts that a step stores may be stored. So may the number of mappings, with nothing under way.
pub fn updates_keep_balance()
    ensures raised { RaiseKeepsBalance }
    ensures added { AddedMappingKeepsBalance }
    ensures dropped { DroppedMappingKeepsBalance }
    ensures settled_up { SettleUpKeepsBalance }
    ensures settled_down { SettleDownKeepsBalance }
    ensures counted { CountedIsBalanced }
{}
