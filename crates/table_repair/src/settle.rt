// A table is settled.
ghost use Rattle.std.specs.Prelude.{◌≡◌, ◌≢◌, ◌+◌, ◌*◌, ◌<◌, ◌≤◌, length, All, OnOk, IsErr};
ghost use Rattle.pm_device.specs.State.{Rose};
ghost use Rattle.pm_device.specs.Settled.{Still, StoresOnly, Nowhere};
ghost use Rattle.law_table.specs.Words.{IsTableWord};
ghost use Rattle.fact_scan.specs.Seen.{as_row};
ghost use Rattle.fact_scan.specs.declared.row.Row.{Row as RowValue};
ghost use Rattle.table_repair.specs.Settling.{HasRowToSettle, HasTableToSettle, LeavesRow, CountsRow, SettlesRow, LeavesTable, SettlesCounts, SettlesAll, KeepsExact, KeepsSettled, with_count};

use fact_changes::{clear_stale, remove_zero};
use fact_counts::recount;
use fact_scan::Row;
use fact_table::Fact;
use pm_device::{Failed, Pm};

/// The units of the device that a row takes at most.
pub const ROW_UNITS: u64 = 9;

/// The units of the device that a page's pointer takes at most.
pub const PAGE_UNITS: u64 = 3;

// A row with updates under way gets so many references.
fn count_row<D: Pm>(
    fact: &Fact,
    device: &mut D,
    who: u32,
    row: &Row,
    mappings: u32,
) -> Result<(), Failed>
    requires row { HasRowToSettle fact.now (as_row row.now) mappings (D.state device.old) }
    requires room { 3 ≤ (D.state device.old).spare }
    ensures images { LeavesRow fact.now (as_row row.now) mappings (D.state device.old)
        (D.state device.new) }
    ensures done { OnOk result (CountsRow fact.now (as_row row.now) mappings (D.state device.old)
        (D.state device.new)) }
    ensures only { StoresOnly (IsTableWord fact.now.geometry) (D.state device.old)
        (D.state device.new) }
    ensures still { OnOk result (Still (D.state device.old) → Still (D.state device.new)) }
    ensures quiet { row.now.count.uc ≡ 0
        → StoresOnly Nowhere (D.state device.old) (D.state device.new) }
    ensures spare { (D.state device.old).spare ≤ (D.state device.new).spare + 3 }
    ensures faults { (D.state device.old).faults ≤ (D.state device.new).faults }
    ensures failed { IsErr result → Rose (D.state device.old).faults (D.state device.new).faults }
{
    if row.count.uc == 0 {
        return Ok(());
    }
    recount(fact, device, who, row.slot, mappings)
}

// A row whose count is right goes, if that is 0.
fn drop_row<D: Pm>(
    fact: &mut Fact,
    device: &mut D,
    who: u32,
    row: &Row,
    mappings: u32,
) -> Result<(), Failed>
    requires row { HasRowToSettle fact.old (with_count (as_row row.now) mappings) mappings
        (D.state device.old) }
    requires room { 6 ≤ (D.state device.old).spare }
    ensures images { LeavesRow fact.old (with_count (as_row row.now) mappings) mappings
        (D.state device.old) (D.state device.new) }
    ensures done { OnOk result (SettlesRow fact.old fact.new (with_count (as_row row.now) mappings)
        mappings (D.state device.old) (D.state device.new)) }
    ensures only { StoresOnly (IsTableWord fact.old.geometry) (D.state device.old)
        (D.state device.new) }
    ensures still { OnOk result (Still (D.state device.old) → Still (D.state device.new)) }
    ensures quiet { mappings ≢ 0 → StoresOnly Nowhere (D.state device.old) (D.state device.new) }
    ensures spare { (D.state device.old).spare ≤ (D.state device.new).spare + 6 }
    ensures faults { (D.state device.old).faults ≤ (D.state device.new).faults }
    ensures failed { IsErr result → Rose (D.state device.old).faults (D.state device.new).faults }
{
    if mappings != 0 {
        return Ok(());
    }
    remove_zero(fact, device, who, row.slot)
}

// A row gets the count of its page's mappings, or goes if there is none.
fn settle_row<D: Pm>(
    fact: &mut Fact,
    device: &mut D,
    who: u32,
    row: &Row,
    mappings: u32,
) -> Result<(), Failed>
    requires row { HasRowToSettle fact.old (as_row row.now) mappings (D.state device.old) }
    requires room { ROW_UNITS ≤ (D.state device.old).spare }
    ensures images { LeavesRow fact.old (as_row row.now) mappings (D.state device.old)
        (D.state device.new) }
    ensures done { OnOk result (SettlesRow fact.old fact.new (as_row row.now) mappings
        (D.state device.old) (D.state device.new)) }
    ensures only { StoresOnly (IsTableWord fact.old.geometry) (D.state device.old)
        (D.state device.new) }
    ensures still { OnOk result (Still (D.state device.old) → Still (D.state device.new)) }
    ensures quiet { row.now.count.uc ≡ 0 → mappings ≢ 0
        → StoresOnly Nowhere (D.state device.old) (D.state device.new) }
    ensures spare { (D.state device.old).spare ≤ (D.state device.new).spare + ROW_UNITS }
    ensures faults { (D.state device.old).faults ≤ (D.state device.new).faults }
    ensures failed { IsErr result → Rose (D.state device.old).faults (D.state device.new).faults }
{
    count_row(fact, device, who, row, mappings)?;
    drop_row(fact, device, who, row, mappings)
}

// Each row does.
fn settle_rows<D: Pm>(
    fact: &mut Fact,
    device: &mut D,
    who: u32,
    rows: &[Row],
    mapped: &[u32],
) -> Result<(), Failed>
    requires table { HasTableToSettle fact.old rows.now mapped.now (D.state device.old) }
    requires inside { All (λ (row : RowValue). row.page < length mapped.now) rows.now }
    requires room { ROW_UNITS * length rows.now ≤ (D.state device.old).spare }
    ensures images { LeavesTable fact.old rows.now mapped.now (D.state device.old)
        (D.state device.new) }
    ensures done { OnOk result (SettlesCounts fact.old fact.new rows.now mapped.now
        (D.state device.old) (D.state device.new)) }
    ensures only { StoresOnly (IsTableWord fact.old.geometry) (D.state device.old)
        (D.state device.new) }
    ensures still { OnOk result (Still (D.state device.old) → Still (D.state device.new)) }
    ensures quiet { KeepsExact fact.old rows.now mapped.now (D.state device.old)
        (D.state device.new) }
    ensures spare { (D.state device.old).spare ≤ (D.state device.new).spare + ROW_UNITS * length
        rows.now }
    ensures faults { (D.state device.old).faults ≤ (D.state device.new).faults }
    ensures failed { IsErr result → Rose (D.state device.old).faults (D.state device.new).faults }
{
    for row in rows {
        settle_row(fact, device, who, row, mapped[row.page as usize])?;
    }
    Ok(())
}

/// Settles the table of a file system without a fault, of which these are the rows, and for each page the number of its
/// mappings: each row with updates under way gets the count of its page's mappings, rows without mappings go, and
/// stale pointers are cleared.
///
/// A stop at any moment leaves a file system without a fault that differs in its table alone. Rows that have references
/// and no update under way are in each of them as they are. Where all counts are exact and no pointer is stale, nothing
/// is stored.
///
/// # Errors
/// `Failed` where a fence failed. Some of it is done; the table that is kept in memory isn't used again.
pub fn settle_table<D: Pm>(
    fact: &mut Fact,
    device: &mut D,
    who: u32,
    rows: &[Row],
    mapped: &[u32],
) -> Result<(), Failed>
    requires table { HasTableToSettle fact.old rows.now mapped.now (D.state device.old) }
    requires inside { All (λ (row : RowValue). row.page < length mapped.now) rows.now }
    requires room { ROW_UNITS * length rows.now + PAGE_UNITS * fact.old.geometry.pages ≤
        (D.state device.old).spare }
    ensures images { LeavesTable fact.old rows.now mapped.now (D.state device.old)
        (D.state device.new) }
    ensures done { OnOk result (SettlesAll fact.old fact.new rows.now mapped.now
        (D.state device.old) (D.state device.new)) }
    ensures only { StoresOnly (IsTableWord fact.old.geometry) (D.state device.old)
        (D.state device.new) }
    ensures still { OnOk result (Still (D.state device.old) → Still (D.state device.new)) }
    ensures quiet { KeepsSettled fact.old rows.now mapped.now (D.state device.old)
        (D.state device.new) }
    ensures spare { (D.state device.old).spare ≤ (D.state device.new).spare + ROW_UNITS * length
        rows.now + PAGE_UNITS * fact.old.geometry.pages }
    ensures faults { (D.state device.old).faults ≤ (D.state device.new).faults }
    ensures failed { IsErr result → Rose (D.state device.old).faults (D.state device.new).faults }
{
    settle_rows(fact, device, who, rows, mapped)?;
    clear_stale(fact, device, who)
}
