// A row comes into the table at the slot that it gets.
ghost use Rattle.std.specs.Prelude.{◌≡◌, ◌≢◌, ◌+◌, ◌≤◌, slice_index, IfOk, OnOk, IsErr};
ghost use Rattle.pm_device.specs.State.{Rose};
ghost use Rattle.pm_device.specs.Settled.{StoresOnly, KeepsFlushed, Others, SettlesAll};
ghost use Rattle.pm_layout.specs.Geometry.{slot_word};
ghost use Rattle.dn_model.specs.Table.{prefix_of};
ghost use Rattle.fact_changes.specs.Insertion.{CanInsert, IsInsertWord, LeavesInserted, MakesInserted};

use fact_rows::put::{INSERT_UNITS, insert_chained, insert_direct};
use fact_slot::load_field;
use fact_table::{Fact, direct_of};
use pm_device::{Failed, Pm};
use pm_layout::FACT_PAGE;

// Puts a new row into the least indirect slot without one.
fn insert_behind<D: Pm>(
    fact: &mut Fact,
    device: &mut D,
    who: u32,
    direct: u64,
    print: &[u8; 20],
    page: u64,
) -> Result<u64, Failed>
    requires can { CanInsert (D.state device.old).now fact.old print.now page }
    requires direct { direct ≡ prefix_of fact.old.geometry print.now }
    requires row { slice_index (D.state device.old).now (slot_word fact.old.geometry direct 0) ≢ 0 }
    requires room { INSERT_UNITS ≤ (D.state device.old).spare }
    ensures images { LeavesInserted fact.old fact.new print.now page (D.state device.old)
        (D.state device.new) }
    ensures done { IfOk result (MakesInserted fact.old fact.new print.now page (D.state device.old)
        (D.state device.new)) }
    ensures settles { OnOk result (SettlesAll who (D.state device.old) (D.state device.new)) }
    ensures only { StoresOnly (IsInsertWord fact.old fact.new print.now page) (D.state device.old)
        (D.state device.new) }
    ensures others { KeepsFlushed (Others who) (IsInsertWord fact.old fact.new print.now page)
        (D.state device.old) (D.state device.new) }
    ensures spare { (D.state device.old).spare ≤ (D.state device.new).spare + INSERT_UNITS }
    ensures faults { (D.state device.old).faults ≤ (D.state device.new).faults }
    ensures failed { IsErr result → Rose (D.state device.old).faults (D.state device.new).faults }
{
    let g = fact.geometry();
    match fact.take_slot() {
        Some(slot) => {
            insert_chained(device, &g, who, direct, slot, print, page)?;
            Ok(slot)
        }
        None => Ok(direct),
    }
}

/// Puts a new row into the table, with no reference yet and one update under way, and answers its slot: the direct
/// slot of its prefix where that has no row, and else the least indirect slot without one.
///
/// Where the table is settled before, at each moment a crash leaves the rows of before, with or without the new pointer,
/// or the new row too.
///
/// # Errors
/// `Failed` where a fence failed. The row is stored or it isn't, and a crash may leave either.
pub fn insert<D: Pm>(
    fact: &mut Fact,
    device: &mut D,
    who: u32,
    print: &[u8; 20],
    page: u64,
) -> Result<u64, Failed>
    requires can { CanInsert (D.state device.old).now fact.old print.now page }
    requires room { INSERT_UNITS ≤ (D.state device.old).spare }
    ensures images { LeavesInserted fact.old fact.new print.now page (D.state device.old)
        (D.state device.new) }
    ensures done { IfOk result (MakesInserted fact.old fact.new print.now page (D.state device.old)
        (D.state device.new)) }
    ensures settles { OnOk result (SettlesAll who (D.state device.old) (D.state device.new)) }
    ensures only { StoresOnly (IsInsertWord fact.old fact.new print.now page) (D.state device.old)
        (D.state device.new) }
    ensures others { KeepsFlushed (Others who) (IsInsertWord fact.old fact.new print.now page)
        (D.state device.old) (D.state device.new) }
    ensures spare { (D.state device.old).spare ≤ (D.state device.new).spare + INSERT_UNITS }
    ensures faults { (D.state device.old).faults ≤ (D.state device.new).faults }
    ensures failed { IsErr result → Rose (D.state device.old).faults (D.state device.new).faults }
{
    let g = fact.geometry();
    let direct = direct_of(&g, print);
    if load_field(device, &g, direct, FACT_PAGE) != 0 {
        return insert_behind(fact, device, who, direct, print, page);
    }
    insert_direct(device, &g, who, direct, print, page)?;
    Ok(direct)
}
