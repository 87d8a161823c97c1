// A row goes out of the table by its slot.
ghost use Rattle.std.specs.Prelude.{◌≡◌, ◌+◌, ◌*◌, ◌<◌, ◌≤◌, ℕ, List, length, OnOk, OnErr, IsErr};
ghost use Rattle.pm_device.specs.State.{Rose};
ghost use Rattle.pm_device.specs.Settled.{SettlesAll};
ghost use Rattle.pm_layout.specs.Geometry.{IsAccepted, directs};
ghost use Rattle.dn_model.specs.Table.{Row as TableRow};
ghost use Rattle.fact_changes.specs.Removal.{IsChainTo, HasChainTo, IsBefore, HasZero, IsReadAt, Frees, MakesRemoved, SettlesRemoved, LeavesRemoved, RemovesOnly, KeepsThrough};

use fact_rows::remove::{REMOVE_UNITS, remove_chained, remove_direct};
use fact_slot::{Steps, read_slot};
use fact_table::{Fact, direct_of};
use pm_device::{Failed, Pm};
use pm_layout::Geometry;
use std::marker::Brand;
use std::sync::ledger::{Blank, Ledger};

/// The slot whose next word leads to an indirect slot: the direct slot that the chain goes on from, or that of the
/// row before. It makes at most one step for each row behind the direct slot.
pub fn slot_before_of<D: Pm, L: Ledger>(
    device: &D,
    g: &Geometry,
    direct: u64,
    slot: u64,
    steps: &mut Steps<L>,
) -> u64
    requires accepted { IsAccepted g.now }
    requires size { length (D.state device.now).now ≡ 512 * g.now.pages }
    requires direct { direct < directs g.now }
    requires chain { HasChainTo g.now (D.state device.now).now direct slot }
    ensures before { IsBefore g.now (D.state device.now).now direct slot result }
    ensures cost { (rows : List TableRow) → IsChainTo g.now (D.state device.now).now direct slot
        rows → steps.new ≤ steps.old + length rows }
{
    let mut before = direct;
    for _i in 0..g.pages {
        let next = read_slot(device, g, before, steps).next;
        if next == slot {
            return before;
        }
        before = next;
    }
    before
}

// The slot before, found with a count of its own, over this ledger.
fn before_over<D: Pm, L: Ledger>(
    device: &D,
    g: &Geometry,
    direct: u64,
    slot: u64,
    blank: Blank,
) -> u64
    requires name { blank.name ≡ L.name }
    requires parts { blank.parts ≡ L.parts }
    requires part { 0 < blank.parts }
    requires accepted { IsAccepted g.now }
    requires size { length (D.state device.now).now ≡ 512 * g.now.pages }
    requires direct { direct < directs g.now }
    requires chain { HasChainTo g.now (D.state device.now).now direct slot }
    ensures before { IsBefore g.now (D.state device.now).now direct slot result }
{
    let mut steps = Steps::<L>::new(blank);
    slot_before_of(device, g, direct, slot, &mut steps)
}

// Takes the row of this slot, page and print out, and gives its slot back.
fn take_out<D: Pm>(
    fact: &mut Fact,
    device: &mut D,
    who: u32,
    slot: u64,
    page: u64,
    print: &[u8; 20],
) -> Result<(), Failed>
    requires row { HasZero (D.state device.old).now fact.old slot }
    requires read { IsReadAt (D.state device.old).now fact.old slot page print.now }
    requires room { REMOVE_UNITS ≤ (D.state device.old).spare }
    ensures images { LeavesRemoved fact.old slot (D.state device.old) (D.state device.new) }
    ensures done { OnOk result (MakesRemoved fact.old fact.new slot (D.state device.old)
        (D.state device.new)) }
    ensures settled { OnOk result (SettlesRemoved fact.old slot (D.state device.old)
        (D.state device.new)) }
    ensures frees { OnOk result (Frees slot fact.old fact.new) }
    ensures kept { OnErr result (fact.new ≡ fact.old) }
    ensures settles { OnOk result (SettlesAll who (D.state device.old) (D.state device.new)) }
    ensures only { RemovesOnly fact.old slot (D.state device.old) (D.state device.new) }
    ensures others { KeepsThrough who fact.old slot (D.state device.old) (D.state device.new) }
    ensures spare { (D.state device.old).spare ≤ (D.state device.new).spare + REMOVE_UNITS }
    ensures faults { (D.state device.old).faults ≤ (D.state device.new).faults }
    ensures failed { IsErr result → Rose (D.state device.old).faults (D.state device.new).faults }
{
    let g = fact.geometry();
    if slot < g.directs() {
        return remove_direct(device, &g, who, slot, page);
    }
    let direct = direct_of(&g, print);
    let before = before_over::<D, Brand>(device, &g, direct, slot, Blank::new(1));
    remove_chained(device, &g, who, before, slot, page)?;
    fact.give_back_slot(slot);
    Ok(())
}

/// Takes the row at a slot, which has no reference and no update under way, out of the table. An indirect slot is
/// given back to those that are kept as having no row.
///
/// Where the table is settled before, at each moment a crash leaves the rows of before, or those without this one, with
/// or without the pointer of its page.
///
/// # Errors
/// `Failed` where a fence failed. The row is gone or it isn't, and a crash may leave either. The slot isn't given back.
pub fn remove_zero<D: Pm>(
    fact: &mut Fact,
    device: &mut D,
    who: u32,
    slot: u64,
) -> Result<(), Failed>
    requires row { HasZero (D.state device.old).now fact.old slot }
    requires room { REMOVE_UNITS ≤ (D.state device.old).spare }
    ensures images { LeavesRemoved fact.old slot (D.state device.old) (D.state device.new) }
    ensures done { OnOk result (MakesRemoved fact.old fact.new slot (D.state device.old)
        (D.state device.new)) }
    ensures settled { OnOk result (SettlesRemoved fact.old slot (D.state device.old)
        (D.state device.new)) }
    ensures frees { OnOk result (Frees slot fact.old fact.new) }
    ensures kept { OnErr result (fact.new ≡ fact.old) }
    ensures settles { OnOk result (SettlesAll who (D.state device.old) (D.state device.new)) }
    ensures only { RemovesOnly fact.old slot (D.state device.old) (D.state device.new) }
    ensures others { KeepsThrough who fact.old slot (D.state device.old) (D.state device.new) }
    ensures spare { (D.state device.old).spare ≤ (D.state device.new).spare + REMOVE_UNITS }
    ensures faults { (D.state device.old).faults ≤ (D.state device.new).faults }
    ensures failed { IsErr result → Rose (D.state device.old).faults (D.state device.new).faults }
{
    match fact.row_at(device, slot) {
        Some(row) => take_out(fact, device, who, slot, row.page, &row.print),
        None => Ok(()),
    }
}
