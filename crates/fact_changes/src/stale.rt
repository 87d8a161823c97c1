// Pointers that lead to no row of their page are cleared.
ghost use Rattle.std.specs.Prelude.{◌≡◌, ◌+◌, ◌*◌, ◌<◌, ◌≤◌, ◌↔◌, IsTrue, OnOk, IsErr};
ghost use Rattle.pm_device.specs.State.{Rose};
ghost use Rattle.pm_device.specs.Settled.{FlushesAll};
ghost use Rattle.dn_model.specs.Disk.{Disk};
ghost use Rattle.fact_table.specs.Table.{HasTable, IsTable};
ghost use Rattle.fact_changes.specs.Stale.{IsStale, MakesPage, LeavesPage, StoresPage, KeepsPage, MakesTidy, LeavesCleared, ClearsOnly, KeepsCleared};

use delete_pointer::{POINTER_UNITS, entry_of, store_pointer};
use fact_table::Fact;
use pm_device::{Failed, Pm};

/// The units of the device that `clear_stale` uses for each page.
pub const STALE_UNITS: u64 = POINTER_UNITS;

// Whether a page's pointer leads to a slot, but to no row of the page.
fn is_stale<D: Pm>(fact: &Fact, device: &D, page: u64) -> bool
    requires table { HasTable (D.state device.now).now fact.now }
    requires page { page < fact.now.geometry.pages }
    ensures stale { (d : Disk) → IsTable d (D.state device.now).now fact.now
        → (IsTrue result ↔ IsStale d page) }
{
    entry_of(device, &fact.geometry(), page).is_some() && fact.by_page(device, page).is_none()
}

// Clears a page's pointer if it is stale.
fn clear_page<D: Pm>(fact: &Fact, device: &mut D, who: u32, page: u64) -> Result<(), Failed>
    requires table { HasTable (D.state device.old).now fact.now }
    requires page { page < fact.now.geometry.pages }
    requires room { STALE_UNITS ≤ (D.state device.old).spare }
    ensures images { LeavesPage fact.now page (D.state device.old) (D.state device.new) }
    ensures done { OnOk result (MakesPage fact.now page (D.state device.old) (D.state device.new)) }
    ensures flushes { OnOk result (FlushesAll who (D.state device.old) (D.state device.new)) }
    ensures only { StoresPage fact.now page (D.state device.old) (D.state device.new) }
    ensures others { KeepsPage who fact.now page (D.state device.old) (D.state device.new) }
    ensures spare { (D.state device.old).spare ≤ (D.state device.new).spare + STALE_UNITS }
    ensures faults { (D.state device.old).faults ≤ (D.state device.new).faults }
    ensures failed { IsErr result → Rose (D.state device.old).faults (D.state device.new).faults }
{
    if is_stale(fact, device, page) {
        return store_pointer(device, &fact.geometry(), who, page, 0);
    }
    Ok(())
}

/// Clears every stale pointer: one that leads to a slot without a row, or to a row of another page. A pointer that
/// leads to the row of its page stays. Each that is cleared is fenced, and so is all that this actor had flushed before;
/// but where no pointer is stale nothing is stored or fenced.
///
/// Where the table is settled before, at each moment a crash leaves the rows of before, and some of the stale pointers
/// cleared.
///
/// # Errors
/// `Failed` where a fence failed. Some of the stale pointers are cleared.
pub fn clear_stale<D: Pm>(fact: &Fact, device: &mut D, who: u32) -> Result<(), Failed>
    requires table { HasTable (D.state device.old).now fact.now }
    requires room { STALE_UNITS * fact.now.geometry.pages ≤ (D.state device.old).spare }
    ensures images { LeavesCleared fact.now (D.state device.old) (D.state device.new) }
    ensures done { OnOk result (MakesTidy fact.now (D.state device.old) (D.state device.new)) }
    ensures flushes { OnOk result (FlushesAll who (D.state device.old) (D.state device.new)) }
    ensures only { ClearsOnly fact.now (D.state device.old) (D.state device.new) }
    ensures others { KeepsCleared who fact.now (D.state device.old) (D.state device.new) }
    ensures spare { (D.state device.old).spare ≤ (D.state device.new).spare + STALE_UNITS
        * fact.now.geometry.pages }
    ensures faults { (D.state device.old).faults ≤ (D.state device.new).faults }
    ensures failed { IsErr result → Rose (D.state device.old).faults (D.state device.new).faults }
{
    for page in 0..fact.geometry().pages {
        clear_page(fact, device, who, page)?;
    }
    Ok(())
}
