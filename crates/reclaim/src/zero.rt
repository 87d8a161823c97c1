// The row of a zero check goes, if its counts are still 0.
ghost use Rattle.std.specs.Prelude.{◌≡◌, ◌≤◌, ◌<◌, ℕ, false, Some, None, IsSome, IfSome, IfNone};
ghost use Rattle.pm_layout.specs.Geometry.{slots};
ghost use Rattle.dn_model.specs.Disk.{Disk};
ghost use Rattle.fact_table.specs.Table.{HasTable};
ghost use Rattle.dn_volume.specs.Agrees.{Agrees, IsVolume};
ghost use Rattle.dn_volume.specs.Works.{ReleaseWorks};
ghost use Rattle.reclaim.specs.Worked.{Checks};
ghost use Rattle.reclaim.specs.Zero.{IsZeroRow, IsCountedRow};

use count_events::release::{left_to_reclaim, stop};
use dn_volume::units::ZERO_CHECK_UNITS;
use dn_volume::{Outcome, Parts, RECLAIM, Volume};
use fact_changes::remove_zero;
use fact_table::Fact;
use fingerprint::Fingerprint;
use pm_device::Pm;

// The page of the row at a slot, if its counts are 0.
fn zero_page<D: Pm>(fact: &Fact, device: &D, slot: u64) -> Option<u64>
    requires table { HasTable (D.state device.now).now fact.now }
    requires slot { slot < slots fact.now.geometry }
    ensures zero { IfSome result (IsZeroRow (D.state device.now).now fact.now slot) }
    ensures counted { IfNone result (IsCountedRow (D.state device.now).now fact.now slot) }
{
    let row = fact.row_at(device, slot)?;
    if row.count.rfc == 0 && row.count.uc == 0 {
        Some(row.page)
    } else {
        None
    }
}

// The zero check is made.
fn note_checked(parts: &mut Parts)
    requires waiting { 1 ≤ parts.old.reclaiming.waiting }
    requires units { ZERO_CHECK_UNITS ≤ parts.old.owed.units }
    ensures checks { Checks parts.old parts.new }
    ensures free { parts.new.free ≡ parts.old.free }
    ensures fact { parts.new.fact ≡ parts.old.fact }
{
    parts.reclaiming.zero_check = None;
    parts.reclaiming.waiting -= 1;
    parts.owed.units -= ZERO_CHECK_UNITS;
    parts.made = parts.made.saturating_add(1);
}

// The row that is looked at goes, and its page is free.
fn remove_row<D: Pm, F: Fingerprint>(v: &mut Volume<D, F>, slot: u64, page: u64) -> Outcome
    requires agrees { Agrees D.state v.old }
    requires running { v.old.parts.stopped ≡ false }
    requires pending { v.old.parts.reclaiming.zero_check ≡ Some slot }
    requires zero { IsZeroRow (D.state v.old.device).now v.old.parts.fact slot page }
    ensures agrees { Agrees D.state v.new }
    ensures event { (d : Disk) → IsVolume d v.old.parts (D.state v.old.device)
        → ReleaseWorks D.state F.print v.old v.new d result }
{
    match remove_zero(&mut v.parts.fact, &mut v.device, RECLAIM, slot) {
        Ok(()) => {
            v.parts.free.give_back(page);
            note_checked(&mut v.parts);
            Outcome::Running {
                left: left_to_reclaim(&v.parts),
            }
        }
        Err(_) => {
            stop(&mut v.parts);
            Outcome::Stopped
        }
    }
}

/// The row of the pending zero check is taken out of the table if its counts are still 0, and its page is free then.
/// Where the daemon has raised it since, it stays. It takes no memory. `Stopped` where a fence of the device failed.
pub fn check_zero<D: Pm, F: Fingerprint>(v: &mut Volume<D, F>) -> Outcome
    requires agrees { Agrees D.state v.old }
    requires running { v.old.parts.stopped ≡ false }
    requires pending { IsSome v.old.parts.reclaiming.zero_check }
    ensures agrees { Agrees D.state v.new }
    ensures event { (d : Disk) → IsVolume d v.old.parts (D.state v.old.device)
        → ReleaseWorks D.state F.print v.old v.new d result }
{
    let Some(slot) = v.parts.reclaiming.zero_check else {
        unreachable!();
    };
    match zero_page(&v.parts.fact, &v.device, slot) {
        Some(page) => remove_row(v, slot, page),
        None => {
            note_checked(&mut v.parts);
            Outcome::Running {
                left: left_to_reclaim(&v.parts),
            }
        }
    }
}
