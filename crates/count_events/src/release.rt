// A waiting release is settled.
ghost use Rattle.std.specs.Prelude.{◌≡◌, ℕ, ◌+◌, ◌^◌, ◌<◌, ◌≤◌, false, None, OnOk, IfOk, IsErr, vec_len, vec_capacity, slice_index_or};
ghost use Rattle.std.specs.VecDeque.{deque_len};
ghost use Rattle.pm_device.specs.State.{Rose};
ghost use Rattle.pm_device.specs.Settled.{StoresOnly, KeepsFlushed, Others, SettlesAll};
ghost use Rattle.pm_layout.specs.Geometry.{slot_word};
ghost use Rattle.dn_model.specs.Disk.{Disk};
ghost use Rattle.fact_counts.specs.Standing.{HasRowWith};
ghost use Rattle.fact_counts.specs.Counted.{down, MaySettleDown, SettlesTable, LeavesTables};
ghost use Rattle.dn_volume.specs.Agrees.{Agrees, IsVolume};
ghost use Rattle.dn_volume.specs.Works.{ReleaseWorks, cleaning_events};
ghost use Rattle.count_events.specs.Released.{SettlesRelease, Stops, IsWordAfter};

use dn_volume::units::ZERO_CHECK_UNITS;
use dn_volume::{CountChange, Outcome, Parts, RECLAIM, Volume};
use fact_counts::counts::COUNT_UNITS;
use fact_counts::settle_down;
use fact_table::Fact;
use fingerprint::Fingerprint;
use pm_device::{Failed, Pm};

/// The units of the device that a release takes, with those that a zero check is owed then.
pub const RELEASE_UNITS: u64 = COUNT_UNITS + ZERO_CHECK_UNITS;

// The row at a slot is settled down: the word that its counts have then.
fn settle_row<D: Pm>(fact: &Fact, device: &mut D, slot: u64) -> Result<u64, Failed>
    requires row { HasRowWith (D.state device.old).now fact.now slot MaySettleDown }
    requires room { 3 ≤ (D.state device.old).spare }
    ensures images { LeavesTables down fact.now slot (D.state device.old) (D.state device.new) }
    ensures settled { OnOk result (SettlesTable down fact.now slot (D.state device.old)
        (D.state device.new)) }
    ensures settles { OnOk result (SettlesAll 16 (D.state device.old) (D.state device.new)) }
    ensures word { IfOk result (λ word. IsWordAfter down (D.state device.old).now fact.now slot
        word) }
    ensures only { StoresOnly (λ a. a ≡ slot_word fact.now.geometry slot 4) (D.state device.old)
        (D.state device.new) }
    ensures others { KeepsFlushed (Others 16) (λ a. a ≡ slot_word fact.now.geometry slot 4)
        (D.state device.old) (D.state device.new) }
    ensures spare { (D.state device.old).spare ≤ (D.state device.new).spare + 3 }
    ensures faults { (D.state device.old).faults ≤ (D.state device.new).faults }
    ensures failed { IsErr result → Rose (D.state device.old).faults (D.state device.new).faults }
{
    let Some(row) = fact.row_at(device, slot) else {
        unreachable!();
    };
    let word = row.count.down().word();
    match settle_down(fact, device, RECLAIM, slot) {
        Ok(()) => Ok(word),
        Err(failed) => Err(failed),
    }
}

// The first release is settled, and its row has this word.
fn note_release(parts: &mut Parts, slot: u64, word: u64)
    requires some { 0 < deque_len parts.old.reclaiming.releases }
    requires front { slot ≡ slice_index_or parts.old.reclaiming.releases.items 0 slot }
    requires waiting { 2 ≤ parts.old.reclaiming.waiting }
    requires trace { vec_len parts.old.trace < vec_capacity parts.old.trace }
    requires owed { parts.old.owed.units + ZERO_CHECK_UNITS < 2 ^ 64 }
    ensures { SettlesRelease slot word parts.old parts.new }
{
    parts.reclaiming.releases.pop_front();
    parts.trace.push_reserved(CountChange { slot, word });
    parts.made = parts.made.saturating_add(1);
    if word == 0 {
        parts.reclaiming.zero_check = Some(slot);
        parts.reclaiming.waiting -= 1;
        parts.owed.units += ZERO_CHECK_UNITS;
    } else {
        parts.reclaiming.waiting -= 2;
    }
}

/// Notes that a fence failed: the volume is stopped, and one call more was made.
pub fn stop(parts: &mut Parts)
    ensures { Stops parts.old parts.new }
{
    parts.made = parts.made.saturating_add(1);
    parts.stopped = true;
}

/// How many events reclaim has left: the units that wait, and where a cleaning is begun, its pages that aren't written and
/// its end.
pub fn left_to_reclaim(parts: &Parts) -> u64
    requires { parts.now.reclaiming.waiting + cleaning_events parts.now.reclaiming.cleaning
        < 2 ^ 64 }
    ensures { result ≡ parts.now.reclaiming.waiting
        + cleaning_events parts.now.reclaiming.cleaning }
{
    match &parts.reclaiming.cleaning {
        Some(cleaning) => {
            let pages = (cleaning.pages.len() as u64).saturating_sub(cleaning.written);
            parts.reclaiming.waiting + (pages + 1)
        }
        None => parts.reclaiming.waiting,
    }
}

/// The first of the waiting releases is settled: its row has one update less under way, and one reference less. Where
/// the row's counts are 0 then, it is to be looked at.
pub fn settle_release<D: Pm, F: Fingerprint>(v: &mut Volume<D, F>) -> Outcome
    requires agrees { Agrees D.state v.old }
    requires running { v.old.parts.stopped ≡ false }
    requires unchecked { v.old.parts.reclaiming.zero_check ≡ None }
    requires unraised { v.old.parts.reclaiming.raised ≡ None }
    requires some { 0 < deque_len v.old.parts.reclaiming.releases }
    requires owed { v.old.parts.owed.units + RELEASE_UNITS < 2 ^ 64 }
    requires units { v.old.parts.owed.units + RELEASE_UNITS ≤ (D.state v.old.device).spare }
    requires trace { vec_len v.old.parts.trace + v.old.parts.owed.trace + 1 ≤ vec_capacity
        v.old.parts.trace }
    ensures agrees { Agrees D.state v.new }
    ensures event { (d : Disk) → IsVolume d v.old.parts (D.state v.old.device)
        → ReleaseWorks D.state F.print v.old v.new d result }
{
    let slot = v.parts.reclaiming.releases[0];
    match settle_row(&v.parts.fact, &mut v.device, slot) {
        Ok(word) => {
            note_release(&mut v.parts, slot, word);
            Outcome::Running {
                left: left_to_reclaim(&v.parts),
            }
        }
        Err(_) => {
            stop(&mut v.parts);
            Outcome::Stopped
        }
    }
}
