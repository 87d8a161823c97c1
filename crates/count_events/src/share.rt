// The daemon settles the row whose mapping it has added.
ghost use Rattle.std.specs.Prelude.{◌≡◌, ℕ, ◌+◌, ◌^◌, ◌<◌, ◌≤◌, false, Some, OnOk, IfOk, IsErr, vec_len, vec_capacity};
ghost use Rattle.pm_device.specs.State.{Rose};
ghost use Rattle.pm_device.specs.Settled.{StoresOnly, KeepsFlushed, Others, SettlesAll};
ghost use Rattle.pm_layout.specs.Geometry.{slot_word};
ghost use Rattle.dn_model.specs.Disk.{Disk};
ghost use Rattle.fact_counts.specs.Standing.{HasRowWith};
ghost use Rattle.fact_counts.specs.Counted.{up, MaySettleUp, SettlesTable, LeavesTables};
ghost use Rattle.dn_volume.specs.declared.background.Sharing.{Sharing as KeptSharing};
ghost use Rattle.dn_volume.specs.declared.background.SharingStep.TheVariants.{Look};
ghost use Rattle.dn_volume.specs.Agrees.{Agrees, IsVolume};
ghost use Rattle.dn_volume.specs.Works.{DaemonWorks, sharing_events};
ghost use Rattle.count_events.specs.Released.{IsWordAfter};
ghost use Rattle.count_events.specs.Shared.{IsAtSettle, SettlesShare};

use crate::release::stop;
use dn_volume::{CountChange, DAEMON, Outcome, Parts, Sharing, SharingStep, Volume};
use fact_counts::settle_up;
use fact_table::Fact;
use fingerprint::Fingerprint;
use pm_device::{Failed, Pm};

// The row at a slot is settled up: the word that its counts have then.
fn settle_row_up<D: Pm>(fact: &Fact, device: &mut D, slot: u64) -> Result<u64, Failed>
    requires row { HasRowWith (D.state device.old).now fact.now slot MaySettleUp }
    requires room { 3 ≤ (D.state device.old).spare }
    ensures images { LeavesTables up fact.now slot (D.state device.old) (D.state device.new) }
    ensures settled { OnOk result (SettlesTable up fact.now slot (D.state device.old)
        (D.state device.new)) }
    ensures settles { OnOk result (SettlesAll 15 (D.state device.old) (D.state device.new)) }
    ensures word { IfOk result (λ word. IsWordAfter up (D.state device.old).now fact.now slot word) }
    ensures only { StoresOnly (λ a. a ≡ slot_word fact.now.geometry slot 4) (D.state device.old)
        (D.state device.new) }
    ensures others { KeepsFlushed (Others 15) (λ a. a ≡ slot_word fact.now.geometry slot 4)
        (D.state device.old) (D.state device.new) }
    ensures spare { (D.state device.old).spare ≤ (D.state device.new).spare + 3 }
    ensures faults { (D.state device.old).faults ≤ (D.state device.new).faults }
    ensures failed { IsErr result → Rose (D.state device.old).faults (D.state device.new).faults }
{
    let Some(row) = fact.row_at(device, slot) else {
        unreachable!();
    };
    let word = row.count.up().word();
    match settle_up(fact, device, DAEMON, slot) {
        Ok(()) => Ok(word),
        Err(failed) => Err(failed),
    }
}

// The slot of the row to be settled.
fn slot_to_settle(parts: &Parts) -> u64
    requires { (slot : ℕ) × IsAtSettle parts.now slot }
    ensures { IsAtSettle parts.now result }
{
    match parts.sharing {
        Some(
            Sharing {
                step: SharingStep::Settle { slot, .. },
                ..
            },
        ) => slot,
        _ => unreachable!(),
    }
}

// The place after this one is next.
fn next_place(sharing: Sharing) -> Sharing
    requires { sharing.done < sharing.count }
    ensures { result ≡ record sharing { done = sharing.done + 1; step = Look } }
{
    Sharing {
        work: sharing.work,
        first: sharing.first,
        count: sharing.count,
        done: sharing.done + 1,
        step: SharingStep::Look,
    }
}

// The row at this slot is settled, and has this word.
fn note_share(parts: &mut Parts, slot: u64, word: u64)
    requires settle { IsAtSettle parts.old slot }
    requires some { (sharing : KeptSharing) → parts.old.sharing ≡ Some sharing
        → sharing.done < sharing.count }
    requires trace { vec_len parts.old.trace < vec_capacity parts.old.trace }
    requires units { 3 ≤ parts.old.owed.units }
    requires changes { 1 ≤ parts.old.owed.trace }
    ensures { SettlesShare slot word parts.old parts.new }
{
    if let Some(sharing) = parts.sharing {
        parts.sharing = Some(next_place(sharing));
    }
    parts.trace.push_reserved(CountChange { slot, word });
    parts.made = parts.made.saturating_add(1);
    parts.owed.units -= 3;
    parts.owed.trace -= 1;
}

// How many events are left of the daemon's item, at a place that is looked up next.
fn events_left(parts: &Parts) -> u64
    requires { (sharing : KeptSharing) ×
        ((parts.now.sharing ≡ Some sharing) × ((sharing.step ≡ Look) × (sharing.count < 2 ^ 32))) }
    ensures { result ≡ sharing_events parts.now.sharing }
{
    match parts.sharing {
        Some(sharing) => {
            if sharing.done < sharing.count {
                3 * (sharing.count - sharing.done - 1) + 3 + 1
            } else {
                1
            }
        }
        None => unreachable!(),
    }
}

/// The daemon settles the row whose mapping it has added, and the place after that is next.
pub fn settle_share<D: Pm, F: Fingerprint>(v: &mut Volume<D, F>) -> Outcome
    requires agrees { Agrees D.state v.old }
    requires running { v.old.parts.stopped ≡ false }
    requires settle { (slot : ℕ) × IsAtSettle v.old.parts slot }
    requires few { (sharing : KeptSharing) → v.old.parts.sharing ≡ Some sharing
        → sharing.count < 2 ^ 32 }
    ensures agrees { Agrees D.state v.new }
    ensures event { (d : Disk) → IsVolume d v.old.parts (D.state v.old.device)
        → DaemonWorks D.state F.print v.old v.new d result }
{
    let slot = slot_to_settle(&v.parts);
    match settle_row_up(&v.parts.fact, &mut v.device, slot) {
        Ok(word) => {
            note_share(&mut v.parts, slot, word);
            Outcome::Running {
                left: events_left(&v.parts),
            }
        }
        Err(_) => {
            stop(&mut v.parts);
            Outcome::Stopped
        }
    }
}
