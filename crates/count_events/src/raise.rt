// An operation in flight raises the next of its rows.
ghost use Rattle.std.specs.Prelude.{◌≡◌, ℕ, ◌+◌, ◌-◌, ◌<◌, ◌≤◌, false, length, Some, OnOk, IfOk, IsErr, slice_index, vec_len, vec_capacity};
ghost use Rattle.pm_device.specs.State.{Rose};
ghost use Rattle.pm_device.specs.Settled.{StoresOnly, KeepsFlushed, Others, SettlesAll};
ghost use Rattle.pm_layout.specs.Geometry.{slot_word};
ghost use Rattle.dn_model.specs.Disk.{Disk};
ghost use Rattle.fact_counts.specs.Standing.{HasRowWith};
ghost use Rattle.fact_counts.specs.Counted.{raised, MayRaise, SettlesTable, LeavesTables};
ghost use Rattle.dn_volume.specs.declared.flight.Flight.{Flight as KeptFlight};
ghost use Rattle.dn_volume.specs.Parties.{Flies};
ghost use Rattle.dn_volume.specs.Flights.{left_of};
ghost use Rattle.dn_volume.specs.Agrees.{Agrees, IsVolume};
ghost use Rattle.dn_volume.specs.Events.{Advances};
ghost use Rattle.count_events.specs.Released.{IsWordAfter};
ghost use Rattle.count_events.specs.Raised.{IsToRaise, RaisesOne};

use crate::release::stop;
use dn_volume::{CountChange, Flight, Outcome, Parts, Volume};
use fact_counts::raise;
use fact_table::Fact;
use fingerprint::Fingerprint;
use pm_device::{Failed, Pm};

/// Raises the update count of the row at a slot by one: one store, a flush and a fence. It answers the row's count word
/// of after. `Failed` where the fence failed.
pub fn raise_at<D: Pm>(fact: &Fact, device: &mut D, who: u32, slot: u64) -> Result<u64, Failed>
    requires row { HasRowWith (D.state device.old).now fact.now slot MayRaise }
    requires room { 3 ≤ (D.state device.old).spare }
    ensures images { LeavesTables raised fact.now slot (D.state device.old) (D.state device.new) }
    ensures settled { OnOk result (SettlesTable raised fact.now slot (D.state device.old)
        (D.state device.new)) }
    ensures settles { OnOk result (SettlesAll who (D.state device.old) (D.state device.new)) }
    ensures word { IfOk result (λ word. IsWordAfter raised (D.state device.old).now fact.now slot
        word) }
    ensures only { StoresOnly (λ a. a ≡ slot_word fact.now.geometry slot 4) (D.state device.old)
        (D.state device.new) }
    ensures others { KeepsFlushed (Others who) (λ a. a ≡ slot_word fact.now.geometry slot 4)
        (D.state device.old) (D.state device.new) }
    ensures spare { (D.state device.old).spare ≤ (D.state device.new).spare + 3 }
    ensures faults { (D.state device.old).faults ≤ (D.state device.new).faults }
    ensures failed { IsErr result → Rose (D.state device.old).faults (D.state device.new).faults }
{
    let Some(row) = fact.row_at(device, slot) else {
        unreachable!();
    };
    let word = row.count.raised().word();
    match raise(fact, device, who, slot) {
        Ok(()) => Ok(word),
        Err(failed) => Err(failed),
    }
}

// The slot of the row that an operation raises next.
fn row_to_raise(parts: &Parts, who: u32) -> u64
    requires { IsToRaise parts.now who }
    ensures { (f : KeptFlight) → Flies parts.now who f → result ≡ slice_index f.rows.items f.raised }
{
    match &parts.flights[who as usize - 1] {
        Some(f) => f.rows[f.raised as usize],
        None => unreachable!(),
    }
}

// One row more of an operation is raised.
fn count_raise(flight: &mut Option<Flight>)
    requires { (f : KeptFlight) × ((flight.old ≡ Some f) × (f.raised < length f.rows.items)) }
    ensures { (f : KeptFlight) → flight.old ≡ Some f
        → flight.new ≡ Some (record f { raised = f.raised + 1 }) }
{
    if let Some(f) = flight {
        f.raised += 1;
    }
}

// An operation has raised the row at this slot, which has this word. So many events are left of it.
fn note_raise(parts: &mut Parts, who: u32, slot: u64, word: u64)
    requires raises { IsToRaise parts.old who }
    requires trace { vec_len parts.old.trace < vec_capacity parts.old.trace }
    requires units { 3 ≤ parts.old.owed.units }
    requires changes { 1 ≤ parts.old.owed.trace }
    ensures { RaisesOne who slot word parts.old parts.new }
{
    count_raise(&mut parts.flights[who as usize - 1]);
    parts.trace.push_reserved(CountChange { slot, word });
    parts.made = parts.made.saturating_add(1);
    parts.owed.units -= 3;
    parts.owed.trace -= 1;
}

// How many events are left of an operation whose pages are filled.
fn left_to_raise(parts: &Parts, who: u32) -> u64
    requires { (f : KeptFlight) × (Flies parts.now who f × (f.raised ≤ length f.rows.items)) }
    ensures { (f : KeptFlight) → Flies parts.now who f → result ≡ (length f.rows.items - f.raised) +
        1 }
{
    match &parts.flights[who as usize - 1] {
        Some(f) => f.rows.len() as u64 - f.raised + 1,
        None => unreachable!(),
    }
}

/// An operation of a client, whose pages are filled, raises the next of its rows.
pub fn raise_row<D: Pm, F: Fingerprint>(v: &mut Volume<D, F>, who: u32) -> Outcome
    requires agrees { Agrees D.state v.old }
    requires running { v.old.parts.stopped ≡ false }
    requires raises { IsToRaise v.old.parts who }
    ensures agrees { Agrees D.state v.new }
    ensures event { (d : Disk) (f : KeptFlight) → IsVolume d v.old.parts (D.state v.old.device)
        → Flies v.old.parts who f → Advances D.state F.print who f.op (left_of f) v.old v.new d
        result }
{
    let slot = row_to_raise(&v.parts, who);
    match raise_at(&v.parts.fact, &mut v.device, who, slot) {
        Ok(word) => {
            note_raise(&mut v.parts, who, slot, word);
            Outcome::Running {
                left: left_to_raise(&v.parts, who),
            }
        }
        Err(_) => {
            stop(&mut v.parts);
            Outcome::Stopped
        }
    }
}
