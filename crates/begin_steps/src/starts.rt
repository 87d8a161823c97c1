// An operation that has its pages comes in flight.
ghost use Rattle.std.specs.Prelude.{◌≡◌, ◌≢◌, ℕ, ◌+◌, ◌-◌, ◌<◌, ◌≤◌, length, All, Some};
ghost use Rattle.dn_volume.specs.Parties.{flight_at};
ghost use Rattle.dn_volume.specs.Flights.{left_of as events_left};
ghost use Rattle.dn_volume.specs.Begins.{IsFreshChange};
ghost use Rattle.dn_volume.specs.Kept.{OfInodes};
ghost use Rattle.dn_volume.specs.Reserve.{owed_to};
ghost use Rattle.begin_steps.specs.Room.{add_room, FitsRoom};
ghost use Rattle.begin_steps.specs.Starting.{IsHeldNow, TakesHold, IsFew, Starts};

use dn_volume::units::{FILL_UNITS, NAMES_UNITS, RAISE_UNITS, SLOT_UNITS, TAIL_UNITS, TURN_UNITS};
use dn_volume::{Change, Flight, InodeState, Parts, Room};

// The units of the device that an operation is owed, of which nothing was done.
fn units_of(flight: &Flight) -> u64
    requires fresh { IsFreshChange flight.now.change }
    requires unraised { flight.now.raised ≡ 0 }
    requires few { IsFew flight.now }
    ensures { result ≡ (owed_to (Some flight.now)).units }
{
    let slots = SLOT_UNITS * (flight.slots.len() as u64 + flight.fresh.len() as u64);
    match &flight.change {
        Change::Data(change) => {
            FILL_UNITS * change.blocks.len() as u64
                + RAISE_UNITS * flight.rows.len() as u64
                + slots
                + TAIL_UNITS
        }
        Change::Names(_) => slots + TURN_UNITS + NAMES_UNITS,
    }
}

// How many items of an operation are queued once it is committed.
fn runs_of(flight: &Flight) -> u64
    ensures { result ≡ (owed_to (Some flight.now)).queue }
{
    match &flight.change {
        Change::Data(change) => change.runs.len() as u64,
        Change::Names(_) => 0,
    }
}

/// The room that an operation is owed, of which nothing was done.
pub fn room_of(flight: &Flight) -> Room
    requires fresh { IsFreshChange flight.now.change }
    requires unraised { flight.now.raised ≡ 0 }
    requires few { IsFew flight.now }
    ensures { result ≡ owed_to (Some flight.now) }
{
    Room {
        units: units_of(flight),
        trace: flight.rows.len() as u64,
        history: 1,
        queue: runs_of(flight),
        releases: flight.rows.len() as u64,
    }
}

/// How many events are left of an operation, of which nothing was done.
pub fn left_of(flight: &Flight) -> u64
    requires fresh { IsFreshChange flight.now.change }
    requires unraised { flight.now.raised ≡ 0 }
    requires few { IsFew flight.now }
    ensures { result ≡ events_left flight.now }
{
    match &flight.change {
        Change::Data(change) => change.blocks.len() as u64 + flight.rows.len() as u64 + 1,
        Change::Names(_) => 2,
    }
}

// This actor holds an inode.
fn hold(node: &mut InodeState, who: u32)
    ensures { IsHeldNow who node.old node.new }
{
    node.holder = Some(who);
}

// This actor holds these inodes.
fn hold_all(inodes: &mut Vec<InodeState>, held: &[u64], who: u32)
    requires { All (λ ino. ino < length inodes.old.items) held.now }
    ensures { OfInodes (TakesHold who held.now) inodes.old.items inodes.new.items }
{
    for i in 0..held.len() {
        let ino = held[i];
        hold(&mut inodes[ino as usize], who);
    }
}

// More is owed.
fn owe(owed: &mut Room, more: &Room)
    requires { FitsRoom (add_room owed.old more.now) }
    ensures { owed.new ≡ add_room owed.old more.now }
{
    owed.units += more.units;
    owed.trace += more.trace;
    owed.history += more.history;
    owed.queue += more.queue;
    owed.releases += more.releases;
}

// A client that has none has this operation in flight.
fn put_flight(flights: &mut Vec<Option<Flight>>, who: u32, flight: Flight)
    requires client { 1 ≤ who }
    requires there { who - 1 < length flights.old.items }
    ensures here { flight_at flights.new.items (who - 1) ≡ Some flight }
    ensures others { (k : ℕ) → k ≢ who - 1 → flight_at flights.new.items k ≡ flight_at
        flights.old.items k }
    ensures clients { length flights.new.items ≡ length flights.old.items }
{
    flights[who as usize - 1] = Some(flight);
}

/// An operation that has its pages, and for which there is room, is in flight: it holds its inodes, and it is owed what
/// it needs until it is answered.
pub fn start(parts: &mut Parts, who: u32, flight: Flight)
    requires client { 1 ≤ who }
    requires there { who - 1 < length parts.old.flights.items }
    requires held { All (λ ino. ino < length parts.old.inodes.items) flight.held.items }
    requires fresh { IsFreshChange flight.change }
    requires unraised { flight.raised ≡ 0 }
    requires few { IsFew flight }
    requires fits { FitsRoom (add_room parts.old.owed (owed_to (Some flight))) }
    ensures { Starts who flight parts.old parts.new }
{
    let room = room_of(&flight);
    owe(&mut parts.owed, &room);
    hold_all(&mut parts.inodes, &flight.held, who);
    parts.made = parts.made.saturating_add(1);
    put_flight(&mut parts.flights, who, flight);
}
