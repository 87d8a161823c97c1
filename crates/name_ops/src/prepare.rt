// The first event of an operation on names in flight.
ghost use Rattle.std.specs.Prelude.{◌≡◌, ◌+◌, ◌*◌, ◌<◌, ◌≤◌, ℕ, false, length, Some};
ghost use Rattle.pm_device.specs.Settled.{FlushesAll};
ghost use Rattle.pm_device.specs.Lines.{StoresRun};
ghost use Rattle.pm_layout.specs.Geometry.{IsAccepted, inode_word};
ghost use Rattle.law_names.specs.NameChange.{turn_field};
ghost use Rattle.dn_model.specs.Disk.{Disk};
ghost use Rattle.dn_volume.specs.declared.flight.Flight.{Flight as KeptFlight};
ghost use Rattle.dn_volume.specs.declared.flight.NameChange.{NameChange as KeptChange};
ghost use Rattle.dn_volume.specs.Parties.{Flies};
ghost use Rattle.dn_volume.specs.Flights.{IsNameFlight, as_turn, left_of};
ghost use Rattle.dn_volume.specs.Agrees.{Agrees, IsVolume};
ghost use Rattle.dn_volume.specs.Events.{Advances};
ghost use Rattle.name_ops.specs.Preparing.{kept_words, prepared_change, with_change, prepare_units, StoresFlight, IsToPrepare, IsNextToPrepare, NotesPrepared};
ghost use Rattle.dn_volume.specs.declared.flight.Change.TheVariants.{Names};

use dn_volume::units::{SLOT_UNITS, TURN_UNITS};
use dn_volume::{Change, Flight, Outcome, Parts, Turn, Volume};
use fingerprint::Fingerprint;
use inode_log::prepare::prepare;
use inode_table::{CUT, clear_inode, store_field};
use pm_device::Pm;
use pm_layout::{Geometry, PAGE_BYTES};

// Stores what has to stand in an inode before it turns, and flushes it: head, tail and cut of one that comes to life are
// 0, and one that is dying has the pages of its size as its cut.
fn store_turn<D: Pm>(device: &mut D, g: &Geometry, who: u32, node: u64, turn: Turn, size: u64)
    requires accepted { IsAccepted g.now }
    requires long { length (D.state device.old).now ≡ 512 * g.now.pages }
    requires node { node < g.now.inodes }
    requires room { TURN_UNITS ≤ (D.state device.old).spare }
    ensures stores { StoresRun who (inode_word node (turn_field (as_turn turn)))
        (kept_words turn size) (D.state device.old) (D.state device.new) }
    ensures flushes { FlushesAll who (D.state device.old) (D.state device.new) }
    ensures spare { (D.state device.old).spare ≤ (D.state device.new).spare + TURN_UNITS }
    ensures faults { (D.state device.old).faults ≤ (D.state device.new).faults }
{
    match turn {
        Turn::Stays => {}
        Turn::Comes => clear_inode(device, g, who, node),
        Turn::Goes => store_field(device, g, who, node, CUT, size.div_ceil(PAGE_BYTES)),
    }
}

// Stores the slots of an operation past the root's tail, and the words of the inode that turns, and flushes them. It
// answers the tail that will commit the slots.
fn store_flight<D: Pm>(device: &mut D, parts: &Parts, who: u32) -> u64
    requires stands { (d : Disk) × IsVolume d parts.now (D.state device.old) }
    requires next { IsNextToPrepare parts.now who }
    ensures { (d : Disk) (f : KeptFlight) (c : KeptChange)
        (flight : IsNameFlight d who f c (D.state device.old))
        → IsVolume d parts.now (D.state device.old) → IsToPrepare parts.now who f c
        → StoresFlight d who f flight.change result (D.state device.old) (D.state device.new) }
{
    let Some(flight) = &parts.flights[who as usize - 1] else {
        unreachable!()
    };
    let Change::Names(change) = &flight.change else {
        unreachable!()
    };
    let g = parts.geometry;
    let tail = prepare(device, &g, who, flight.ino, &flight.slots, &flight.fresh);
    let size = parts.inodes[change.node as usize].size;
    store_turn(device, &g, who, change.node, change.turn, size);
    tail
}

// The operation is prepared, and its tail will be this one. It answers the units that it was owed for that.
fn prepare_flight(flight: &mut Option<Flight>, tail: u64) -> u64
    requires names { (f : KeptFlight) × (c : KeptChange) × (flight.old ≡ Some f)
        × (f.change ≡ Names c) × (prepare_units f < 1024) }
    ensures { (f : KeptFlight) (c : KeptChange) → flight.old ≡ Some f → f.change ≡ Names c
        → (flight.new ≡ Some (with_change f (Names (prepared_change c tail))))
        × (result ≡ prepare_units f) }
{
    let Some(f) = flight else { unreachable!() };
    let Change::Names(change) = &mut f.change else {
        unreachable!()
    };
    change.prepared = true;
    change.tail = tail;
    SLOT_UNITS * (f.slots.len() as u64 + f.fresh.len() as u64) + TURN_UNITS
}

// An operation is prepared, and one event is left of it.
fn note_prepared(parts: &mut Parts, who: u32, tail: u64)
    requires next { IsNextToPrepare parts.old who }
    requires units { (f : KeptFlight) → Flies parts.old who f
        → prepare_units f ≤ parts.old.owed.units }
    requires few { (f : KeptFlight) → Flies parts.old who f → prepare_units f < 1024 }
    requires clients { length parts.old.flights.items ≡ 14 }
    requires running { parts.old.stopped ≡ false }
    ensures { (f : KeptFlight) (c : KeptChange) → IsToPrepare parts.old who f c
        → NotesPrepared who f c tail parts.old parts.new }
{
    parts.made = parts.made.saturating_add(1);
    let units = prepare_flight(&mut parts.flights[who as usize - 1], tail);
    parts.owed.units -= units;
}

/// The first event of an operation on names in flight: the slots of its items are stored past the root's tail, with what
/// has to stand in the inode that comes to life or is dying. They are flushed, and the fence of the commit settles them.
pub fn prepare_names<D: Pm, F: Fingerprint>(v: &mut Volume<D, F>, who: u32) -> Outcome
    requires agrees { Agrees D.state v.old }
    requires running { v.old.parts.stopped ≡ false }
    requires next { IsNextToPrepare v.old.parts who }
    ensures agrees { Agrees D.state v.new }
    ensures event { (d : Disk) (f : KeptFlight) → IsVolume d v.old.parts (D.state v.old.device)
        → Flies v.old.parts who f → Advances D.state F.print who f.op (left_of f) v.old v.new d
        result }
{
    let tail = store_flight(&mut v.device, &v.parts, who);
    note_prepared(&mut v.parts, who, tail);
    Outcome::Running { left: 1 }
}
