// The last event of an operation on names in flight.
ghost use Rattle.std.specs.Prelude.{◌≡◌, ◌*◌, ◌<◌, ◌≤◌, false, length, OnOk, IsErr, slice_index};
ghost use Rattle.pm_device.specs.State.{Rose};
ghost use Rattle.pm_device.specs.Settled.{LeavesOnly, StoresOnly, IsSettled};
ghost use Rattle.pm_layout.specs.Geometry.{IsAccepted};
ghost use Rattle.name_journal.specs.Changes.{IsTouched};
ghost use Rattle.name_journal.specs.AllOrNone.{AllOrNone};
ghost use Rattle.pm_layout.specs.Geometry.{gate_word};
ghost use Rattle.dn_model.specs.Disk.{Disk};
ghost use Rattle.dn_volume.specs.declared.flight.Flight.{Flight as KeptFlight};
ghost use Rattle.dn_volume.specs.Parties.{Flies};
ghost use Rattle.dn_volume.specs.Flights.{left_of};
ghost use Rattle.dn_volume.specs.Agrees.{Agrees, IsVolume};
ghost use Rattle.dn_volume.specs.Events.{Advances};
ghost use Rattle.name_ops.specs.Ending.{IsNextToCommit};
ghost use Rattle.name_ops.specs.Landing.{state_value, flight_changes, CommitsAll};

use crate::ending::{land_names, put_back, take_flight};
use dn_model::Reply;
use dn_volume::units::NAMES_UNITS;
use dn_volume::{Change, NameChange, Outcome, Turn, Volume};
use fingerprint::Fingerprint;
use inode_table::{STATE, TAIL};
use name_journal::{Change as WordChange, commit_all};
use pm_device::{Failed, Pm};
use pm_layout::Geometry;

// The state of an inode that turns, as it is stored: 1 live, 2 dying.
fn state_of(turn: Turn) -> Option<u64>
    ensures { result ≡ state_value turn }
{
    match turn {
        Turn::Stays => None,
        Turn::Comes => Some(1),
        Turn::Goes => Some(2),
    }
}

/// Makes the root's tail and the state of the inode that turns what an operation wants: both of them or neither,
/// whatever moment a stop comes (the journal of NOVA, FAST 2016).
///
/// # Errors
/// `Failed` where a fence of the device failed. A stop may then leave either.
pub fn commit_change<D: Pm>(
    device: &mut D,
    g: &Geometry,
    who: u32,
    change: &NameChange,
) -> Result<(), Failed>
    requires accepted { IsAccepted g.now }
    requires size { length (D.state device.old).now ≡ 512 * g.now.pages }
    requires file { 1 ≤ change.now.node }
    requires node { change.now.node < g.now.inodes }
    requires closed { slice_index (D.state device.old).now gate_word ≡ 0 }
    requires settled { IsSettled (D.state device.old) gate_word }
    requires room { NAMES_UNITS ≤ (D.state device.old).spare }
    ensures any_moment { LeavesOnly (D.state device.old) (D.state device.new)
        (AllOrNone g.now.inodes who (flight_changes change.now) (D.state device.old)) }
    ensures done { OnOk result (CommitsAll g.now.inodes who (flight_changes change.now)
        (D.state device.old) (D.state device.new)) }
    ensures only { StoresOnly (IsTouched (flight_changes change.now)) (D.state device.old)
        (D.state device.new) }
    ensures faults { (D.state device.old).faults ≤ (D.state device.new).faults }
    ensures failed { IsErr result → Rose (D.state device.old).faults (D.state device.new).faults }
{
    let tail = WordChange {
        at: g.inode_word(0, TAIL),
        value: change.tail,
    };
    match state_of(change.turn) {
        None => commit_all(device, g, who, &[tail]),
        Some(value) => {
            let state = WordChange {
                at: g.inode_word(change.node, STATE),
                value,
            };
            commit_all(device, g, who, &[tail, state])
        }
    }
}

/// The last event of an operation on names in flight, for which all that has to stand was stored: its words change by one
/// commit of the journal. The names and the inode that turns are those of after, what it held is let go, and it enters
/// the history.
///
/// A stop on the way leaves an image with the files of before or of after. `Stopped` where a fence of the device failed:
/// the operation is in flight still.
pub fn commit_names<D: Pm, F: Fingerprint>(v: &mut Volume<D, F>, who: u32) -> Outcome
    requires agrees { Agrees D.state v.old }
    requires running { v.old.parts.stopped ≡ false }
    requires next { IsNextToCommit v.old.parts who }
    ensures agrees { Agrees D.state v.new }
    ensures event { (d : Disk) (f : KeptFlight) → IsVolume d v.old.parts (D.state v.old.device)
        → Flies v.old.parts who f → Advances D.state F.print who f.op (left_of f) v.old v.new d
        result }
{
    let flight = take_flight(&mut v.parts.flights, who);
    let Change::Names(change) = &flight.change else {
        unreachable!()
    };
    v.parts.made = v.parts.made.saturating_add(1);
    let Ok(()) = commit_change(&mut v.device, &v.parts.geometry, who, change) else {
        v.parts.stopped = true;
        put_back(&mut v.parts.flights, who, flight);
        return Outcome::Stopped;
    };
    land_names(&mut v.parts, who, flight);
    Outcome::Done(Reply::Done)
}
