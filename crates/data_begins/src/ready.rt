// A write or a cut gets what it takes.
ghost use Rattle.std.specs.Prelude.{◌≡◌, ◌+◌, ◌-◌, ◌<◌, ◌≤◌, [], ◌∷◌, length, All, IfSome, IfOk, Some, false};
ghost use Rattle.dn_model.specs.Disk.{Disk};
ghost use Rattle.dn_volume.specs.Agrees.{Agrees, IsVolume};
ghost use Rattle.dn_volume.specs.Flights.{left_of as events_left};
ghost use Rattle.dn_volume.specs.Reserve.{owed_to};
ghost use Rattle.dn_volume.specs.Planned.{row_slots};
ghost use Rattle.begin_steps.specs.Room.{add_room, FitsRoom};
ghost use Rattle.begin_steps.specs.Starting.{IsFew, Starts};
ghost use Rattle.data_begins.specs.Asked.{IsAsked};
ghost use Rattle.data_begins.specs.Ready.{data_room as most_room, data_flight, OnlyMakesRoom, IsReady};

use crate::asks::DataAsk;
use crate::places::rows_of;
use begin_steps::{left_of, make_place_room, make_room, start};
use dn_model::{NoMemory, Op};
use dn_volume::units::{FILL_UNITS, RAISE_UNITS, SLOT_UNITS, TAIL_UNITS};
use dn_volume::{Change, DataChange, Flight, Parts, Room, Volume};
use file_write::plan::WritePlan;
use fingerprint::Fingerprint;
use pm_device::Pm;
use std::alloc::Global;

/// The inode and the rows of a write or a cut.
#[derive(Debug, Drop)]
pub struct Ready {
    /// The inode, alone.
    pub held: Vec<u64>,
    /// The slots of the rows that lose a mapping by it: one for each place, in order.
    pub rows: Vec<u64>,
}

// The most that is owed to a write or a cut of so many pages, rows and slots, with one page for its log.
fn data_room(places: u64, rows: u64, slots: u64) -> Room
    requires places { places ≤ 4096 }
    requires rows { rows ≤ 4096 }
    requires slots { slots ≤ 4096 }
    ensures { result ≡ most_room places rows slots }
{
    Room {
        units: FILL_UNITS * places + RAISE_UNITS * rows + SLOT_UNITS * (slots + 1) + TAIL_UNITS,
        trace: rows,
        history: 1,
        queue: places,
        releases: rows,
    }
}

// An inode, alone.
fn one_inode(alloc: Global, ino: u64) -> Result<Vec<u64>, NoMemory>
    ensures { IfOk result (λ held. held.items ≡ ino ∷ []) }
{
    let mut held = Vec::new(alloc);
    held.push(ino)?;
    Ok(held)
}

// Lists the inode and the rows.
fn list_ready<D: Pm, F: Fingerprint>(
    alloc: Global,
    v: &Volume<D, F>,
    ask: &DataAsk,
) -> Result<Ready, NoMemory>
    requires agrees { Agrees D.state v.now }
    requires running { v.now.parts.stopped ≡ false }
    requires asks { (d : Disk) → IsVolume d v.now.parts (D.state v.now.device) → IsAsked d ask.now }
    ensures held { IfOk result (λ ready. ready.held.items ≡ ask.now.ino ∷ []) }
    ensures rows { IfOk result (λ ready. (d : Disk)
        → IsVolume d v.now.parts (D.state v.now.device)
        → ready.rows.items ≡ row_slots d ask.now.ino ask.now.lost ask.now.lost_places) }
    ensures few { IfOk result (λ ready. length ready.rows.items ≤ 4096) }
{
    let held = one_inode(alloc, ask.ino)?;
    let node = &v.parts.inodes[ask.ino as usize];
    let rows = rows_of(
        alloc,
        &v.parts.fact,
        &v.device,
        &node.map,
        ask.lost,
        ask.lost_places,
    )?;
    Ok(Ready { held, rows })
}

/// Lists the inode and the rows of a write or a cut that asks so, and makes room for it: so many pages, and so many
/// slots. `None` where there is no memory for it.
pub fn make_ready<D: Pm, F: Fingerprint>(
    alloc: Global,
    v: &mut Volume<D, F>,
    ask: &DataAsk,
    places: u64,
    slots: u64,
) -> Option<Ready>
    requires agrees { Agrees D.state v.old }
    requires running { v.old.parts.stopped ≡ false }
    requires asks { (d : Disk) → IsVolume d v.old.parts (D.state v.old.device) → IsAsked d ask.now }
    requires places { places ≤ 4096 }
    requires slots { slots ≤ 4096 }
    ensures makes { OnlyMakesRoom D.state v.old v.new }
    ensures ready { IfSome result (IsReady D.state ask.now places slots v.old v.new) }
{
    let Ok(ready) = list_ready(alloc, v, ask) else {
        return None;
    };
    if !make_place_room(&mut v.parts, ask.ino, places) {
        return None;
    }
    let room = data_room(places, ready.rows.len() as u64, slots);
    if !make_room(v, &room) {
        return None;
    }
    Some(ready)
}

/// A write or a cut is in flight, by its plan: how many events are left.
pub fn start_data(
    parts: &mut Parts,
    who: u32,
    op: Op,
    ino: u64,
    ready: Ready,
    plan: WritePlan,
) -> u64
    requires client { 1 ≤ who }
    requires there { who - 1 < length parts.old.flights.items }
    requires held { All (λ ino. ino < length parts.old.inodes.items) ready.held.items }
    requires few { IsFew (data_flight op ino ready plan) }
    requires fits { FitsRoom
        (add_room parts.old.owed (owed_to (Some (data_flight op ino ready plan)))) }
    ensures left { result ≡ events_left (data_flight op ino ready plan) }
    ensures starts { Starts who (data_flight op ino ready plan) parts.old parts.new }
{
    let flight = Flight {
        op,
        held: ready.held,
        ino,
        slots: plan.slots,
        fresh: plan.fresh,
        spare: plan.spare,
        rows: ready.rows,
        raised: 0,
        change: Change::Data(DataChange {
            first: plan.first,
            size: plan.size,
            blocks: plan.blocks,
            runs: plan.runs,
            filled: 0,
        }),
    };
    let left = left_of(&flight);
    start(parts, who, flight);
    left
}
