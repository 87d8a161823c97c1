// An operation on names begins, once it was found what it speaks of.
ghost use Rattle.std.specs.Prelude.{false, ◌≡◌, ◌+◌, ◌*◌, ◌≤◌, ℕ, length};
ghost use Rattle.dn_model.specs.Disk.{Disk};
ghost use Rattle.dn_model.specs.History.{extra};
ghost use Rattle.dn_volume.specs.Agrees.{Agrees, IsVolume};
ghost use Rattle.dn_volume.specs.Begins.{MayBegin, IsNamesOp, Begins};
ghost use Rattle.name_ops.specs.Finding.{CanOpen, IsFound, IsNewFlight, IsRoomy, op_slots, owed_names};

use crate::found::{Found, find_room};
use crate::plan::{NamesPlan, plan_names, slots_of_op};
use begin_steps::{answer, make_room, start};
use dn_model::Op;
use dn_volume::units::{NAMES_UNITS, SLOT_UNITS, TURN_UNITS};
use dn_volume::{Change, Flight, NameChange, Outcome, Room, Volume};
use file_write::take::{room_of, take_pages};
use fingerprint::Fingerprint;
use inode_table::{TAIL, read_field};
use pm_device::Pm;
use std::alloc::Global;

// The root's inode.
const ROOT: u64 = 0;

// How many pages the root's log needs for so many slots more.
fn pages_for<D: Pm, F: Fingerprint>(v: &Volume<D, F>, slots: u64) -> u64
    requires agrees { Agrees D.state v.now }
    requires running { v.now.parts.stopped ≡ false }
    ensures needs { (d : Disk) → IsVolume d v.now.parts (D.state v.now.device)
        → result ≡ extra slots (d.inode 0).log }
    ensures few { result ≤ 1 }
{
    let room = room_of(read_field(&v.device, &v.parts.geometry, ROOT, TAIL));
    if room < slots { 1 } else { 0 }
}

// The room that an operation on names is owed, whose items have so many slots, and whose log needs so many pages.
fn names_room(slots: usize, pages: u64) -> Room
    requires few { slots ≤ 63 }
    requires page { pages ≤ 1 }
    ensures { result ≡ owed_names slots pages }
{
    Room {
        units: SLOT_UNITS * (slots as u64 + pages) + TURN_UNITS + NAMES_UNITS,
        trace: 0,
        history: 1,
        queue: 0,
        releases: 0,
    }
}

// An operation on names that was planned so, and has these pages.
fn flight_of(alloc: Global, op: Op, plan: NamesPlan, fresh: Vec<u64>) -> Flight
    ensures { IsNewFlight op plan fresh.items result }
{
    Flight {
        op,
        held: plan.held,
        ino: ROOT,
        slots: plan.slots,
        fresh,
        spare: Vec::new(alloc),
        rows: Vec::new(alloc),
        raised: 0,
        change: Change::Names(NameChange {
            node: plan.node,
            turn: plan.turn,
            prepared: false,
            tail: 0,
            put: plan.put,
        }),
    }
}

/// Begins an operation on names in whose way nothing stands: room is made for all that it is owed, its page is taken,
/// and it holds its inodes. `NoMemory` where there is no memory for them; nothing was taken then.
pub fn open_names<D: Pm, F: Fingerprint>(
    alloc: Global,
    v: &mut Volume<D, F>,
    who: u32,
    op: Op,
    plan: NamesPlan,
    pages: u64,
) -> Outcome
    requires agrees { Agrees D.state v.old }
    requires running { v.old.parts.stopped ≡ false }
    requires begins { MayBegin v.old.parts who }
    requires can { (d : Disk) → IsVolume d v.old.parts (D.state v.old.device)
        → CanOpen d v.old.parts op plan pages }
    ensures agrees { Agrees D.state v.new }
    ensures event { (d : Disk) → IsVolume d v.old.parts (D.state v.old.device)
        → Begins D.state who op v.old v.new d result }
{
    let room = names_room(plan.slots.len(), pages);
    if !make_room(v, &room) {
        return Outcome::NoMemory;
    }
    let Ok(fresh) = take_pages(alloc, &mut v.parts.free, pages) else {
        return Outcome::NoMemory;
    };
    start(&mut v.parts, who, flight_of(alloc, op, plan, fresh));
    Outcome::Running { left: 2 }
}

// It is planned and begun.
fn open_found<D: Pm, F: Fingerprint>(
    alloc: Global,
    v: &mut Volume<D, F>,
    who: u32,
    op: Op,
    ino: u64,
    other: Option<u64>,
    pages: u64,
) -> Outcome
    requires agrees { Agrees D.state v.old }
    requires running { v.old.parts.stopped ≡ false }
    requires begins { MayBegin v.old.parts who }
    requires kind { IsNamesOp op }
    requires few { pages ≤ 1 }
    requires roomy { (d : Disk) → IsVolume d v.old.parts (D.state v.old.device)
        → IsRoomy d v.old.parts op ino other }
    requires needs { (d : Disk) → IsVolume d v.old.parts (D.state v.old.device)
        → pages ≡ extra (op_slots op) (d.inode 0).log }
    ensures agrees { Agrees D.state v.new }
    ensures event { (d : Disk) → IsVolume d v.old.parts (D.state v.old.device)
        → Begins D.state who op v.old v.new d result }
{
    let Ok(plan) = plan_names(alloc, &op, ino, other) else {
        return Outcome::NoMemory;
    };
    open_names(alloc, v, who, op, plan, pages)
}

/// Begins an operation on names for which this was found: it is answered at once, waits for an actor or for reclaim, or
/// is in flight and has its page, its inodes and its room. `NoMemory` where there is no memory for it.
pub fn begin_found<D: Pm, F: Fingerprint>(
    alloc: Global,
    v: &mut Volume<D, F>,
    who: u32,
    op: Op,
    found: Found,
) -> Outcome
    requires agrees { Agrees D.state v.old }
    requires running { v.old.parts.stopped ≡ false }
    requires begins { MayBegin v.old.parts who }
    requires kind { IsNamesOp op }
    requires found { (d : Disk) → IsVolume d v.old.parts (D.state v.old.device)
        → IsFound d v.old.parts op found }
    ensures agrees { Agrees D.state v.new }
    ensures event { (d : Disk) → IsVolume d v.old.parts (D.state v.old.device)
        → Begins D.state who op v.old v.new d result }
{
    let pages = pages_for(v, slots_of_op(&op));
    match find_room(v, &op, pages, found) {
        Found::Answer(reply) => answer(alloc, v, who, op, reply),
        Found::Held(holder) => Outcome::Busy { holder },
        Found::Waits(waiting) => Outcome::Released { waiting },
        Found::Files { ino, other } => open_found(alloc, v, who, op, ino, other, pages),
    }
}
