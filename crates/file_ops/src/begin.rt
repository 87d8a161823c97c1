// A Write begins.
ghost use Rattle.std.specs.Prelude.{◌≡◌, ◌+◌, ◌<◌, ◌≤◌, length, IfOk, IfErr, false};
ghost use Rattle.dn_model.specs.Disk.{Disk};
ghost use Rattle.dn_volume.specs.Agrees.{Agrees, IsVolume};
ghost use Rattle.dn_volume.specs.Begins.{MayBegin, IsWriteOp, IsAnswerOf, HasAll, Begins};
ghost use Rattle.data_begins.specs.Asked.{IsLiveFile, IsAsk};
ghost use Rattle.file_ops.specs.Asking.{IsWriteAsk};

use begin_steps::answer;
use data_begins::{DataAsk, Hindrance, find_file, in_the_way, make_ready, start_data};
use dn_model::{MOST_BYTES, Op, Refusal, Reply};
use dn_volume::{Outcome, Volume};
use file_write::plan::{pages_needed, plan_write};
use file_write::take::{places_of, room_of};
use fingerprint::Fingerprint;
use inode_table::TAIL;
use pm_device::Pm;
use std::alloc::Global;

/// The most bytes of a file.
pub const MOST_SIZE: u64 = 16_777_216;

// What a Write of so many bytes to a file from byte `at` on asks.
fn ask_for<D: Pm, F: Fingerprint>(v: &Volume<D, F>, ino: u64, at: u64, count: u64) -> DataAsk
    requires agrees { Agrees D.state v.now }
    requires running { v.now.parts.stopped ≡ false }
    requires file { (d : Disk) → IsVolume d v.now.parts (D.state v.now.device) → IsLiveFile d ino }
    requires some { 1 ≤ count }
    requires few { count ≤ 65536 }
    requires fits { at + count ≤ 16777216 }
    ensures { (d : Disk) → IsVolume d v.now.parts (D.state v.now.device)
        → IsWriteAsk d ino at count result }
{
    let places = places_of(at, count);
    let tail = v.device.load(v.parts.geometry.inode_word(ino, TAIL));
    DataAsk {
        ino,
        needed: pages_needed(places, room_of(tail)),
        lost: at / 4096,
        lost_places: places,
    }
}

// What a Write asks, or its reply where it is answered at once.
fn ask_write<D: Pm, F: Fingerprint>(v: &Volume<D, F>, op: &Op) -> Result<DataAsk, Reply>
    requires agrees { Agrees D.state v.now }
    requires running { v.now.parts.stopped ≡ false }
    requires kind { IsWriteOp op.now }
    ensures asks { IfOk result (λ ask. (d : Disk) → IsVolume d v.now.parts (D.state v.now.device)
        → IsAsk d op.now ask) }
    ensures answers { IfErr result (λ reply. (d : Disk)
        → IsVolume d v.now.parts (D.state v.now.device) → IsAnswerOf d v.now.parts op.now reply) }
{
    let Op::Write { name, at, bytes } = op else {
        unreachable!();
    };
    let count = bytes.bytes().len() as u64;
    let ino = match find_file(&v.parts.names, name.bytes()) {
        Ok(ino) => ino,
        Err(refusal) => return Err(Reply::Refused(refusal)),
    };
    if count > MOST_BYTES {
        return Err(Reply::Refused(Refusal::TooLong));
    }
    if count == 0 {
        return Err(Reply::Done);
    }
    if *at > MOST_SIZE - count {
        return Err(Reply::Refused(Refusal::TooBig));
    }
    Ok(ask_for(v, ino, *at, count))
}

// A Write that nothing stands in the way of gets what it takes, and is in flight.
fn open_write<D: Pm, F: Fingerprint>(
    alloc: Global,
    v: &mut Volume<D, F>,
    who: u32,
    op: Op,
    ask: &DataAsk,
) -> Outcome
    requires agrees { Agrees D.state v.old }
    requires running { v.old.parts.stopped ≡ false }
    requires begins { MayBegin v.old.parts who }
    requires kind { IsWriteOp op }
    requires asks { (d : Disk) → IsVolume d v.old.parts (D.state v.old.device)
        → IsAsk d op ask.now }
    requires has { (d : Disk) → IsVolume d v.old.parts (D.state v.old.device)
        → HasAll d v.old.parts op }
    ensures agrees { Agrees D.state v.new }
    ensures event { (d : Disk) → IsVolume d v.old.parts (D.state v.old.device)
        → Begins D.state who op v.old v.new d result }
{
    let Op::Write { at, bytes, .. } = &op else {
        unreachable!();
    };
    let (at, count) = (*at, bytes.bytes().len() as u64);
    let places = places_of(at, count);
    let Some(ready) = make_ready(alloc, v, ask, places, places) else {
        return Outcome::NoMemory;
    };
    let room = room_of(v.device.load(v.parts.geometry.inode_word(ask.ino, TAIL)));
    let size = v.parts.inodes[ask.ino as usize].size;
    match plan_write(alloc, &mut v.parts.free, room, size, at, count) {
        Ok(plan) => Outcome::Running {
            left: start_data(&mut v.parts, who, op, ask.ino, ready, plan),
        },
        Err(_) => Outcome::NoMemory,
    }
}

/// Begins a Write. `BadName`, `NotFound`, `TooLong` or `TooBig` in this order; a Write of no bytes is done at once. Where
/// its file is held it answers `Busy` with the holder; where pages or room for releases are wanting, `Released` with the
/// units of reclaim's work that are left, as long as there are any, and `NoSpace` where there are none. Else it takes the
/// least free pages, first that of the log, holds its file and is in flight.
///
/// It stores nothing. `NoMemory` where memory is wanting; nothing but room was changed then.
pub fn begin_write<D: Pm, F: Fingerprint>(
    alloc: Global,
    v: &mut Volume<D, F>,
    who: u32,
    op: Op,
) -> Outcome
    requires agrees { Agrees D.state v.old }
    requires running { v.old.parts.stopped ≡ false }
    requires begins { MayBegin v.old.parts who }
    requires kind { IsWriteOp op }
    ensures agrees { Agrees D.state v.new }
    ensures event { (d : Disk) → IsVolume d v.old.parts (D.state v.old.device)
        → Begins D.state who op v.old v.new d result }
{
    let ask = match ask_write(v, &op) {
        Ok(ask) => ask,
        Err(reply) => return answer(alloc, v, who, op, reply),
    };
    match in_the_way(v, &ask) {
        None => open_write(alloc, v, who, op, &ask),
        Some(Hindrance::Held { holder }) => Outcome::Busy { holder },
        Some(Hindrance::Waits) => Outcome::Released {
            waiting: v.parts.reclaiming.waiting,
        },
        Some(Hindrance::NoSpace) => {
            let refusal = Refusal::NoSpace {
                needed: ask.needed,
                free: v.parts.free.count(),
            };
            answer(alloc, v, who, op, Reply::Refused(refusal))
        }
    }
}
