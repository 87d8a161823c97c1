// A cut ends in what is kept in memory.
ghost use Rattle.std.specs.Prelude.{◌≡◌, ◌/◌, ◌+◌, ◌<◌, ◌≤◌, ℕ, length, All, Some, slice_get};
ghost use Rattle.dn_volume.specs.declared.flight.DataChange.{DataChange as DataOf};
ghost use Rattle.dn_volume.specs.declared.volume.InodeState.{InodeState as StateOf};
ghost use Rattle.dn_volume.specs.Planned.{gone_from};
ghost use Rattle.size_ops.specs.Ending.{CanCut, CutsMap, CutsState, CutsAt, CanFinishCut, FinishesCut};

use dn_model::{Entry, Reply};
use dn_volume::units::{SLOT_UNITS, TAIL_UNITS};
use dn_volume::{Change, DataChange, Flight, InodeState, Parts};
use file_content::remap::slot_after;
use file_index::{Mapping, PageMap};
use file_ops::ending::repay;
use file_ops::giving::{give_back_pages, queue_slots, release_rows};

/// The first place that a cut takes away: the one that is filled anew, if there is one, or else the first past the new
/// size.
pub fn first_gone(change: &DataChange) -> u64
    requires { change.now.size ≤ 16777216 }
    ensures { result ≡ gone_from change.now.size change.now.blocks.items }
{
    if change.blocks.is_empty() {
        change.size.div_ceil(4096)
    } else {
        change.size / 4096
    }
}

// Drops the places that a cut takes away, and maps the one that is filled anew, whose item stands past this tail.
fn cut_map(map: &mut PageMap, change: &DataChange, tail: u64, fresh: &[u64])
    requires can { CanCut change.now map.old.room }
    requires tail { tail < 4194304 }
    requires fresh { All (λ page. page < 65536) fresh.now }
    ensures { CutsMap change.now tail fresh.now map.old.map map.new.map }
{
    map.cut(first_gone(change));
    if let Some(block) = change.blocks.first() {
        let slot = slot_after(tail, fresh, 0);
        map.set(
            change.first,
            Mapping {
                block: *block,
                slot,
                bit: 0,
            },
        );
    }
}

// So it is with the state of the inode, whose log has these pages more, and which is let go.
fn cut_state(node: &mut InodeState, change: &DataChange, tail: u64, fresh: &[u64])
    requires can { CanCut change.now node.old.map.room }
    requires tail { tail < 4194304 }
    requires fresh { All (λ page. page < 65536) fresh.now }
    requires log { node.old.log_pages + length fresh.now < 18446744073709551616 }
    ensures { CutsState change.now tail fresh.now node.old node.new }
{
    cut_map(&mut node.map, change, tail, fresh);
    node.size = change.size;
    node.log_pages += fresh.len() as u64;
    node.holder = None;
}

/// Drops the places of a file that a cut takes away, maps the one that is filled anew, whose item stands past this tail
/// of the inode's log, counts the log's new pages, and lets the inode go.
pub(crate) fn cut_inode(
    inodes: &mut Vec<InodeState>,
    ino: u64,
    change: &DataChange,
    tail: u64,
    fresh: &[u64],
)
    requires there { ino < length inodes.old.items }
    requires can { (n : StateOf) → slice_get inodes.old.items ino ≡ Some n → CanCut change.now
        n.map.room }
    requires tail { tail < 4194304 }
    requires fresh { All (λ page. page < 65536) fresh.now }
    requires log { (n : StateOf) → slice_get inodes.old.items ino ≡ Some n
        → n.log_pages + length fresh.now < 18446744073709551616 }
    ensures { CutsAt ino change.now tail fresh.now inodes.old.items inodes.new.items }
{
    cut_state(&mut inodes[ino as usize], change, tail, fresh);
}

/// Ends a cut in what is kept in memory, but for the pages that come free: its spare page is given back, the places past
/// its size go, its item and rows wait, its inode is let go, and it enters the history.
pub fn finish_cut(parts: &mut Parts, who: u32, tail: u64, flight: Flight)
    requires can { (c : DataOf) × CanFinishCut tail flight c parts.old }
    ensures { (c : DataOf) → CanFinishCut tail flight c parts.old → FinishesCut who tail flight c
        parts.old parts.new }
{
    let Change::Data(change) = &flight.change else {
        unreachable!()
    };
    let runs = change.runs.len() as u64;
    let rows = flight.rows.len() as u64;
    let units = SLOT_UNITS * (flight.slots.len() as u64 + flight.fresh.len() as u64) + TAIL_UNITS;
    let round = parts.inodes[flight.ino as usize].round;
    give_back_pages(&mut parts.free, &flight.spare);
    queue_slots(
        &mut parts.queue,
        flight.ino,
        round,
        tail,
        &flight.fresh,
        runs,
    );
    cut_inode(&mut parts.inodes, flight.ino, change, tail, &flight.fresh);
    release_rows(&mut parts.reclaiming.releases, &flight.rows);
    parts.reclaiming.waiting += 2 * rows;
    repay(&mut parts.owed, units, runs, rows);
    parts.history.push_reserved(Entry {
        who,
        op: flight.op,
        reply: Reply::Done,
    });
}
