// A flight ends.
ghost use Rattle.std.specs.Prelude.{◌≡◌, ◌≢◌, ◌⊎◌, ◌+◌, ◌-◌, ◌<◌, ◌≤◌, ℕ, List, length, All};
ghost use Rattle.std.specs.Prelude.{IsSome, Some, None, slice_get};
ghost use Rattle.law_write.specs.Runs.{places_in};
ghost use Rattle.dn_volume.specs.declared.flight.Flight.{Flight};
ghost use Rattle.dn_volume.specs.declared.volume.InodeState.{InodeState};
ghost use Rattle.dn_volume.specs.Parties.{flight_at};
ghost use Rattle.dn_volume.specs.Reserve.{owed_to};
ghost use Rattle.file_content.specs.Runs.{all_seen};
ghost use Rattle.dn_volume.specs.declared.flight.DataChange.{DataChange};
ghost use Rattle.file_ops.specs.Ending.{MapsInode, MapsAt, FinishesParts, CanFinish};

use crate::giving::{give_back_pages, queue_slots, release_rows};
use dn_model::{Entry, Reply};
use dn_volume::units::{SLOT_UNITS, TAIL_UNITS};
use dn_volume::{Change, Flight, InodeState, Parts, Room};
use file_content::remap::map_runs;
use file_content::runs::Run;

/// Takes out the flight of a client, who has one.
pub fn end_flight(flights: &mut Vec<Option<Flight>>, who: u32) -> Flight
    requires client { 1 ≤ who }
    requires there { IsSome (flight_at flights.old.items (who - 1)) }
    ensures was { flight_at flights.old.items (who - 1) ≡ Some result }
    ensures clients { length flights.new.items ≡ length flights.old.items }
    ensures landed { flight_at flights.new.items (who - 1) ≡ None }
    ensures others { (k : ℕ) → k ≢ who - 1 → flight_at flights.new.items k ≡ flight_at
        flights.old.items k }
{
    flights[who as usize - 1].take().unwrap()
}

/// Puts the flight of a client back.
pub fn put_back(flights: &mut Vec<Option<Flight>>, who: u32, flight: Flight)
    requires client { 1 ≤ who }
    requires there { who - 1 < length flights.old.items }
    ensures here { flight_at flights.new.items (who - 1) ≡ Some flight }
    ensures others { (k : ℕ) → k ≢ who - 1 → flight_at flights.new.items k ≡ flight_at
        flights.old.items k }
{
    flights[who as usize - 1] = Some(flight);
}

// Maps the places of runs, whose items stand past this tail, counts the log's new pages, and lets the inode go.
fn end_state(node: &mut InodeState, size: u64, tail: u64, fresh: &[u64], runs: &[Run])
    requires room { places_in (all_seen runs.now) ≤ node.old.map.room }
    requires places { All (λ run. run.first + run.count ≤ 4096) runs.now }
    requires blocks { All (λ run. run.block + run.count ≤ 65536) runs.now }
    requires tail { tail < 4194304 }
    requires fresh { All (λ page. page < 65536) fresh.now }
    requires log { node.old.log_pages + length fresh.now < 18446744073709551616 }
    ensures { (ino : ℕ) → MapsInode ino size tail fresh.now runs.now node.old node.new }
{
    map_runs(&mut node.map, runs, tail, fresh);
    node.size = size;
    node.log_pages += fresh.len() as u64;
    node.holder = None;
}

/// Maps the places of runs to their pages, whose items stand past this tail of the inode's log, counts the log's new
/// pages, and lets the inode go.
pub(crate) fn end_inode(
    inodes: &mut Vec<InodeState>,
    ino: u64,
    size: u64,
    tail: u64,
    fresh: &[u64],
    runs: &[Run],
)
    requires there { ino < length inodes.old.items }
    requires room { (n : InodeState) → slice_get inodes.old.items ino ≡ Some n
        → places_in (all_seen runs.now) ≤ n.map.room }
    requires places { All (λ run. run.first + run.count ≤ 4096) runs.now }
    requires blocks { All (λ run. run.block + run.count ≤ 65536) runs.now }
    requires tail { tail < 4194304 }
    requires fresh { All (λ page. page < 65536) fresh.now }
    requires log { (n : InodeState) → slice_get inodes.old.items ino ≡ Some n
        → n.log_pages + length fresh.now < 18446744073709551616 }
    ensures { MapsAt ino size tail fresh.now runs.now inodes.old.items inodes.new.items }
{
    end_state(&mut inodes[ino as usize], size, tail, fresh, runs);
}

/// One call more, unless there is no greater number.
pub fn count_call(made: u64) -> u64
    ensures { (result ≡ made + 1) ⊎ ((made ≡ 18446744073709551615) × (result ≡ made)) }
{
    made.saturating_add(1)
}

/// Takes away what was owed to a write or a cut whose pages are filled and whose rows are raised.
pub fn repay(owed: &mut Room, units: u64, runs: u64, rows: u64)
    requires units { units ≤ owed.old.units }
    requires history { 1 ≤ owed.old.history }
    requires queue { runs ≤ owed.old.queue }
    requires releases { rows ≤ owed.old.releases }
    ensures units { owed.new.units + units ≡ owed.old.units }
    ensures trace { owed.new.trace ≡ owed.old.trace }
    ensures history { owed.new.history + 1 ≡ owed.old.history }
    ensures queue { owed.new.queue + runs ≡ owed.old.queue }
    ensures releases { owed.new.releases + rows ≡ owed.old.releases }
{
    owed.units -= units;
    owed.history -= 1;
    owed.queue -= runs;
    owed.releases -= rows;
}

/// Ends a write in what is kept in memory, but for the pages that come free: its spare page is given back, its places
/// are mapped, its items and rows wait, its inode is let go, and it enters the history.
pub fn finish_parts(parts: &mut Parts, who: u32, tail: u64, flight: Flight)
    requires can { (c : DataChange) × CanFinish tail flight c parts.old }
    ensures { (c : DataChange) → CanFinish tail flight c parts.old → FinishesParts who tail flight c
        parts.old parts.new }
{
    let Change::Data(change) = &flight.change else {
        unreachable!()
    };
    let runs = change.runs.len() as u64;
    let rows = flight.rows.len() as u64;
    let units = SLOT_UNITS * (flight.slots.len() as u64 + flight.fresh.len() as u64) + TAIL_UNITS;
    let round = parts.inodes[flight.ino as usize].round;
    give_back_pages(&mut parts.free, &flight.spare);
    queue_slots(
        &mut parts.queue,
        flight.ino,
        round,
        tail,
        &flight.fresh,
        runs,
    );
    end_inode(
        &mut parts.inodes,
        flight.ino,
        change.size,
        tail,
        &flight.fresh,
        &change.runs,
    );
    release_rows(&mut parts.reclaiming.releases, &flight.rows);
    parts.reclaiming.waiting += 2 * rows;
    repay(&mut parts.owed, units, runs, rows);
    parts.history.push_reserved(Entry {
        who,
        op: flight.op,
        reply: Reply::Done,
    });
}
