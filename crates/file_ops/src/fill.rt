// The next page of a write or a cut in flight is filled.
ghost use Rattle.std.specs.Prelude.{◌≡◌, ℕ, ◌+◌, ◌*◌, ◌<◌, ◌≤◌, false, length, Some};
ghost use Rattle.pm_device.specs.Settled.{StoresOnly, KeepsFlushed, Anyone, FlushesAll};
ghost use Rattle.pm_device.specs.Pages.{IsInPage};
ghost use Rattle.pm_layout.specs.Geometry.{IsAccepted};
ghost use Rattle.file_content.specs.Content.{AreBlocksIn};
ghost use Rattle.dn_model.specs.Disk.{Disk};
ghost use Rattle.dn_volume.specs.declared.flight.Flight.{Flight as KeptFlight};
ghost use Rattle.dn_volume.specs.declared.flight.DataChange.{DataChange as KeptChange};
ghost use Rattle.dn_volume.specs.declared.flight.Change.TheVariants.{Data};
ghost use Rattle.dn_volume.specs.Parties.{Flies};
ghost use Rattle.dn_volume.specs.Flights.{left_of};
ghost use Rattle.dn_volume.specs.Agrees.{Agrees, IsVolume};
ghost use Rattle.dn_volume.specs.Events.{Advances};
ghost use Rattle.file_ops.specs.Filling.{FillsBytes, FillsByOp, IsToFill, StoresNext, one_filled};
ghost use Rattle.file_ops.specs.Filling.{IsOneToFill, NotesFill, HasLeft};

use crate::ending::count_call;
use dn_model::Op;
use dn_volume::units::FILL_UNITS;
use dn_volume::{Change, Flight, Outcome, Parts, Volume};
use file_content::fill::fill_place;
use file_index::PageMap;
use fingerprint::Fingerprint;
use pm_device::Pm;
use pm_layout::Geometry;

// Fills a page with the bytes that a place of a file of this size has after a write or a cut, and flushes it.
fn fill_by<D: Pm>(
    device: &mut D,
    g: &Geometry,
    who: u32,
    map: &PageMap,
    size: u64,
    op: &Op,
    place: u64,
    block: u64,
)
    requires accepted { IsAccepted g.now }
    requires device { length (D.state device.old).now ≡ 512 * g.now.pages }
    requires blocks { AreBlocksIn g.now map.now.map }
    requires op { FillsBytes op.now size }
    requires place { place < 4096 }
    requires block { block < g.now.pages }
    requires room { FILL_UNITS ≤ (D.state device.old).spare }
    ensures filled { FillsByOp g.now who map.now.map size op.now place block (D.state device.old)
        (D.state device.new) }
    ensures only { StoresOnly (IsInPage block) (D.state device.old) (D.state device.new) }
    ensures keeps { KeepsFlushed Anyone (IsInPage block) (D.state device.old) (D.state device.new) }
    ensures flushes { FlushesAll who (D.state device.old) (D.state device.new) }
    ensures spare { (D.state device.old).spare ≤ (D.state device.new).spare + FILL_UNITS }
    ensures faults { (D.state device.old).faults ≤ (D.state device.new).faults }
{
    match op {
        Op::Write { at, bytes, .. } => fill_place(
            device,
            g,
            who,
            map,
            size,
            place,
            *at,
            bytes.bytes(),
            block,
        ),
        Op::Cut { size: to, .. } => fill_place(device, g, who, map, *to, place, 0, &[], block),
        _ => unreachable!(),
    }
}

// Fills the next page of an operation in flight.
fn fill_next<D: Pm>(device: &mut D, parts: &Parts, who: u32)
    requires fills { IsToFill parts.now who }
    requires volume { (d : Disk) × IsVolume d parts.now (D.state device.old) }
    ensures { StoresNext who parts.now (D.state device.old) (D.state device.new) }
{
    let Some(flight) = &parts.flights[who as usize - 1] else {
        unreachable!()
    };
    let Change::Data(change) = &flight.change else {
        unreachable!()
    };
    let node = &parts.inodes[flight.ino as usize];
    fill_by(
        device,
        &parts.geometry,
        who,
        &node.map,
        node.size,
        &flight.op,
        change.first + change.filled,
        change.blocks[change.filled as usize],
    );
}

// One page more of an operation is filled.
fn count_fill(flight: &mut Option<Flight>)
    requires { IsOneToFill flight.old }
    ensures { (f : KeptFlight) (c : KeptChange) → flight.old ≡ Some f → f.change ≡ Data c → flight.new
        ≡ Some (one_filled f c) }
{
    if let Some(f) = flight {
        if let Change::Data(change) = &mut f.change {
            change.filled += 1;
        }
    }
}

// An operation has filled a page: the room for that is owed no more.
fn note_fill(parts: &mut Parts, who: u32)
    requires fills { IsToFill parts.old who }
    requires running { parts.old.stopped ≡ false }
    requires clients { length parts.old.flights.items ≡ 14 }
    requires units { FILL_UNITS ≤ parts.old.owed.units }
    ensures { NotesFill who parts.old parts.new }
{
    count_fill(&mut parts.flights[who as usize - 1]);
    parts.made = count_call(parts.made);
    parts.owed.units -= FILL_UNITS;
}

// How many events are left of a write or a cut in flight.
fn left_of_data(parts: &Parts, who: u32) -> u64
    requires { HasLeft parts.now who }
    ensures { (f : KeptFlight) → Flies parts.now who f → result ≡ left_of f }
{
    let Some(flight) = &parts.flights[who as usize - 1] else {
        unreachable!()
    };
    let Change::Data(change) = &flight.change else {
        unreachable!()
    };
    let pages = change.blocks.len() as u64 - change.filled;
    let rows = flight.rows.len() as u64 - flight.raised;
    pages + rows + 1
}

/// A write or a cut of a client fills the next of its pages, with the bytes that its place has afterwards, and flushes
/// it; the fence of its commit settles it. Nothing that the disk reads is stored to.
pub fn fill_page<D: Pm, F: Fingerprint>(v: &mut Volume<D, F>, who: u32) -> Outcome
    requires agrees { Agrees D.state v.old }
    requires running { v.old.parts.stopped ≡ false }
    requires fills { IsToFill v.old.parts who }
    ensures agrees { Agrees D.state v.new }
    ensures event { (d : Disk) (f : KeptFlight) → IsVolume d v.old.parts (D.state v.old.device)
        → Flies v.old.parts who f → Advances D.state F.print who f.op (left_of f) v.old v.new d result }
{
    fill_next(&mut v.device, &v.parts, who);
    note_fill(&mut v.parts, who);
    Outcome::Running {
        left: left_of_data(&v.parts, who),
    }
}
