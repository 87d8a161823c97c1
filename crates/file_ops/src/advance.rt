// A write in flight gets on by one event.
ghost use Rattle.std.specs.Prelude.{◌≡◌, false};
ghost use Rattle.dn_model.specs.Disk.{Disk};
ghost use Rattle.dn_volume.specs.declared.flight.Flight.{Flight as KeptFlight};
ghost use Rattle.dn_volume.specs.declared.flight.DataChange.{DataChange as KeptChange};
ghost use Rattle.dn_volume.specs.declared.flight.Change.TheVariants.{Data};
ghost use Rattle.dn_volume.specs.Parties.{Flies};
ghost use Rattle.dn_volume.specs.Flights.{left_of};
ghost use Rattle.dn_volume.specs.Agrees.{Agrees, IsVolume};
ghost use Rattle.dn_volume.specs.Begins.{FliesAs, IsWriteOp};
ghost use Rattle.dn_volume.specs.Events.{Advances};
ghost use Rattle.file_ops.specs.Filling.{HasLeft};
ghost use Rattle.file_ops.specs.Advancing.{IsNext};

use crate::commit::commit_write;
use crate::fill::fill_page;
use count_events::raise_row;
use dn_volume::{Change, Outcome, Parts, Volume};
use fingerprint::Fingerprint;
use pm_device::Pm;

/// What a write or a cut in flight does next. Its pages are filled before its rows are raised, and the rows are raised
/// before the commit, so that a crash leaves a row that counts too much and never too little (DeNova, IPDPS 2022).
#[derive(Clone, Copy, Debug, PartialEq, Eq)]
pub enum DataStep {
    /// The next of its pages is filled.
    Fill,
    /// The next of its rows is raised.
    Raise,
    /// It is committed.
    Commit,
}

/// What a client's write or cut in flight does next.
pub fn next_step(parts: &Parts, who: u32) -> DataStep
    requires { HasLeft parts.now who }
    ensures { (f : KeptFlight) (c : KeptChange) → Flies parts.now who f → f.change ≡ Data c
        → IsNext result f c }
{
    let Some(flight) = &parts.flights[who as usize - 1] else {
        unreachable!()
    };
    let Change::Data(change) = &flight.change else {
        unreachable!()
    };
    if change.filled < change.blocks.len() as u64 {
        DataStep::Fill
    } else if flight.raised < flight.rows.len() as u64 {
        DataStep::Raise
    } else {
        DataStep::Commit
    }
}

/// A client's write in flight gets on by one event: it fills the next of its pages; once all are filled it raises the
/// next of its rows; once all are raised it commits. `Running` tells how many events are left of it, `Done` that it is
/// answered, and `Stopped` that a fence of the device failed.
pub fn advance_write<D: Pm, F: Fingerprint>(v: &mut Volume<D, F>, who: u32) -> Outcome
    requires agrees { Agrees D.state v.old }
    requires running { v.old.parts.stopped ≡ false }
    requires flies { FliesAs IsWriteOp v.old.parts who }
    ensures agrees { Agrees D.state v.new }
    ensures event { (d : Disk) (f : KeptFlight) → IsVolume d v.old.parts (D.state v.old.device)
        → Flies v.old.parts who f → Advances D.state F.print who f.op (left_of f) v.old v.new d result }
{
    match next_step(&v.parts, who) {
        DataStep::Fill => fill_page(v, who),
        DataStep::Raise => raise_row(v, who),
        DataStep::Commit => commit_write(v, who),
    }
}
