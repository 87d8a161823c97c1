// A cut in flight gets on by one event.
ghost use Rattle.std.specs.Prelude.{◌≡◌, false};
ghost use Rattle.dn_model.specs.Disk.{Disk};
ghost use Rattle.dn_volume.specs.declared.flight.Flight.{Flight as KeptFlight};
ghost use Rattle.dn_volume.specs.Parties.{Flies};
ghost use Rattle.dn_volume.specs.Flights.{left_of};
ghost use Rattle.dn_volume.specs.Agrees.{Agrees, IsVolume};
ghost use Rattle.dn_volume.specs.Begins.{FliesAs, IsCutOp};
ghost use Rattle.dn_volume.specs.Events.{Advances};

use crate::commit::commit_cut;
use count_events::raise_row;
use dn_volume::{Outcome, Volume};
use file_ops::{DataStep, fill_page, next_step};
use fingerprint::Fingerprint;
use pm_device::Pm;

/// A client's cut in flight gets on by one event: it fills the page that its new size ends in, if it has to; then it
/// raises the next of the rows of the places that go; once all are raised it commits. `Running` tells how many events are
/// left of it, `Done` that it is answered, and `Stopped` that a fence of the device failed.
pub fn advance_cut<D: Pm, F: Fingerprint>(v: &mut Volume<D, F>, who: u32) -> Outcome
    requires agrees { Agrees D.state v.old }
    requires running { v.old.parts.stopped ≡ false }
    requires flies { FliesAs IsCutOp v.old.parts who }
    ensures agrees { Agrees D.state v.new }
    ensures event { (d : Disk) (f : KeptFlight) → IsVolume d v.old.parts (D.state v.old.device)
        → Flies v.old.parts who f → Advances D.state F.print who f.op (left_of f) v.old v.new d
        result }
{
    match next_step(&v.parts, who) {
        DataStep::Fill => fill_page(v, who),
        DataStep::Raise => raise_row(v, who),
        DataStep::Commit => commit_cut(v, who),
    }
}
