// Events one after another.
ghost use Rattle.std.specs.Prelude.{◌≡◌, IfOk, IsErr};
ghost use Rattle.dn_model.specs.Course.{Base};
ghost use Rattle.dn_volume.specs.Agrees.{Agrees};
ghost use Rattle.dn_volume.specs.Sound.{Sound};
ghost use Rattle.dn_core.specs.Run.{Run, Records};

use crate::event::Event;
use crate::stepping::step;
use dn_volume::{Outcome, Volume};
use fingerprint::Fingerprint;
use pm_device::Pm;
use std::alloc::{AllocError, Global};

/// Makes these events one after another, and answers the outcome of each. Where there is no memory for the outcomes,
/// nothing was done.
pub fn run_events<D: Pm, F: Fingerprint>(
    alloc: Global,
    v: &mut Volume<D, F>,
    events: Vec<Event>,
) -> Result<Vec<Outcome>, AllocError>
    requires agrees { Agrees D.state v.old }
    ensures agrees { Agrees D.state v.new }
    ensures run { IfOk result (λ outcomes. Run D.state F.print v.old events.items outcomes.items v.new) }
    ensures history { IfOk result (λ outcomes. Records v.old v.new events.items outcomes.items) }
    ensures sound { (base : Base) → Sound D.state F.print base v.old
        → Sound D.state F.print base v.new }
    ensures nothing { IsErr result → v.new ≡ v.old }
{
    let mut outcomes = Vec::with_capacity(alloc, events.len())?;
    for event in events {
        let outcome = step(alloc, v, event);
        outcomes.push_reserved(outcome);
    }
    Ok(outcomes)
}
