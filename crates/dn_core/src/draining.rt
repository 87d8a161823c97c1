// All work is done that waits.
ghost use Rattle.std.specs.Prelude.{◌≡◌, ◌<◌, ◌≤◌, ◌+◌, true, false, IfOk, IfErr, OnOk};
ghost use Rattle.dn_model.specs.Course.{Base};
ghost use Rattle.dn_volume.specs.Agrees.{Agrees};
ghost use Rattle.dn_volume.specs.Sound.{Sound};
ghost use Rattle.dn_core.specs.declared.event.Event.{Event as MadeEvent};
ghost use Rattle.dn_volume.specs.Resting.{AllLanded};
ghost use Rattle.dn_core.specs.Rest.{AllRest, KeepsCounts, IsWork, Drained, DrainFails, Rounds};
ghost use Rattle.dn_core.specs.Working.{WorksOnce};

use crate::event::{DrainFault, Event};
use crate::stepping::step;
use dn_volume::{Outcome, Volume};
use fingerprint::Fingerprint;
use pm_device::Pm;
use std::alloc::Global;

// One event of the daemon or of reclaim: whether it had nothing to do. The daemon may be held up by a cleaning, with which
// reclaim goes on.
fn work_once<D: Pm, F: Fingerprint>(
    alloc: Global,
    v: &mut Volume<D, F>,
    event: Event,
) -> Result<bool, DrainFault>
    requires agrees { Agrees D.state v.old }
    requires landed { AllLanded v.old.parts }
    requires work { IsWork event }
    ensures agrees { Agrees D.state v.new }
    ensures once { WorksOnce D.state F.print event v.old v.new result }
{
    match step(alloc, v, event) {
        Outcome::Idle => Ok(true),
        Outcome::Running { .. } => Ok(false),
        Outcome::Busy { .. } => Ok(false),
        Outcome::NoMemory => Err(DrainFault::NoMemory),
        Outcome::Stopped => Err(DrainFault::Stopped),
        _ => unreachable!(),
    }
}

/// Makes one event of reclaim and one of the daemon in turn, until neither has anything to do. No client may have an
/// operation in flight.
///
/// # Errors
/// `NoMemory` where an event found no memory. `Stopped` where the volume was stopped, or a fence of the device failed.
pub fn drain<D: Pm, F: Fingerprint>(alloc: Global, v: &mut Volume<D, F>) -> Result<(), DrainFault>
    requires agrees { Agrees D.state v.old }
    requires landed { AllLanded v.old.parts }
    ensures agrees { Agrees D.state v.new }
    ensures rounds { Rounds D.state F.print v.old v.new }
    ensures drained { OnOk result (Drained D.state F.print v.new) }
    ensures fails { IfErr result (DrainFails D.state v.old v.new) }
    ensures history { v.new.parts.history.items ≡ v.old.parts.history.items }
    ensures nothing { AllRest v.old.parts → v.new.parts.trace.items ≡ v.old.parts.trace.items }
    ensures keeps { OnOk result (KeepsCounts v.old.parts v.new.parts) }
    ensures sound { (base : Base) → Sound D.state F.print base v.old
        → Sound D.state F.print base v.new }
{
    loop {
        let reclaim_rests = work_once(alloc, v, Event::Reclaim)?;
        let daemon_rests = work_once(alloc, v, Event::Daemon)?;
        if reclaim_rests & daemon_rests {
            return Ok(());
        }
    }
}
