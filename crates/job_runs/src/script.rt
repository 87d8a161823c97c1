// A script of one client, while nobody else has anything in flight.
ghost use Rattle.std.specs.Prelude.{◌≡◌, ◌≤◌};
ghost use Rattle.dn_volume.specs.Agrees.{Agrees};
ghost use Rattle.job_runs.specs.Reaching.{Reaches, IsLoose, FliesAlone, BeginsOp, RunsOp, RunsScript};

use dn_core::{Event, step};
use dn_model::Op;
use dn_volume::{Outcome, Volume};
use fingerprint::Fingerprint;
use pm_device::Pm;
use std::alloc::{AllocError, Global};
use thiserror::Error;

/// Why a script wasn't run to its end.
#[derive(Clone, Copy, Debug, PartialEq, Eq, Error)]
pub enum RunFault {
    /// Memory ran out.
    #[error("out of memory")]
    NoMemory,
    /// A fence of the device failed.
    #[error("the device failed")]
    Stopped,
}

impl From<AllocError> for RunFault {
    ghost use Rattle.std.specs.Prelude.{◌≡◌};
    ghost use Rattle.job_runs.specs.declared.script.RunFault.TheVariants.{NoMemory};

    ghost from_gives = { λ _ e. e ≡ NoMemory };

    fn from(_fault: AllocError) -> RunFault {
        RunFault::NoMemory
    }
}

// Begins an operation, again for as long as it waits for releases: whether it is in flight, or else answered.
fn begin_op<D: Pm, F: Fingerprint>(
    alloc: Global,
    v: &mut Volume<D, F>,
    who: u32,
    op: &Op,
) -> Result<bool, RunFault>
    requires agrees { Agrees D.state v.old }
    requires client { (1 ≤ who) × (who ≤ 14) }
    requires loose { IsLoose v.old.parts }
    ensures agrees { Agrees D.state v.new }
    ensures reaches { Reaches D.state F.print v.old v.new }
    ensures begins { BeginsOp D.state who op.now v.old v.new result }
{
    loop {
        let again = op.copy(alloc)?;
        match step(alloc, v, Event::Begin { who, op: again }) {
            Outcome::Running { .. } => return Ok(true),
            Outcome::Done(_) => return Ok(false),
            Outcome::NoMemory => return Err(RunFault::NoMemory),
            Outcome::Stopped => return Err(RunFault::Stopped),
            Outcome::Released { .. } => {}
            _ => unreachable!(),
        }
    }
}

// Goes on with an operation in flight until it is answered.
fn finish_op<D: Pm, F: Fingerprint>(
    alloc: Global,
    v: &mut Volume<D, F>,
    who: u32,
    op: &Op,
) -> Result<(), RunFault>
    requires agrees { Agrees D.state v.old }
    requires client { (1 ≤ who) × (who ≤ 14) }
    requires flies { FliesAlone v.old.parts who op.now }
    ensures agrees { Agrees D.state v.new }
    ensures reaches { Reaches D.state F.print v.old v.new }
    ensures runs { RunsOp D.state who op.now v.old v.new result }
{
    loop {
        match step(alloc, v, Event::Advance { who }) {
            Outcome::Running { .. } => {}
            Outcome::Done(_) => return Ok(()),
            Outcome::Stopped => return Err(RunFault::Stopped),
            _ => unreachable!(),
        }
    }
}

// Runs one operation to its reply.
fn run_op<D: Pm, F: Fingerprint>(
    alloc: Global,
    v: &mut Volume<D, F>,
    who: u32,
    op: &Op,
) -> Result<(), RunFault>
    requires agrees { Agrees D.state v.old }
    requires client { (1 ≤ who) × (who ≤ 14) }
    requires loose { IsLoose v.old.parts }
    ensures agrees { Agrees D.state v.new }
    ensures reaches { Reaches D.state F.print v.old v.new }
    ensures runs { RunsOp D.state who op.now v.old v.new result }
{
    if begin_op(alloc, v, who, op)? {
        return finish_op(alloc, v, who, op);
    }
    Ok(())
}

/// Runs the operations of a client one after another, each to its reply. A begin that waits for releases is made again.
/// Nobody else may have anything in flight.
///
/// # Errors
/// `NoMemory` where an operation found no memory, or its copy none. `Stopped` where the volume was stopped, or a fence of
/// the device failed. The operations before have their replies in the history then.
pub fn run_script<D: Pm, F: Fingerprint>(
    alloc: Global,
    v: &mut Volume<D, F>,
    who: u32,
    ops: &[Op],
) -> Result<(), RunFault>
    requires agrees { Agrees D.state v.old }
    requires client { (1 ≤ who) × (who ≤ 14) }
    requires loose { IsLoose v.old.parts }
    ensures agrees { Agrees D.state v.new }
    ensures reaches { Reaches D.state F.print v.old v.new }
    ensures runs { RunsScript D.state who ops.now v.old v.new result }
{
    for op in ops {
        run_op(alloc, v, who, op)?;
    }
    Ok(())
}
