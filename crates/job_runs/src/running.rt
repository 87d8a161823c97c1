// Scripts are run on a volume.
ghost use Rattle.std.specs.Prelude.{◌≡◌, ◌≤◌};
ghost use Rattle.dn_model.specs.Course.{Base};
ghost use Rattle.dn_volume.specs.Agrees.{Agrees};
ghost use Rattle.dn_volume.specs.Sound.{Sound};
ghost use Rattle.job_runs.specs.Reaching.{Reaches};
ghost use Rattle.job_runs.specs.Scripts.{Rises, Suits};
ghost use Rattle.job_runs.specs.Playing.{IsNew, RunsJob, EndsJob};

use crate::plan::{Order, Scripts};
use crate::player::Player;
use crate::script::RunFault;
use crate::turn::turn_of;
use dn_core::step;
use dn_volume::{Outcome, Volume};
use fingerprint::Fingerprint;
use pm_device::Pm;
use std::alloc::Global;

// The events after which a run would give up. None makes as many: each event of an operation in flight, of the daemon or of
// reclaim leaves less of its work, a begin that waits for releases leaves less that waits, and one that is held up comes
// again only behind a turn of everybody else.
const MOST_EVENTS: u64 = u64::MAX;

/// Runs the scripts of clients on a volume that was just mounted, each operation to its reply, until every script is
/// answered; where clients come in turns, until the daemon and reclaim have nothing left to do in a whole round either. The
/// turns of the schedule come first, a number each: of a client, 15 for the daemon or 16 for reclaim. A client with an
/// operation in flight goes on with it in its turn, else it begins its next one, else nothing happens. A begin that is held
/// up or waits for releases is made again at the client's next turn.
///
/// # Errors
/// `NoMemory` where an event found no memory, or there was none for the run itself. `Stopped` where a fence of the device
/// failed. The operations that were answered before have their replies in the history then.
pub fn play<D: Pm, F: Fingerprint>(
    alloc: Global,
    v: &mut Volume<D, F>,
    scripts: &Scripts,
    turns: &[u32],
    order: Order,
) -> Result<(), RunFault>
    requires agrees { Agrees D.state v.old }
    requires new { IsNew v.old.parts }
    requires clients { Rises 0 scripts.now }
    requires suits { Suits order scripts.now }
    ensures agrees { Agrees D.state v.new }
    ensures reaches { Reaches D.state F.print v.old v.new }
    ensures sound { (base : Base) → Sound D.state F.print base v.old
        → Sound D.state F.print base v.new }
    ensures runs { (base : Base) → Sound D.state F.print base v.old
        → RunsJob D.state order scripts.now turns.now base v.old v.new result }
    ensures ends { EndsJob D.state v.old v.new result }
    ensures faults { (D.state v.old.device).faults ≤ (D.state v.new.device).faults }
{
    let mut player = Player::new(alloc, turns)?;
    for _made in 0..MOST_EVENTS {
        let Some(event) = player.next(alloc, scripts, order)? else {
            return Ok(());
        };
        let turn = turn_of(&event);
        match step(alloc, v, event) {
            Outcome::NoMemory => return Err(RunFault::NoMemory),
            Outcome::Stopped => return Err(RunFault::Stopped),
            Outcome::NotYours => unreachable!(),
            outcome => player.note(order, turn, &outcome)?,
        }
    }
    Err(RunFault::NoMemory)
}
