// A place of the daemon's item is done without a row.
ghost use Rattle.std.specs.Prelude.{◌≡◌, ℕ, ◌+◌, ◌*◌, ◌^◌, ◌<◌, ◌≤◌, false, Some};
ghost use Rattle.dn_model.specs.Disk.{Disk};
ghost use Rattle.dn_volume.specs.declared.background.Sharing.{Sharing as KeptSharing};
ghost use Rattle.dn_volume.specs.declared.background.SharingStep.TheVariants.{Look};
ghost use Rattle.dn_volume.specs.Agrees.{Agrees, IsVolume};
ghost use Rattle.dn_volume.specs.Works.{DaemonWorks, sharing_events};
ghost use Rattle.dedupe_daemon.specs.Daemon.{PassesPlace, after_place};
ghost use Rattle.dedupe_daemon.specs.Looked.{IsLooking, IsPassed};

use dn_volume::units::PLACE_UNITS;
use dn_volume::{Outcome, Parts, Sharing, SharingStep, Volume};
use fingerprint::Fingerprint;
use pm_device::Pm;

// How many events are left of an item at a place that is looked at next.
pub(crate) fn events_left(count: u64, done: u64) -> u64
    requires few { count < 2 ^ 32 }
    requires done { done ≤ count }
    ensures { (sharing : KeptSharing) → sharing.step ≡ Look → sharing.count ≡ count
        → sharing.done ≡ done → result ≡ sharing_events (Some sharing) }
{
    3 * (count - done) + 1
}

// The item, with one place more that is done.
fn next_place(sharing: Sharing) -> Sharing
    requires { sharing.done < sharing.count }
    ensures { result ≡ after_place sharing }
{
    Sharing {
        work: sharing.work,
        first: sharing.first,
        count: sharing.count,
        done: sharing.done + 1,
        step: SharingStep::Look,
    }
}

// The place that is looked at is done.
pub(crate) fn note_pass(parts: &mut Parts, sharing: Sharing)
    requires some { sharing.done < sharing.count }
    requires units { PLACE_UNITS ≤ parts.old.owed.units }
    requires changes { 2 ≤ parts.old.owed.trace }
    ensures { PassesPlace sharing parts.old parts.new }
{
    parts.sharing = Some(next_place(sharing));
    parts.made = parts.made.saturating_add(1);
    parts.owed.units -= PLACE_UNITS;
    parts.owed.trace -= 2;
}

/// The place that is looked at is passed over: the item maps it no more, it is left alone, or its page has a row.
pub fn pass_place<D: Pm, F: Fingerprint>(v: &mut Volume<D, F>, sharing: Sharing) -> Outcome
    requires agrees { Agrees D.state v.old }
    requires running { v.old.parts.stopped ≡ false }
    requires looking { IsLooking v.old.parts sharing }
    requires passed { (d : Disk) → IsVolume d v.old.parts (D.state v.old.device)
        → IsPassed d sharing }
    ensures agrees { Agrees D.state v.new }
    ensures event { (d : Disk) → IsVolume d v.old.parts (D.state v.old.device)
        → DaemonWorks D.state F.print v.old v.new d result }
{
    note_pass(&mut v.parts, sharing);
    Outcome::Running {
        left: events_left(sharing.count, sharing.done + 1),
    }
}
