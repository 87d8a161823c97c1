// A page that has equal bytes with a row's page is to be shared: the row is raised.
ghost use Rattle.std.specs.Prelude.{◌≡◌, ℕ, false};
ghost use Rattle.dn_model.specs.Disk.{Disk};
ghost use Rattle.dn_volume.specs.Agrees.{Agrees, IsVolume};
ghost use Rattle.dn_volume.specs.Works.{DaemonWorks};
ghost use Rattle.dedupe_daemon.specs.Looked.{IsLooking, IsToShare};

use crate::step::{events_left, note_looked};
use count_events::raise::raise_at;
use count_events::release::stop;
use dn_volume::units::LOOK_UNITS;
use dn_volume::{DAEMON, Outcome, Sharing, SharingStep, Volume};
use fingerprint::Fingerprint;
use pm_device::Pm;

/// The row at this slot, whose page has the bytes of the place that is looked at, gets an update more under way: the
/// place is to be mapped to that page next (DeNova, IPDPS 2022). It takes no memory. `Stopped` where a fence of the
/// device failed.
pub fn raise_share<D: Pm, F: Fingerprint>(
    v: &mut Volume<D, F>,
    sharing: Sharing,
    slot: u64,
) -> Outcome
    requires agrees { Agrees D.state v.old }
    requires running { v.old.parts.stopped ≡ false }
    requires looking { IsLooking v.old.parts sharing }
    requires place { (page : ℕ) × ((d : Disk)
        → IsVolume d v.old.parts (D.state v.old.device) → IsToShare d sharing page slot) }
    ensures agrees { Agrees D.state v.new }
    ensures event { (d : Disk) → IsVolume d v.old.parts (D.state v.old.device)
        → DaemonWorks D.state F.print v.old v.new d result }
{
    match raise_at(&v.parts.fact, &mut v.device, DAEMON, slot) {
        Ok(word) => {
            let step = SharingStep::Remap { slot };
            note_looked(&mut v.parts, step, slot, word, LOOK_UNITS);
            Outcome::Running {
                left: events_left(&v.parts),
            }
        }
        Err(_) => {
            stop(&mut v.parts);
            Outcome::Stopped
        }
    }
}
