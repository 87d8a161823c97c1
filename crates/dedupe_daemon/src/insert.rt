// A page that no row has gets one.
ghost use Rattle.std.specs.Prelude.{◌≡◌, ℕ, false};
ghost use Rattle.dn_model.specs.Disk.{Disk};
ghost use Rattle.dn_volume.specs.Agrees.{Agrees, IsVolume};
ghost use Rattle.dn_volume.specs.Works.{DaemonWorks};
ghost use Rattle.dedupe_daemon.specs.Looked.{IsLooking, IsToInsert};

use crate::step::{events_left, note_looked};
use count_events::release::stop;
use dn_volume::units::{LOOK_UNITS, REMAP_UNITS};
use dn_volume::{DAEMON, Outcome, Sharing, SharingStep, Volume};
use fact_changes::insert;
use fingerprint::{CountWord, Fingerprint};
use pm_device::Pm;

/// The page of the place that is looked at gets a row with its fingerprint, which no row has: no reference yet, and the
/// update that brings the first is to be settled next (DeNova, IPDPS 2022). It takes no memory. `Stopped` where a fence
/// of the device failed.
pub fn insert_row<D: Pm, F: Fingerprint>(
    v: &mut Volume<D, F>,
    sharing: Sharing,
    print: &[u8; 20],
    page: u64,
) -> Outcome
    requires agrees { Agrees D.state v.old }
    requires running { v.old.parts.stopped ≡ false }
    requires looking { IsLooking v.old.parts sharing }
    requires place { (d : Disk) → IsVolume d v.old.parts (D.state v.old.device)
        → IsToInsert F.print d sharing page print.now }
    ensures agrees { Agrees D.state v.new }
    ensures event { (d : Disk) → IsVolume d v.old.parts (D.state v.old.device)
        → DaemonWorks D.state F.print v.old v.new d result }
{
    match insert(&mut v.parts.fact, &mut v.device, DAEMON, print, page) {
        Ok(slot) => {
            let word = CountWord { rfc: 0, uc: 1 }.word();
            let step = SharingStep::Settle {
                slot,
                inserted: true,
            };
            note_looked(&mut v.parts, step, slot, word, LOOK_UNITS + REMAP_UNITS);
            Outcome::Running {
                left: events_left(&v.parts),
            }
        }
        Err(_) => {
            stop(&mut v.parts);
            Outcome::Stopped
        }
    }
}
