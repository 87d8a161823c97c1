// The place that is looked at is left alone.
ghost use Rattle.std.specs.Prelude.{◌≡◌, ℕ, ◌^◌, ◌<◌, false, bit_or};
ghost use Rattle.dn_model.specs.Disk.{Disk};
ghost use Rattle.dn_volume.specs.Agrees.{Agrees, IsVolume};
ghost use Rattle.dn_volume.specs.Works.{DaemonWorks};
ghost use Rattle.dedupe_daemon.specs.Looked.{IsLooking, IsToMask};

use crate::pass::{events_left, note_pass};
use crate::place::mask_of;
use count_events::release::stop;
use dn_volume::{DAEMON, Outcome, Sharing, Volume};
use fingerprint::Fingerprint;
use inode_log::flag::set_mask;
use pm_device::Pm;

// The mask with bit k set too.
fn with_bit(mask: u64, k: u64) -> u64
    requires { k < 64 }
    ensures { result ≡ bit_or mask (2 ^ k) }
{
    mask | (1 << k)
}

/// The place that is looked at is left alone, since a row has the print of its page, and a page with other bytes: its
/// bit of the item's mask is set. It takes no memory. `Stopped` where a fence of the device failed.
pub fn mask_place<D: Pm, F: Fingerprint>(v: &mut Volume<D, F>, sharing: Sharing) -> Outcome
    requires agrees { Agrees D.state v.old }
    requires running { v.old.parts.stopped ≡ false }
    requires looking { IsLooking v.old.parts sharing }
    requires other { (page : ℕ) × ((d : Disk) → IsVolume d v.old.parts (D.state v.old.device)
        → IsToMask F.print d sharing page) }
    ensures agrees { Agrees D.state v.new }
    ensures event { (d : Disk) → IsVolume d v.old.parts (D.state v.old.device)
        → DaemonWorks D.state F.print v.old v.new d result }
{
    let g = v.parts.geometry;
    let slot = sharing.work.slot;
    let mask = with_bit(mask_of(&v.device, slot), sharing.done);
    match set_mask(&mut v.device, &g, DAEMON, slot, mask) {
        Ok(()) => {
            note_pass(&mut v.parts, sharing);
            Outcome::Running {
                left: events_left(sharing.count, sharing.done + 1),
            }
        }
        Err(_) => {
            stop(&mut v.parts);
            Outcome::Stopped
        }
    }
}
