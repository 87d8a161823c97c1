// The daemon's item is ended.
ghost use Rattle.std.specs.Prelude.{◌≡◌, ◌+◌, ◌*◌, ◌<◌, ◌≤◌, ℕ, Option, length, false, Some, None};
ghost use Rattle.dn_model.specs.Disk.{Disk};
ghost use Rattle.dn_volume.specs.declared.background.SharingStep.TheVariants.{Look};
ghost use Rattle.dn_volume.specs.Agrees.{Agrees, IsVolume};
ghost use Rattle.dn_volume.specs.Works.{DaemonWorks};
ghost use Rattle.reclaim.specs.Worked.{ChangesOne};
ghost use Rattle.dedupe_daemon.specs.Daemon.{IsHeldBy, EndsItem};

use count_events::release::stop;
use dn_volume::units::END_UNITS;
use dn_volume::{DAEMON, InodeState, Outcome, Parts, Sharing, Volume};
use fingerprint::Fingerprint;
use inode_log::flag::set_flag;
use log_entry::Flag;
use pm_device::Pm;

// Another holds an inode, or nobody does.
fn hold_state(node: &mut InodeState, holder: Option<u32>)
    ensures { IsHeldBy holder node.old node.new }
{
    node.holder = holder;
}

// So it is with the inode at a place of the list.
pub(crate) fn hold_inode(inodes: &mut Vec<InodeState>, ino: u64, holder: Option<u32>)
    requires { ino < length inodes.old.items }
    ensures { ChangesOne (IsHeldBy holder) ino inodes.old.items inodes.new.items }
{
    hold_state(&mut inodes[ino as usize], holder);
}

// The item of this inode is ended.
fn note_end(parts: &mut Parts, ino: u64)
    requires there { ino < length parts.old.inodes.items }
    requires units { END_UNITS ≤ parts.old.owed.units }
    ensures { EndsItem ino parts.old parts.new }
{
    hold_inode(&mut parts.inodes, ino, None);
    parts.sharing = None;
    parts.made = parts.made.saturating_add(1);
    parts.owed.units -= END_UNITS;
}

/// The item whose places are all done is flagged complete, and its inode is let go. It takes no memory. `Stopped` where
/// a fence of the device failed.
pub fn end_item<D: Pm, F: Fingerprint>(v: &mut Volume<D, F>, sharing: Sharing) -> Outcome
    requires agrees { Agrees D.state v.old }
    requires running { v.old.parts.stopped ≡ false }
    requires begun { v.old.parts.sharing ≡ Some sharing }
    requires look { sharing.step ≡ Look }
    requires all_done { sharing.count ≤ sharing.done }
    ensures agrees { Agrees D.state v.new }
    ensures event { (d : Disk) → IsVolume d v.old.parts (D.state v.old.device)
        → DaemonWorks D.state F.print v.old v.new d result }
{
    let g = v.parts.geometry;
    match set_flag(&mut v.device, &g, DAEMON, sharing.work.slot, Flag::Complete) {
        Ok(()) => {
            note_end(&mut v.parts, sharing.work.ino);
            Outcome::Running { left: 0 }
        }
        Err(_) => {
            stop(&mut v.parts);
            Outcome::Stopped
        }
    }
}
