// What a write or a cut asks, and whether it has it.
ghost use Rattle.std.specs.Prelude.{◌≡◌, ◌+◌, ◌<◌, ◌≤◌, length, false};
ghost use Rattle.dn_model.specs.Disk.{Disk};
ghost use Rattle.dn_model.specs.declared.op.Op.{Op as DiskOp};
ghost use Rattle.dn_volume.specs.Agrees.{Agrees, IsVolume};
ghost use Rattle.data_begins.specs.Asked.{IsAsk, IsAsked, IsInTheWay};

use crate::hindrance::{Hindrance, find_hindrance};
use crate::places::count_rows;
use dn_volume::Volume;
use fingerprint::Fingerprint;
use pm_device::Pm;

/// What a write or a cut that the files grant asks for.
#[derive(Clone, Copy, Debug, PartialEq, Eq)]
pub struct DataAsk {
    /// The inode of its file.
    pub ino: u64,
    /// How many pages it needs, with that of the log.
    pub needed: u64,
    /// The first place that loses its page.
    pub lost: u64,
    /// How many places from there on lose theirs.
    pub lost_places: u64,
}

/// What stands in the way of a write or a cut that asks so. It takes no memory.
pub fn in_the_way<D: Pm, F: Fingerprint>(v: &Volume<D, F>, ask: &DataAsk) -> Option<Hindrance>
    requires agrees { Agrees D.state v.now }
    requires running { v.now.parts.stopped ≡ false }
    requires asks { (d : Disk) → IsVolume d v.now.parts (D.state v.now.device) → IsAsked d ask.now }
    ensures { (d : Disk) (op : DiskOp) → IsVolume d v.now.parts (D.state v.now.device)
        → IsAsk d op ask.now → IsInTheWay d v.now.parts op ask.now result }
{
    let node = &v.parts.inodes[ask.ino as usize];
    let lost = count_rows(
        &v.parts.fact,
        &v.device,
        &node.map,
        ask.lost,
        ask.lost_places,
    );
    find_hindrance(&v.parts, ask.ino, ask.needed, lost)
}
