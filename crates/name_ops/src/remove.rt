// The begin of a removal.
ghost use Rattle.std.specs.Prelude.{false, ◌≡◌};
ghost use Rattle.dn_model.specs.Disk.{Disk};
ghost use Rattle.dn_model.specs.declared.op.Op.TheVariants.{Remove};
ghost use Rattle.dn_volume.specs.Agrees.{Agrees, IsVolume};
ghost use Rattle.dn_volume.specs.Begins.{MayBegin, Begins};
ghost use Rattle.name_ops.specs.Finding.{IsFound};

use crate::found::Found;
use crate::opening::begin_found;
use begin_steps::{find_inode, first_holder};
use dn_model::{ByteText, Op, Refusal, Reply};
use dn_volume::{Outcome, Volume};
use fingerprint::Fingerprint;
use log_entry::is_legal;
use pm_device::Pm;
use std::alloc::Global;

// The file that a removal speaks of, or why it is refused or has to wait.
fn find_removed<D: Pm, F: Fingerprint>(v: &Volume<D, F>, name: &[u8]) -> Found
    requires agrees { Agrees D.state v.now }
    requires running { v.now.parts.stopped ≡ false }
    ensures { (d : Disk) → IsVolume d v.now.parts (D.state v.now.device)
        → IsFound d v.now.parts (Remove name.now) result }
{
    if !is_legal(name) {
        return Found::Answer(Reply::Refused(Refusal::BadName));
    }
    let Some(ino) = find_inode(&v.parts.names, name) else {
        return Found::Answer(Reply::Refused(Refusal::NotFound));
    };
    match first_holder(&v.parts.inodes, &[0, ino]) {
        Some(holder) => Found::Held(holder),
        None => Found::Files { ino, other: None },
    }
}

/// Begins the removal of a file. Refused, in this order: `BadName` where the bytes are no legal name; `NotFound` where
/// they lead to no file; busy where the root or the file is held; `NoSpace` where the root's log needs a page and fewer
/// than 2 free ones would be left, or it waits where reclaim may free some. `NoMemory` where there is no memory.
pub fn begin_remove<D: Pm, F: Fingerprint>(
    alloc: Global,
    v: &mut Volume<D, F>,
    who: u32,
    name: ByteText,
) -> Outcome
    requires agrees { Agrees D.state v.old }
    requires running { v.old.parts.stopped ≡ false }
    requires begins { MayBegin v.old.parts who }
    ensures agrees { Agrees D.state v.new }
    ensures event { (d : Disk) → IsVolume d v.old.parts (D.state v.old.device)
        → Begins D.state who (Remove name) v.old v.new d result }
{
    let found = find_removed(v, name.bytes());
    begin_found(alloc, v, who, Op::Remove { name }, found)
}
