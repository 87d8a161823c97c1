// The begin of a creation.
ghost use Rattle.std.specs.Prelude.{false, ◌≡◌, ◌↔◌, IsTrue, IfSome, IfNone, length};
ghost use Rattle.dn_model.specs.Disk.{Disk};
ghost use Rattle.dn_model.specs.declared.op.Op.TheVariants.{Create};
ghost use Rattle.dn_volume.specs.declared.volume.InodeUse.TheVariants.{Free};
ghost use Rattle.dn_volume.specs.Agrees.{Agrees, IsVolume};
ghost use Rattle.dn_volume.specs.Begins.{MayBegin, Begins};
ghost use Rattle.name_ops.specs.Creating.{NoneFreeBelow, IsLeastFree, FindsNone};
ghost use Rattle.name_ops.specs.Finding.{IsFound};

use crate::found::Found;
use crate::opening::begin_found;
use begin_steps::{find_inode, first_holder};
use dn_model::{ByteText, Op, Refusal, Reply};
use dn_volume::{InodeState, InodeUse, Outcome, Parts, Volume};
use fingerprint::Fingerprint;
use log_entry::is_legal;
use pm_device::Pm;
use std::alloc::Global;

// Whether an inode is used for nothing.
fn is_free(node: &InodeState) -> bool
    ensures { IsTrue result ↔ (node.now.used ≡ Free) }
{
    match node.used {
        InodeUse::Free => true,
        _ => false,
    }
}

// The least free inode but the root.
fn least_free(inodes: &[InodeState]) -> Option<u64>
    ensures least { IfSome result (IsLeastFree inodes.now) }
    ensures none { IfNone result (NoneFreeBelow inodes.now (length inodes.now)) }
{
    for ino in 1..inodes.len() {
        if is_free(&inodes[ino]) {
            return Some(ino as u64);
        }
    }
    None
}

// What a creation finds where no inode is free: it waits for reclaim, if that has work.
fn find_none(parts: &Parts) -> Found
    ensures { FindsNone parts.now result }
{
    let waiting = parts.reclaiming.waiting;
    if 0 < waiting {
        Found::Waits(waiting)
    } else {
        Found::Answer(Reply::Refused(Refusal::NoInode))
    }
}

// The inode of a new file, or why it is refused or has to wait.
fn find_new<D: Pm, F: Fingerprint>(v: &Volume<D, F>, name: &[u8]) -> Found
    requires agrees { Agrees D.state v.now }
    requires running { v.now.parts.stopped ≡ false }
    ensures { (d : Disk) → IsVolume d v.now.parts (D.state v.now.device)
        → IsFound d v.now.parts (Create name.now) result }
{
    if !is_legal(name) {
        return Found::Answer(Reply::Refused(Refusal::BadName));
    }
    if let Some(_) = find_inode(&v.parts.names, name) {
        return Found::Answer(Reply::Refused(Refusal::Exists));
    }
    if let Some(holder) = first_holder(&v.parts.inodes, &[0]) {
        return Found::Held(holder);
    }
    match least_free(&v.parts.inodes) {
        Some(ino) => Found::Files { ino, other: None },
        None => find_none(&v.parts),
    }
}

/// Begins the creation of a file, which takes the least free inode. Refused, in this order: `BadName` where the bytes are
/// no legal name; `Exists` where they lead to a file; busy where the root is held; `NoInode` where no inode is free, or it
/// waits where reclaim may free one; `NoSpace` where the root's log needs a page and fewer than 4 free ones would be left,
/// or it waits. `NoMemory` where there is no memory.
pub fn begin_create<D: Pm, F: Fingerprint>(
    alloc: Global,
    v: &mut Volume<D, F>,
    who: u32,
    name: ByteText,
) -> Outcome
    requires agrees { Agrees D.state v.old }
    requires running { v.old.parts.stopped ≡ false }
    requires begins { MayBegin v.old.parts who }
    ensures agrees { Agrees D.state v.new }
    ensures event { (d : Disk) → IsVolume d v.old.parts (D.state v.old.device)
        → Begins D.state who (Create name) v.old v.new d result }
{
    let found = find_new(v, name.bytes());
    begin_found(alloc, v, who, Op::Create { name }, found)
}
