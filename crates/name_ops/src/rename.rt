// The begin of a renaming.
ghost use Rattle.std.specs.Prelude.{false, ◌≡◌, ◌∷◌, ◌<◌, ℕ, All, IfSome, IfNone, IsTrue, ◌↔◌, length};
ghost use Rattle.log_entry.specs.Name.{IsLegal};
ghost use Rattle.dn_model.specs.Disk.{Disk};
ghost use Rattle.dn_model.specs.declared.op.Op.TheVariants.{Rename};
ghost use Rattle.dn_volume.specs.PlannedNames.{inode_list};
ghost use Rattle.dn_volume.specs.Agrees.{Agrees, IsVolume};
ghost use Rattle.dn_volume.specs.Begins.{MayBegin, Begins};
ghost use Rattle.begin_steps.specs.Held.{IsHeldAmong, AreLooseAmong};
ghost use Rattle.name_ops.specs.Finding.{IsFound};

use crate::found::Found;
use crate::opening::begin_found;
use begin_steps::{find_inode, first_holder};
use dn_model::{ByteText, Op, Refusal, Reply};
use dn_volume::{InodeState, Outcome, Volume};
use fingerprint::Fingerprint;
use log_entry::is_legal;
use pm_device::Pm;
use std::alloc::Global;

// The actor that holds the first of the root, the file that is renamed and the one that is replaced that is held.
fn holder_among(inodes: &[InodeState], ino: u64, other: Option<u64>) -> Option<u32>
    requires { All (λ i. i < length inodes.now) (0 ∷ ino ∷ inode_list other) }
    ensures held { IfSome result (IsHeldAmong inodes.now (0 ∷ ino ∷ inode_list other)) }
    ensures loose { IfNone result (AreLooseAmong inodes.now (0 ∷ ino ∷ inode_list other)) }
{
    match other {
        Some(replaced) => first_holder(inodes, &[0, ino, replaced]),
        None => first_holder(inodes, &[0, ino]),
    }
}

// Whether both are names that a file may have.
fn are_legal(from: &[u8], to: &[u8]) -> bool
    ensures { IsTrue result ↔ (IsLegal from.now × IsLegal to.now) }
{
    is_legal(from) && is_legal(to)
}

// Whether they are the same bytes.
fn are_same(from: &[u8], to: &[u8]) -> bool
    ensures { IsTrue result ↔ (from.now ≡ to.now) }
{
    from == to
}

// The files that a renaming speaks of, or why it is refused or has to wait.
fn find_renamed<D: Pm, F: Fingerprint>(v: &Volume<D, F>, from: &[u8], to: &[u8]) -> Found
    requires agrees { Agrees D.state v.now }
    requires running { v.now.parts.stopped ≡ false }
    ensures { (d : Disk) → IsVolume d v.now.parts (D.state v.now.device)
        → IsFound d v.now.parts (Rename from.now to.now) result }
{
    if !are_legal(from, to) {
        return Found::Answer(Reply::Refused(Refusal::BadName));
    }
    let Some(ino) = find_inode(&v.parts.names, from) else {
        return Found::Answer(Reply::Refused(Refusal::NotFound));
    };
    if are_same(from, to) {
        return Found::Answer(Reply::Done);
    }
    let other = find_inode(&v.parts.names, to);
    match holder_among(&v.parts.inodes, ino, other) {
        Some(holder) => Found::Held(holder),
        None => Found::Files { ino, other },
    }
}

/// Begins the renaming of a file; one onto its own name is done at once. Refused, in this order: `BadName` where either
/// name's bytes are no legal name; `NotFound` where `from` leads to no file; busy where the root or one of the two files
/// is held; `NoSpace` where the root's log needs a page and fewer than 4 free ones would be left, or it waits where
/// reclaim may free some. `NoMemory` where there is no memory.
pub fn begin_rename<D: Pm, F: Fingerprint>(
    alloc: Global,
    v: &mut Volume<D, F>,
    who: u32,
    from: ByteText,
    to: ByteText,
) -> Outcome
    requires agrees { Agrees D.state v.old }
    requires running { v.old.parts.stopped ≡ false }
    requires begins { MayBegin v.old.parts who }
    ensures agrees { Agrees D.state v.new }
    ensures event { (d : Disk) → IsVolume d v.old.parts (D.state v.old.device)
        → Begins D.state who (Rename from to) v.old v.new d result }
{
    let found = find_renamed(v, from.bytes(), to.bytes());
    begin_found(alloc, v, who, Op::Rename { from, to }, found)
}
