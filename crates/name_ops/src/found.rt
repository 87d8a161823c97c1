// What the begin of an operation on names finds.
ghost use Rattle.std.specs.Prelude.{◌≡◌, ◌≤◌};
ghost use Rattle.dn_model.specs.Disk.{Disk};
ghost use Rattle.dn_model.specs.History.{extra, reserve};
ghost use Rattle.dn_volume.specs.Agrees.{IsVolume};
ghost use Rattle.name_ops.specs.Finding.{IsFound, IsFoundRoom, LooksAtRoom, op_slots};

use dn_model::{MOST_RELEASES, Op, REMOVE_RESERVE, RESERVE, Refusal, Reply};
use dn_volume::{Parts, Volume};
use fingerprint::Fingerprint;
use pm_device::Pm;

/// What the begin of an operation on names finds.
#[derive(Debug, Drop)]
pub enum Found {
    /// It is answered at once.
    Answer(Reply),
    /// An inode that it must hold is held by this actor.
    Held(u32),
    /// It lacks an inode or space, while reclaim has so many units of work.
    Waits(u64),
    /// The inodes that it makes, removes, renames or replaces. Nobody holds them or the root.
    Files {
        /// The file that is made, removed or renamed.
        ino: u64,
        /// The file that is replaced.
        other: Option<u64>,
    },
}

// The free pages that an operation leaves.
fn reserve_of(op: &Op) -> u64
    ensures { result ≡ reserve op.now }
{
    match op {
        Op::Remove { .. } => REMOVE_RESERVE,
        _ => RESERVE,
    }
}

// Looks at space and at the room for releases.
fn look_at_room(parts: &Parts, pages: u64, spare: u64, ino: u64, other: Option<u64>) -> Found
    requires few { pages ≤ 1 }
    requires small { spare ≤ 4 }
    ensures { LooksAtRoom parts.now pages spare ino other result }
{
    let free = parts.free.count();
    let too_few = 0 < pages && free < pages + spare;
    let waiting = parts.reclaiming.waiting;
    if 0 < waiting && (too_few || MOST_RELEASES < parts.reclaiming.releases.len() as u64) {
        return Found::Waits(waiting);
    }
    if too_few {
        return Found::Answer(Reply::Refused(Refusal::NoSpace {
            needed: pages,
            free,
        }));
    }
    Found::Files { ino, other }
}

/// Where nothing else stands in the way of an operation on names that needs so many pages, space and room for releases
/// are looked at.
pub fn find_room<D: Pm, F: Fingerprint>(
    v: &Volume<D, F>,
    op: &Op,
    pages: u64,
    found: Found,
) -> Found
    requires few { pages ≤ 1 }
    requires found { (d : Disk) → IsVolume d v.now.parts (D.state v.now.device)
        → IsFound d v.now.parts op.now found }
    requires needs { (d : Disk) → IsVolume d v.now.parts (D.state v.now.device)
        → pages ≡ extra (op_slots op.now) (d.inode 0).log }
    ensures { (d : Disk) → IsVolume d v.now.parts (D.state v.now.device)
        → IsFoundRoom d v.now.parts op.now result }
{
    match found {
        Found::Files { ino, other } => look_at_room(&v.parts, pages, reserve_of(op), ino, other),
        found => found,
    }
}
