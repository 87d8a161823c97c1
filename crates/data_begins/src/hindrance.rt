// What stands in the way of a write or a cut.
ghost use Rattle.std.specs.Prelude.{◌≡◌, ◌⊎◌, ◌↔◌, ◌+◌, ◌<◌, ◌≤◌, length, IsTrue, []};
ghost use Rattle.data_begins.specs.Hindered.{LacksPages, IsCrowded, IsHindrance};

use begin_steps::first_holder;
use dn_model::{MOST_RELEASES, RESERVE};
use dn_volume::Parts;

/// Why a write or a cut that the files grant doesn't begin.
#[derive(Clone, Copy, Debug, PartialEq, Eq)]
pub enum Hindrance {
    /// Its file is held by this actor.
    Held {
        /// The actor that holds it.
        holder: u32,
    },
    /// Pages or room for releases are wanting, and something waits to be released.
    Waits,
    /// Pages are wanting, and nothing waits to be released.
    NoSpace,
}

// Whether the free pages are too few for so many and the reserve.
fn lacks_pages(parts: &Parts, needed: u64) -> bool
    requires { needed ≤ 18 }
    ensures { IsTrue result ↔ LacksPages parts.now needed }
{
    needed > 0 && parts.free.count() < needed + RESERVE
}

// Whether so many releases are too many beside those that wait.
fn is_crowded(parts: &Parts, lost: u64) -> bool
    requires { lost ≤ 4096 }
    ensures { IsTrue result ↔ IsCrowded parts.now lost }
{
    parts.reclaiming.releases.len() as u64 > MOST_RELEASES - lost
}

/// What stands in the way of a write or a cut of this inode that needs so many pages, and whose places that lose their
/// pages have so many rows.
pub fn find_hindrance(parts: &Parts, ino: u64, needed: u64, lost: u64) -> Option<Hindrance>
    requires there { ino < length parts.now.inodes.items }
    requires needed { needed ≤ 18 }
    requires lost { lost ≤ 4096 }
    requires few { parts.now.reclaiming.waiting ≡ 0 → parts.now.reclaiming.releases.items ≡ [] }
    ensures { IsHindrance parts.now ino needed lost result }
{
    if let Some(holder) = first_holder(&parts.inodes, &[ino]) {
        return Some(Hindrance::Held { holder });
    }
    let full = lacks_pages(parts, needed);
    if !full && !is_crowded(parts, lost) {
        return None;
    }
    if parts.reclaiming.waiting > 0 {
        return Some(Hindrance::Waits);
    }
    Some(Hindrance::NoSpace)
}
