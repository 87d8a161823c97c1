// What is kept of an inode.
ghost use Rattle.std.specs.Prelude.{◌≡◌, ◌≤◌, ℕ, length, None};
ghost use Rattle.dn_model.specs.Disk.{Disk, IsUsed};
ghost use Rattle.file_scan.specs.Index.{IsIndexOf};
ghost use Rattle.dn_volume.specs.Inodes.{as_use, IsInodeOf};
ghost use Rattle.image_keep.specs.Needed.{KeepsPlaces};

use dn_volume::{InodeState, InodeUse};
use file_index::PageMap;
use file_scan::FileIndex;
use std::alloc::Global;

// The places of a used inode that are kept: those below the cut, if it is dying.
fn kept_places(used: InodeUse, map: PageMap) -> PageMap
    ensures { KeepsPlaces used map.map result.map }
{
    match used {
        InodeUse::Free | InodeUse::Live => map,
        InodeUse::Dying { cut } => {
            let mut map = map;
            map.cut(cut);
            map
        }
    }
}

/// What is kept of a used inode, of the places and the pages of its log: the places below the cut, if it is dying.
pub fn used_inode(used: InodeUse, index: FileIndex, log_pages: u64) -> InodeState
    requires small { index.size ≤ 16777216 }
    ensures inode { (d : Disk) (ino : ℕ) → (d.inode ino).use_of ≡ as_use used → IsUsed (as_use used)
        → IsIndexOf (d.inode ino).log index → length (d.inode ino).log.pages ≡ log_pages
        → IsInodeOf d ino result }
    ensures unheld { result.holder ≡ None }
    ensures round { result.round ≡ 0 }
{
    let FileIndex { size, map } = index;
    InodeState {
        used,
        size,
        map: kept_places(used, map),
        log_pages,
        round: 0,
        holder: None,
    }
}

/// What is kept of an inode that isn't used.
pub fn unused_inode(alloc: Global) -> InodeState
    ensures free { result.used ≡ InodeUse.Free }
    ensures inode { (d : Disk) (ino : ℕ) → (d.inode ino).use_of ≡ as_use result.used
        → IsInodeOf d ino result }
    ensures unheld { result.holder ≡ None }
    ensures round { result.round ≡ 0 }
{
    InodeState {
        used: InodeUse::Free,
        size: 0,
        map: PageMap::new(alloc),
        log_pages: 0,
        round: 0,
        holder: None,
    }
}
