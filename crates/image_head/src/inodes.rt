// The inodes of a rolled image: the first that has a fault, and what each is used for.
ghost use Rattle.std.specs.Prelude.{◌≡◌, ◌+◌, ◌*◌, ◌<◌, ◌≤◌, ◌↔◌, ℕ, length, IsTrue, IsNone, IfSome};
ghost use Rattle.pm_device.specs.Reading.{Reads};
ghost use Rattle.pm_layout.specs.Geometry.{IsAccepted};
ghost use Rattle.dn_model.specs.Disk.{Disk, InodesSay};
ghost use Rattle.dn_model.specs.Faults.{IsLeast, IsBadInode};
ghost use Rattle.image_head.specs.Uses.{told_use};
ghost use Rattle.image_head.specs.Laws.{InodesAreRead, InodesStay};

use inode_table::read_field;
use log_entry::FILE_PAGES;
use pm_device::Pm;
use pm_layout::{CUT, DYING, FREE, Geometry, LIVE, STATE};

/// What an inode is used for.
#[derive(Clone, Copy, Debug, PartialEq, Eq)]
pub enum InodeUse {
    Free,
    Live,
    /// A file that was removed: only its pages below the cut are still mapped.
    Dying { cut: u64 },
}

// Whether this inode has a fault, by its state and its cut.
fn is_bad_inode<D: Pm>(device: &D, g: &Geometry, ino: u64) -> bool
    requires accepted { IsAccepted g.now }
    requires size { length (D.state device.now).now ≡ 512 * g.now.pages }
    requires ino { ino < g.now.inodes }
    ensures { IsTrue result ↔ IsBadInode (D.state device.now).now ino }
{
    let state = read_field(device, g, ino, STATE);
    let cut = read_field(device, g, ino, CUT);
    state > DYING || (ino == 0 && state != LIVE) || (state == DYING && cut > FILE_PAGES)
}

/// The least inode with a fault of a rolled image: its state is above 2, or it is the root and not live, or it is
/// dying and its cut is above 4,096.
pub fn inode_fault<D: Pm>(device: &D, g: &Geometry) -> Option<u64>
    requires accepted { IsAccepted g.now }
    requires size { length (D.state device.now).now ≡ 512 * g.now.pages }
    ensures some { IfSome result
        (λ ino. IsLeast g.now.inodes (IsBadInode (D.state device.now).now) ino) }
    ensures none { IsNone result → (ino : ℕ) → ino < g.now.inodes
        → IsBadInode (D.state device.now).now ino → ⊥ }
{
    for ino in 0..g.inodes {
        if is_bad_inode(device, g, ino) {
            return Some(ino);
        }
    }
    None
}

/// What an inode is used for, of a rolled image whose inodes have no fault: as in each state that says these words.
pub fn use_of_inode<D: Pm>(device: &D, g: &Geometry, ino: u64) -> InodeUse
    requires accepted { IsAccepted g.now }
    requires size { length (D.state device.now).now ≡ 512 * g.now.pages }
    requires ino { ino < g.now.inodes }
    ensures { (d : Disk) → d.geometry ≡ g.now → Reads (InodesSay d) (D.state device.now).now
        → (d.inode ino).use_of ≡ told_use result }
{
    match read_field(device, g, ino, STATE) {
        FREE => InodeUse::Free,
        LIVE => InodeUse::Live,
        _ => InodeUse::Dying {
            cut: read_field(device, g, ino, CUT),
        },
    }
}

/// Where no inode of the rolled image has a fault, there is a state whose inodes the image says. Each state with the
/// same geometry and the same uses is another, whatever its logs, chains, pointers and pages.
pub fn inodes_read()
    ensures read { InodesAreRead }
    ensures stay { InodesStay }
{}
