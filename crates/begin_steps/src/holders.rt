// Who holds inodes.
ghost use Rattle.std.specs.Prelude.{◌≡◌, ◌<◌, length, slice_get, Some, All, IfSome, IfNone};
ghost use Rattle.dn_volume.specs.declared.volume.InodeState.{InodeState as KeptInode};
ghost use Rattle.begin_steps.specs.Held.{IsHeldAmong, AreLooseAmong};

use dn_volume::InodeState;

// The actor that holds an inode, if one does.
fn holder_of(inodes: &[InodeState], ino: u64) -> Option<u32>
    requires { ino < length inodes.now }
    ensures { (n : KeptInode) → slice_get inodes.now ino ≡ Some n → result ≡ n.holder }
{
    inodes[ino as usize].holder
}

/// The actor that holds the first of these inodes that is held, in the order in which they are given.
pub fn first_holder(inodes: &[InodeState], wanted: &[u64]) -> Option<u32>
    requires { All (λ ino. ino < length inodes.now) wanted.now }
    ensures held { IfSome result (IsHeldAmong inodes.now wanted.now) }
    ensures loose { IfNone result (AreLooseAmong inodes.now wanted.now) }
{
    for i in 0..wanted.len() {
        let ino = wanted[i];
        if let Some(who) = holder_of(inodes, ino) {
            return Some(who);
        }
    }
    None
}
