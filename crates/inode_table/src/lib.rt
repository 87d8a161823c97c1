//! Inodes, one word a field.
//!
//! An inode has 16 words in the image's inode table, of which four are read: its state, and the head, the tail and
//! the cut of its log. Storing here makes nothing durable: what is stored is flushed, and the actor's next fence
//! settles it.
#![tactic(auto)]

ghost use Rattle.std.specs.Prelude.{◌≡◌, ◌+◌, ◌*◌, ◌<◌, ◌≤◌, ℕ, List, [], ◌∷◌, length, slice_index};
ghost use Rattle.pm_device.specs.Settled.{IsSettled, SettledOn, LeavesOnly, KeepsFlushed, Anyone, FlushesAll};
ghost use Rattle.pm_device.specs.Commit.{LeavesOneWord};
ghost use Rattle.pm_device.specs.Words.{IsIn};
ghost use Rattle.pm_device.specs.Lines.{StoresRun};
ghost use Rattle.pm_layout.specs.Geometry.{IsAccepted, inode_word};
ghost use Rattle.inode_table.specs.Cleared.{IsLogField, LeavesCleared};

use pm_device::Pm;
use pm_device::run::store_words;
use pm_layout::Geometry;

/// The field of an inode's state: 0 free, 1 live, 2 dying.
pub const STATE: u64 = 0;

/// The field of the first page of an inode's log.
pub const HEAD: u64 = 1;

/// The field of the tail of an inode's log: 64 times the page and the slot past the last item, or 0.
pub const TAIL: u64 = 2;

/// The field of a dying inode's cut: only the pages below it are still mapped.
pub const CUT: u64 = 3;

/// The units of the device that `store_field` uses: one for the word, and one for its line.
pub const FIELD_UNITS: u64 = 2;

/// The units of the device that `clear_inode` uses: one for each of three words, and one for their line.
pub const CLEAR_UNITS: u64 = 4;

/// What is read of an inode.
#[derive(Clone, Copy, Debug, PartialEq, Eq)]
pub struct InodeSlot {
    /// 0 free, 1 live, 2 dying.
    pub state: u64,
    /// The first page of the log.
    pub head: u64,
    /// 64 times the page and the slot past the last item of the log, or 0.
    pub tail: u64,
    /// Of a dying inode: only the pages below it are still mapped.
    pub cut: u64,
}

/// The four fields of an inode, as they were last stored.
pub fn read_inode<D: Pm>(device: &D, g: &Geometry, ino: u64) -> InodeSlot
    requires accepted { IsAccepted g.now }
    requires size { length (D.state device.now).now ≡ 512 * g.now.pages }
    requires ino { ino < g.now.inodes }
    ensures state { result.state ≡ slice_index (D.state device.now).now (inode_word ino 0) }
    ensures head { result.head ≡ slice_index (D.state device.now).now (inode_word ino 1) }
    ensures tail { result.tail ≡ slice_index (D.state device.now).now (inode_word ino 2) }
    ensures cut { result.cut ≡ slice_index (D.state device.now).now (inode_word ino 3) }
{
    InodeSlot {
        state: read_field(device, g, ino, STATE),
        head: read_field(device, g, ino, HEAD),
        tail: read_field(device, g, ino, TAIL),
        cut: read_field(device, g, ino, CUT),
    }
}

/// One field of an inode, as it was last stored.
pub fn read_field<D: Pm>(device: &D, g: &Geometry, ino: u64, field: u64) -> u64
    requires accepted { IsAccepted g.now }
    requires size { length (D.state device.now).now ≡ 512 * g.now.pages }
    requires ino { ino < g.now.inodes }
    requires field { field < 4 }
    ensures { result ≡ slice_index (D.state device.now).now (inode_word ino field) }
{
    device.load(g.inode_word(ino, field))
}

/// Stores one field of an inode and flushes its line, so that this actor's next fence that succeeds settles it.
/// It uses at most `FIELD_UNITS`. Where the field is settled before, on the way a crash leaves it old or new.
pub fn store_field<D: Pm>(device: &mut D, g: &Geometry, who: u32, ino: u64, field: u64, value: u64)
    requires accepted { IsAccepted g.now }
    requires size { length (D.state device.old).now ≡ 512 * g.now.pages }
    requires ino { ino < g.now.inodes }
    requires field { field < 4 }
    requires room { FIELD_UNITS ≤ (D.state device.old).spare }
    ensures stores { StoresRun who (inode_word ino field) (value ∷ []) (D.state device.old)
        (D.state device.new) }
    ensures keeps { KeepsFlushed Anyone (IsIn (inode_word ino field) 1) (D.state device.old)
        (D.state device.new) }
    ensures any_moment { IsSettled (D.state device.old) (inode_word ino field)
        → LeavesOnly (D.state device.old) (D.state device.new)
        (LeavesOneWord (inode_word ino field) value (D.state device.old)) }
    ensures flushes { FlushesAll who (D.state device.old) (D.state device.new) }
    ensures spare { (D.state device.old).spare ≤ (D.state device.new).spare + FIELD_UNITS }
    ensures faults { (D.state device.old).faults ≤ (D.state device.new).faults }
{
    store_words(device, who, g.inode_word(ino, field), &[value]);
}

/// Stores 0 into the head, the tail and the cut of an inode in one run and flushes them, so that this actor's next
/// fence that succeeds settles them. The state stays. It uses at most `CLEAR_UNITS`. Where the three are settled before,
/// on the way a crash leaves each of them old or 0.
pub fn clear_inode<D: Pm>(device: &mut D, g: &Geometry, who: u32, ino: u64)
    requires accepted { IsAccepted g.now }
    requires size { length (D.state device.old).now ≡ 512 * g.now.pages }
    requires ino { ino < g.now.inodes }
    requires room { CLEAR_UNITS ≤ (D.state device.old).spare }
    ensures stores { StoresRun who (inode_word ino 1) (0 ∷ 0 ∷ 0 ∷ []) (D.state device.old)
        (D.state device.new) }
    ensures keeps { KeepsFlushed Anyone (IsIn (inode_word ino 1) 3) (D.state device.old)
        (D.state device.new) }
    ensures any_moment { SettledOn (IsLogField ino) (D.state device.old)
        → LeavesOnly (D.state device.old) (D.state device.new)
        (LeavesCleared ino (D.state device.old)) }
    ensures flushes { FlushesAll who (D.state device.old) (D.state device.new) }
    ensures spare { (D.state device.old).spare ≤ (D.state device.new).spare + CLEAR_UNITS }
    ensures faults { (D.state device.old).faults ≤ (D.state device.new).faults }
{
    store_words(device, who, g.inode_word(ino, HEAD), &[0, 0, 0]);
}
