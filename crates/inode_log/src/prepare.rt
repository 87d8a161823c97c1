// Items are stored past the tail.
ghost use Rattle.std.specs.Prelude.{◌≡◌, ◌⊎◌, ◌+◌, ◌*◌, ◌/◌, ◌%◌, ◌<◌, ◌≤◌, ◌↔◌, ℕ, List, [], ◌∷◌, length, slice_index, All, IsTrue};
ghost use Rattle.pm_layout.specs.Geometry.{IsAccepted, inode_word};
ghost use Rattle.pm_device.specs.Settled.{FlushesAll};
ghost use Rattle.pm_device.specs.Lines.{StoresRun};
ghost use Rattle.inode_log.specs.Prepare.{CanPrepare, Prepares, IsNextTail, MakesRoom, IsFull};
ghost use Rattle.inode_log.specs.OtherLogs.{PreparesAlone};

use inode_table::{HEAD, TAIL, read_field, store_field};
use pm_device::Pm;
use pm_device::line::{LINE_UNITS, store_line, store_word};
use pm_layout::Geometry;

/// The units of the device that `prepare` uses at most for each slot, which is a line, and for each fresh page.
pub const PREPARE_UNITS: u64 = LINE_UNITS;

/// Whether the page of this tail has no room left, or there is no page: the next item then begins a new page.
pub fn is_full(tail: u64) -> bool
    ensures { IsTrue result ↔ IsFull tail }
{
    tail == 0 || tail % 64 == 63
}

// Links a page behind the tail's, or as the first one.
fn link<D: Pm>(device: &mut D, g: &Geometry, who: u32, ino: u64, tail: u64, page: u64)
    requires accepted { IsAccepted g.now }
    requires size { length (D.state device.old).now ≡ 512 * g.now.pages }
    requires ino { ino < g.now.inodes }
    requires tail { tail < 64 * g.now.pages }
    requires room { PREPARE_UNITS ≤ (D.state device.old).spare }
    ensures first { tail ≡ 0 → StoresRun who (inode_word ino 1) (page ∷ []) (D.state device.old)
        (D.state device.new) }
    ensures later { 0 < tail → StoresRun who (8 * tail) (page ∷ []) (D.state device.old)
        (D.state device.new) }
    ensures spare { (D.state device.old).spare ≤ (D.state device.new).spare + PREPARE_UNITS }
    ensures faults { (D.state device.old).faults ≤ (D.state device.new).faults }
{
    if tail == 0 {
        store_field(device, g, who, ino, HEAD, page);
    } else {
        store_word(device, who, 8 * tail, page);
    }
}

// The line of the next slot, on the tail's page or on the next fresh one; and how many fresh pages are used.
fn make_room<D: Pm>(
    device: &mut D,
    g: &Geometry,
    who: u32,
    ino: u64,
    tail: u64,
    fresh: &[u64],
    used: usize,
) -> (u64, usize)
    requires accepted { IsAccepted g.now }
    requires size { length (D.state device.old).now ≡ 512 * g.now.pages }
    requires ino { ino < g.now.inodes }
    requires tail { tail < 64 * g.now.pages }
    requires pages { All (λ page. page < g.now.pages) fresh.now }
    requires enough { IsFull tail → used < length fresh.now }
    requires room { PREPARE_UNITS ≤ (D.state device.old).spare }
    ensures links { (slots : List (List ℕ)) → MakesRoom g.now who ino slots fresh.now tail used
        result.0 result.1 (D.state device.old) (D.state device.new) }
    ensures line { result.0 < 64 * g.now.pages }
    ensures size { length (D.state device.new).now ≡ length (D.state device.old).now }
    ensures spare { (D.state device.old).spare + PREPARE_UNITS * used ≤ (D.state device.new).spare +
        PREPARE_UNITS * result.1 }
    ensures faults { (D.state device.old).faults ≤ (D.state device.new).faults }
{
    if is_full(tail) {
        let page = fresh[used];
        link(device, g, who, ino, tail, page);
        (64 * page, used + 1)
    } else {
        (tail, used)
    }
}

/// Stores slots of items past the tail of an inode's log, links the fresh pages, flushes, and answers the tail
/// that will commit them. Nothing that is read of the log changes, and no log of another inode.
///
/// The slots are the spellings of items, one after the other. The room of the last page and the fresh pages,
/// which are different pages of the data area that no log has, just hold them.
pub fn prepare<D: Pm>(
    device: &mut D,
    g: &Geometry,
    who: u32,
    ino: u64,
    slots: &[[u64; 8]],
    fresh: &[u64],
) -> u64
    requires accepted { IsAccepted g.now }
    requires size { length (D.state device.old).now ≡ 512 * g.now.pages }
    requires ino { ino < g.now.inodes }
    requires can { CanPrepare g.now ino slots.now fresh.now (D.state device.old) }
    requires room { PREPARE_UNITS * (length slots.now + length fresh.now) ≤
        (D.state device.old).spare }
    ensures tail { IsNextTail g.now ino slots.now fresh.now (D.state device.old) result }
    ensures flushes { FlushesAll who (D.state device.old) (D.state device.new) }
    ensures other_logs { PreparesAlone g.now ino slots.now fresh.now (D.state device.old)
        (D.state device.new) }
    ensures prepared { Prepares g.now who ino slots.now fresh.now (D.state device.old)
        (D.state device.new) }
    ensures spare { (D.state device.old).spare ≤ (D.state device.new).spare + PREPARE_UNITS
        * (length slots.now + length fresh.now) }
    ensures faults { (D.state device.old).faults ≤ (D.state device.new).faults }
{
    let mut tail = read_field(device, g, ino, TAIL);
    let mut used = 0;
    for slot in slots {
        let (line, now_used) = make_room(device, g, who, ino, tail, fresh, used);
        used = now_used;
        store_line(device, who, line, slot);
        tail = line + 1;
    }
    tail
}
