// Bytes of a file are read.
ghost use Rattle.std.specs.Prelude.{◌≡◌, ◌+◌, ◌*◌, ◌<◌, ◌≤◌, ℕ, List, [], length, take, drop, IfOk};
ghost use Rattle.pm_device.specs.Reading.{Stands};
ghost use Rattle.pm_layout.specs.Geometry.{IsAccepted};
ghost use Rattle.dn_model.specs.Disk.{Disk, DiskSays};
ghost use Rattle.dn_model.specs.Files.{bytes};
ghost use Rattle.dn_model.specs.Valid.{IsValid};
ghost use Rattle.file_content.specs.Content.{IsFileOf, AreBlocksIn};
ghost use Rattle.file_content.specs.ReadLoop.{AppendsBytes};

use crate::NoMemory;
use crate::place::read_place;
use file_index::PageMap;
use pm_device::Pm;
use pm_layout::Geometry;
use std::alloc::Global;

/// The most bytes that are read, or written, by one operation.
pub const MOST_BYTES: u64 = 65536;

// Appends the bytes of a file from byte `from` on, up to `end` or to the end of their page; answers where they end.
fn push_part<D: Pm>(
    device: &D,
    g: &Geometry,
    map: &PageMap,
    size: u64,
    from: u64,
    end: u64,
    found: &mut Vec<u8>,
) -> Result<u64, NoMemory>
    requires accepted { IsAccepted g.now }
    requires device { length (D.state device.now).now ≡ 512 * g.now.pages }
    requires blocks { AreBlocksIn g.now map.now.map }
    requires some { from < end }
    ensures part { IfOk result (λ next. AppendsBytes (D.state device.now).now map.now.map size from
        next found.old.items found.new.items) }
    ensures rises { IfOk result (λ next. from < next) }
    ensures within { IfOk result (λ next. next ≤ end) }
{
    let mut page = [0; 4096];
    read_place(device, g, map, size, from / 4096, &mut page);
    let k = (from % 4096) as usize;
    let count = (end - from).min(4096 - k as u64) as usize;
    found.extend_from_slice(&page[k..k + count])?;
    Ok(from + count as u64)
}

// The bytes of a file from byte `start` on, up to `end`.
fn read_range<D: Pm>(
    alloc: Global,
    device: &D,
    g: &Geometry,
    map: &PageMap,
    size: u64,
    start: u64,
    end: u64,
) -> Result<Vec<u8>, NoMemory>
    requires accepted { IsAccepted g.now }
    requires device { length (D.state device.now).now ≡ 512 * g.now.pages }
    requires blocks { AreBlocksIn g.now map.now.map }
    requires rises { start ≤ end }
    ensures { IfOk result (λ found. AppendsBytes (D.state device.now).now map.now.map size start end
        [] found.items) }
{
    let mut found = Vec::with_capacity(alloc, (end - start) as usize)?;
    let mut from = start;
    while from < end {
        from = push_part(device, g, map, size, from, end, &mut found)?;
    }
    Ok(found)
}

/// At most so many bytes of a file of this size whose places are mapped so, from byte `at` on: fewer where the file
/// ends before, and none from its end on. It takes memory for what it answers, and time that grows with it alone.
///
/// # Errors
/// `NoMemory` where memory is wanting.
pub fn read_bytes<D: Pm>(
    alloc: Global,
    device: &D,
    g: &Geometry,
    map: &PageMap,
    size: u64,
    at: u64,
    count: u64,
) -> Result<Vec<u8>, NoMemory>
    requires accepted { IsAccepted g.now }
    requires device { length (D.state device.now).now ≡ 512 * g.now.pages }
    requires blocks { AreBlocksIn g.now map.now.map }
    requires few { count ≤ MOST_BYTES }
    ensures { IfOk result (λ found. (d : Disk) (ino : ℕ) → IsFileOf d ino size map.now.map
        → IsValid d → d.geometry ≡ g.now → Stands (DiskSays d) (D.state device.now)
        → found.items ≡ take count (drop at (bytes d ino))) }
{
    let start = at.min(size);
    let end = start + count.min(size - start);
    read_range(alloc, device, g, map, size, start, end)
}
