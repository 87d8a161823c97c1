// Pages cut into runs, and a small file on a device of 64 pages, with all bytes and slots written down by hand.
ghost use Rattle.std.specs.Prelude.{◌≡◌, ◌≤◌, length, IfOk};
ghost use Rattle.file_content.specs.Content.{AreBlocksIn};

use crate::image::put;
use file_content::{FILL_UNITS, cut_into_runs, fill_places, read_bytes, run_slots};
use file_index::{Mapping, PageMap};
use pm_device::{MemPm, Pm};
use pm_layout::Geometry;
use std::alloc::{AllocError, Global};
use std::test::Fail;

// The first place of a run, its number of pages, and its first page.
type Cut = (u64, u64, u64);

// The slots of the runs that these pages are cut into, from place 7 of a file of 16 pages on.
fn slots_of(alloc: Global, pages: &[u64]) -> Result<Vec<[u64; 8]>, AllocError>
    requires some { 1 ≤ length pages.now }
    requires few { length pages.now ≤ 9 }
{
    let runs = cut_into_runs(alloc, 7, pages)?;
    run_slots(alloc, &runs, 65536)
}

#[test]
fn cuts_pages_into_runs(rt: HostRuntime) -> Result<(), Fail> {
    let rows: [(&[u64], &[Cut]); 5] = [
        (&[40], &[(7, 1, 40)]),
        (&[40, 41, 42], &[(7, 3, 40)]),
        (&[41, 40], &[(7, 1, 41), (8, 1, 40)]),
        (&[40, 42, 43, 41], &[(7, 1, 40), (8, 2, 42), (10, 1, 41)]),
        (&[u64::MAX, 0, 1], &[(7, 1, u64::MAX), (8, 2, 0)]),
    ];
    for (pages, runs) in rows {
        assert!(rt; !pages.is_empty() && pages.len() <= 9);
        let slots = slots_of(rt.alloc(), pages)?;
        assert_eq!(rt; slots.len(), runs.len());
        for (slot, run) in slots.iter().zip(runs) {
            assert_eq!(rt; *slot, [1, run.0, run.1, run.2, 65536, 1, 0, 0]);
        }
    }
    Ok(())
}

// A device of so many words, of which those of page 40 each hold the bytes 1 to 8.
fn device_of(alloc: Global, count: usize) -> Result<Option<MemPm>, AllocError> {
    let mut words = vec![in alloc; 0; count]?;
    for at in 20480..20992 {
        put(&mut words, at, 0x0807_0605_0403_0201);
    }
    if words.len() % 512 != 0 {
        return Ok(None);
    }
    Ok(Some(MemPm::of_words(alloc, words, Vec::new(alloc))?))
}

// Place 0 on page 40.
fn small_map(alloc: Global, g: &Geometry) -> Result<PageMap, AllocError>
    requires { g.now.pages ≡ 64 }
    ensures { IfOk result (λ map. AreBlocksIn g.now map.map) }
{
    let mut map = PageMap::new(alloc);
    map.reserve(1)?;
    let mapping = Mapping {
        block: 40,
        slot: 65,
        bit: 0,
    };
    map.set(0, mapping);
    Ok(map)
}

#[test]
fn reads_and_fills(rt: HostRuntime) -> Result<(), Fail> {
    let Ok(g) = Geometry::of(64, 8) else {
        return Err("no geometry".into());
    };
    let map = small_map(rt.alloc(), &g)?;
    let mut device = device_of(rt.alloc(), 32768)?.ok_or("no device")?;
    assert!(rt; device.words() == 32768);
    let rows: [(u64, u64, u64, &[u8]); 4] = [
        (10, 0, 16, &[1, 2, 3, 4, 5, 6, 7, 8, 1, 2]),
        (10, 8, 1, &[1]),
        (10, 10, 5, &[]),
        (5000, 4094, 4, &[7, 8, 0, 0]),
    ];
    for (size, at, count, want) in rows {
        assert!(rt; count <= 16);
        let found = read_bytes(rt.alloc(), &device, &g, &map, size, at, count)?;
        assert_eq!(rt; &found[..], want, "at {at}");
    }
    device.ready(2 * FILL_UNITS)?;
    fill_places(&mut device, &g, 1, &map, 5, 0, 4095, &[9, 8], &[41, 42]);
    for (at, word) in [
        (20992, 0x0005_0403_0201),
        (20993, 0),
        (21503, 0x0900_0000_0000_0000),
        (21504, 8),
        (21505, 0),
    ] {
        assert!(rt; at < device.words());
        assert_eq!(rt; device.load(at), word, "word {at}");
    }
    Ok(())
}
