// Logs written down word by word on an image of 64 pages and 8 inodes, whose data area begins at page 6.
use crate::image::{WORDS, device_of, put, put_all, words_of};
use log_entry::LogItem;
use log_walk::{Placed, WalkFault, walk};
use pm_device::Pm;
use pm_layout::Geometry;
use std::alloc::{AllocError, Global};
use std::process::Abort;
use std::test::Fail;

// The log of inode 1 has Size items on page 6, which it fills, and one on page 7. The root's has Add items of one
// slot on page 8, of which the first lies before the tail.
const TAILS: [(usize, u64); 5] = [(1025, 8), (1026, 513), (1041, 6), (1042, 447), (3576, 7)];

// Eight times the letter a.
const A: u64 = 0x6161_6161_6161_6161;

#[derive(Clone, Copy)]
struct Row {
    ino: u64,
    // words that are other, and the place of the fault then
    words: &'static [(usize, u64)],
    place: u64,
}

fn make_row(ino: u64, words: &'static [(usize, u64)], place: u64) -> Row {
    Row { ino, words, place }
}

fn image(alloc: Global, other: &[(usize, u64)]) -> Result<Vec<u64>, AllocError> {
    let mut words = words_of(alloc, WORDS, &TAILS)?;
    for k in 0..64usize {
        let at = 512 * (6 + k / 63) + 8 * (k % 63);
        put(&mut words, at, 2);
        put(&mut words, at + 1, k as u64);
    }
    for k in 0..63usize {
        let at = 4096 + 8 * k;
        put(&mut words, at, 3);
        put(&mut words, at + 1, 1);
        put(&mut words, at + 2, 1);
        put(&mut words, at + 3, 0x66);
    }
    put_all(&mut words, other);
    Ok(words)
}

// What the walk of the log of this inode answers, where these words are other.
fn walked(
    rt: &impl Abort,
    alloc: Global,
    other: &[(usize, u64)],
    ino: u64,
) -> Result<Result<Vec<Placed>, WalkFault>, Fail> {
    let device = device_of(rt, alloc, image(alloc, other)?)?;
    let g = Geometry::of(64, 8)?;
    assert!(rt; device.words() == 512 * g.pages && ino < g.inodes);
    Ok(walk(alloc, &device, &g, ino))
}

#[test]
fn reads_items(rt: HostRuntime) -> Result<(), Fail> {
    // the tail of inode 1, and how many items there are then
    let rows = [(0, 0), (385, 1), (386, 2), (446, 62), (447, 63), (449, 64)];
    for (tail, count) in rows {
        let items = walked(&rt, rt.alloc(), &[(1042, tail)], 1)?.map_err(|_| "a fault")?;
        assert_eq!(rt; items.len(), count, "tail {tail}");
        for (k, placed) in items.iter().enumerate() {
            let place = k as u64;
            let slot = if place < 63 { 384 + place } else { 448 };
            assert_eq!(rt; placed.slot, slot);
            assert!(rt; matches!(&placed.item, LogItem::Size { size } if *size == place));
        }
    }
    let names = walked(&rt, rt.alloc(), &[], 0)?.map_err(|_| "a fault")?;
    assert_eq!(rt; names.len(), 1);
    for placed in &names {
        assert_eq!(rt; placed.slot, 512);
        assert!(rt; matches!(&placed.item, LogItem::Add { ino: 1, .. }));
    }
    Ok(())
}

#[test]
fn finds_faults(rt: HostRuntime) -> Result<(), Fail> {
    let rows = [
        // the head, and the second page, outside the data area or met before
        make_row(1, &[(1041, 5)], 0),
        make_row(1, &[(1041, 64)], 0),
        make_row(1, &[(1042, 449), (3576, 5)], 63),
        make_row(1, &[(1042, 449), (3576, 6)], 63),
        make_row(1, &[(1042, 513), (3576, 6)], 63),
        // the tail at slot 0
        make_row(1, &[(1042, 384)], 0),
        make_row(1, &[(1042, 448)], 63),
        // no item, also where the next page is bad
        make_row(1, &[(3112, 9)], 5),
        make_row(1, &[(3112, 9), (1042, 449), (3576, 6)], 5),
        // a Write outside the data area, an Add in a file's log
        make_row(
            1,
            &[
                (3112, 1),
                (3113, 0),
                (3114, 1),
                (3115, 64),
                (3116, 4096),
                (3117, 1),
            ],
            5,
        ),
        make_row(1, &[(3112, 3), (3113, 1), (3114, 1), (3115, 0x66)], 5),
        // a Size in the root's log, an Add of the root, and of an inode that there isn't
        make_row(0, &[(4096, 2), (4098, 0), (4099, 0)], 0),
        make_row(0, &[(4097, 0)], 0),
        make_row(0, &[(4097, 8)], 0),
        // an Add of two slots that the tail cuts off
        make_row(
            0,
            &[
                (4098, 41),
                (4099, A),
                (4100, A),
                (4101, A),
                (4102, A),
                (4103, A),
            ],
            0,
        ),
        // and one that goes on in a page met before
        make_row(
            0,
            &[
                (1026, 449),
                (4600, 8),
                (4594, 41),
                (4595, A),
                (4596, A),
                (4597, A),
                (4598, A),
                (4599, A),
            ],
            63,
        ),
    ];
    for row in &rows {
        let found = walked(&rt, rt.alloc(), row.words, row.ino)?.err();
        let place = row.place;
        assert_eq!(rt; found, Some(WalkFault::Bad { place }), "{:?}", row.words);
    }
    Ok(())
}
