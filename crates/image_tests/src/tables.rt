// Tables written down word by word on an image of 64 pages and 8 inodes: the slots begin at word 1536, the first 64 of
// them direct, and the pointers at word 2560. The data area begins at page 6.
use crate::image::{WORDS, device_of, words_of};
use fact_table::{Fact, FactFault};
use pm_device::{MemPm, Pm};
use pm_layout::Geometry;
use std::alloc::Global;
use std::process::Abort;
use std::test::Fail;

// The first word of a fingerprint of prefix 1.
const PREFIX_1: u64 = 0x0400_0000_0000_0000;

// Rows of pages 6 and 7 in slots 0 and 64, with their pointers.
const ROWS: [(usize, u64); 6] = [
    (1536, 6),
    (1541, 64),
    (2048, 7),
    (2049, 1),
    (2566, 1),
    (2567, 65),
];

#[derive(Clone, Copy)]
struct Case {
    words: &'static [(usize, u64)],
    fault: FactFault,
}

fn bad_table(words: &'static [(usize, u64)], slot: u64) -> Case {
    Case {
        words,
        fault: FactFault::BadTable { slot },
    }
}

fn bad_pointer(words: &'static [(usize, u64)], page: u64) -> Case {
    Case {
        words,
        fault: FactFault::BadPointer { page },
    }
}

// A device of zeros but for these words.
fn zeros_but(rt: &impl Abort, alloc: Global, other: &[(usize, u64)]) -> Result<MemPm, Fail> {
    device_of(rt, alloc, words_of(alloc, WORDS, other)?)
}

fn load(
    rt: &impl Abort,
    alloc: Global,
    other: &[(usize, u64)],
) -> Result<Result<Fact, FactFault>, Fail> {
    let device = zeros_but(rt, alloc, other)?;
    let g = Geometry::of(64, 8)?;
    assert!(rt; device.words() == 512 * g.pages);
    Ok(Fact::load(alloc, &device, &g))
}

#[test]
fn finds_faults(rt: HostRuntime) -> Result<(), Fail> {
    let cases = [
        // a page outside the data area, in a direct slot and in a chained one
        bad_table(&[(1536, 5)], 0),
        bad_table(&[(1541, 64)], 64),
        // a fingerprint of another prefix, and a third word of 33 bits
        bad_table(&[(1536, 6), (1537, PREFIX_1)], 0),
        bad_table(&[(1536, 6), (1539, 0x1_0000_0000)], 0),
        // a next word that is a direct slot's, and one behind the last slot
        bad_table(&[(1541, 5)], 0),
        bad_table(&[(1541, 64), (2048, 6), (2053, 128)], 64),
        // a chain that leads to itself, and one that leads into another
        bad_table(&[(1549, 64), (2048, 6), (2049, PREFIX_1), (2053, 64)], 64),
        bad_table(&[(1541, 64), (2048, 6), (1549, 64)], 64),
        // two rows of one fingerprint, and two of one page
        bad_table(&[(1536, 6), (1541, 64), (2048, 7)], 64),
        bad_table(&[(1536, 6), (1544, 6), (1545, PREFIX_1)], 1),
        // pointers that are no slot's, that are missing, and that lead to another slot
        bad_pointer(&[(2568, 129)], 8),
        bad_pointer(&[(2560, 129), (2568, 129)], 0),
        bad_pointer(&[(1536, 6)], 6),
        bad_pointer(&[(1536, 6), (2566, 2)], 6),
    ];
    for case in &cases {
        let found = load(&rt, rt.alloc(), case.words)?.err();
        assert_eq!(rt; found, Some(case.fault), "{:?}", case.words);
    }
    Ok(())
}

// The least indirect slot without a row, of a table that can be loaded.
fn first_unused(
    rt: &impl Abort,
    alloc: Global,
    other: &[(usize, u64)],
) -> Result<Option<u64>, Fail> {
    let device = zeros_but(rt, alloc, other)?;
    let g = Geometry::of(64, 8)?;
    assert!(rt; device.words() == 512 * g.pages);
    let mut fact = Fact::load(alloc, &device, &g).map_err(|_| "a fault")?;
    Ok(fact.take_slot())
}

#[test]
fn loads_tables(rt: HostRuntime) -> Result<(), Fail> {
    // a pointer without a row is stale, and the last slot's pointer is 128
    assert_eq!(rt; first_unused(&rt, rt.alloc(), &[])?, Some(64));
    assert_eq!(rt; first_unused(&rt, rt.alloc(), &[(2568, 128)])?, Some(64));
    assert_eq!(rt; first_unused(&rt, rt.alloc(), &ROWS)?, Some(65));
    let device = zeros_but(&rt, rt.alloc(), &ROWS)?;
    let g = Geometry::of(64, 8)?;
    assert!(rt; device.words() == 512 * g.pages && g.pages == 64 && g.slots() == 128);
    let fact = Fact::load(rt.alloc(), &device, &g).map_err(|_| "a fault")?;
    assert_eq!(rt; fact.by_page(&device, 7).map(|row| row.slot), Some(64));
    assert_eq!(rt; fact.by_page(&device, 8), None);
    assert_eq!(rt; fact.row_at(&device, 0).map(|row| row.page), Some(6));
    assert_eq!(rt; fact.row_at(&device, 65), None);
    Ok(())
}
