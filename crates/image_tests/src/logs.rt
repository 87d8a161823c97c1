// An image of 64 pages and 8 inodes, whose data area begins at page 6, written down word by word.
use crate::image::{WORDS, device_of, put_all, words_of};
use image_logs::{LogsFault, LogsRead, read_logs};
use log_entry::Name;
use pm_device::Pm;
use pm_layout::Geometry;
use std::alloc::Global;
use std::process::Abort;
use std::test::Fail;

// The root names inode 1 "f". Inode 1 is live and maps its two places to pages 10 and 11; inode 2 is dying with the
// cut 1, and maps its first three places to the same page 10 and to 11 and 12.
const IMAGE: [(usize, u64); 25] = [
    (1024, 1),
    (1025, 8),
    (1026, 513),
    (1040, 1),
    (1041, 6),
    (1042, 385),
    (1056, 2),
    (1057, 7),
    (1058, 449),
    (1059, 1),
    (3072, 1),
    (3074, 2),
    (3075, 10),
    (3076, 8192),
    (3077, 1),
    (3584, 1),
    (3586, 3),
    (3587, 10),
    (3588, 12288),
    (3589, 3),
    (3590, 7),
    (4096, 3),
    (4097, 1),
    (4098, 1),
    (4099, 0x66),
];

// What is read where these words are other.
fn read(
    rt: &impl Abort,
    alloc: Global,
    other: &[(usize, u64)],
) -> Result<Result<LogsRead, LogsFault>, Fail> {
    let mut words = words_of(alloc, WORDS, &IMAGE)?;
    put_all(&mut words, other);
    let device = device_of(rt, alloc, words)?;
    let g = Geometry::of(64, 8)?;
    assert!(rt; device.words() == 512 * g.pages);
    Ok(read_logs(alloc, &device, &g))
}

fn count_at(counts: &[u32], page: usize) -> Option<u32> {
    counts.get(page).copied()
}

#[test]
fn counts_uses(rt: HostRuntime) -> Result<(), Fail> {
    let alloc = rt.alloc();
    let logs = read(&rt, alloc, &[])?.map_err(|_| "a fault")?;
    assert_eq!(rt; (logs.files, logs.dying), (1, 1));
    for (page, in_logs, mapped) in [
        (5, 0, 0),
        (6, 1, 0),
        (8, 1, 0),
        (10, 0, 2),
        (11, 0, 1),
        (12, 0, 0),
    ] {
        assert_eq!(rt; count_at(&logs.in_logs, page), Some(in_logs));
        assert_eq!(rt; count_at(&logs.mapped, page), Some(mapped));
    }
    assert_eq!(rt; logs.names.get(&Name::of(alloc, b"f")?), Some(1));
    assert_eq!(rt; logs.names.get(&Name::of(alloc, b"g")?), None);
    // one log for two inodes
    let twice = read(&rt, alloc, &[(1057, 6), (1058, 385)])?.map_err(|_| "a fault")?;
    assert_eq!(rt; count_at(&twice.in_logs, 6), Some(2));
    assert_eq!(rt; count_at(&twice.mapped, 11), Some(1));
    Ok(())
}

#[test]
fn finds_the_first_fault(rt: HostRuntime) -> Result<(), Fail> {
    let rows: [(&[(usize, u64)], u64, u64); 3] = [
        (&[(1042, 384)], 1, 0),
        (&[(1042, 386), (1057, 5)], 1, 1),
        (&[(1057, 5)], 2, 0),
    ];
    for (other, ino, place) in rows {
        let found = read(&rt, rt.alloc(), other)?.err();
        assert_eq!(rt; found, Some(LogsFault::BadLog { ino, place }));
    }
    Ok(())
}
