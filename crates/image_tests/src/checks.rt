// Images word by word, and what is found of each.
use crate::image::{WORDS, put_all, words_of};
use dn_check::{Finding, check, check_words};
use dn_model::ImageFault;
use std::alloc::{AllocError, Global};
use std::test::Fail;

// 64 pages and 8 inodes, without files.
const EMPTY: [(usize, u64); 5] = [(0, 0x313041564F4E4544), (1, 1), (2, 64), (3, 8), (1024, 1)];

// The log of the root is page 6, with the names a and b. The logs of the files are pages 7 and 9, and both map page 8.
// Its row is that of slot 5, with a count of 2.
const SHARED: [(usize, u64); 32] = [
    (1025, 6),
    (1026, 386),
    (3072, 3),
    (3073, 1),
    (3074, 1),
    (3075, 0x61),
    (3080, 3),
    (3081, 2),
    (3082, 1),
    (3083, 0x62),
    (1040, 1),
    (1041, 7),
    (1042, 449),
    (3584, 1),
    (3586, 1),
    (3587, 8),
    (3588, 4096),
    (3589, 3),
    (1056, 1),
    (1057, 9),
    (1058, 577),
    (4608, 1),
    (4610, 1),
    (4611, 8),
    (4612, 4096),
    (4613, 3),
    (1576, 8),
    (1577, 0x1400000000000000),
    (1578, 0),
    (1579, 0),
    (1580, 0x0000000200000000),
    (2568, 6),
];

// The second file maps page 10 and was left alone there, and the row is that of slot 0, with a count of 1.
const UNSHARED: [(usize, u64); 6] = [
    (4611, 10),
    (4614, 1),
    (1576, 0),
    (1536, 8),
    (1540, 0x0000000100000000),
    (2568, 1),
];

// A word that is not read.
const NONE: (usize, u64) = (9, 0);

// Of the image without files, with these words.
const EMPTY_FAULTS: [([(usize, u64); 3], ImageFault); 9] = [
    ([(0, 5), (1, 2), NONE], ImageFault::NotAnImage),
    (
        [(1, 2), (2, 63), NONE],
        ImageFault::WrongVersion { found: 2 },
    ),
    ([(2, 63), (512, 5), NONE], ImageFault::BadGeometry),
    ([(512, 5), (1072, 3), NONE], ImageFault::BadJournal),
    (
        [(1072, 3), (1536, 5), NONE],
        ImageFault::BadInode { ino: 3 },
    ),
    ([(1072, 1), (1536, 5), NONE], ImageFault::BadLink { ino: 3 }),
    (
        [(1536, 5), (2568, 129), NONE],
        ImageFault::BadTable { slot: 0 },
    ),
    (
        [(2568, 129), (2569, 130), NONE],
        ImageFault::BadPointer { page: 8 },
    ),
    (
        [(1024, 0), (1026, 386), NONE],
        ImageFault::BadInode { ino: 0 },
    ),
];

// Of the image with the shared page, with these words.
const SHARED_FAULTS: [([(usize, u64); 5], ImageFault); 7] = [
    (
        [(1042, 450), NONE, NONE, NONE, NONE],
        ImageFault::BadLog { ino: 1, place: 1 },
    ),
    (
        [(1042, 450), (1058, 578), (3075, 0x62), NONE, NONE],
        ImageFault::BadLog { ino: 1, place: 1 },
    ),
    (
        [(3083, 0x61), NONE, NONE, NONE, NONE],
        ImageFault::BadLink { ino: 1 },
    ),
    (
        [(2568, 7), NONE, NONE, NONE, NONE],
        ImageFault::BadPointer { page: 8 },
    ),
    (
        [(1576, 0), (2568, 0), NONE, NONE, NONE],
        ImageFault::DoubleMapped { page: 8 },
    ),
    (
        [(4611, 7), (1580, 0x0000000900000000), NONE, NONE, NONE],
        ImageFault::DoubleMapped { page: 7 },
    ),
    (
        [(1580, 0x0000000100000000), NONE, NONE, NONE, NONE],
        ImageFault::BadCount { slot: 5 },
    ),
];

// What is told of an image without a fault.
#[derive(Clone, Copy, Debug, PartialEq, Eq)]
struct Numbers {
    files: u64,
    dying: u64,
    rows: usize,
    mapped: u64,
    free: u64,
    exact: bool,
}

const OF_SHARED: Numbers = Numbers {
    files: 2,
    dying: 0,
    rows: 1,
    mapped: 1,
    free: 54,
    exact: true,
};

fn empty_image(alloc: Global) -> Result<Vec<u64>, AllocError> {
    words_of(alloc, WORDS, &EMPTY)
}

fn shared_image(alloc: Global, others: &[(usize, u64)]) -> Result<Vec<u64>, AllocError> {
    let mut words = empty_image(alloc)?;
    put_all(&mut words, &SHARED);
    put_all(&mut words, others);
    Ok(words)
}

fn fault_of(finding: &Finding) -> Option<ImageFault> {
    match finding {
        Finding::Fault(fault) => Some(*fault),
        Finding::Sound { .. } => None,
    }
}

fn numbers_of(finding: &Finding) -> Option<Numbers> {
    match finding {
        Finding::Fault(_) => None,
        Finding::Sound {
            files,
            dying,
            rows,
            mapped,
            free,
            exact,
        } => Some(Numbers {
            files: *files,
            dying: *dying,
            rows: rows.rows().len(),
            mapped: *mapped,
            free: *free,
            exact: *exact,
        }),
    }
}

// The slot, the page and the counts of row k.
fn row_of(finding: &Finding, k: usize) -> Option<[u64; 4]> {
    match finding {
        Finding::Fault(_) => None,
        Finding::Sound { rows, .. } => match rows.rows().get(k) {
            Some(row) => Some([
                row.slot,
                row.page,
                u64::from(row.count.rfc),
                u64::from(row.count.uc),
            ]),
            None => None,
        },
    }
}

#[test]
fn faults_without_files(rt: HostRuntime) -> Result<(), Fail> {
    let alloc = rt.alloc();
    for (others, fault) in EMPTY_FAULTS {
        let mut image = empty_image(alloc)?;
        put_all(&mut image, &others);
        assert_eq!(rt; fault_of(&check(alloc, &image)?), Some(fault));
        assert_eq!(rt; fault_of(&check_words(alloc, image)?), Some(fault));
    }
    let short = vec![in alloc; 0; WORDS - 1]?;
    assert_eq!(rt;
        fault_of(&check(alloc, &short)?),
        Some(ImageFault::NotAnImage)
    );
    Ok(())
}

#[test]
fn faults_with_files(rt: HostRuntime) -> Result<(), Fail> {
    let alloc = rt.alloc();
    for (others, fault) in SHARED_FAULTS {
        let image = shared_image(alloc, &others)?;
        assert_eq!(rt; fault_of(&check(alloc, &image)?), Some(fault));
    }
    let mut image = shared_image(alloc, &UNSHARED)?;
    put_all(&mut image, &[(1536, 0), (2568, 0), (4611, 8)]);
    assert_eq!(rt;
        fault_of(&check(alloc, &image)?),
        Some(ImageFault::DoubleMapped { page: 8 })
    );
    Ok(())
}

// A log of 63 items whose footer leads back to its page, while its tail lies in another.
#[test]
fn log_that_leads_to_itself(rt: HostRuntime) -> Result<(), Fail> {
    let alloc = rt.alloc();
    let mut image = shared_image(alloc, &[(1042, 641), (4088, 7)])?;
    for slot in 0..63 {
        let at = 3584 + 8 * slot;
        put_all(
            &mut image,
            &[
                (at, 1),
                (at + 2, 1),
                (at + 3, 8),
                (at + 4, 4096),
                (at + 5, 3),
            ],
        );
    }
    let fault = ImageFault::BadLog { ino: 1, place: 63 };
    assert_eq!(rt; fault_of(&check(alloc, &image)?), Some(fault));
    Ok(())
}

// A file maps all pages of the data area that no log has.
#[test]
fn crowded_image(rt: HostRuntime) -> Result<(), Fail> {
    let alloc = rt.alloc();
    let mut image = shared_image(
        alloc,
        &[(1026, 385), (1042, 452), (1056, 0), (1576, 0), (2568, 0)],
    )?;
    for (slot, count) in [(0, 17), (1, 17), (2, 17), (3, 5)] {
        let at = 3584 + 8 * slot;
        let first = 17 * slot as u64;
        put_all(
            &mut image,
            &[
                (at, 1),
                (at + 1, first),
                (at + 2, count),
                (at + 3, 8 + first),
                (at + 4, 229376),
                (at + 5, 3),
            ],
        );
    }
    let fault = ImageFault::Crowded { free: 0 };
    assert_eq!(rt; fault_of(&check(alloc, &image)?), Some(fault));
    Ok(())
}

#[test]
fn sound_images(rt: HostRuntime) -> Result<(), Fail> {
    let alloc = rt.alloc();
    let found = check(alloc, &empty_image(alloc)?)?;
    let empty = Numbers {
        files: 0,
        dying: 0,
        rows: 0,
        mapped: 0,
        free: 58,
        exact: true,
    };
    assert_eq!(rt; numbers_of(&found), Some(empty));
    let found = check_words(alloc, shared_image(alloc, &[])?)?;
    assert_eq!(rt; numbers_of(&found), Some(OF_SHARED));
    assert_eq!(rt; row_of(&found, 0), Some([5, 8, 2, 0]));
    let found = check(alloc, &shared_image(alloc, &UNSHARED)?)?;
    let unshared = Numbers {
        mapped: 2,
        free: 53,
        ..OF_SHARED
    };
    assert_eq!(rt; numbers_of(&found), Some(unshared));
    assert_eq!(rt; row_of(&found, 0), Some([0, 8, 1, 0]));
    Ok(())
}

// Counts that are near; rows in a chain and without mappings; a file that goes; and an open journal.
#[test]
fn less_exact_images(rt: HostRuntime) -> Result<(), Fail> {
    let alloc = rt.alloc();
    let near = Numbers {
        exact: false,
        ..OF_SHARED
    };
    let found = check(alloc, &shared_image(alloc, &[(1580, 0x0000000300000001)])?)?;
    assert_eq!(rt; numbers_of(&found), Some(near));
    assert_eq!(rt; row_of(&found, 0), Some([5, 8, 3, 1]));
    let chained = [
        (1552, 20),
        (1553, 0x0800000000000000),
        (1557, 64),
        (2048, 21),
        (2049, 0x0900000000000000),
        (2580, 3),
        (2581, 65),
    ];
    let found = check(alloc, &shared_image(alloc, &chained)?)?;
    assert_eq!(rt; numbers_of(&found), Some(Numbers { rows: 3, ..near }));
    assert_eq!(rt; row_of(&found, 0), Some([2, 20, 0, 0]));
    assert_eq!(rt; row_of(&found, 1), Some([5, 8, 2, 0]));
    assert_eq!(rt; row_of(&found, 2), Some([64, 21, 0, 0]));
    let dying = [
        (1072, 2),
        (1073, 10),
        (1074, 641),
        (1075, 1),
        (5120, 1),
        (5122, 2),
        (5123, 11),
        (5124, 8192),
        (5125, 3),
    ];
    let found = check(alloc, &shared_image(alloc, &dying)?)?;
    let going = Numbers {
        dying: 1,
        mapped: 2,
        free: 52,
        ..OF_SHARED
    };
    assert_eq!(rt; numbers_of(&found), Some(going));
    let open = [(512, 1), (520, 1040), (521, 1), (1040, 0)];
    let found = check(alloc, &shared_image(alloc, &open)?)?;
    assert_eq!(rt; numbers_of(&found), Some(OF_SHARED));
    Ok(())
}
