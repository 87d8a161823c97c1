// Images word by word: the first fault of each, and what the inodes of a sound one are used for.
use crate::image::{WORDS, put_all, words_of};
use dn_model::ImageFault;
use image_head::head::{geometry_of, head_fault};
use image_head::inodes::{InodeUse, inode_fault, use_of_inode};
use image_head::journal::rolled_copy;
use pm_layout::MAGIC;
use pm_snapshot::SnapshotPm;
use std::alloc::{AllocError, Global};
use std::test::Fail;

// A word that is not read.
const NONE: (usize, u64) = (9, 0);

// So many words, of an image that is sound but for four words, and its first fault.
const HEADS: [(usize, [(usize, u64); 4], Option<ImageFault>); 12] = [
    (WORDS, [NONE, NONE, NONE, NONE], None),
    (
        WORDS - 1,
        [NONE, NONE, NONE, NONE],
        Some(ImageFault::NotAnImage),
    ),
    (0, [NONE, NONE, NONE, NONE], Some(ImageFault::NotAnImage)),
    (
        WORDS,
        [(0, MAGIC + 1), (1, 2), NONE, NONE],
        Some(ImageFault::NotAnImage),
    ),
    (
        WORDS,
        [(1, 2), (2, 63), NONE, NONE],
        Some(ImageFault::WrongVersion { found: 2 }),
    ),
    (
        WORDS,
        [(1, 0), (512, 5), NONE, NONE],
        Some(ImageFault::WrongVersion { found: 0 }),
    ),
    (
        WORDS,
        [(2, 63), (512, 5), NONE, NONE],
        Some(ImageFault::BadGeometry),
    ),
    (
        WORDS,
        [(2, 65), NONE, NONE, NONE],
        Some(ImageFault::BadGeometry),
    ),
    (
        WORDS + 1,
        [NONE, NONE, NONE, NONE],
        Some(ImageFault::BadGeometry),
    ),
    (
        WORDS,
        [(3, 7), NONE, NONE, NONE],
        Some(ImageFault::BadGeometry),
    ),
    (
        WORDS,
        [(3, 865), NONE, NONE, NONE],
        Some(ImageFault::BadGeometry),
    ),
    (WORDS, [(3, 864), NONE, NONE, NONE], None),
];

const JOURNALS: [([(usize, u64); 4], Option<ImageFault>); 9] = [
    ([(512, 5), NONE, NONE, NONE], Some(ImageFault::BadJournal)),
    (
        [(512, 1), (520, 1043), NONE, NONE],
        Some(ImageFault::BadJournal),
    ),
    (
        [(512, 1), (520, 1023), NONE, NONE],
        Some(ImageFault::BadJournal),
    ),
    (
        [(512, 1), (520, 1152), NONE, NONE],
        Some(ImageFault::BadJournal),
    ),
    (
        [(512, 2), (520, 1040), (522, 1040), NONE],
        Some(ImageFault::BadJournal),
    ),
    ([(512, 2), (520, 1040), (522, 1041), NONE], None),
    ([(512, 1), (520, 1138), (522, 1138), NONE], None),
    // The root's old state is put back, or a bad one is.
    ([(512, 1), (520, 1024), (521, 1), (1024, 0)], None),
    (
        [(512, 1), (520, 1024), (521, 0), NONE],
        Some(ImageFault::BadInode { ino: 0 }),
    ),
];

const INODES: [([(usize, u64); 4], Option<ImageFault>); 8] = [
    (
        [(1024, 0), (1040, 3), NONE, NONE],
        Some(ImageFault::BadInode { ino: 0 }),
    ),
    (
        [(1024, 2), NONE, NONE, NONE],
        Some(ImageFault::BadInode { ino: 0 }),
    ),
    (
        [(1040, 3), (1056, 3), NONE, NONE],
        Some(ImageFault::BadInode { ino: 1 }),
    ),
    (
        [(1136, 3), NONE, NONE, NONE],
        Some(ImageFault::BadInode { ino: 7 }),
    ),
    ([(1152, 3), NONE, NONE, NONE], None),
    (
        [(1056, 2), (1059, 4097), NONE, NONE],
        Some(ImageFault::BadInode { ino: 2 }),
    ),
    ([(1056, 2), (1059, 4096), NONE, NONE], None),
    // The cut of another inode than a dying one is not read.
    ([(1056, 1), (1059, 4097), (1075, 4097), NONE], None),
];

const USES: [InodeUse; 8] = [
    InodeUse::Live,
    InodeUse::Live,
    InodeUse::Dying { cut: 4096 },
    InodeUse::Free,
    InodeUse::Dying { cut: 0 },
    InodeUse::Free,
    InodeUse::Free,
    InodeUse::Live,
];

// An image of 64 pages and 8 inodes that are free but for the root, with these words.
fn image_with(
    alloc: Global,
    length: usize,
    others: &[(usize, u64)],
) -> Result<Vec<u64>, AllocError> {
    let head = [(0, MAGIC), (1, 1), (2, 64), (3, 8), (1024, 1)];
    let mut words = words_of(alloc, length, &head)?;
    put_all(&mut words, others);
    Ok(words)
}

// The first fault by the head, the journal or an inode.
fn first_fault(alloc: Global, image: &[u64]) -> Result<Option<ImageFault>, AllocError> {
    if let Some(fault) = head_fault(image) {
        return Ok(Some(fault));
    }
    let g = geometry_of(image);
    let words = rolled_copy(alloc, image)?;
    match inode_fault(&SnapshotPm::of_words(words), &g) {
        Some(ino) => Ok(Some(ImageFault::BadInode { ino })),
        None => Ok(None),
    }
}

#[test]
fn first_faults(rt: HostRuntime) -> Result<(), Fail> {
    let alloc = rt.alloc();
    for (length, others, fault) in HEADS {
        let image = image_with(alloc, length, &others)?;
        assert_eq!(rt; first_fault(alloc, &image)?, fault);
    }
    for (others, fault) in JOURNALS {
        let image = image_with(alloc, WORDS, &others)?;
        assert_eq!(rt; first_fault(alloc, &image)?, fault);
    }
    for (others, fault) in INODES {
        let image = image_with(alloc, WORDS, &others)?;
        assert_eq!(rt; first_fault(alloc, &image)?, fault);
    }
    Ok(())
}

// The gate is open: the cut of inode 4 isn't named, but its state is put back.
#[test]
fn uses(rt: HostRuntime) -> Result<(), Fail> {
    let alloc = rt.alloc();
    let others = [
        (512, 2),
        (520, 1088),
        (521, 2),
        (522, 1136),
        (523, 1),
        (1040, 1),
        (1056, 2),
        (1059, 4096),
        (1088, 1),
        (1136, 0),
    ];
    let image = image_with(alloc, WORDS, &others)?;
    assert!(rt; head_fault(&image).is_none());
    let g = geometry_of(&image);
    let words = rolled_copy(alloc, &image)?;
    assert_eq!(rt; words.len(), WORDS);
    assert_eq!(rt; words.get(512).copied(), Some(0));
    assert_eq!(rt; words.get(520).copied(), Some(1088));
    let device = SnapshotPm::of_words(words);
    for ino in 0..g.inodes {
        assert_eq!(rt;
            Some(use_of_inode(&device, &g, ino)),
            USES.get(ino as usize).copied()
        );
    }
    Ok(())
}
