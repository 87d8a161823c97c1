// Words of 64 pages and 8 inodes are formatted: what stands then, and what a stop leaves at each moment.
use crate::image::{WORDS, words_of};
use pm_device::{MemPm, Pm};
use pm_layout::Geometry;
use recovery::{FormatFault, format};
use std::alloc::Global;
use std::process::Abort;
use std::test::Fail;

const MAGIC: u64 = 0x3130_4156_4F4E_4544;

// Words of an image with a file `f`, an open journal, rows and pointers.
const USED: [(usize, u64); 19] = [
    (0, MAGIC),
    (1, 1),
    (2, 64),
    (3, 8),
    (512, 2),
    (1024, 1),
    (1025, 6),
    (1026, 385),
    (1040, 1),
    (1042, 9),
    (1136, 2),
    (1536, 7),
    (1537, 9),
    (1541, 70),
    (2045, 70),
    (2048, 9),
    (2560, 1),
    (2623, 1),
    (3072, 3),
];

// What stands after: what isn't read of an empty file system is as it was.
const EMPTIED: [(usize, u64); 10] = [
    (0, MAGIC),
    (1, 1),
    (2, 64),
    (3, 8),
    (1024, 1),
    (1025, 6),
    (1042, 9),
    (1537, 9),
    (2048, 9),
    (3072, 3),
];

// What stands after words of zeros.
const FRESH: [(usize, u64); 5] = [(0, MAGIC), (1, 1), (2, 64), (3, 8), (1024, 1)];

// A device of these words after it was formatted, and what that answered.
fn formatted(
    rt: &impl Abort,
    alloc: Global,
    words: &[u64],
) -> Result<(MemPm, Result<(), FormatFault>), Fail> {
    let g = Geometry::of(64, 8)?;
    assert!(rt; words.len() % 512 == 0);
    let mut device = MemPm::of_words(alloc, Vec::from_slice(alloc, words)?, Vec::new(alloc))?;
    let answer = format(&mut device, g);
    Ok((device, answer))
}

// The images that stops may leave at this moment are the words as they were, no image, or the new file system.
fn is_formatting(
    rt: &impl Abort,
    alloc: Global,
    device: &MemPm,
    moment: u64,
    before: &[u64],
    after: &[u64],
) -> Result<(), Fail> {
    for pick in 0..8u64 {
        assert!(rt; moment <= device.moment());
        let image = device.image_at(alloc, moment, pick)?;
        let none = image.get(0).copied() != Some(MAGIC);
        assert!(rt;
            none || &image[..] == before || &image[..] == after,
            "moment {moment}, pick {pick}"
        );
    }
    Ok(())
}

#[test]
fn formats_at_every_moment(rt: HostRuntime) -> Result<(), Fail> {
    let rows: [(&[(usize, u64)], &[(usize, u64)]); 2] = [(&[], &FRESH), (&USED, &EMPTIED)];
    for (some, want) in rows {
        let before = words_of(rt.alloc(), WORDS, some)?;
        let after = words_of(rt.alloc(), WORDS, want)?;
        let (device, answer) = formatted(&rt, rt.alloc(), &before)?;
        assert_eq!(rt; answer, Ok(()));
        for moment in 0..device.moment() {
            is_formatting(&rt, rt.alloc(), &device, moment, &before, &after)?;
        }
        let last = device.image_at(rt.alloc(), device.moment(), 0)?;
        assert!(rt; last == after);
    }
    Ok(())
}

#[test]
fn refuses_other_sizes(rt: HostRuntime) -> Result<(), Fail> {
    for length in [0, 512, 32256, 33280] {
        let before = words_of(rt.alloc(), length, &USED)?;
        let (device, answer) = formatted(&rt, rt.alloc(), &before)?;
        assert_eq!(rt;
            answer,
            Err(FormatFault::WrongSize {
                words: length as u64
            })
        );
        assert_eq!(rt; device.moment(), 0);
    }
    Ok(())
}
