// An item is prepared and committed, or its flag or mask is set: each image that a stop might have left has the old list
// or the new one.
ghost use Rattle.std.specs.Prelude.{◌≡◌, ◌≤◌, length, slice_index};
ghost use Rattle.pm_device.specs.Settled.{IsSettled};
ghost use Rattle.pm_layout.specs.Geometry.{IsAccepted};

use crate::image::{WORDS, words_of};
use inode_log::flag::FLAG_UNITS;
use inode_log::prepare::prepare;
use inode_log::{commit_log, set_flag, set_mask};
use log_entry::Flag;
use pm_device::{MemPm, Pm};
use pm_layout::Geometry;
use std::alloc::{AllocError, Global};
use std::process::Abort;
use std::test::Fail;

// A Size item, and words of inode 1 and of page 6 on an image of 64 pages and 8 inodes.
const ITEM: [u64; 8] = [2, 7, 0, 0, 0, 0, 0, 0];

const HEAD: usize = 1041;

const TAIL: usize = 1042;

const SLOT: usize = 3072;

fn is(image: &[u64], at: usize, value: u64) -> bool {
    image.get(at).copied() == Some(value)
}

// Whether the image has the old tail; or the new one, and then the item too.
fn has_old(image: &[u64]) -> bool {
    is(image, TAIL, 0)
}

fn has_new(image: &[u64]) -> bool {
    is(image, TAIL, 385)
        && is(image, HEAD, 6)
        && is(image, SLOT, 2)
        && is(image, SLOT + 1, 7)
        && is(image, SLOT + 2, 0)
}

// Prepares the item on page 6 for the log of inode 1, which is empty, and commits it. Whether that succeeded.
fn commit_first(device: &mut MemPm, g: &Geometry) -> bool
    requires accepted { IsAccepted g.now }
    requires pages { g.now.pages ≡ 64 }
    requires inodes { g.now.inodes ≡ 8 }
    requires size { length (⟦<MemPm as Pm>⟧.state device.old).now ≡ 32768 }
    requires tail { slice_index (⟦<MemPm as Pm>⟧.state device.old).now 1042 ≡ 0 }
    requires room { 100 ≤ (⟦<MemPm as Pm>⟧.state device.old).spare }
{
    let tail = prepare(device, g, 1, 1, &[ITEM], &[6]);
    commit_log(device, g, 1, 1, tail).is_ok()
}

// A log of inode 1 that gets the item, on a device of which these fences fail, and whether the commit succeeded.
fn committed(rt: &impl Abort, alloc: Global, fail_at: &[u64]) -> Result<(MemPm, bool), Fail> {
    let words = vec![in alloc; 0; 32768]?;
    let mut device = MemPm::of_words(alloc, words, Vec::from_slice(alloc, fail_at)?)?;
    device.ready(100)?;
    let g = Geometry::of(64, 8)?;
    assert!(rt; g.pages == 64 && g.inodes == 8);
    assert!(rt; device.words() == 32768);
    assert!(rt; device.load(1042) == 0);
    let done = commit_first(&mut device, &g);
    Ok((device, done))
}

// How many of the images at this moment have the new list; the others have the old one.
fn new_images(
    rt: &impl Abort,
    alloc: Global,
    device: &MemPm,
    moment: u64,
) -> Result<u64, AllocError> {
    let mut new = 0;
    for pick in 0..8u64 {
        assert!(rt; moment <= device.moment());
        let image = device.image_at(alloc, moment, pick)?;
        assert!(rt;
            has_old(&image) || has_new(&image),
            "moment {moment}, pick {pick}"
        );
        if !has_old(&image) && new < 8 {
            new += 1;
        }
    }
    Ok(new)
}

#[test]
fn commits_at_every_moment(rt: HostRuntime) -> Result<(), Fail> {
    // the fences that fail, whether the commit succeeds, and whether all images have the new list then, and some
    let rows: [(&[u64], bool, bool, bool); 3] = [
        (&[], true, true, true),
        (&[1], false, false, false),
        (&[2], false, false, true),
    ];
    for (fail_at, succeeds, all, some) in rows {
        let (device, done) = committed(&rt, rt.alloc(), fail_at)?;
        assert_eq!(rt; done, succeeds);
        let end = device.moment();
        for moment in 0..end {
            new_images(&rt, rt.alloc(), &device, moment)?;
        }
        let new = new_images(&rt, rt.alloc(), &device, end)?;
        assert_eq!(rt; (new == 8, new > 0), (all, some), "{fail_at:?}");
    }
    Ok(())
}

// The log of inode 1 with one Write, on page 6: its flag is the number 1, and its mask 0.
const WRITE: [(usize, u64); 9] = [
    (HEAD, 6),
    (TAIL, 385),
    (SLOT, 1),
    (SLOT + 1, 0),
    (SLOT + 2, 1),
    (SLOT + 3, 40),
    (SLOT + 4, 4096),
    (SLOT + 5, 1),
    (SLOT + 6, 0),
];

// Whether the image has the Write, whatever stands in this field.
fn has_write(image: &[u64], field: usize) -> bool {
    WRITE
        .iter()
        .all(|(at, value)| *at == field || is(image, *at, *value))
}

// Sets the Write's flag, or its mask. Whether that succeeded.
fn set_first(device: &mut MemPm, g: &Geometry, flag: Option<Flag>) -> bool
    requires accepted { IsAccepted g.now }
    requires pages { g.now.pages ≡ 64 }
    requires inodes { g.now.inodes ≡ 8 }
    requires size { length (⟦<MemPm as Pm>⟧.state device.old).now ≡ 32768 }
    requires room { FLAG_UNITS ≤ (⟦<MemPm as Pm>⟧.state device.old).spare }
{
    match flag {
        Some(flag) => set_flag(device, g, 1, 384, flag).is_ok(),
        None => set_mask(device, g, 1, 384, 1).is_ok(),
    }
}

// A device with the Write, of which these fences fail, after its flag or its mask was set, and whether that succeeded.
fn reflagged(
    rt: &impl Abort,
    alloc: Global,
    fail_at: &[u64],
    flag: Option<Flag>,
) -> Result<(MemPm, bool), Fail> {
    let words = words_of(alloc, WORDS, &WRITE)?;
    assert!(rt; words.len() % 512 == 0);
    let mut device = MemPm::of_words(alloc, words, Vec::from_slice(alloc, fail_at)?)?;
    device.ready(FLAG_UNITS)?;
    let g = Geometry::of(64, 8)?;
    assert!(rt; g.pages == 64 && g.inodes == 8);
    assert!(rt; device.words() == 32768);
    let done = set_first(&mut device, &g, flag);
    Ok((device, done))
}

// How many of eight images at this moment have this value in the field; the others have the old one.
fn images_with(
    rt: &impl Abort,
    alloc: Global,
    device: &MemPm,
    moment: u64,
    (field, old, new): (usize, u64, u64),
) -> Result<u64, AllocError> {
    let mut found = 0;
    for pick in 0..8u64 {
        assert!(rt; moment <= device.moment());
        let image = device.image_at(alloc, moment, pick)?;
        assert!(rt; has_write(&image, field), "moment {moment}, pick {pick}");
        if is(&image, field, new) && found < 8 {
            found += 1;
        } else {
            assert!(rt; is(&image, field, old), "moment {moment}, pick {pick}");
        }
    }
    Ok(found)
}

#[test]
fn sets_at_every_moment(rt: HostRuntime) -> Result<(), Fail> {
    // the flag or the mask, the field with its old and its new value, and the fences that fail
    let flag = Some(Flag::Complete);
    let rows: [(Option<Flag>, (usize, u64, u64), &[u64]); 4] = [
        (flag, (SLOT + 5, 1, 3), &[]),
        (flag, (SLOT + 5, 1, 3), &[1]),
        (None, (SLOT + 6, 0, 1), &[]),
        (None, (SLOT + 6, 0, 1), &[1]),
    ];
    for (flag, field, fail_at) in rows {
        let (device, done) = reflagged(&rt, rt.alloc(), fail_at, flag)?;
        assert_eq!(rt; done, fail_at.is_empty());
        assert_eq!(rt; device.moment(), 3);
        let mut counts = [0; 4];
        for (moment, count) in counts.iter_mut().enumerate() {
            *count = images_with(&rt, rt.alloc(), &device, moment as u64, field)?;
        }
        let wanted = if done { [0, 4, 4, 8] } else { [0, 4, 4, 4] };
        assert_eq!(rt; counts, wanted, "{fail_at:?}");
    }
    Ok(())
}
