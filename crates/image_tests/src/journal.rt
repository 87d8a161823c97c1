// Commits of one to four changes with each image that a stop may leave, rolled by hand; roll backs that are stopped
// and made again; and bad journals.
use crate::image::{WORDS, put};
use name_journal::change::{Change, are_changes};
use name_journal::commit::{COMMIT_ALL_UNITS, commit_all};
use name_journal::undo::{ROLL_BACK_UNITS, RollFault, roll_back};
use pm_device::{MemPm, Pm};
use pm_layout::Geometry;
use std::alloc::{AllocError, Global};
use std::process::Abort;
use std::test::Fail;

// Of inodes 1 to 3: a state, a head, a tail, and a second word of one line.
const CHANGES: [Change; 4] = [
    Change { at: 1040, value: 2 },
    Change {
        at: 1057,
        value: 40,
    },
    Change {
        at: 1074,
        value: 2600,
    },
    Change {
        at: 1058,
        value: 2561,
    },
];

// The gate, addresses of two pairs, and whether the journal is bad.
const JOURNALS: [(u64, u64, u64, bool); 10] = [
    (0, 9, 9, false),
    (1, 1040, 9, false),
    (2, 1040, 1138, false),
    (5, 1040, 1041, true),
    (1, 1043, 9, true),
    (1, 1023, 9, true),
    (1, 1152, 9, true),
    (2, 1040, 9, true),
    (2, 1040, 1040, true),
    (4, 1040, 1041, true),
];

fn word(words: &[u64], at: usize) -> u64 {
    words.get(at).copied().unwrap_or(0)
}

// An image of 64 pages whose words are all 9, but for the gate.
fn nines(alloc: Global, gate: u64) -> Result<Vec<u64>, AllocError> {
    let mut words = vec![in alloc; 9; WORDS]?;
    put(&mut words, 512, gate);
    Ok(words)
}

// The image with the old values of its journal put back.
fn rolled(alloc: Global, image: &[u64]) -> Result<Vec<u64>, AllocError> {
    let mut words = Vec::from_slice(alloc, image)?;
    for i in 0..4 {
        if i < word(image, 512) as usize {
            put(
                &mut words,
                word(image, 520 + 2 * i) as usize,
                word(image, 521 + 2 * i),
            );
        }
    }
    put(&mut words, 512, 0);
    Ok(words)
}

// How many words outside the journal's page aren't 9.
fn changed(image: &[u64]) -> usize {
    let mut count = 0;
    for (at, word) in image.iter().enumerate() {
        if *word != 9 && (at < 512 || at >= 1024) && count < WORDS {
            count += 1;
        }
    }
    count
}

// A device after the commit, of which the fences of these numbers fail.
fn after_commit(
    rt: &impl Abort,
    alloc: Global,
    changes: &[Change],
    fail_at: &[u64],
) -> Result<MemPm, Fail> {
    let g = Geometry::of(64, 8)?;
    let words = nines(alloc, 0)?;
    assert!(rt; words.len() == WORDS);
    assert!(rt; words[512] == 0);
    let mut device = MemPm::of_words(alloc, words, Vec::from_slice(alloc, fail_at)?)?;
    device.ready(COMMIT_ALL_UNITS)?;
    assert!(rt; are_changes(&g, changes) && changes.len() >= 1 && changes.len() <= 4);
    let done = commit_all(&mut device, &g, 1, changes);
    assert_eq!(rt; done.is_ok(), fail_at.is_empty());
    Ok(device)
}

// A device after the roll back, and what that answered.
fn after_roll(
    rt: &impl Abort,
    alloc: Global,
    words: Vec<u64>,
) -> Result<(MemPm, Result<(), RollFault>), Fail> {
    let g = Geometry::of(64, 8)?;
    assert!(rt; words.len() == WORDS);
    let mut device = MemPm::of_words(alloc, words, Vec::new(alloc))?;
    device.ready(ROLL_BACK_UNITS)?;
    let answer = roll_back(&mut device, &g, 16);
    Ok((device, answer))
}

// A roll back of the image, stopped at each of its moments, leaves what rolls to the same words.
fn rolls_again(rt: &impl Abort, alloc: Global, image: &[u64]) -> Result<(), Fail> {
    let want = rolled(alloc, image)?;
    let (device, answer) = after_roll(rt, alloc, Vec::from_slice(alloc, image)?)?;
    assert_eq!(rt; answer, Ok(()));
    for moment in 0..device.moment() + 1 {
        let left = device.image_at(alloc, moment, moment % 8)?;
        assert!(rt; rolled(alloc, &left)? == want, "at {moment}");
    }
    let last = device.image_at(alloc, device.moment(), 0)?;
    assert!(rt; last == want);
    Ok(())
}

// What an image of a commit rolls to has all changes or none.
fn has_all_or_none(
    rt: &impl Abort,
    alloc: Global,
    changes: &[Change],
    image: &[u64],
) -> Result<(), Fail> {
    let words = rolled(alloc, image)?;
    let mut new = 0;
    for change in changes {
        if word(&words, change.at as usize) == change.value && new < 4 {
            new += 1;
        }
    }
    assert_eq!(rt; new, changed(&words));
    assert!(rt; new == 0 || new == changes.len());
    Ok(())
}

// So it is at each moment, for so many picks.
fn all_or_none(
    rt: &impl Abort,
    alloc: Global,
    changes: &[Change],
    fail_at: &[u64],
    picks: u64,
) -> Result<(), Fail> {
    let device = after_commit(rt, alloc, changes, fail_at)?;
    for moment in 0..device.moment() + 1 {
        for pick in 0..picks {
            let image = device.image_at(alloc, moment, (pick % 8 + moment % 8) % 8)?;
            has_all_or_none(rt, alloc, changes, &image)?;
            if picks == 8 && pick == 0 && moment % 6 == 2 {
                rolls_again(rt, alloc, &image)?;
            }
        }
    }
    if fail_at.is_empty() {
        let durable = device.image_at(alloc, device.moment(), 0)?;
        assert_eq!(rt; changed(&durable), changes.len());
        assert_eq!(rt; word(&durable, 512), 0);
    }
    Ok(())
}

#[test]
fn changes_all_or_none(rt: HostRuntime) -> Result<(), Fail> {
    let alloc = rt.alloc();
    for count in [1, 2, 3] {
        all_or_none(&rt, alloc, &CHANGES[..count], &[], 1)?;
    }
    all_or_none(&rt, alloc, &CHANGES, &[], 8)?;
    all_or_none(&rt, alloc, &CHANGES, &[2], 1)?;
    for (gate, first, second, bad) in JOURNALS {
        let mut words = nines(alloc, gate)?;
        put(&mut words, 520, first);
        put(&mut words, 522, second);
        let (device, answer) = after_roll(&rt, alloc, words)?;
        assert_eq!(rt;
            answer,
            if bad {
                Err(RollFault::BadJournal)
            } else {
                Ok(())
            },
            "{gate} {first} {second}"
        );
        assert_eq!(rt; device.moment() == 0, bad || gate == 0);
    }
    Ok(())
}
