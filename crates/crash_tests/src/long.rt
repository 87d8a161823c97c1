// Two files share 17 pages. One is written over, and the other one is removed.
use crate::asks::{Ask, files_after_each};
use crate::courses::{Went, run, work_all};
use crate::images::{Known, Trial, forget};
use crate::opening::{open, prepared, words_of};
use crate::operations::Ran;
use dn_check::{Finding, check_words};
use fingerprint::Sha1Print;
use std::alloc::{AllocError, Global};
use std::process::Abort;
use std::test::Fail;

const PAGES: u8 = 17;

// A file is made of pages no two of which are equal.
fn add_file(asks: &mut Vec<Ask>, name: &'static str) -> Result<(), AllocError> {
    asks.push(Ask::Create(name))?;
    for page in 0..PAGES {
        let at = 4096 * u64::from(page);
        asks.push(Ask::Fill(name, at, 4096, page.wrapping_add(1)))?;
    }
    Ok(())
}

// Two files of the same pages.
fn make_files(alloc: Global) -> Result<Vec<Ask>, AllocError> {
    let mut asks = Vec::new(alloc);
    add_file(&mut asks, "a")?;
    add_file(&mut asks, "b")?;
    Ok(asks)
}

// All pages of the one file are written over, and then the other file is removed.
const OVERWRITE: Ask = Ask::Fill("a", 1, 65536, 0x62);

const REMOVE: Ask = Ask::Remove("b");

// How many rows of words without a fault have so many references, and no update open.
fn count_rows(
    alloc: Global,
    words: Vec<u64>,
    references: u32,
) -> Result<Option<usize>, AllocError> {
    let Finding::Sound { rows, .. } = check_words(alloc, words)? else {
        return Ok(None);
    };
    let counts = rows.rows().iter().map(|row| row.count);
    Ok(Some(
        counts
            .filter(|count| count.rfc == references && count.uc == 0)
            .count(),
    ))
}

// Rows of these words have so many references.
fn expect_rows(
    rt: &impl Abort,
    alloc: Global,
    words: &[u64],
    want: &[(u32, usize)],
) -> Result<(), AllocError> {
    for (references, count) in want {
        let rows = count_rows(alloc, Vec::from_slice(alloc, words)?, *references)?;
        assert_eq!(rt; rows, Some(*count), "with {references}");
    }
    Ok(())
}

// The changes are made on the files, and all work is done.
fn change_files(rt: &impl Abort, alloc: Global) -> Result<Ran, Fail> {
    let script = make_files(alloc)?;
    let words = prepared(rt, alloc, &script, Sha1Print, true)?;
    expect_rows(rt, alloc, &words, &[(2, 17)])?;
    let mut v = open(rt, alloc, words, Sha1Print)?;
    let mut marks = Vec::new(alloc);
    assert_eq!(rt; run(alloc, &mut v, &OVERWRITE, &mut marks)?, Went::Done);
    assert_eq!(rt; run(alloc, &mut v, &REMOVE, &mut marks)?, Went::Done);
    work_all(alloc, &mut v, &mut marks)?;
    // the inner pages of the file are equal now
    expect_rows(
        rt,
        alloc,
        &words_of(alloc, v.device())?,
        &[(2, 0), (15, 1), (1, 2)],
    )?;
    let files = files_after_each(alloc, &script, v.history())?;
    Ok(Ran {
        device: v.into_device(),
        marks,
        files,
    })
}

// Images of a moment are mounted.
fn look_at(
    rt: &impl Abort,
    alloc: Global,
    trial: &Trial,
    moment: u64,
    known: &mut Vec<Known>,
) -> Result<(), Fail> {
    for pick in 0..trial.picks {
        trial.look(rt, alloc, (moment, pick), known, Sha1Print)?;
        forget(known);
    }
    Ok(())
}

#[test]
fn long_files_are_changed(rt: HostRuntime) -> Result<(), Fail> {
    let ran = change_files(&rt, rt.alloc())?;
    let mut known = Vec::new(rt.alloc());
    for moment in 0..=ran.device.moment() {
        look_at(&rt, rt.alloc(), &ran.trial(), moment, &mut known)?;
    }
    Ok(())
}
