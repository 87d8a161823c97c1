// Crashes and faults that were worked out by hand.
use crate::asks::{Ask, files_after};
use crate::contents::has_files;
use crate::courses::{Went, run};
use crate::opening::{open, prepared, try_open, words_of};
use dn_check::{Finding, check};
use dn_model::ImageFault;
use dn_mount::fault::MountFault;
use fingerprint::{CountWord, Sha1Print, SumPrint};
use pm_device::MemPm;
use std::alloc::{AllocError, Global};
use std::process::Abort;
use std::test::Fail;

// Two files of one page, which they share. It is page 8, and the logs are the pages 6, 7 and 9.
const PAIR: [Ask; 4] = [
    Ask::Create("a"),
    Ask::Fill("a", 0, 4096, 0x41),
    Ask::Create("b"),
    Ask::Fill("b", 0, 4096, 0x41),
];

const OVERWRITE: Ask = Ask::Fill("a", 0, 4096, 0x42);

const OVERWRITTEN: [Ask; 4] = [
    Ask::Create("a"),
    OVERWRITE,
    Ask::Create("b"),
    Ask::Fill("b", 0, 4096, 0x41),
];

// The counts of the row of a page.
fn count_of(alloc: Global, image: &[u64], page: u64) -> Result<Option<CountWord>, AllocError> {
    let Finding::Sound { rows, .. } = check(alloc, image)? else {
        return Ok(None);
    };
    for row in rows.rows() {
        if row.page == page {
            return Ok(Some(row.count));
        }
    }
    Ok(None)
}

// The image that a crash leaves right after the one file was overwritten, if it loses all that no fence made durable.
fn left_image(rt: &impl Abort, alloc: Global) -> Result<Vec<u64>, Fail> {
    let words = prepared(rt, alloc, &PAIR, Sha1Print, true)?;
    let mut v = open(rt, alloc, words, Sha1Print)?;
    let mut marks = Vec::new(alloc);
    assert_eq!(rt; run(alloc, &mut v, &OVERWRITE, &mut marks)?, Went::Done);
    Ok(v.device().image_at(alloc, v.device().moment(), 0)?)
}

// Mounts an image: its files are those after the overwrite, and page 8 is mapped once.
fn mounted(rt: &impl Abort, alloc: Global, image: Vec<u64>) -> Result<MemPm, Fail> {
    let v = open(rt, alloc, image, Sha1Print)?;
    let files = files_after(alloc, &OVERWRITTEN)?;
    assert!(rt; has_files(alloc, &v, &files)?);
    let count = count_of(alloc, &words_of(alloc, v.device())?, 8)?;
    assert_eq!(rt; count, Some(CountWord { rfc: 1, uc: 0 }));
    Ok(v.into_device())
}

// All images of a moment are mounted.
fn mount_all(rt: &impl Abort, alloc: Global, device: &MemPm, moment: u64) -> Result<(), Fail> {
    for pick in 0..8 {
        assert!(rt; moment <= device.moment());
        mounted(rt, alloc, device.image_at(alloc, moment, pick)?)?;
    }
    Ok(())
}

#[test]
fn counts_are_mended(rt: HostRuntime) -> Result<(), Fail> {
    let alloc = rt.alloc();
    let image = left_image(&rt, alloc)?;
    let count = count_of(alloc, &image, 8)?;
    assert_eq!(rt; count, Some(CountWord { rfc: 2, uc: 1 }));
    let device = mounted(&rt, alloc, image)?;
    assert!(rt; device.moment() > 0);
    for moment in 0..=device.moment() {
        mount_all(&rt, alloc, &device, moment)?;
    }
    Ok(())
}

// Sets words of an image.
fn put(image: &mut Vec<u64>, words: &[(usize, u64)]) {
    for (at, value) in words {
        if let Some(word) = image.get_mut(*at) {
            *word = *value;
        }
    }
}

// The check and a mount tell this fault of an image, of which some words are set. The mount gives the device back.
fn refuses(
    rt: &impl Abort,
    alloc: Global,
    image: Vec<u64>,
    words: &[(usize, u64)],
    fault: ImageFault,
) -> Result<(), Fail> {
    let mut image = image;
    put(&mut image, words);
    match check(alloc, &image)? {
        Finding::Fault(found) => assert_eq!(rt; found, fault),
        Finding::Sound { .. } => assert!(rt; false, "not {fault:?}"),
    }
    match try_open(rt, alloc, image, Vec::new(alloc), Sha1Print)? {
        Err((MountFault::Image(found), _device)) => assert_eq!(rt; found, fault),
        _ => assert!(rt; false, "mounted"),
    }
    Ok(())
}

// A file whose log is a full page, of which 63 items each write the file's one page.
fn full_log(rt: &impl Abort, alloc: Global) -> Result<Vec<u64>, Fail> {
    let mut asks = Vec::new(alloc);
    asks.push(Ask::Create("f"))?;
    for _ in 0..63 {
        asks.push(Ask::Fill("f", 0, 1, 0x41))?;
    }
    prepared(rt, alloc, &asks, Sha1Print, true)
}

#[test]
fn faults_are_told(rt: HostRuntime) -> Result<(), Fail> {
    let alloc = rt.alloc();
    let image = prepared(&rt, alloc, &[], Sha1Print, true)?;
    refuses(&rt, alloc, image, &[(2, 63)], ImageFault::BadGeometry)?;
    let image = prepared(&rt, alloc, &PAIR, Sha1Print, true)?;
    let fault = ImageFault::BadLog { ino: 1, place: 1 };
    refuses(&rt, alloc, image, &[(1042, 450)], fault)?;
    let image = full_log(&rt, alloc)?;
    // the log is page 7, whose last slots are full
    assert_eq!(rt; image.get(1042).copied(), Some(511));
    let fault = ImageFault::BadLog { ino: 1, place: 63 };
    refuses(&rt, alloc, image, &[(4088, 7), (1042, 641)], fault)?;
    let script = [
        Ask::Create("f"),
        Ask::Write("f", 0, &[1, 2]),
        Ask::Create("g"),
        Ask::Write("g", 0, &[2, 1]),
    ];
    let image = prepared(&rt, alloc, &script, SumPrint, true)?;
    assert_eq!(rt;
        count_of(alloc, &image, 8)?,
        Some(CountWord { rfc: 1, uc: 0 })
    );
    let words = [(1536, 0), (2568, 0), (4611, 8)];
    refuses(
        &rt,
        alloc,
        image,
        &words,
        ImageFault::DoubleMapped { page: 8 },
    )
}
