// Operations are crashed at every moment.
use crate::asks::{Ask, files_after, files_after_each, files_before_and_after};
use crate::courses::{Mark, Went, run, run_both, work_all};
use crate::images::{Known, PICKS, Trial, look_again};
use crate::opening::{open, prepared};
use dn_files::Files;
use dn_volume::Volume;
use fingerprint::{Fingerprint, Sha1Print, SumPrint};
use pm_device::MemPm;
use std::alloc::{AllocError, Global};
use std::process::Abort;
use std::test::Fail;

// Two files share a page, and each has one of its own.
const SHARED: [Ask; 6] = [
    Ask::Create("a"),
    Ask::Fill("a", 0, 4096, 0x41),
    Ask::Create("b"),
    Ask::Fill("b", 0, 4096, 0x41),
    Ask::Fill("a", 4096, 4096, 0x42),
    Ask::Fill("b", 4096, 100, 0x43),
];

// One of so many images is mounted once more.
const MOUNTED_AGAIN: usize = 4;

// What was run, and what came of it.
#[derive(Drop)]
pub struct Ran {
    pub device: MemPm,
    pub marks: Vec<Mark>,
    pub files: Vec<Files>,
}

// The operation runs on the script's files, whose work is done, and then its own work is done.
pub fn operation<F: Fingerprint + Copy + Drop>(
    rt: &impl Abort,
    alloc: Global,
    script: &[Ask],
    ask: &Ask,
    print: F,
) -> Result<Ran, Fail> {
    let words = prepared(rt, alloc, script, print, true)?;
    let mut v = open(rt, alloc, words, print)?;
    let mut marks = Vec::new(alloc);
    assert_eq!(rt; run(alloc, &mut v, ask, &mut marks)?, Went::Done);
    work_all(alloc, &mut v, &mut marks)?;
    let files = files_before_and_after(alloc, script, ask)?;
    Ok(Ran {
        device: v.into_device(),
        marks,
        files,
    })
}

// The work that waits for the daemon after the script is done.
fn daemon_work<F: Fingerprint + Copy + Drop>(
    rt: &impl Abort,
    alloc: Global,
    script: &[Ask],
    print: F,
) -> Result<Ran, Fail> {
    let words = prepared(rt, alloc, script, print, false)?;
    let mut v = open(rt, alloc, words, print)?;
    let mut marks = Vec::new(alloc);
    work_all(alloc, &mut v, &mut marks)?;
    let mut files = Vec::new(alloc);
    files.push(files_after(alloc, script)?)?;
    Ok(Ran {
        device: v.into_device(),
        marks,
        files,
    })
}

// How many of these images have the files after so many operations.
fn count_at(known: &[Known], place: usize) -> usize {
    known.iter().filter(|one| one.place == place).count()
}

impl Ran {
    pub fn trial(&self) -> Trial<'_> {
        Trial {
            device: &self.device,
            marks: &self.marks,
            files: &self.files,
            picks: PICKS,
        }
    }

    // The images of all moments. Some have the files before the operations, and some those after each.
    pub fn look_all<F: Fingerprint + Copy + Drop>(
        &self,
        rt: &impl Abort,
        alloc: Global,
        print: F,
    ) -> Result<Vec<Known>, Fail> {
        let known = self.trial().look_all(rt, alloc, print)?;
        for place in 0..self.files.len() {
            let count = count_at(&known, place);
            assert!(rt; count > 0, "none at {place}");
        }
        Ok(known)
    }
}

// Some of these images are mounted once more. Answers how many images of the mounts there were.
pub fn look_at_mounts<F: Fingerprint + Copy + Drop>(
    rt: &impl Abort,
    alloc: Global,
    known: &[Known],
    files: &[Files],
    print: F,
) -> Result<usize, Fail> {
    let mut count = 0usize;
    for (k, one) in known.iter().enumerate() {
        if k % MOUNTED_AGAIN == 0 {
            count = count.saturating_add(look_again(rt, alloc, one, files, print)?);
        }
    }
    Ok(count)
}

// Each image of the operation is right, and each image of the mounts of these images.
fn crash<F: Fingerprint + Copy + Drop>(
    rt: &impl Abort,
    alloc: Global,
    script: &[Ask],
    ask: &Ask,
    print: F,
) -> Result<(), Fail> {
    let ran = operation(rt, alloc, script, ask, print)?;
    let known = ran.look_all(rt, alloc, print)?;
    let count = look_at_mounts(rt, alloc, &known, &ran.files, print)?;
    assert!(rt; count > 0);
    Ok(())
}

#[test]
fn operations_are_crashed(rt: HostRuntime) -> Result<(), Fail> {
    for ask in [
        Ask::Fill("a", 0, 4096, 0x44),
        Ask::Cut("a", 10),
        Ask::Rename("a", "b"),
        Ask::Create("c"),
    ] {
        crash(&rt, rt.alloc(), &SHARED, &ask, Sha1Print)?;
    }
    Ok(())
}

#[test]
fn operations_are_crashed_where_prints_collide(rt: HostRuntime) -> Result<(), Fail> {
    for ask in [
        Ask::Write("b", 4000, b"xyz"),
        Ask::Remove("a"),
        Ask::Fill("b", 8292, 12088, 0x45),
    ] {
        crash(&rt, rt.alloc(), &SHARED, &ask, SumPrint)?;
    }
    Ok(())
}

// The second page is shared with the first, and the third has the same sum and other bytes.
#[test]
fn shares_pages(rt: HostRuntime) -> Result<(), Fail> {
    let script = [
        Ask::Create("a"),
        Ask::Fill("a", 0, 4096, 0x41),
        Ask::Create("b"),
        Ask::Fill("b", 0, 8192, 0x41),
        Ask::Write("b", 5000, b"@B"),
    ];
    let ran = daemon_work(&rt, rt.alloc(), &script, SumPrint)?;
    let known = ran.look_all(&rt, rt.alloc(), SumPrint)?;
    let count = look_at_mounts(&rt, rt.alloc(), &known, &ran.files, SumPrint)?;
    assert!(rt; count > 0);
    Ok(())
}

// Two clients and the daemon and reclaim in turn.
#[test]
fn two_clients(rt: HostRuntime) -> Result<(), Fail> {
    let alloc = rt.alloc();
    let first = [Ask::Fill("a", 0, 4096, 0x43), Ask::Cut("a", 5000)];
    let second = [Ask::Fill("b", 4096, 4096, 0x43), Ask::Remove("b")];
    let words = prepared(&rt, alloc, &SHARED, Sha1Print, true)?;
    let mut v = open(&rt, alloc, words, Sha1Print)?;
    let mut marks = Vec::new(alloc);
    run_both(alloc, &mut v, [&first, &second], &mut marks)?;
    assert_eq!(rt; marks.len(), 4);
    let files = files_after_each(alloc, &SHARED, v.history())?;
    let ran = Ran {
        device: v.into_device(),
        marks,
        files,
    };
    ran.look_all(&rt, alloc, Sha1Print)?;
    Ok(())
}

// The log of the root and that of a file are full pages.
fn full_logs(alloc: Global) -> Result<Vec<Ask>, AllocError> {
    let mut script = Vec::new(alloc);
    for _ in 0..31 {
        script.push(Ask::Create("b"))?;
        script.push(Ask::Remove("b"))?;
    }
    script.push(Ask::Create("a"))?;
    script.append(&mut vec![in alloc; Ask::Fill("a", 0, 1, 0x41); 63]?)?;
    Ok(script)
}

#[test]
fn logs_grow(rt: HostRuntime) -> Result<(), Fail> {
    let alloc = rt.alloc();
    let script = full_logs(alloc)?;
    for ask in [
        Ask::Create("b"),
        Ask::Write("a", 1, b"b"),
        Ask::Rename("a", "b"),
    ] {
        let ran = operation(&rt, alloc, &script, &ask, Sha1Print)?;
        ran.look_all(&rt, alloc, Sha1Print)?;
    }
    Ok(())
}
