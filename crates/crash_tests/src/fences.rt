// Fences fail, one after another.
ghost use Rattle.dn_volume.specs.Agrees.{Agrees};

use crate::asks::{Ask, files_before_and_after, op_of};
use crate::courses::{Mark, Moments, Went, run, work_all};
use crate::images::{FEW_PICKS, Known, PICKS, Trial};
use crate::opening::{prepared, try_open};
use crate::operations::operation;
use dn_core::{Event, step};
use dn_files::Files;
use dn_mount::fault::MountFault;
use dn_volume::{Outcome, Volume};
use fingerprint::{Fingerprint, Sha1Print};
use pm_device::{MemPm, Pm};
use std::alloc::Global;
use std::process::Abort;
use std::test::Fail;

// More fences than an operation and its work make.
const MOST_FENCES: u64 = 100;

// Two files share their page.
const PAIR: [Ask; 4] = [
    Ask::Create("a"),
    Ask::Fill("a", 0, 4096, 0x41),
    Ask::Create("b"),
    Ask::Fill("b", 0, 4096, 0x41),
];

// Each event of a stopped volume is answered so.
fn is_stopped<D: Pm, F: Fingerprint>(alloc: Global, v: &mut Volume<D, F>) -> Result<bool, Fail>
    requires { Agrees D.state v.old }
    ensures { Agrees D.state v.new }
{
    let op = op_of(alloc, &Ask::Create("z"))?;
    let events = [
        Event::Begin { who: 2, op },
        Event::Advance { who: 1 },
        Event::Daemon,
        Event::Reclaim,
    ];
    for event in events {
        if !matches!(step(alloc, v, event), Outcome::Stopped) {
            return Ok(false);
        }
    }
    Ok(true)
}

// The operation and its work run, until all is done or the volume has stopped. Answers whether it has.
fn stops<D: Pm + Moments, F: Fingerprint>(
    alloc: Global,
    v: &mut Volume<D, F>,
    ask: &Ask,
    marks: &mut Vec<Mark>,
) -> Result<bool, Fail>
    requires { Agrees D.state v.old }
    ensures { Agrees D.state v.new }
{
    if run(alloc, v, ask, marks)? == Went::Done {
        work_all(alloc, v, marks)?;
        Ok(v.stopped())
    } else {
        Ok(v.stopped())
    }
}

// They run on these words while the fence of this number fails. None where there weren't as many fences.
fn stopped(
    rt: &impl Abort,
    alloc: Global,
    words: Vec<u64>,
    ask: &Ask,
    fence: u64,
) -> Result<Option<(MemPm, Vec<Mark>)>, Fail> {
    let fail_at = vec![in alloc; fence; 1]?;
    let Ok(mut v) = try_open(rt, alloc, words, fail_at, Sha1Print)? else {
        return Err(Fail::from("not mounted"));
    };
    let mut marks = Vec::new(alloc);
    if !stops(alloc, &mut v, ask, &mut marks)? {
        return Ok(None);
    }
    assert!(rt; is_stopped(alloc, &mut v)?);
    Ok(Some((v.into_device(), marks)))
}

// The images that a crash may leave where the fence of this number fails. None where there weren't as many fences.
fn fail_once(
    rt: &impl Abort,
    alloc: Global,
    script: &[Ask],
    ask: &Ask,
    fence: u64,
) -> Result<Option<Vec<Known>>, Fail> {
    let words = prepared(rt, alloc, script, Sha1Print, true)?;
    let Some((device, marks)) = stopped(rt, alloc, words, ask, fence)? else {
        return Ok(None);
    };
    let files = files_before_and_after(alloc, script, ask)?;
    let trial = Trial {
        device: &device,
        marks: &marks,
        files: &files,
        picks: PICKS,
    };
    Ok(Some(trial.look_all(rt, alloc, Sha1Print)?))
}

// Mounts an image while the fence of this number fails. Answers whether there were as many fences. If so, the images that
// a crash may leave have the same files.
fn fail_mount(
    rt: &impl Abort,
    alloc: Global,
    one: &Known,
    files: &[Files],
    fence: u64,
) -> Result<bool, Fail> {
    let image = Vec::from_slice(alloc, &one.image)?;
    let fail_at = vec![in alloc; fence; 1]?;
    let Err((fault, device)) = try_open(rt, alloc, image, fail_at, Sha1Print)? else {
        return Ok(false);
    };
    assert_eq!(rt; fault, MountFault::Failed);
    let Some(files) = files.get(one.place..) else {
        return Err(Fail::from("no files"));
    };
    let trial = Trial {
        device: &device,
        marks: &[],
        files,
        picks: FEW_PICKS,
    };
    trial.look_all(rt, alloc, Sha1Print)?;
    Ok(true)
}

#[test]
fn a_fence_fails(rt: HostRuntime) -> Result<(), Fail> {
    let ask = Ask::Write("f", 0, b"a");
    // where the first fails, no image has the byte
    for (fence, last) in [(1, 0), (2, 1)] {
        let known = fail_once(&rt, rt.alloc(), &[Ask::Create("f")], &ask, fence)?;
        let Some(known) = known else {
            return Err(Fail::from("not stopped"));
        };
        let seen = known.iter().map(|one| one.place).max();
        assert_eq!(rt; seen, Some(last));
    }
    Ok(())
}

// Fences of an operation and its work fail, one after another. Answers how many there were.
fn fail_each(rt: &impl Abort, alloc: Global, script: &[Ask], ask: &Ask) -> Result<u64, Fail> {
    for fence in 0..MOST_FENCES {
        if fail_once(rt, alloc, script, ask, fence + 1)?.is_none() {
            return Ok(fence);
        }
    }
    Err(Fail::from("too many fences"))
}

// Fences of the mount of an image fail, one after another. Answers how many there were.
fn fail_mounts(rt: &impl Abort, alloc: Global, one: &Known, files: &[Files]) -> Result<u64, Fail> {
    for fence in 0..MOST_FENCES {
        if !fail_mount(rt, alloc, one, files, fence + 1)? {
            return Ok(fence);
        }
    }
    Err(Fail::from("too many fences"))
}

#[test]
fn each_fence_fails(rt: HostRuntime) -> Result<(), Fail> {
    let count = fail_each(&rt, rt.alloc(), &PAIR, &Ask::Fill("a", 0, 4096, 0x42))?;
    // of the raise, the commit (2), the release, the daemon's flags (2), its insertion (2) and its count
    assert_eq!(rt; count, 9);
    Ok(())
}

// Each image that a crash may leave while a file is removed is mounted, where a fence of the mount fails.
#[test]
fn each_fence_of_a_mount_fails(rt: HostRuntime) -> Result<(), Fail> {
    let alloc = rt.alloc();
    let ran = operation(&rt, alloc, &PAIR, &Ask::Remove("a"), Sha1Print)?;
    let mut most = 0;
    for one in &ran.look_all(&rt, alloc, Sha1Print)? {
        most = most.max(fail_mounts(&rt, alloc, one, &ran.files)?);
    }
    assert!(rt; most > 0);
    Ok(())
}

// How an operation on the script's files goes where the fence of this number fails.
fn went(
    rt: &impl Abort,
    alloc: Global,
    script: &[Ask],
    ask: &Ask,
    fence: u64,
) -> Result<Went, Fail> {
    let words = prepared(rt, alloc, script, Sha1Print, true)?;
    let fail_at = vec![in alloc; fence; 1]?;
    let Ok(mut v) = try_open(rt, alloc, words, fail_at, Sha1Print)? else {
        return Err(Fail::from("not mounted"));
    };
    let mut marks = Vec::new(alloc);
    run(alloc, &mut v, ask, &mut marks)
}

// How many fences an operation makes until it is answered.
fn count_fences(rt: &impl Abort, alloc: Global, script: &[Ask], ask: &Ask) -> Result<u64, Fail> {
    for fence in 0..MOST_FENCES {
        if went(rt, alloc, script, ask, fence + 1)? == Went::Done {
            return Ok(fence);
        }
    }
    Err(Fail::from("too many fences"))
}

// An operation on a script's files, and how many fences it makes until it is answered.
struct Fenced {
    script: &'static [Ask],
    ask: Ask,
    fences: u64,
}

const FENCED: [Fenced; 7] = [
    Fenced {
        script: &[Ask::Create("f")],
        ask: Ask::Write("f", 0, b"a"),
        fences: 2,
    },
    // 16 pages
    Fenced {
        script: &[Ask::Create("f")],
        ask: Ask::Fill("f", 0, 65536, 0x41),
        fences: 2,
    },
    // the count of a shared page is raised first
    Fenced {
        script: &PAIR,
        ask: Ask::Fill("a", 0, 4096, 0x42),
        fences: 3,
    },
    Fenced {
        script: &[Ask::Create("f")],
        ask: Ask::Cut("f", 5000),
        fences: 2,
    },
    // names are changed by the journal
    Fenced {
        script: &[],
        ask: Ask::Create("f"),
        fences: 4,
    },
    Fenced {
        script: &PAIR,
        ask: Ask::Remove("a"),
        fences: 4,
    },
    Fenced {
        script: &PAIR,
        ask: Ask::Rename("a", "b"),
        fences: 4,
    },
];

#[test]
fn fences_are_few(rt: HostRuntime) -> Result<(), Fail> {
    for fenced in &FENCED {
        let count = count_fences(&rt, rt.alloc(), fenced.script, &fenced.ask)?;
        assert_eq!(rt; count, fenced.fences, "{:?}", fenced.ask);
    }
    Ok(())
}
