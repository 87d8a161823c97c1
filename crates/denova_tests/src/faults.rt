// Sources, sinks and devices fail.
ghost use Rattle.std.specs.Prelude.{◌≡◌, ◌≤◌};
ghost use Rattle.pm_device.specs.Past.{moment as moment_of};

use crate::calls::{check_new, ended, words_left, zeros};
use fingerprint::Sha1Print;
use pm_device::{MemPm, Pm};
use std::alloc::{AllocError, Global};
use std::process::Abort;
use std::test::Fail;

const JOB: &str = "create f\nwrite f 0 616263\n";

#[test]
fn a_failed_take_leaves_the_device(rt: HostRuntime) -> Result<(), Fail> {
    for line in ["apply", "replay", "trial 0 0"] {
        for (take, status) in [(1, 5), (2, 5), (3, 0)] {
            let made = check_new(&rt, &[])?;
            let job = Vec::from_slice(rt.alloc(), JOB.as_bytes())?;
            let (told, text, device) = ended(rt.alloc(), Sha1Print, made, line, job, (take, 0, 0))?;
            assert_eq!(rt; told, status, "at {line:?} {take}");
            if status != 0 {
                assert_eq!(rt; text.as_slice(), b"read-fault\n".as_slice());
                assert_eq!(rt; device.moment(), 0);
            }
        }
    }
    Ok(())
}

#[test]
fn a_failed_put_leaves_the_result(rt: HostRuntime) -> Result<(), Fail> {
    let made = check_new(&rt, &[])?;
    let job = Vec::from_slice(rt.alloc(), JOB.as_bytes())?;
    let (status, text, device) = ended(rt.alloc(), Sha1Print, made, "apply", job, (0, 1, 0))?;
    assert_eq!(rt; status, 6);
    assert_eq!(rt; text.len(), 0);
    let image = words_left(rt.alloc(), &device)?;
    let job = Vec::new(rt.alloc());
    let (status, text, _) = ended(rt.alloc(), Sha1Print, image, "cat f", job, (0, 0, 0))?;
    assert_eq!(rt; status, 0);
    assert_eq!(rt; text.as_slice(), b"abc".as_slice());
    Ok(())
}

// An image that a crash may leave has the file, empty or with its byte.
fn check_left(
    rt: &(impl Abort + AllocGlobal),
    device: &MemPm,
    moment: u64,
    pick: u64,
) -> Result<(), AllocError>
    requires { moment ≤ moment_of (⟦<MemPm as Pm>⟧.state device.now).past }
{
    let image = device.image_at(rt.alloc(), moment, pick)?;
    let job = Vec::new(rt.alloc());
    let (status, text, _) = ended(rt.alloc(), Sha1Print, image, "cat f", job, (0, 0, 0))?;
    assert_eq!(rt; status, 0, "at moment {moment}, pick {pick}");
    assert!(rt;
        text.is_empty() || text.as_slice() == b"a".as_slice(),
        "at moment {moment}, pick {pick}"
    );
    Ok(())
}

fn check_moments(rt: &(impl Abort + AllocGlobal), device: &MemPm) -> Result<(), AllocError> {
    for moment in 0..=device.moment() {
        for pick in 0..8 {
            check_left(rt, device, moment, pick)?;
        }
    }
    Ok(())
}

#[test]
fn a_failed_fence_leaves_a_write_or_not(rt: HostRuntime) -> Result<(), Fail> {
    for (fence, status, text) in [
        (0, 0, "1 1 done\nend 1 55\n"),
        (1, 4, "stopped\n"),
        (2, 4, "stopped\n"),
    ] {
        let empty = check_new(&rt, &[("apply", "create f\n", 0, "1 1 done\nend 1 57\n")])?;
        let job = Vec::from_slice(rt.alloc(), b"write f 0 61\n")?;
        let (told, written, device) = ended(
            rt.alloc(),
            Sha1Print,
            empty,
            "apply",
            job,
            (0, 0, fence),
        )?;
        assert_eq!(rt; written.as_slice(), text.as_bytes(), "fence {fence}");
        assert_eq!(rt; told, status, "fence {fence}");
        check_moments(&rt, &device)?;
    }
    Ok(())
}

// Three clients, the daemon and reclaim in turns.
const REPLAY: &str = "client 1
create g
write g 0 61
client 2
write f 0 62
remove f
client 3
write h 4095 6364
cut h 1
turns 1 2 3 15 16 1 2 3 16 15 1 2 3 1 2 3 15 15 15 16 16
";

// An image with two files that share a page.
fn two_files(rt: &(impl Abort + AllocGlobal)) -> Result<Vec<u64>, AllocError> {
    let job = "create f\nfill f 0 4096 41\ncreate h\nfill h 0 4096 41\n";
    let text = "1 1 done\n1 2 done\n1 3 done\n1 4 done\nend 4 54\n";
    check_new(rt, &[("apply", job, 0, text)])
}

// How the replay ends on this image where the fence of this number fails, or none.
fn replayed(alloc: Global, image: &[u64], fence: u64) -> Result<(u8, Vec<u8>, MemPm), AllocError> {
    let image = Vec::from_slice(alloc, image)?;
    let job = Vec::from_slice(alloc, REPLAY.as_bytes())?;
    ended(alloc, Sha1Print, image, "replay", job, (0, 0, fence))
}

// The text has the first lines of the whole one, and then that the run was stopped.
fn is_cut_short(whole: &[u8], text: &[u8]) -> bool {
    match text.strip_suffix(b"stopped\n".as_slice()) {
        Some(lines) => whole.starts_with(lines),
        None => false,
    }
}

// The image that is left is mounted, and its files are told.
fn check_mounted(
    rt: &(impl Abort + AllocGlobal),
    device: &MemPm,
    fence: u64,
) -> Result<(), AllocError> {
    let image = words_left(rt.alloc(), device)?;
    let none = Vec::new(rt.alloc());
    let (status, _, _) = ended(rt.alloc(), Sha1Print, image, "apply", none, (0, 0, 0))?;
    assert_eq!(rt; status, 0, "fence {fence}");
    Ok(())
}

#[test]
fn each_fence_of_three_clients_fails(rt: HostRuntime) -> Result<(), Fail> {
    let image = two_files(&rt)?;
    let (status, whole, _) = replayed(rt.alloc(), &image, 0)?;
    assert_eq!(rt; status, 0);
    for fence in 1..200 {
        let (status, text, device) = replayed(rt.alloc(), &image, fence)?;
        if status == 0 {
            assert!(rt; fence > 20, "{fence} fences");
            return Ok(());
        }
        assert_eq!(rt; status, 4, "fence {fence}");
        assert!(rt; is_cut_short(&whole, &text), "fence {fence}");
        check_mounted(&rt, &device, fence)?;
    }
    Err(Fail::from("too many fences"))
}

#[test]
fn a_making_stops_and_its_text_fails(rt: HostRuntime) -> Result<(), Fail> {
    let line = "format 64 8";
    for fence in 1..5 {
        let words = zeros(rt.alloc(), 64)?;
        let (status, text, _) = ended(
            rt.alloc(),
            Sha1Print,
            words,
            line,
            Vec::new(rt.alloc()),
            (0, 0, fence),
        )?;
        assert_eq!(rt; status, 4, "fence {fence}");
        assert_eq!(rt; text.as_slice(), b"stopped\n".as_slice());
    }
    let words = zeros(rt.alloc(), 64)?;
    let (status, _, device) = ended(
        rt.alloc(),
        Sha1Print,
        words,
        line,
        Vec::new(rt.alloc()),
        (0, 1, 0),
    )?;
    let image = words_left(rt.alloc(), &device)?;
    assert_eq!(rt; status, 6);
    assert_eq!(rt; image.get(2), Some(&64));
    Ok(())
}

// How many fences a job's only operation makes, of nine at most: where one of them fails, nothing is answered.
fn fences_of(rt: &(impl Abort + AllocGlobal), image: &[u64], job: &str) -> Result<u64, AllocError> {
    for number in 1..10u64 {
        let image = Vec::from_slice(rt.alloc(), image)?;
        let job = Vec::from_slice(rt.alloc(), job.as_bytes())?;
        let (_, text, _) = ended(rt.alloc(), Sha1Print, image, "apply", job, (0, 0, number))?;
        if text.as_slice() != b"stopped\n".as_slice() {
            return Ok(number.saturating_sub(1));
        }
    }
    Ok(9)
}

#[test]
fn operations_make_few_fences(rt: HostRuntime) -> Result<(), Fail> {
    let made = check_new(&rt, &[])?;
    let (_, device) = text_of(&rt, &made, "apply", "create f\nwrite f 0 61\n")?;
    let image = words_left(rt.alloc(), &device)?;
    // the page that is written over, or cut, has a row, which is raised by a fence of its own
    for (job, wanted) in [
        ("write f 4096 62\n", 2),
        ("write f 0 62\n", 3),
        ("cut f 0\n", 3),
        ("create g\n", 4),
        ("remove f\n", 4),
        ("rename f g\n", 4),
    ] {
        let fences = fences_of(&rt, &image, job)?;
        assert_eq!(rt; fences, wanted, "{job:?}");
    }
    Ok(())
}

// The jobs that make files, and those that are tried on them.
const TRIED: [(&str, &str); 6] = [
    ("", "create f\n"),
    ("create f\n", "write f 5000 616263\n"),
    (
        "create a\nwrite a 0 61\ncreate b\nwrite b 0 61\n",
        "write b 0 62\n",
    ),
    (
        "create a\nwrite a 0 61\ncreate b\nwrite b 0 62\n",
        "rename a b\n",
    ),
    (
        "create a\nwrite a 0 61\ncreate b\nwrite b 0 61\n",
        "remove a\n",
    ),
    (
        "create a\nfill a 0 5000 61\ncreate b\nwrite b 0 61\n",
        "cut a 10\n",
    ),
];

// The text of a call that ends with 0, and the device.
fn text_of(
    rt: &(impl Abort + AllocGlobal),
    image: &[u64],
    line: &str,
    job: &str,
) -> Result<(Vec<u8>, MemPm), AllocError> {
    let image = Vec::from_slice(rt.alloc(), image)?;
    let job = Vec::from_slice(rt.alloc(), job.as_bytes())?;
    let (status, text, device) = ended(rt.alloc(), Sha1Print, image, line, job, (0, 0, 0))?;
    assert_eq!(rt; status, 0, "at {line}");
    Ok((text, device))
}

// What a trial tells: the files of an image that a crash leaves. Nothing is stored.
fn tried(
    rt: &(impl Abort + AllocGlobal),
    image: &[u64],
    job: &str,
    calls: u64,
    pick: u64,
) -> Result<Vec<u8>, AllocError> {
    let line = format!(in rt.alloc(); "trial {calls} {pick}")?;
    let (text, device) = text_of(rt, image, line.as_str(), job)?;
    assert_eq!(rt; device.moment(), 0, "at {line}");
    Ok(text)
}

// At each moment with one pick the files are those of before or of after: of before at the first, of after at the last.
fn check_tried(
    rt: &(impl Abort + AllocGlobal),
    image: &[u64],
    job: &str,
    pick: u64,
) -> Result<(), AllocError> {
    let (before, _) = text_of(rt, image, "list", "")?;
    let (_, device) = text_of(rt, image, "replay", job)?;
    let (after, _) = text_of(rt, &words_left(rt.alloc(), &device)?, "list", "")?;
    let last = device.moment();
    assert_eq!(rt;
        tried(rt, image, job, 0, pick)?.as_slice(),
        before.as_slice(),
        "{job:?}"
    );
    assert_eq!(rt;
        tried(rt, image, job, u64::MAX, pick)?.as_slice(),
        after.as_slice(),
        "{job:?}"
    );
    for calls in 1..last {
        let text = tried(rt, image, job, calls, pick)?;
        let fits = text.as_slice() == before.as_slice() || text.as_slice() == after.as_slice();
        assert!(rt; fits, "{job:?} at {calls} {pick}");
    }
    Ok(())
}

#[test]
fn trials_list_what_a_crash_leaves(rt: HostRuntime) -> Result<(), Fail> {
    for (made, job) in TRIED {
        let empty = check_new(&rt, &[])?;
        let (_, device) = text_of(&rt, &empty, "apply", made)?;
        let image = words_left(rt.alloc(), &device)?;
        for pick in 0..8 {
            check_tried(&rt, &image, job, pick)?;
        }
    }
    Ok(())
}
