// Calls that run clients in threads over devices, sources and sinks in memory.
ghost use Rattle.std.specs.Prelude.{◌≡◌, IfOk, vec_len, ◌%◌};
ghost use Rattle.pm_device.specs.Settled.{Still};

use denova_calls::tool::tool;
use denova_session::session;
use dn_script::{MemSink, MemSource};
use dn_shared::{Gate, Open};
use fingerprint::{Fingerprint, Sha1Print};
use pm_device::{MemPm, Pm};
use std::alloc::{AllocError, Global};
use std::process::Abort;
use std::sync::Wait;
use std::thread::Threads;

/// The most bytes that a call writes.
const ROOM: u64 = 100_000;

// The words of a call: the image's name, and those of a line.
fn words_of(alloc: Global, line: &str) -> Result<Vec<String>, AllocError> {
    let mut words = Vec::new(alloc);
    words.push(String::from_str(alloc, "img")?)?;
    for word in line.split(' ') {
        words.push(String::from_str(alloc, word)?)?;
    }
    Ok(words)
}

fn device_of(alloc: Global, words: Vec<u64>, fail_at: Vec<u64>) -> Result<MemPm, AllocError>
    requires { vec_len words % 512 ≡ 0 }
    ensures { IfOk result (λ device. Still (⟦<MemPm as Pm>⟧.state device)) }
{
    let device = MemPm::of_words(alloc, words, fail_at)?;
    Ok(device)
}

/// How a call with this fingerprint and gate ends on an image, with what was written and the words that are left. The take,
/// the put and the fence of these numbers fail, where 0 is none.
fn ended_on<R: Threads + Wait + Sync, F: Fingerprint + Drop + Send, G: Gate + Sync>(
    rt: &R,
    alloc: Global,
    image: Vec<u64>,
    call: (&str, &str),
    fails: (u64, u64, u64),
    print: F,
    gate: &G,
) -> Result<(u8, Vec<u8>, Vec<u64>), AllocError> {
    if image.len() % 512 != 0 {
        return Err(AllocError);
    }
    let (line, job) = call;
    let words = words_of(alloc, line)?;
    let job = Vec::from_slice(alloc, job.as_bytes())?;
    let mut input = MemSource::of(job, vec![in alloc; fails.0]?);
    let mut out = MemSink::of(alloc, ROOM, vec![in alloc; fails.1]?)?;
    let device = device_of(alloc, image, vec![in alloc; fails.2]?)?;
    let (status, device) = session(rt, alloc, &words, device, print, &mut input, &mut out, gate);
    let text = Vec::from_slice(alloc, out.bytes())?;
    let left = device.image_at(alloc, device.moment(), 1)?;
    Ok((status, text, left))
}

/// How a call ends on an image, with what was written and the words that are left. The take, the put and the fence of these
/// numbers fail, where 0 is none.
pub(crate) fn ended<R: Threads + Wait + Sync>(
    rt: &R,
    alloc: Global,
    image: Vec<u64>,
    line: &str,
    job: &str,
    fails: (u64, u64, u64),
) -> Result<(u8, Vec<u8>, Vec<u64>), AllocError> {
    ended_on(rt, alloc, image, (line, job), fails, Sha1Print, &Open)
}

/// How the run of a job with this fingerprint and gate ends on an image.
pub(crate) fn ended_by<R: Threads + Wait + Sync, F: Fingerprint + Drop + Send, G: Gate + Sync>(
    rt: &R,
    alloc: Global,
    image: Vec<u64>,
    print: F,
    job: &str,
    gate: &G,
) -> Result<(u8, Vec<u8>, Vec<u64>), AllocError> {
    ended_on(rt, alloc, image, ("run", job), (0, 0, 0), print, gate)
}

// What one of the program's other commands writes with a job, and the words that it leaves.
fn told_of(
    alloc: Global,
    image: Vec<u64>,
    line: &str,
    job: &str,
) -> Result<(Vec<u8>, Vec<u64>), AllocError> {
    if image.len() % 512 != 0 {
        return Err(AllocError);
    }
    let words = words_of(alloc, line)?;
    let job = Vec::from_slice(alloc, job.as_bytes())?;
    let mut input = MemSource::of(job, Vec::new(alloc));
    let mut out = MemSink::of(alloc, ROOM, Vec::new(alloc))?;
    let device = device_of(alloc, image, Vec::new(alloc))?;
    let (_, device) = tool(alloc, &words, device, Sha1Print, &mut input, &mut out);
    let text = Vec::from_slice(alloc, out.bytes())?;
    let left = device.image_at(alloc, device.moment(), 1)?;
    Ok((text, left))
}

/// What the program's other commands write of an image that is sound, and the words that they leave.
pub(crate) fn told(
    alloc: Global,
    image: Vec<u64>,
    line: &str,
) -> Result<(Vec<u8>, Vec<u64>), AllocError> {
    told_of(alloc, image, line, "")
}

/// The words that `apply` leaves of an image, with this job.
pub(crate) fn image_after(
    alloc: Global,
    image: Vec<u64>,
    job: &str,
) -> Result<Vec<u64>, AllocError> {
    let (_, left) = told_of(alloc, image, "apply", job)?;
    Ok(left)
}

/// The words of a file system of 64 pages and 8 inodes, without files.
pub(crate) fn empty(alloc: Global) -> Result<Vec<u64>, AllocError> {
    let zeros = vec![in alloc; 0; 512 * 64]?;
    let (_, image) = told(alloc, zeros, "format 64 8")?;
    Ok(image)
}

/// Asserts how a call ends on an image, and gives the words that it leaves.
pub(crate) fn check_call<R: Threads + Wait + Sync + Abort + AllocGlobal>(
    rt: &R,
    image: Vec<u64>,
    line: &str,
    job: &str,
    fails: (u64, u64, u64),
    wanted: (u8, &str),
) -> Result<Vec<u64>, AllocError> {
    let (status, text, left) = ended(rt, rt.alloc(), image, line, job, fails)?;
    assert_eq!(rt; text.as_slice(), wanted.1.as_bytes(), "at {line:?} {job:?}");
    assert_eq!(rt; status, wanted.0, "at {line:?} {job:?}");
    Ok(left)
}
