// Calls of the program over devices, sources and sinks in memory.
ghost use Rattle.std.specs.Prelude.{◌≡◌, IfOk, vec_len, ◌%◌};
ghost use Rattle.pm_device.specs.Settled.{Still};

use denova_calls::tool::tool;
use dn_script::{MemSink, MemSource};
use fingerprint::{Fingerprint, Sha1Print};
use pm_device::{MemPm, Pm};
use std::alloc::{AllocError, Global};
use std::process::Abort;

/// The words behind the image's name, a job, and the status and the text that come of them.
pub(crate) type Call = (&'static str, &'static str, u8, &'static str);

/// A file system of 64 pages and 8 inodes is made.
pub(crate) const FORMAT: Call = ("format 64 8", "", 0, "formatted 64 8 58\n");

/// The most bytes that a call writes.
const ROOM: u64 = 100_000;

/// Zeros of so many pages, of which there are at most 65,536.
pub(crate) fn zeros(alloc: Global, pages: usize) -> Result<Vec<u64>, AllocError> {
    vec![in alloc; 0; 512 * pages.min(65536)]
}

// The words of a call: the image's name, and those of a line.
fn words_of(alloc: Global, line: &str) -> Result<Vec<String>, AllocError> {
    let mut words = Vec::new(alloc);
    words.push(String::from_str(alloc, "img")?)?;
    for word in line.split(' ') {
        words.push(String::from_str(alloc, word)?)?;
    }
    Ok(words)
}

fn device_of(alloc: Global, words: Vec<u64>, fail_at: Vec<u64>) -> Result<MemPm, AllocError>
    requires { vec_len words % 512 ≡ 0 }
    ensures { IfOk result (λ device. Still (⟦<MemPm as Pm>⟧.state device)) }
{
    let device = MemPm::of_words(alloc, words, fail_at)?;
    Ok(device)
}

/// How a call ends on an image, with what was written and the device. The take, the put and the fence of these numbers
/// fail, where 0 is none.
pub(crate) fn ended<F: Fingerprint + Drop>(
    alloc: Global,
    print: F,
    image: Vec<u64>,
    line: &str,
    job: Vec<u8>,
    fails: (u64, u64, u64),
) -> Result<(u8, Vec<u8>, MemPm), AllocError> {
    if image.len() % 512 != 0 {
        return Err(AllocError);
    }
    let words = words_of(alloc, line)?;
    let mut input = MemSource::of(job, vec![in alloc; fails.0]?);
    let mut out = MemSink::of(alloc, ROOM, vec![in alloc; fails.1]?)?;
    let device = device_of(alloc, image, vec![in alloc; fails.2]?)?;
    let (status, device) = tool(alloc, &words, device, print, &mut input, &mut out);
    let text = Vec::from_slice(alloc, out.bytes())?;
    Ok((status, text, device))
}

/// The words that are read of a device.
pub(crate) fn words_left(alloc: Global, device: &MemPm) -> Result<Vec<u64>, AllocError> {
    device.image_at(alloc, device.moment(), 1)
}

/// Makes a call on an image, and gives the words that it leaves.
pub(crate) fn check_call<F: Fingerprint + Drop>(
    rt: &(impl Abort + AllocGlobal),
    print: F,
    image: Vec<u64>,
    call: Call,
) -> Result<Vec<u64>, AllocError> {
    let (line, job, status, text) = call;
    let job = Vec::from_slice(rt.alloc(), job.as_bytes())?;
    let (told, written, device) = ended(rt.alloc(), print, image, line, job, (0, 0, 0))?;
    assert_eq!(rt; written.as_slice(), text.as_bytes(), "at {line:?}");
    assert_eq!(rt; told, status, "at {line:?}");
    words_left(rt.alloc(), &device)
}

/// Makes calls one after another on an image, and gives the words that they leave.
pub(crate) fn check_calls<F: Fingerprint + Copy + Drop>(
    rt: &(impl Abort + AllocGlobal),
    print: F,
    image: Vec<u64>,
    calls: &[Call],
) -> Result<Vec<u64>, AllocError> {
    let mut image = image;
    for call in calls {
        image = check_call(rt, print, image, *call)?;
    }
    Ok(image)
}

/// Makes calls one after another on a new image of 64 pages and 8 inodes, and gives the words that they leave.
pub(crate) fn check_new(
    rt: &(impl Abort + AllocGlobal),
    calls: &[Call],
) -> Result<Vec<u64>, AllocError> {
    let made = check_call(rt, Sha1Print, zeros(rt.alloc(), 64)?, FORMAT)?;
    check_calls(rt, Sha1Print, made, calls)
}
