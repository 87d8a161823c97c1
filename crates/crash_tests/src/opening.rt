// Devices in memory, and volumes that are mounted of them.
ghost use Rattle.std.specs.Prelude.{◌≡◌, ◌%◌, IfOk, vec_len};
ghost use Rattle.pm_device.specs.Settled.{Still};
ghost use Rattle.crash_tests.specs.Fresh.{IsFresh};

use crate::asks::{Ask, ops_of};
use dn_core::drain;
use dn_mount::fault::MountFault;
use dn_mount::mount::mount;
use dn_volume::Volume;
use fingerprint::Fingerprint;
use job_runs::run_script;
use pm_device::{MemPm, Pm};
use pm_layout::Geometry;
use recovery::format;
use std::alloc::{AllocError, Global};
use std::process::Abort;
use std::test::Fail;

// The pages and inodes of all images here.
pub const PAGES: u64 = 64;

pub const INODES: u64 = 8;

pub const WORDS: usize = 32768;

// A device of these words, on which the fences of these numbers fail.
pub fn device_of(alloc: Global, words: Vec<u64>, fail_at: Vec<u64>) -> Result<MemPm, AllocError>
    requires { vec_len words % 512 ≡ 0 }
    ensures { IfOk result (λ device. Still (⟦<MemPm as Pm>⟧.state device)) }
{
    let device = MemPm::of_words(alloc, words, fail_at)?;
    Ok(device)
}

// What the words of a device read now.
pub fn words_of<D: Pm>(alloc: Global, device: &D) -> Result<Vec<u64>, AllocError> {
    let mut words = Vec::with_capacity(alloc, device.words() as usize)?;
    for at in 0..device.words() {
        words.push(device.load(at))?;
    }
    Ok(words)
}

// A volume of these words. The fences of these numbers fail.
pub fn try_open<F: Fingerprint + Drop>(
    rt: &impl Abort,
    alloc: Global,
    words: Vec<u64>,
    fail_at: Vec<u64>,
    print: F,
) -> Result<Result<Volume<MemPm, F>, (MountFault, MemPm)>, Fail>
    ensures { IfOk result (λ r. IfOk r (IsFresh ⟦<MemPm as Pm>⟧.state)) }
{
    assert!(rt; words.len() % 512 == 0);
    let device = device_of(alloc, words, fail_at)?;
    Ok(mount(alloc, device, print))
}

// The volume of words that have no fault.
pub fn open<F: Fingerprint + Drop>(
    rt: &impl Abort,
    alloc: Global,
    words: Vec<u64>,
    print: F,
) -> Result<Volume<MemPm, F>, Fail>
    ensures { IfOk result (IsFresh ⟦<MemPm as Pm>⟧.state) }
{
    match try_open(rt, alloc, words, Vec::new(alloc), print)? {
        Ok(v) => Ok(v),
        Err((fault, _device)) => {
            assert!(rt; false, "not mounted: {fault:?}");
            Err(Fail::from("not mounted"))
        }
    }
}

// A file system without files, made on words that are all zero.
pub fn empty(alloc: Global) -> Result<Vec<u64>, Fail> {
    let zeros = vec![in alloc; 0; WORDS]?;
    let mut device = device_of(alloc, zeros, Vec::new(alloc))?;
    format(&mut device, Geometry::of(PAGES, INODES)?)?;
    Ok(words_of(alloc, &device)?)
}

// The words after these operations of client 1, each run to its reply, and after the daemon's and reclaim's work if that
// is to be done.
pub fn prepared<F: Fingerprint + Drop>(
    rt: &impl Abort,
    alloc: Global,
    asks: &[Ask],
    print: F,
    drained: bool,
) -> Result<Vec<u64>, Fail> {
    let mut v = open(rt, alloc, empty(alloc)?, print)?;
    let ops = ops_of(alloc, asks)?;
    run_script(alloc, &mut v, 1, &ops)?;
    if drained {
        drain(alloc, &mut v)?;
    }
    Ok(words_of(alloc, v.device())?)
}
