// Operations that numbers choose run one after another, and some of all moments are looked at.
ghost use Rattle.dn_volume.specs.Agrees.{Agrees};

use crate::asks::{Ask, files_after_each};
use crate::courses::{Mark, Moments, Went, run, work};
use crate::images::{Known, PICKS, Trial};
use crate::opening::{empty, open};
use dn_volume::Volume;
use fingerprint::{Fingerprint, Sha1Print, SumPrint};
use pm_device::Pm;
use std::alloc::Global;
use std::process::Abort;
use std::test::Fail;

const NAMES: [&str; 4] = ["a", "b", "c", "d"];

// Every so many moments the images are looked at.
const STRIDE: u64 = 17;

// Four names, 16 pages of each file, and four values that a page is filled with.
fn ask_of(number: u64) -> Ask {
    let name = NAMES[(number / 8 % 4) as usize];
    let place = number / 32 % 16;
    let value = (number / 512 % 4) as u8;
    match number % 8 {
        0 => Ask::Create(name),
        1..=4 => Ask::Fill(name, 4096 * place, 4096, value + 1),
        5 => Ask::Cut(name, 4096 * place + 100 * (place % 2)),
        6 => Ask::Remove(name),
        _ => Ask::Rename(name, NAMES[(place % 4) as usize]),
    }
}

// The next number of a sequence.
fn next(x: &mut u64) -> u64 {
    *x = x
        .wrapping_mul(6364136223846793005)
        .wrapping_add(1442695040888963407);
    *x >> 32
}

// Runs an operation, and then one event of reclaim and one of the daemon. One that waits is given up.
fn run_and_work<D: Pm + Moments, F: Fingerprint>(
    alloc: Global,
    v: &mut Volume<D, F>,
    ask: &Ask,
    marks: &mut Vec<Mark>,
) -> Result<(), Fail>
    requires { Agrees D.state v.old }
    ensures { Agrees D.state v.new }
{
    run(alloc, v, ask, marks)?;
    work(alloc, v, marks)?;
    Ok(())
}

fn run_generated<D: Pm + Moments, F: Fingerprint>(
    alloc: Global,
    v: &mut Volume<D, F>,
    seed: u64,
    count: u64,
    marks: &mut Vec<Mark>,
) -> Result<(), Fail>
    requires { Agrees D.state v.old }
    ensures { Agrees D.state v.new }
{
    let mut x = seed;
    for _ in 0..count {
        let ask = ask_of(next(&mut x));
        run_and_work(alloc, v, &ask, marks)?;
    }
    Ok(())
}

// The images of some moments.
fn look_some<F: Fingerprint + Copy + Drop>(
    rt: &impl Abort,
    alloc: Global,
    trial: &Trial,
    print: F,
) -> Result<Vec<Known>, Fail> {
    let mut known = Vec::new(alloc);
    for moment in 0..=trial.device.moment() {
        if moment % STRIDE == 0 {
            trial.look_at(rt, alloc, moment, &mut known, print)?;
        }
    }
    Ok(known)
}

fn crash_generated<F: Fingerprint + Copy + Drop>(
    rt: &impl Abort,
    alloc: Global,
    seed: u64,
    count: u64,
    print: F,
) -> Result<(), Fail> {
    let mut v = open(rt, alloc, empty(alloc)?, print)?;
    let mut marks = Vec::new(alloc);
    run_generated(alloc, &mut v, seed, count, &mut marks)?;
    let files = files_after_each(alloc, &[], v.history())?;
    assert_eq!(rt; marks.len() + 1, files.len());
    let device = v.into_device();
    let trial = Trial {
        device: &device,
        marks: &marks,
        files: &files,
        picks: PICKS,
    };
    let known = look_some(rt, alloc, &trial, print)?;
    assert!(rt; marks.len() > 10 && known.len() > 20);
    Ok(())
}

#[test]
fn generated_operations_are_crashed(rt: HostRuntime) -> Result<(), Fail> {
    crash_generated(&rt, rt.alloc(), 60, 60, Sha1Print)?;
    crash_generated(&rt, rt.alloc(), 61, 60, SumPrint)
}
