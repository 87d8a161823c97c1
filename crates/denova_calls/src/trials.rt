// A job is run on a copy of an image, and what a crash leaves of it is listed.
ghost use Rattle.std.specs.Prelude.{◌≡◌, ◌≢◌, ◌%◌, ◌≤◌, length, vec_len, IfOk};
ghost use Rattle.pm_device.specs.Settled.{Still};
ghost use Rattle.pm_device.specs.New.{IsNew};
ghost use Rattle.dn_volume.specs.Agrees.{Agrees};
ghost use Rattle.job_runs.specs.Scripts.{Rises};
ghost use Rattle.call_endings.specs.Call.{input_of};
ghost use Rattle.denova_calls.specs.LookEnds.{TrialEnds};
ghost use Rattle.denova_calls.specs.LookSteps.{IsPickedAt, ImageListed, FrontListed, UnevenEnds, CopyEnds};

use crate::look::list;
use crate::mounted::faulty;
use crate::plan::read_plan;
use crate::words::words_of;
use call_endings::Ending;
use denova_runs::{RunEnd, run_scripts};
use dn_check::{Finding, check_words};
use dn_script::{JobForm, Source};
use dn_volume::Volume;
use fingerprint::Fingerprint;
use job_runs::Order;
use job_texts::JobPlan;
use pm_device::{MemPm, Pm};
use std::alloc::{AllocError, Global};

/// A device in memory with these words.
pub(crate) fn copy_of(alloc: Global, words: Vec<u64>) -> Result<MemPm, AllocError>
    requires { vec_len words % 512 ≡ 0 }
    ensures new { IfOk result (λ device. IsNew words.items (⟦<MemPm as Pm>⟧.state device)) }
    ensures still { IfOk result (λ device. Still (⟦<MemPm as Pm>⟧.state device)) }
{
    let device = MemPm::of_words(alloc, words, Vec::new(alloc))?;
    Ok(device)
}

// What is picked of the images that a crash may leave after so many calls of the volume's device, or after all of them
// where there are fewer; and the volume's fingerprint.
fn picked<F: Fingerprint + Drop>(
    alloc: Global,
    v: Volume<MemPm, F>,
    calls: u64,
    pick: u64,
) -> Result<(Vec<u64>, F), AllocError>
    requires { Agrees (⟦<MemPm as Pm>⟧.state) v }
    ensures picked { IfOk result
        (λ back. IsPickedAt calls (⟦<MemPm as Pm>⟧.state v.device) back.0.items) }
    ensures even { IfOk result (λ back. length back.0.items % 512 ≡ 0) }
{
    let Volume { device, print, .. } = v;
    let moment = calls.min(device.moment());
    let image = device.image_at(alloc, moment, pick)?;
    Ok((image, print))
}

// The files of an image are listed. What a run leaves has no fault.
fn list_image<F: Fingerprint + Drop>(alloc: Global, image: Vec<u64>, print: F) -> Ending
    requires { vec_len image % 512 ≡ 0 }
    ensures { ImageListed F.print image.items result }
{
    let Ok(device) = copy_of(alloc, image) else {
        return Ending::NoMemory;
    };
    let (ending, _) = list(alloc, device, print);
    match ending {
        Ending::Done(text) => Ending::Done(text),
        _ => Ending::NoMemory,
    }
}

// The files after a front of a run are listed: those of an image that is left of it.
fn list_front<F: Fingerprint + Drop>(
    alloc: Global,
    v: Volume<MemPm, F>,
    calls: u64,
    pick: u64,
) -> Ending
    requires { Agrees (⟦<MemPm as Pm>⟧.state) v }
    ensures { FrontListed F.print calls (⟦<MemPm as Pm>⟧.state v.device) result }
{
    match picked(alloc, v, calls, pick) {
        Ok((image, print)) => list_image(alloc, image, print),
        Err(_) => Ending::NoMemory,
    }
}

// Words that are no whole pages are no image.
fn uneven(alloc: Global, words: Vec<u64>) -> Ending
    requires { length words.items % 512 ≢ 0 }
    ensures { UnevenEnds words.items result }
{
    match check_words(alloc, words) {
        Ok(Finding::Fault(fault)) => faulty(alloc, fault),
        Ok(Finding::Sound { .. }) => unreachable!(),
        Err(_) => Ending::NoMemory,
    }
}

// A plan is run on words that are whole pages.
fn run_on<F: Fingerprint + Drop>(
    alloc: Global,
    words: Vec<u64>,
    print: F,
    plan: &JobPlan,
    calls: u64,
    pick: u64,
) -> Ending
    requires even { vec_len words % 512 ≡ 0 }
    requires rises { Rises 0 plan.now.scripts }
    ensures { CopyEnds F.print plan.now.scripts plan.now.turns.items calls words.items result }
{
    let Ok(device) = copy_of(alloc, words) else {
        return Ending::NoMemory;
    };
    match run_scripts(
        alloc,
        device,
        print,
        &plan.scripts,
        &plan.turns,
        Order::InTurns,
    ) {
        Ok(v) => list_front(alloc, v, calls, pick),
        Err((RunEnd::Faulty(fault), _)) => faulty(alloc, fault),
        // a device in memory that isn't told to never fails
        Err(_) => Ending::NoMemory,
    }
}

// A plan is run on a copy of a device's words.
fn try_plan<D: Pm, F: Fingerprint + Drop>(
    alloc: Global,
    device: &D,
    print: F,
    plan: &JobPlan,
    calls: u64,
    pick: u64,
) -> Ending
    requires { Rises 0 plan.now.scripts }
    ensures { CopyEnds F.print plan.now.scripts plan.now.turns.items calls
        (D.state device.now).now result }
{
    let Ok(words) = words_of(alloc, device) else {
        return Ending::NoMemory;
    };
    if words.len() % 512 == 0 {
        run_on(alloc, words, print, plan, calls, pick)
    } else {
        uneven(alloc, words)
    }
}

/// Reads a job of clients in turns, runs it on a copy of a device's words to its end, and lists the files of an image that a
/// crash may leave after so many calls of the copy, or after all of them where there are fewer: that which `pick` takes among
/// them. They are the files after some of the operations: after none where `calls` is 0, and after all where it is the last
/// number there is. The device is only read.
///
/// `BadLine`, `BadTurn`, `Unread` and `TooLong` come for the job, before the device is read. `Faulty` comes exactly where the
/// image has a fault, and `NoMemory` where memory ran out.
pub fn trial<D: Pm, F: Fingerprint + Drop, S: Source>(
    alloc: Global,
    device: &D,
    print: F,
    input: &mut S,
    calls: u64,
    pick: u64,
) -> Ending
    ensures ends { TrialEnds F.print calls (input_of S.left S.faults input.old input.new)
        (D.state device.now) (D.state device.now) result }
    ensures counts { S.faults input.old ≤ S.faults input.new }
{
    match read_plan(alloc, input, JobForm::Replay) {
        Ok(plan) => try_plan(alloc, device, print, &plan, calls, pick),
        Err(ending) => ending,
    }
}
