// A job, or generated work, is run on the image of a device.
ghost use Rattle.std.specs.Prelude.{◌≡◌, ◌≤◌, [], false, length};
ghost use Rattle.pm_device.specs.Settled.{Still};
ghost use Rattle.call_endings.specs.Call.{input_of};
ghost use Rattle.dn_volume.specs.Agrees.{Agrees};
ghost use Rattle.job_runs.specs.Scripts.{Rises, Suits, IsAlone};
ghost use Rattle.job_texts.specs.Plan.{work_scripts};
ghost use Rattle.job_texts.specs.Told.{run_text as text_of_run};
ghost use Rattle.denova_calls.specs.RunEnds.{RunEnds, ScriptEnds, WorkEnds};
ghost use Rattle.denova_calls.specs.Plans.{IsSuited};
ghost use Rattle.denova_calls.specs.RunSteps.{WholeEnds, WorkTextOf, plan_telling};

use crate::endings::{ending_of_job, ending_of_work};
use crate::plan::read_plan;
use call_endings::Ending;
use denova_runs::run_scripts;
use dn_script::{JobForm, Source};
use dn_volume::Volume;
use fingerprint::Fingerprint;
use job_runs::{Order, Scripts};
use job_texts::{JobPlan, LineNumbers, run_text, work_plan, work_text};
use pm_device::Pm;
use std::alloc::Global;

// How a call ends whose job was run, and has lines of these numbers.
fn ending_of_volume<D: Pm, F: Fingerprint>(
    alloc: Global,
    v: &Volume<D, F>,
    numbers: &LineNumbers,
) -> Ending
    ensures { WholeEnds (λ text. text ≡ text_of_run numbers.now v.now.parts.history.items
        (length v.now.parts.free.free)) result }
{
    match run_text(alloc, numbers, v.history(), v.free_pages()) {
        Ok(text) => Ending::Done(text),
        Err(_) => Ending::NoMemory,
    }
}

// Runs the plan of a job on the image of a device.
fn run_plan<D: Pm, F: Fingerprint + Drop>(
    alloc: Global,
    device: D,
    print: F,
    plan: &JobPlan,
    order: Order,
) -> (Ending, D)
    requires still { Still (D.state device) }
    requires clients { Rises 0 plan.now.scripts }
    requires suits { Suits order plan.now.scripts }
    ensures ends { RunEnds F.print order plan.now.scripts plan.now.turns.items
        (plan_telling plan.now.numbers) (D.state device) (D.state result.1) result.0 }
    ensures device_faults { (D.state device).faults ≤ (D.state result.1).faults }
{
    match run_scripts(alloc, device, print, &plan.scripts, &plan.turns, order) {
        Ok(v) => {
            let ending = ending_of_volume(alloc, &v, &plan.numbers);
            (ending, v.into_device())
        }
        Err((end, device)) => (ending_of_job(alloc, &plan.numbers, end), device),
    }
}

/// Reads a job of this form, and runs it in this order on the image of a still device. The text has a line for each reply,
/// and a last one with the number of replies and of free pages.
///
/// A crash at any moment of the call leaves an image whose files are those after the operations so far, or after one more.
pub fn run_job<D: Pm, F: Fingerprint + Drop, S: Source>(
    alloc: Global,
    device: D,
    print: F,
    input: &mut S,
    form: JobForm,
    order: Order,
) -> (Ending, D)
    requires still { Still (D.state device) }
    requires suits { IsSuited form order }
    ensures ends { ScriptEnds F.print form order (input_of S.left S.faults input.old input.new)
        (D.state device) (D.state result.1) result.0 }
    ensures device_faults { (D.state device).faults ≤ (D.state result.1).faults }
    ensures source_faults { S.faults input.old ≤ S.faults input.new }
{
    match read_plan(alloc, input, form) {
        Ok(plan) => run_plan(alloc, device, print, &plan, order),
        Err(ending) => (ending, device),
    }
}

// How a call ends whose generated work was run.
fn ending_of_worked<D: Pm, F: Fingerprint>(alloc: Global, v: &Volume<D, F>, number: u64) -> Ending
    requires agrees { Agrees D.state v.now }
    requires running { v.now.parts.stopped ≡ false }
    ensures { WholeEnds (WorkTextOf D.state v.now number) result }
{
    match work_text(alloc, v, number) {
        Ok(text) => Ending::Done(text),
        Err(_) => Ending::NoMemory,
    }
}

// Runs generated work as these scripts on the image of a device.
fn run_generated<D: Pm, F: Fingerprint + Drop>(
    alloc: Global,
    device: D,
    print: F,
    scripts: &Scripts,
    number: u64,
) -> (Ending, D)
    requires still { Still (D.state device) }
    requires scripts { scripts.now ≡ work_scripts number }
    requires clients { Rises 0 scripts.now }
    requires alone { IsAlone scripts.now }
    ensures ends { WorkEnds F.print number (D.state device) (D.state result.1) result.0 }
    ensures device_faults { (D.state device).faults ≤ (D.state result.1).faults }
{
    match run_scripts(alloc, device, print, scripts, &[], Order::WithRest) {
        Ok(v) => {
            let ending = ending_of_worked(alloc, &v, number);
            (ending, v.into_device())
        }
        Err((end, device)) => (ending_of_work(alloc, number, end), device),
    }
}

/// Runs generated work of so many operations on the image of a still device, with an event of the daemon and one of reclaim
/// after each. The text has the numbers of operations that were done and refused, and of files, rows, mapped and free pages
/// in the end.
///
/// A crash at any moment of the call leaves an image whose files are those after the operations so far, or after one more.
pub fn run_work<D: Pm, F: Fingerprint + Drop>(
    alloc: Global,
    device: D,
    print: F,
    number: u64,
) -> (Ending, D)
    requires { Still (D.state device) }
    ensures ends { WorkEnds F.print number (D.state device) (D.state result.1) result.0 }
    ensures device_faults { (D.state device).faults ≤ (D.state result.1).faults }
{
    match work_plan(alloc, number) {
        Ok(scripts) => run_generated(alloc, device, print, &scripts, number),
        Err(_) => (Ending::NoMemory, device),
    }
}
