// A job is read, and its clients run in threads on the image of a device.
ghost use Rattle.std.specs.Prelude.{◌≡◌, ◌≤◌, length, IfOk};
ghost use Rattle.pm_device.specs.Settled.{Still};
ghost use Rattle.call_endings.specs.Call.{input_of};
ghost use Rattle.dn_script.specs.declared.line.JobForm.TheVariants.{Run};
ghost use Rattle.dn_script.specs.Formed.{IsJob};
ghost use Rattle.job_runs.specs.Scripts.{Rises};
ghost use Rattle.job_texts.specs.Plan.{scripts_in, line_numbers_in};
ghost use Rattle.thread_texts.specs.Texts.{thread_text as text_of_threads};
ghost use Rattle.denova_calls.specs.RunSteps.{WholeEnds};
ghost use Rattle.denova_session.specs.Reads.{reads_of as all_reads};
ghost use Rattle.denova_session.specs.Ends.{ThreadsEnd, SessionEnds};
ghost use Rattle.denova_session.specs.Steps.{HasRanThreads};

use crate::reads::reads_of;
use crate::threads::{Ran, run_threads};
use call_endings::Ending;
use denova_calls::endings::{ending_of_fault, ending_of_job};
use dn_script::{Job, JobForm, Lines, Source, read_job};
use dn_shared::Gate;
use fingerprint::Fingerprint;
use job_texts::LineNumbers;
use pm_device::Pm;
use std::alloc::{AllocError, Global};
use std::sync::Wait;
use std::thread::Threads;
use thread_texts::{line_numbers, thread_text};

// The text of a run, whose operations have lines of these numbers.
fn text_of<D: Pm, F: Fingerprint>(
    alloc: Global,
    ran: &Ran<D, F>,
    numbers: &LineNumbers,
) -> Result<Vec<u8>, AllocError>
    ensures { IfOk result (λ text. text.items ≡ text_of_threads ran.now.opening.items numbers.now
        ran.now.volume.parts.history.items ran.now.volume.parts.trace.items
        (all_reads ran.now.readings.items) (length ran.now.volume.parts.free.free)) }
{
    let reads = reads_of(alloc, &ran.readings)?;
    let volume = &ran.volume;
    let free = volume.free_pages();
    thread_text(
        alloc,
        &ran.opening,
        numbers,
        volume.history(),
        volume.trace(),
        &reads,
        free,
    )
}

// How a call ends whose job was run.
fn ending_of_ran<D: Pm, F: Fingerprint>(
    alloc: Global,
    ran: &Ran<D, F>,
    numbers: &LineNumbers,
) -> Ending
    ensures { WholeEnds (λ text. text ≡ text_of_threads ran.now.opening.items numbers.now
        ran.now.volume.parts.history.items ran.now.volume.parts.trace.items
        (all_reads ran.now.readings.items) (length ran.now.volume.parts.free.free)) result }
{
    match text_of(alloc, ran, numbers) {
        Ok(text) => Ending::Done(text),
        Err(_) => Ending::NoMemory,
    }
}

// Runs the lines of clients, whose operations have these numbers.
fn run_clients<
    R: Threads + Wait + Sync,
    D: Pm + Send,
    F: Fingerprint + Drop + Send,
    G: Gate + Sync,
>(
    rt: &R,
    alloc: Global,
    device: D,
    print: F,
    clients: &[(u32, Lines)],
    numbers: &LineNumbers,
    gate: &G,
) -> (Ending, D)
    requires still { Still (D.state device) }
    requires clients { Rises 0 (scripts_in clients.now) }
    requires numbers { numbers.now ≡ line_numbers_in clients.now }
    ensures ends { ThreadsEnd F.print clients.now (D.state device) (D.state result.1) result.0 }
    ensures faults { (D.state device).faults ≤ (D.state result.1).faults }
{
    match run_threads(rt, alloc, device, print, clients, gate) {
        Ok(ran) => {
            let ending = ending_of_ran(alloc, &ran, numbers);
            (ending, ran.volume.into_device())
        }
        Err((end, device)) => (ending_of_job(alloc, numbers, end), device),
    }
}

// Runs a job.
fn run_read<R: Threads + Wait + Sync, D: Pm + Send, F: Fingerprint + Drop + Send, G: Gate + Sync>(
    rt: &R,
    alloc: Global,
    device: D,
    print: F,
    job: &Job,
    gate: &G,
) -> (Ending, D)
    requires still { Still (D.state device) }
    requires formed { IsJob Run job.now }
    ensures ends { ThreadsEnd F.print job.now.clients (D.state device) (D.state result.1) result.0 }
    ensures faults { (D.state device).faults ≤ (D.state result.1).faults }
{
    let clients = job.clients.clients();
    match line_numbers(alloc, clients) {
        Ok(numbers) => run_clients(rt, alloc, device, print, clients, &numbers, gate),
        Err(_) => (Ending::NoMemory, device),
    }
}

/// Reads a job of clients for threads, and runs it on the image of a still device.
///
/// A crash at any moment of the call leaves an image whose files are those after the operations so far, or after one more.
pub(crate) fn run_job<
    R: Threads + Wait + Sync,
    D: Pm + Send,
    F: Fingerprint + Drop + Send,
    S: Source,
    G: Gate + Sync,
>(rt: &R, alloc: Global, device: D, print: F, input: &mut S, gate: &G) -> (Ending, D)
    requires still { Still (D.state device) }
    ensures ends { SessionEnds F.print (input_of S.left S.faults input.old input.new)
        (D.state device) (D.state result.1) result.0 }
    ensures device_faults { (D.state device).faults ≤ (D.state result.1).faults }
    ensures source_faults { S.faults input.old ≤ S.faults input.new }
{
    match read_job(alloc, input, JobForm::Run) {
        Ok(job) => run_read(rt, alloc, device, print, &job, gate),
        Err(fault) => (ending_of_fault(alloc, fault), device),
    }
}
