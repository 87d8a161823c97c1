// How calls end whose job, or whose run, didn't come to its end.
ghost use Rattle.std.specs.Prelude.{◌≡◌, IfOk};
ghost use Rattle.dn_report.specs.Report.{bad_line_text, bad_turn_text};
ghost use Rattle.dn_report.specs.Found.{faulty_text};
ghost use Rattle.job_texts.specs.Plan.{work_numbers as numbers_of_work};
ghost use Rattle.job_texts.specs.Told.{stopped_run_text};
ghost use Rattle.denova_calls.specs.RunSteps.{FaultEnds, FaultyEnds, StopEnds, EndEnds};

use call_endings::Ending;
use denova_runs::RunEnd;
use dn_model::{Entry, ImageFault};
use dn_report::found::write_faulty;
use dn_report::report::{write_bad_line, write_bad_turn};
use dn_script::JobFault;
use job_texts::{LineNumbers, stopped_text, work_numbers};
use std::alloc::{AllocError, Global};

// The text of a job with a line that is no command.
fn bad_line(alloc: Global, line: u64) -> Result<Vec<u8>, AllocError>
    ensures { IfOk result (λ text. text.items ≡ bad_line_text line) }
{
    let mut text = Vec::new(alloc);
    write_bad_line(&mut text, line)?;
    Ok(text)
}

// The text of a job whose schedule has a number that is no actor of it.
fn bad_turn(alloc: Global, number: u64) -> Result<Vec<u8>, AllocError>
    ensures { IfOk result (λ text. text.items ≡ bad_turn_text number) }
{
    let mut text = Vec::new(alloc);
    write_bad_turn(&mut text, number)?;
    Ok(text)
}

/// How a call ends whose job has a fault.
pub fn ending_of_fault(alloc: Global, fault: JobFault) -> Ending
    ensures { FaultEnds fault result }
{
    match fault {
        JobFault::ReadFault => Ending::Unread,
        JobFault::TooLong => Ending::TooLong,
        JobFault::NoMemory => Ending::NoMemory,
        JobFault::BadLine { line } => match bad_line(alloc, line) {
            Ok(text) => Ending::BadLine(text),
            Err(_) => Ending::NoMemory,
        },
        JobFault::BadTurn { number } => match bad_turn(alloc, number) {
            Ok(text) => Ending::BadTurn(text),
            Err(_) => Ending::NoMemory,
        },
    }
}

// The text of an image with this fault.
fn faulty(alloc: Global, fault: ImageFault) -> Result<Vec<u8>, AllocError>
    ensures { IfOk result (λ text. text.items ≡ faulty_text fault) }
{
    let mut text = Vec::new(alloc);
    write_faulty(&mut text, fault)?;
    Ok(text)
}

// How a run ends on an image with a fault.
fn ending_of_image(alloc: Global, fault: ImageFault) -> Ending
    ensures { FaultyEnds fault result }
{
    match faulty(alloc, fault) {
        Ok(text) => Ending::Faulty(text),
        Err(_) => Ending::NoMemory,
    }
}

// How a run ends that the device stopped, and whose operations have lines of these numbers.
fn ending_of_stop(alloc: Global, numbers: &LineNumbers, history: &[Entry]) -> Ending
    ensures { StopEnds (stopped_run_text numbers.now history.now) result }
{
    match stopped_text(alloc, numbers, history) {
        Ok(text) => Ending::Stopped(text),
        Err(_) => Ending::NoMemory,
    }
}

// How generated work ends that the device stopped.
fn ending_of_stopped_work(alloc: Global, number: u64, history: &[Entry]) -> Ending
    ensures { StopEnds (stopped_run_text (numbers_of_work number) history.now) result }
{
    match work_numbers(alloc, number) {
        Ok(numbers) => ending_of_stop(alloc, &numbers, history),
        Err(_) => Ending::NoMemory,
    }
}

/// How a call ends whose job didn't come to its end, and has lines of these numbers.
pub fn ending_of_job(alloc: Global, numbers: &LineNumbers, end: RunEnd) -> Ending
    ensures { EndEnds numbers.now end result }
{
    match end {
        RunEnd::Faulty(fault) => ending_of_image(alloc, fault),
        RunEnd::Failed => Ending::Failed,
        RunEnd::Stopped(history) => ending_of_stop(alloc, numbers, &history),
        RunEnd::NoMemory => Ending::NoMemory,
    }
}

// How a call ends whose generated work didn't come to its end.
pub(crate) fn ending_of_work(alloc: Global, number: u64, end: RunEnd) -> Ending
    ensures { EndEnds (numbers_of_work number) end result }
{
    match end {
        RunEnd::Faulty(fault) => ending_of_image(alloc, fault),
        RunEnd::Failed => Ending::Failed,
        RunEnd::Stopped(history) => ending_of_stopped_work(alloc, number, &history),
        RunEnd::NoMemory => Ending::NoMemory,
    }
}
