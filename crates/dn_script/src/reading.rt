// Jobs, read from sources.
ghost use Rattle.std.specs.Prelude.{◌≡◌, ◌⊎◌, ◌<◌, ◌≤◌, ◌+◌, List, [], ℕ, length, Some, IfOk, IfSome, OnOk};
ghost use Rattle.pm_device.specs.State.{Rose};
ghost use Rattle.dn_script.specs.Text.{lines};
ghost use Rattle.dn_script.specs.Formed.{IsJob};
ghost use Rattle.dn_script.specs.Job.{Answers, start, after_lines, job_of, job_fault_of};

use crate::draft::JobDraft;
use crate::job::{Job, JobFault, MOST_LINES};
use crate::line::JobForm;
use crate::stream::{ReadFault, Source, read_to_end};
use crate::text::first_line;
use std::alloc::Global;

// How many lines a text has.
#[tactic(auto, using(crate::proofs::TextLaws::lines_empty))]
fn count_lines(text: &[u8]) -> usize
    ensures { result ≡ length (lines text.now) }
{
    let mut count = 0;
    let mut rest = text;
    while !rest.is_empty() {
        let (_, after) = first_line(rest);
        rest = after;
        count += 1;
    }
    count
}

// What the lines of a text say.
fn read_lines(alloc: Global, form: JobForm, text: &[u8]) -> Result<JobDraft, JobFault>
    ensures { Answers result (after_lines form 1 (lines text.now) start) }
{
    let mut draft = JobDraft::new(alloc);
    let mut number = 1u64;
    let mut rest = text;
    while !rest.is_empty() {
        let (line, after) = first_line(rest);
        draft.add_line(alloc, form, number, line)?;
        rest = after;
        number += 1;
    }
    Ok(draft)
}

// The job of a text.
fn job_of_text(alloc: Global, form: JobForm, text: &[u8]) -> Result<Job, JobFault>
    requires { length text.now ≤ 16777216 }
    ensures answer { Answers result (job_of form text.now) }
    ensures formed { IfOk result (IsJob form) }
{
    if count_lines(text) > MOST_LINES {
        return Err(JobFault::TooLong);
    }
    read_lines(alloc, form, text)?.finish(alloc)
}

// A fault of reading, as one of the job.
fn job_fault(fault: ReadFault) -> JobFault
    ensures { result ≡ job_fault_of fault }
{
    match fault {
        ReadFault::Failed => JobFault::ReadFault,
        ReadFault::TooLong => JobFault::TooLong,
        ReadFault::NoMemory => JobFault::NoMemory,
    }
}

/// Reads a job of this form, to the end of the source.
///
/// The faults, in order: `ReadFault`, where a take failed; `TooLong`, where the text has more than 16,777,216
/// bytes or more than 100,000 lines; then line by line `BadLine`, where a line is no command of the form, and
/// `TooLong`, where its weight makes the sum more than 268,435,456; last `BadTurn`, with the first number of the
/// schedule that is no actor's.
pub fn read_job<S: Source>(alloc: Global, from: &mut S, form: JobForm) -> Result<Job, JobFault>
    ensures answer { IfSome (S.left from.old) (λ text. (result ≡ Err JobFault.ReadFault) ⊎ Answers
        result (job_of form text)) }
    ensures formed { IfOk result (IsJob form) }
    ensures ended { OnOk result (IfSome (S.left from.old) (λ _. S.left from.new ≡ Some [])) }
    ensures counts { S.faults from.old ≤ S.faults from.new }
    ensures cause { result ≡ Err JobFault.ReadFault → Rose (S.faults from.old) (S.faults from.new) }
{
    let text = read_to_end(alloc, from).map_err(job_fault)?;
    job_of_text(alloc, form, &text)
}
