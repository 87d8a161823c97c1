// A job is read.
ghost use Rattle.std.specs.Prelude.{◌≡◌, ◌≤◌, IfOk, IfErr};
ghost use Rattle.call_endings.specs.Call.{input_of};
ghost use Rattle.denova_calls.specs.RunEnds.{JobEnds};
ghost use Rattle.denova_calls.specs.Plans.{HasPlan};

use crate::endings::ending_of_fault;
use call_endings::Ending;
use dn_script::{JobForm, Source, read_job};
use job_texts::{JobPlan, plan_of};
use std::alloc::Global;

/// Reads a job of this form to the end of the source, as scripts of clients with the numbers of their lines, and a
/// schedule.
///
/// # Errors
/// How the call ends whose job this is: `Unread` where a take failed, `TooLong` where the job passes a limit, `BadLine`
/// with the first line that is no command of the form, `BadTurn` with the first number of the schedule that is no actor
/// of the job, `NoMemory` where memory ran out.
pub fn read_plan<S: Source>(alloc: Global, input: &mut S, form: JobForm) -> Result<JobPlan, Ending>
    ensures ok { IfOk result (HasPlan form (input_of S.left S.faults input.old input.new)) }
    ensures err { IfErr result (JobEnds form (input_of S.left S.faults input.old input.new)) }
    ensures counts { S.faults input.old ≤ S.faults input.new }
{
    match read_job(alloc, input, form) {
        Ok(job) => match plan_of(alloc, job) {
            Ok(plan) => Ok(plan),
            Err(_) => Err(Ending::NoMemory),
        },
        Err(fault) => Err(ending_of_fault(alloc, fault)),
    }
}
