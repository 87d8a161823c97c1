// A job as scripts of operations, and the numbers of their lines.
ghost use Rattle.std.specs.Prelude.{◌≡◌, IfOk};
ghost use Rattle.job_texts.specs.Plan.{ops_in, numbers_in, scripts_in, line_numbers_in};

use dn_model::Op;
use dn_script::{Command, Job, Line, Lines, Numbers};
use job_runs::{Script, Scripts};
use std::alloc::{AllocError, Global};
use std::marker::Model;

/// Clients with the numbers of the lines of their operations, seen as their list.
#[derive(Debug, Drop)]
pub struct LineNumbers {
    clients: Vec<(u32, Numbers)>,
}

impl Model for LineNumbers {
    ghost use Rattle.std.specs.Prelude.{List, ℕ};

    ghost Value = { List (ℕ × List ℕ) };

    ghost view = { λ t. t.clients.items };
}

impl LineNumbers {
    /// These clients.
    pub fn of(clients: Vec<(u32, Numbers)>) -> LineNumbers
        ensures { result ≡ clients.items }
    {
        LineNumbers { clients }
    }

    /// The clients, in order.
    pub fn clients(&self) -> &[(u32, Numbers)]
        ensures { result.now ≡ self.now }
    {
        &self.clients
    }
}

/// A job, as it is run and as its history is told.
#[derive(Debug, Drop)]
pub struct JobPlan {
    /// Each client's operations.
    pub scripts: Scripts,
    /// The numbers of their lines, counted from 1 in the job.
    pub numbers: LineNumbers,
    /// Whose turn is next: a client, 15 for the daemon or 16 for reclaim.
    pub turns: Vec<u32>,
}

// The operations of a client, and the numbers of their lines.
fn split_lines(alloc: Global, lines: Vec<Line>) -> Result<(Vec<Op>, Vec<u64>), AllocError>
    ensures ops { IfOk result (λ r. r.0.items ≡ ops_in lines.items) }
    ensures numbers { IfOk result (λ r. r.1.items ≡ numbers_in lines.items) }
{
    let mut ops = Vec::new(alloc);
    let mut numbers = Vec::new(alloc);
    for Line { number, command } in lines {
        if let Command::Do(op) = command {
            ops.push(op)?;
            numbers.push(number)?;
        }
    }
    Ok((ops, numbers))
}

// The scripts of clients, and the numbers of their lines.
fn split_clients(
    alloc: Global,
    clients: Vec<(u32, Lines)>,
) -> Result<(Scripts, LineNumbers), AllocError>
    ensures scripts { IfOk result (λ r. r.0 ≡ scripts_in clients.items) }
    ensures numbers { IfOk result (λ r. r.1 ≡ line_numbers_in clients.items) }
{
    let mut scripts = Vec::new(alloc);
    let mut numbers = Vec::new(alloc);
    for (who, lines) in clients {
        let (ops, own) = split_lines(alloc, lines.into_vec())?;
        scripts.push((who, Script::of(ops)))?;
        numbers.push((who, Numbers::of(own)))?;
    }
    Ok((Scripts::of(scripts), LineNumbers::of(numbers)))
}

/// A job as scripts of operations, with the numbers of their lines. Looks at counts are left out, and operations aren't
/// copied.
///
/// # Errors
/// `AllocError` where there is no memory for the lists.
pub fn plan_of(alloc: Global, job: Job) -> Result<JobPlan, AllocError>
    ensures scripts { IfOk result (λ plan. plan.scripts ≡ scripts_in job.clients) }
    ensures numbers { IfOk result (λ plan. plan.numbers ≡ line_numbers_in job.clients) }
    ensures turns { IfOk result (λ plan. plan.turns.items ≡ job.turns) }
{
    let Job { clients, turns } = job;
    let (scripts, numbers) = split_clients(alloc, clients.into_vec())?;
    Ok(JobPlan {
        scripts,
        numbers,
        turns: turns.into_vec(),
    })
}
