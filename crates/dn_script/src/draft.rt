// What the lines of a job say so far.
ghost use Rattle.std.specs.Prelude.{◌≡◌, ◌<◌, ◌≤◌, ◌+◌, ◌-◌, ◌⊎◌, ℕ, Ok, List, [], ◌∷◌, ◌++◌, length, Some, None, Option, IfOk, IfErr, OnOk, not, ◌==◌, if◌then◌else◌};
ghost use Rattle.std.specs.Option.{option_to_list};
ghost use Rattle.std.specs.List.{list_any};
ghost use Rattle.dn_script.specs.Line.{meaning_of};
ghost use Rattle.dn_script.specs.Job.{Answers, AnswersBy, FailsBy, start, with_command, after_line, lines_of, others_of, client_with, clients_to, is_actor, schedule_of, job_of_draft};
ghost use Rattle.dn_script.specs.declared.job.JobFault.TheVariants.{NoMemory, TooLong};

use crate::job::{Clients, Command, Job, JobFault, Line, Lines, MOST_WEIGHT, Turns};
use crate::line::{JobForm, LineMeaning, line_meaning};
use dn_model::{CLIENTS, DAEMON, RECLAIM};
use std::alloc::{AllocError, Global};
use std::marker::Model;

/// A command, and the client that it belongs to.
#[derive(Debug, Drop)]
pub(crate) struct Owned {
    pub who: u32,
    pub line: Line,
}

/// What the lines of a job say so far.
#[derive(Drop)]
pub(crate) struct JobDraft {
    current: u32,
    named: Vec<u32>,
    owned: Vec<Owned>,
    turns: Vec<u64>,
    weight: u64,
}

impl Model for JobDraft {
    ghost use Rattle.std.specs.Prelude.{◌≤◌};
    ghost use Rattle.dn_script.specs.Job.{Draft};

    ghost Value = { Draft };

    ghost view = { λ d. record { current = d.current; named = d.named.items; owned = d.owned.items; turns = d.turns.items; weight = d.weight } };

    ghost invariant = { λ d. d.weight ≤ 268435456 };
}

impl JobDraft {
    /// Before any line.
    pub(crate) fn new(alloc: Global) -> JobDraft
        ensures { result ≡ start }
    {
        JobDraft {
            current: 1,
            named: Vec::new(alloc),
            owned: Vec::new(alloc),
            turns: Vec::new(alloc),
            weight: 0,
        }
    }

    // A command of the present client.
    fn push(&mut self, number: u64, command: Command) -> Result<(), JobFault>
        ensures ok { OnOk result (self.new ≡ with_command number command self.old) }
        ensures err { IfErr result (λ e. e ≡ NoMemory) }
    {
        let line = Line { number, command };
        let who = self.current;
        self.owned
            .push(Owned { who, line })
            .map_err(|_| JobFault::NoMemory)
    }

    // An operation of the present client.
    fn push_weighty(&mut self, number: u64, command: Command, weight: u64) -> Result<(), JobFault>
        ensures ok { OnOk result (self.new ≡ record (with_command number command self.old)
            { weight = self.old.weight + weight }) }
        ensures fits { OnOk result (self.old.weight + weight ≤ 268435456) }
        ensures long { result ≡ Err JobFault.TooLong → 268435456 < self.old.weight + weight }
        ensures err { IfErr result (λ e. (e ≡ NoMemory) ⊎ (e ≡ TooLong)) }
    {
        if weight > MOST_WEIGHT - self.weight {
            return Err(JobFault::TooLong);
        }
        self.push(number, command)?;
        self.weight += weight;
        Ok(())
    }

    // The lines after this one belong to a client.
    fn name(&mut self, client: u32) -> Result<(), JobFault>
        ensures ok { OnOk result
            (self.new ≡ record self.old { current = client; named = self.old.named ++ client ∷ [] }) }
        ensures err { IfErr result (λ e. e ≡ NoMemory) }
    {
        self.named.push(client).map_err(|_| JobFault::NoMemory)?;
        self.current = client;
        Ok(())
    }

    // More turns of the schedule.
    fn schedule(&mut self, turns: &[u64]) -> Result<(), JobFault>
        ensures ok { OnOk result
            (self.new ≡ record self.old { turns = self.old.turns ++ turns.now }) }
        ensures err { IfErr result (λ e. e ≡ NoMemory) }
    {
        self.turns
            .extend_from_slice(turns)
            .map_err(|_| JobFault::NoMemory)
    }

    // What a line says, with its number.
    fn add(&mut self, number: u64, meaning: LineMeaning) -> Result<(), JobFault>
        ensures ok { OnOk result (after_line number meaning self.old ≡ Ok self.new) }
        ensures err { IfErr result (λ e. FailsBy e (after_line number meaning self.old)) }
    {
        match meaning {
            LineMeaning::Skip => Ok(()),
            LineMeaning::Do { op, weight } => self.push_weighty(number, Command::Do(op), weight),
            LineMeaning::Count { slot } => self.push(number, Command::Count { slot }),
            LineMeaning::Client { number } => self.name(number),
            LineMeaning::Turns(numbers) => self.schedule(numbers.numbers()),
            LineMeaning::Bad => Err(JobFault::BadLine { line: number }),
        }
    }

    /// One line more, with its number. After an `Err` the draft is of no use.
    pub(crate) fn add_line(
        &mut self,
        alloc: Global,
        form: JobForm,
        number: u64,
        line: &[u8],
    ) -> Result<(), JobFault>
        ensures ok { OnOk result (after_line number (meaning_of form line.now) self.old ≡ Ok
            self.new) }
        ensures err { IfErr result
            (λ e. FailsBy e (after_line number (meaning_of form line.now) self.old)) }
    {
        match line_meaning(alloc, form, line) {
            Ok(meaning) => self.add(number, meaning),
            Err(_) => Err(JobFault::NoMemory),
        }
    }

    /// The job of the lines, if each turn is an actor's.
    pub(crate) fn finish(self, alloc: Global) -> Result<Job, JobFault>
        ensures { Answers result (job_of_draft self) }
    {
        let JobDraft {
            current: _,
            named,
            owned,
            turns,
            weight: _,
        } = self;
        let clients = clients_of(alloc, &named, owned).map_err(|_| JobFault::NoMemory)?;
        let turns = schedule_of(alloc, &clients, &turns)?;
        Ok(Job {
            clients: Clients::of(clients),
            turns: Turns::of(turns),
        })
    }
}

// The lines of a client, and the commands of the others.
#[tactic(auto, using(crate::proofs::ClientLaws::lines_of_own, crate::proofs::ClientLaws::lines_of_other, crate::proofs::ClientLaws::others_of_own, crate::proofs::ClientLaws::others_of_other))]
fn split_client(
    alloc: Global,
    owned: Vec<Owned>,
    number: u32,
) -> Result<(Vec<Line>, Vec<Owned>), AllocError>
    ensures own { IfOk result (λ r. r.0.items ≡ lines_of number owned.items) }
    ensures others { IfOk result (λ r. r.1.items ≡ others_of number owned.items) }
{
    let mut own = Vec::new(alloc);
    let mut others = Vec::new(alloc);
    for Owned { who, line } in owned {
        if who == number {
            own.push(line)?;
        } else {
            others.push(Owned { who, line })?;
        }
    }
    Ok((own, others))
}

// Adds a client, where it is named or has lines.
fn push_client(
    clients: &mut Vec<(u32, Lines)>,
    named: &[u32],
    number: u32,
    lines: Vec<Line>,
) -> Result<(), AllocError>
    ensures { OnOk result (clients.new.items ≡ clients.old.items ++ option_to_list
        (client_with named.now number lines.items)) }
{
    if named.contains(&number) || !lines.is_empty() {
        clients.push((number, Lines::of(lines)))?;
    }
    Ok(())
}

// The clients by number, with their lines.
#[tactic(auto, using(crate::proofs::ClientLaws::clients_to_none))]
fn clients_of(
    alloc: Global,
    named: &[u32],
    owned: Vec<Owned>,
) -> Result<Vec<(u32, Lines)>, AllocError>
    ensures { IfOk result (λ clients. clients.items ≡ clients_to 14 named.now owned.items) }
{
    let mut clients = Vec::new(alloc);
    let mut left = owned;
    for before in 0..CLIENTS {
        let (lines, others) = split_client(alloc, left, before + 1)?;
        left = others;
        push_client(&mut clients, named, before + 1, lines)?;
    }
    Ok(clients)
}

// The client with this number.
fn client_of(clients: &[(u32, Lines)], number: u64) -> Option<u32>
    ensures { result ≡ (if list_any (λ c. c.0 == number) clients.now then Some number else None) }
{
    for client in clients {
        if u64::from(client.0) == number {
            return Some(client.0);
        }
    }
    None
}

// A number as an actor of a job with these clients.
fn actor_of(clients: &[(u32, Lines)], number: u64) -> Option<u32>
    ensures { result ≡ (if is_actor clients.now number then Some number else None) }
{
    if number == u64::from(DAEMON) {
        Some(DAEMON)
    } else if number == u64::from(RECLAIM) {
        Some(RECLAIM)
    } else {
        client_of(clients, number)
    }
}

// A schedule of actors.
fn schedule_of(alloc: Global, clients: &[(u32, Lines)], turns: &[u64]) -> Result<Vec<u32>, JobFault>
    ensures { AnswersBy (λ v. v.items) result (schedule_of clients.now turns.now) }
{
    let mut actors = Vec::new(alloc);
    for turn in turns {
        let Some(actor) = actor_of(clients, *turn) else {
            return Err(JobFault::BadTurn { number: *turn });
        };
        actors.push(actor).map_err(|_| JobFault::NoMemory)?;
    }
    Ok(actors)
}
