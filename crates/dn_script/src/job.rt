// Jobs, and how they are read.
ghost use Rattle.std.specs.Prelude.{◌≡◌};

use dn_model::Op;
use std::marker::Model;
use thiserror::Error;

/// The most lines of a job.
pub const MOST_LINES: usize = 100_000;

/// The most that the weights of a job's lines come to.
pub const MOST_WEIGHT: u64 = 268_435_456;

/// What a client does.
#[derive(Debug, Drop)]
pub enum Command {
    /// An operation.
    Do(Op),
    /// A look at the count of a slot.
    Count { slot: u64 },
}

/// A command, and where it stands.
#[derive(Debug, Drop)]
pub struct Line {
    /// The number of the line in the job, from 1.
    pub number: u64,
    /// What it does.
    pub command: Command,
}

/// The lines of a client, seen as their list.
#[derive(Debug, Drop)]
pub struct Lines {
    lines: Vec<Line>,
}

impl Model for Lines {
    ghost use Rattle.std.specs.Prelude.{List};
    ghost use Rattle.dn_script.specs.declared.job.Line.{Line};

    ghost Value = { List Line };

    ghost view = { λ t. t.lines.items };
}

impl Lines {
    /// These lines.
    pub fn of(lines: Vec<Line>) -> Lines
        ensures { result ≡ lines.items }
    {
        Lines { lines }
    }

    /// The lines, in order.
    pub fn lines(&self) -> &[Line]
        ensures { result.now ≡ self.now }
    {
        &self.lines
    }

    /// The lines given back.
    pub fn into_vec(self) -> Vec<Line>
        ensures { result.items ≡ self }
    {
        self.lines
    }
}

/// Clients from 1 to 14 with their lines, by number, seen as their list.
#[derive(Debug, Drop)]
pub struct Clients {
    clients: Vec<(u32, Lines)>,
}

impl Model for Clients {
    ghost use Rattle.std.specs.Prelude.{List, ℕ};
    ghost use Rattle.dn_script.specs.declared.job.Line.{Line};

    ghost Value = { List (ℕ × List Line) };

    ghost view = { λ t. t.clients.items };
}

impl Clients {
    /// These clients.
    pub fn of(clients: Vec<(u32, Lines)>) -> Clients
        ensures { result ≡ clients.items }
    {
        Clients { clients }
    }

    /// The clients, in order.
    pub fn clients(&self) -> &[(u32, Lines)]
        ensures { result.now ≡ self.now }
    {
        &self.clients
    }

    /// The clients given back.
    pub fn into_vec(self) -> Vec<(u32, Lines)>
        ensures { result.items ≡ self }
    {
        self.clients
    }
}

/// The actors of a schedule, seen as their list.
#[derive(Debug, Drop)]
pub struct Turns {
    turns: Vec<u32>,
}

impl Model for Turns {
    ghost use Rattle.std.specs.Prelude.{List, ℕ};

    ghost Value = { List ℕ };

    ghost view = { λ t. t.turns.items };
}

impl Turns {
    /// These turns.
    pub fn of(turns: Vec<u32>) -> Turns
        ensures { result ≡ turns.items }
    {
        Turns { turns }
    }

    /// The turns, in order.
    pub fn turns(&self) -> &[u32]
        ensures { result.now ≡ self.now }
    {
        &self.turns
    }

    /// The turns given back.
    pub fn into_vec(self) -> Vec<u32>
        ensures { result.items ≡ self }
    {
        self.turns
    }
}

/// Scripts of clients, by number, and a schedule of turns.
#[derive(Debug, Drop)]
pub struct Job {
    /// The clients that a line names or that have a command.
    pub clients: Clients,
    /// Whose turn is next: a client, 15 for the daemon or 16 for reclaim.
    pub turns: Turns,
}

/// Why a text is no job.
#[derive(Clone, Copy, Debug, PartialEq, Eq, Error)]
pub enum JobFault {
    /// A take failed.
    #[error("the source failed")]
    ReadFault,
    /// The text has more than 16,777,216 bytes or more than 100,000 lines, or the weights of its lines come to
    /// more than 268,435,456.
    #[error("the job is too long")]
    TooLong,
    /// This line is no command of the form.
    #[error("line {line} is no command")]
    BadLine { line: u64 },
    /// The schedule has this number, which is no actor's.
    #[error("{number} has no turn")]
    BadTurn { number: u64 },
    /// Memory ran out.
    #[error("out of memory")]
    NoMemory,
}
