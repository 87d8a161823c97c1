// Scripts of clients, and how they come to their turns.
ghost use Rattle.std.specs.Prelude.{◌≡◌};

use dn_model::Op;
use std::marker::Model;

/// How the actors of a run come to their turns.
#[derive(Clone, Copy, Debug, PartialEq, Eq)]
pub enum Order {
    /// Client 1 alone, each operation to its reply.
    Alone,
    /// As a schedule says, then in whole rounds of all clients, the daemon and reclaim.
    InTurns,
    /// Client 1, and after each of its operations, or where one is held up, the daemon and reclaim, an event each.
    WithRest,
}

/// The operations of a client, seen as their list.
#[derive(Debug, Drop)]
pub struct Script {
    ops: Vec<Op>,
}

impl Model for Script {
    ghost use Rattle.std.specs.Prelude.{List};
    ghost use Rattle.dn_model.specs.declared.op.Op.{Op};

    ghost Value = { List Op };

    ghost view = { λ t. t.ops.items };
}

impl Script {
    /// These operations.
    pub fn of(ops: Vec<Op>) -> Script
        ensures { result ≡ ops.items }
    {
        Script { ops }
    }

    /// The operations, in order.
    pub fn ops(&self) -> &[Op]
        ensures { result.now ≡ self.now }
    {
        &self.ops
    }
}

/// Clients from 1 to 14 with their scripts, by number, seen as their list.
#[derive(Debug, Drop)]
pub struct Scripts {
    scripts: Vec<(u32, Script)>,
}

impl Model for Scripts {
    ghost use Rattle.std.specs.Prelude.{List, ℕ};
    ghost use Rattle.dn_model.specs.declared.op.Op.{Op};

    ghost Value = { List (ℕ × List Op) };

    ghost view = { λ t. t.scripts.items };
}

impl Scripts {
    /// These scripts.
    pub fn of(scripts: Vec<(u32, Script)>) -> Scripts
        ensures { result ≡ scripts.items }
    {
        Scripts { scripts }
    }

    /// The scripts, in order.
    pub fn scripts(&self) -> &[(u32, Script)]
        ensures { result.now ≡ self.now }
    {
        &self.scripts
    }
}
