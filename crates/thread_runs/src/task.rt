// The work of each thread.
ghost use Rattle.std.specs.Prelude.{◌≡◌, ◌≤◌, ◌-◌, [], vec_len, vec_capacity};
ghost use Rattle.count_board.specs.declared.board.Board.{Board};
ghost use Rattle.count_board.specs.Boards.{AreNewPasses};
ghost use Rattle.thread_runs.specs.Parts.{Each, IsStart};

use crate::reading::Reading;
use count_board::{Board, Pass};
use dn_shared::{CallFault, Site};
use fingerprint::Fingerprint;
use pm_device::Pm;
use std::alloc::Global;

/// A pass, and what its thread read and answered.
#[derive(Drop)]
pub(crate) struct Task<D: Pm, F: Fingerprint> {
    pub(crate) pass: Pass<Site<D, F>>,
    pub(crate) readings: Vec<Reading>,
    pub(crate) result: Result<(), CallFault>,
}

/// A task for each pass, the last number first, so that clients go first where one thread has to do
/// the work of others. Also the place that the passes had.
pub(crate) fn make_tasks<D: Pm, F: Fingerprint>(
    alloc: Global,
    board: &Board<Site<D, F>>,
    mut passes: Vec<Pass<Site<D, F>>>,
    mut tasks: Vec<Task<D, F>>,
    count: u32,
) -> (Vec<Task<D, F>>, Vec<Pass<Site<D, F>>>)
    requires passes { AreNewPasses board.now count passes.items }
    requires place { (tasks.items ≡ []) × (count ≤ vec_capacity tasks) }
    ensures many { vec_len result.0 ≡ count }
    ensures tasks { Each (λ i t. IsStart board.now count (count - i) t) result.0.items }
    ensures place { (result.1.items ≡ []) × (count ≤ vec_capacity result.1) }
{
    while let Some(pass) = passes.pop() {
        tasks.push_reserved(Task {
            pass,
            readings: Vec::new(alloc),
            result: Ok(()),
        });
    }
    (tasks, passes)
}
