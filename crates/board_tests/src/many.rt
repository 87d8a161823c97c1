//! Turns with the value, each pass in a thread of its own.
ghost use Rattle.std.specs.Prelude.{◌<◌, IfOk};
ghost use Rattle.std.specs.Thread.{IsSync};
ghost use Rattle.count_board.specs.Boards.{slots_of, AreItsPasses};
ghost use Rattle.board_tests.specs.Kinds.{IsEven};
ghost use Rattle.board_tests.specs.Trial.{IsAwayOf, IsAgain};

use crate::tally::Tally;
use crate::turns::bump;
use count_board::{Board, Pass};
use std::alloc::{AllocError, Global};
use std::sync::Wait;
use std::thread;
use std::thread::Threads;

/// One turn for each pass.
pub fn turn_for_each<R: Threads + Wait + Sync>(
    rt: &R,
    board: &Board<Tally>,
    passes: &mut [Pass<Tally>],
)
    requires inside { 1 < slots_of board.now }
    requires passes { AreItsPasses board.now passes.old }
    ensures { AreItsPasses board.now passes.new }
{
    thread::for_each_mut(
        rt,
        passes,
        16,
        &|_, pass: &mut Pass<Tally>|
            requires { IsSync R.row × (1 < slots_of board.now) × IsAwayOf board.now pass.now }
            ensures { IsAgain board.entry.now pass.entry.now pass.exit.now }
        {
            bump(rt, board, pass, 1);
        },
    );
}

/// A value with which sixteen passes took one turn each.
pub fn sixteen_turns<R: Threads + Wait + Sync>(rt: &R, alloc: Global) -> Result<Tally, AllocError>
    ensures { IfOk result IsEven }
{
    let value = Tally {
        entries: Vec::new(alloc),
        changes: Vec::new(alloc),
        made: 0,
    };
    let (board, mut passes) = match Board::new(alloc, value, &[0, 0], 16) {
        Ok(made) => made,
        Err((error, _)) => return Err(error),
    };
    turn_for_each(rt, &board, passes.as_mut_slice());
    Ok(board.close(passes))
}
