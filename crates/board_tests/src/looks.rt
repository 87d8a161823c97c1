//! A count word that one thread publishes and another sees, with no turn.
ghost use Rattle.std.specs.Prelude.{◌<◌};
ghost use Rattle.std.specs.Thread.{IsSync};
ghost use Rattle.count_board.specs.Boards.{slots_of};
ghost use Rattle.board_tests.specs.Trial.{IsAwayOf, IsAgain};

use crate::tally::Tally;
use crate::turns::{bump, parted, together};
use count_board::{Board, Pass};
use std::alloc::{AllocError, Global};
use std::sync::Wait;
use std::thread;
use std::thread::{Threads, join};

/// Looks at the word of slot 1 so many times at most, until it isn't 0.
pub fn look_for(board: &Board<Tally>, pass: &mut Pass<Tally>, looks: u32) -> bool
    requires away { IsAwayOf board.now pass.old }
    requires inside { 1 < slots_of board.now }
    ensures { IsAgain board.now pass.old pass.new }
{
    for _ in 0..looks {
        if board.read_count(pass, 1).word() != 0 {
            return true;
        }
        thread::yield_now();
    }
    false
}

/// A pass after its looks, and whether it saw a word other than 0.
#[derive(Drop)]
pub struct Looked {
    pub pass: Pass<Tally>,
    pub seen: bool,
}

/// Whether a thread sees, in so many looks, the word that another one publishes.
///
/// # Errors
/// `AllocError` where memory for the board is wanting.
pub fn is_seen<R: Threads + Wait + Sync>(
    rt: &R,
    alloc: Global,
    looks: u32,
) -> Result<bool, AllocError> {
    let value = Tally {
        entries: Vec::new(alloc),
        changes: Vec::new(alloc),
        made: 0,
    };
    let (board, passes) = match Board::new(alloc, value, &[0, 0], 2) {
        Ok(made) => made,
        Err((error, _)) => return Err(error),
    };
    let board_ref = &board;
    let (mut first, mut second, place) = parted(board_ref, passes);
    let (worked, looked) = join(
        rt,
        || -> Pass<Tally>
            requires { IsSync R.row × IsAwayOf board_ref.now first × (1 < slots_of board_ref.now) }
            ensures { IsAgain board_ref.entry.now first result }
        {
            bump(rt, board_ref, &mut first, 1);
            first
        },
        || -> Looked
            requires { IsAwayOf board_ref.now second × (1 < slots_of board_ref.now) }
            ensures { IsAgain board_ref.entry.now second result.pass }
        {
            let seen = look_for(board_ref, &mut second, looks);
            Looked { pass: second, seen }
        },
    );
    let passes = together(board_ref, worked, looked.pass, place);
    board.close(passes);
    Ok(looked.seen)
}
