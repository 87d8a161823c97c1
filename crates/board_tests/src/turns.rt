//! Turns with the value, by two threads.
ghost use Rattle.std.specs.Prelude.{◌≡◌, ◌<◌, ◌≤◌, IfOk, vec_capacity, ◌∷◌, []};
ghost use Rattle.std.specs.Thread.{IsSync};
ghost use Rattle.count_board.specs.Passes.{account};
ghost use Rattle.count_board.specs.Boards.{slots_of, AreNewPasses, AreItsPasses};
ghost use Rattle.count_board.specs.Reads.{counts_of};
ghost use Rattle.board_tests.specs.Kinds.{IsEven};
ghost use Rattle.board_tests.specs.Trial.{IsAwayOf, IsAgain, AddsCalls, MayWork, Does};
ghost use Rattle.board_tests.specs.Trial.{IsFirst, IsSecond, StandsIn};
ghost use Rattle.count_board.specs.Kept.{new_account};

use crate::tally::Tally;
use count_board::{Board, CountChange, Pass};
use std::alloc::{AllocError, Global};
use std::sync::Wait;
use std::thread::{Threads, join};

/// One turn, with one event where there is memory for it. It answers how many entries were made.
pub fn bump<R: Wait>(rt: &R, board: &Board<Tally>, pass: &mut Pass<Tally>, slot: u64) -> u64
    requires away { IsAwayOf board.now pass.old }
    requires inside { slot < slots_of board.now }
    ensures again { IsAgain board.now pass.old pass.new }
    ensures calls { AddsCalls result (account pass.old) (account pass.new) }
    ensures one { result ≤ 1 }
    ensures counts { counts_of (account pass.new).seen ≡ counts_of (account pass.old).seen }
{
    let mut value = board.take_turn(rt, pass);
    let change = CountChange { slot, word: 7 };
    if value.add(pass.number(), change) {
        board.give_turn(pass, value, &[change]);
        1
    } else {
        board.give_turn(pass, value, &[]);
        0
    }
}

/// What a thread did with its pass.
#[derive(Drop)]
pub struct Worked {
    pub pass: Pass<Tally>,
    /// How many entries it made.
    pub made: u64,
    /// The words that it read of slot 1, in order.
    pub words: Vec<u64>,
}

/// So many turns, each followed by a read of the front and of a count word, where there is memory
/// for the words.
pub fn work<R: Wait>(
    rt: &R,
    alloc: Global,
    board: &Board<Tally>,
    mut pass: Pass<Tally>,
    turns: u32,
) -> Worked
    requires { MayWork board.now pass }
    ensures again { IsAgain board.now pass result.pass }
    ensures done { Does pass result.made result.words.items result.pass }
{
    let mut words = Vec::new(alloc);
    let mut made = 0;
    for _ in 0..turns {
        if words.reserve(1).is_err() {
            break;
        }
        made += bump(rt, board, &mut pass, 1);
        board.read_front(&mut pass);
        let count = board.read_count(&mut pass, 1);
        words.push_reserved(count.word());
    }
    Worked { pass, made, words }
}

// The two passes of a new board, and the place for them.
pub(crate) fn parted(
    board: &Board<Tally>,
    mut passes: Vec<Pass<Tally>>,
) -> (Pass<Tally>, Pass<Tally>, Vec<Pass<Tally>>)
    requires { AreNewPasses board.now 2 passes.items }
    ensures first { IsFirst board.now result.0 }
    ensures second { IsSecond board.now result.1 }
    ensures fresh { (account result.0 ≡ new_account 1) × (account result.1 ≡ new_account 2) }
    ensures place { (result.2.items ≡ []) × (2 ≤ vec_capacity result.2) }
{
    let second = passes.remove(1);
    let first = passes.remove(0);
    (first, second, passes)
}

// Both passes, the second one first.
pub(crate) fn together(
    board: &Board<Tally>,
    first: Pass<Tally>,
    second: Pass<Tally>,
    mut passes: Vec<Pass<Tally>>,
) -> Vec<Pass<Tally>>
    requires first { IsFirst board.now first }
    requires second { IsSecond board.now second }
    requires place { (passes.items ≡ []) × (2 ≤ vec_capacity passes) }
    ensures all { AreItsPasses board.now result.items }
    ensures items { result.items ≡ second ∷ first ∷ [] }
{
    passes.push_reserved(second);
    passes.push_reserved(first);
    passes
}

/// The value that two threads took turns with, and what each of them did.
#[derive(Drop)]
pub struct Both {
    pub value: Tally,
    pub first_made: u64,
    pub first_words: Vec<u64>,
    pub second_made: u64,
    pub second_words: Vec<u64>,
}

/// Two threads take so many turns each; then the value comes back. It has just the entries that
/// they made, and what they read fits its changes.
///
/// # Errors
/// `AllocError` where memory for the board is wanting.
pub fn count_both<R: Threads + Wait + Sync>(
    rt: &R,
    alloc: Global,
    turns: u32,
) -> Result<Both, AllocError>
    ensures value { IfOk result (λ b. IsEven b.value) }
    ensures first { IfOk result (λ b. StandsIn 1 b.first_made b.first_words.items b.value) }
    ensures second { IfOk result (λ b. StandsIn 2 b.second_made b.second_words.items b.value) }
{
    let value = Tally {
        entries: Vec::new(alloc),
        changes: Vec::new(alloc),
        made: 0,
    };
    let (board, passes) = match Board::new(alloc, value, &[0, 0], 2) {
        Ok(made) => made,
        Err((error, _)) => return Err(error),
    };
    let board_ref = &board;
    let (first, second, place) = parted(board_ref, passes);
    let (a, b) = join(
        rt,
        || -> Worked
            requires { IsSync R.row × MayWork board_ref.now first }
            ensures again { IsAgain board_ref.entry.now first result.pass }
            ensures done { Does first result.made result.words.items result.pass }
        { work(rt, alloc, board_ref, first, turns) },
        || -> Worked
            requires { IsSync R.row × MayWork board_ref.now second }
            ensures again { IsAgain board_ref.entry.now second result.pass }
            ensures done { Does second result.made result.words.items result.pass }
        { work(rt, alloc, board_ref, second, turns) },
    );
    let passes = together(board_ref, a.pass, b.pass, place);
    let value = board.close(passes);
    Ok(Both {
        value,
        first_made: a.made,
        first_words: a.words,
        second_made: b.made,
        second_words: b.words,
    })
}
