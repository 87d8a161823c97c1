// The pages of a write, cut into runs, and the slots of their items.
ghost use Rattle.std.specs.Prelude.{◌≡◌, ◌↔◌, ◌+◌, ◌<◌, ◌≤◌, ℕ, length, IsTrue, IfOk, All};
ghost use Rattle.log_entry.specs.Spelling.{IsSpelled, spelled};
ghost use Rattle.law_write.specs.Runs.{run_items};
ghost use Rattle.file_content.specs.Runs.{all_seen};
ghost use Rattle.file_content.specs.Slots.{IsRunAt, IsCutInto};

use crate::NoMemory;
use log_entry::{Flag, LogItem, write_item};
use std::alloc::Global;

/// Places of a file that follow each other, on pages that follow each other. A Write item of the file's log tells one.
#[derive(Clone, Copy, Debug, PartialEq, Eq)]
pub struct Run {
    /// The first place of the file.
    pub first: u64,
    /// How many places.
    pub count: u64,
    /// The page of the image that holds the first; the others follow it.
    pub block: u64,
}

// Whether a page is the one behind another.
fn is_next(page: u64, next: u64) -> bool
    ensures { IsTrue result ↔ (next ≡ page + 1) }
{
    next != 0 && next - 1 == page
}

// How many of the pages, from this place on, have consecutive numbers.
fn run_length(pages: &[u64], from: usize) -> usize
    requires { from < length pages.now }
    ensures { IsRunAt pages.now from result }
{
    for at in from + 1..pages.len() {
        if !is_next(pages[at - 1], pages[at]) {
            return at - from;
        }
    }
    pages.len() - from
}

/// The runs that map the places of a file from `first` on to these 1 to 17 pages, one after another: each as long as
/// can be.
///
/// # Errors
/// `NoMemory` where memory is wanting.
pub fn cut_into_runs(alloc: Global, first: u64, pages: &[u64]) -> Result<Vec<Run>, NoMemory>
    requires some { 1 ≤ length pages.now }
    requires few { length pages.now ≤ 17 }
    requires in_file { first + length pages.now ≤ 4096 }
    ensures { IfOk result (λ runs. IsCutInto first pages.now (all_seen runs.items)) }
{
    let mut runs = Vec::new(alloc);
    let mut from = 0;
    while from < pages.len() {
        let count = run_length(pages, from);
        runs.push(Run {
            first: first + from as u64,
            count: count as u64,
            block: pages[from],
        })?;
        from += count;
    }
    Ok(runs)
}

/// The slots of the items that tell these runs in a file that then has this size, in bytes: one Write for each run,
/// still to be compared by the daemon. They are what is appended to the file's log.
///
/// # Errors
/// `NoMemory` where memory is wanting.
pub fn run_slots(alloc: Global, runs: &[Run], size: u64) -> Result<Vec<[u64; 8]>, NoMemory>
    requires { All IsSpelled (run_items (all_seen runs.now) size) }
    ensures { IfOk result (λ slots. spelled (run_items (all_seen runs.now) size) ≡ slots.items) }
{
    let mut slots = Vec::new(alloc);
    for run in runs {
        let item = LogItem::Write {
            first: run.first,
            count: run.count,
            block: run.block,
            size,
            flag: Flag::Needed,
            mask: 0,
        };
        write_item(&item, &mut slots)?;
    }
    Ok(slots)
}
