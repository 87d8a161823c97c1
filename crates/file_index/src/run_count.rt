// How many runs of places of one item the cells of a page map have.
ghost use Rattle.std.specs.Prelude.{◌≡◌, ℕ, None, ◌+◌, ◌/◌, ◌<◌, ◌≤◌, ◌==◌, if◌then◌else◌, length};
ghost use Rattle.file_index.specs.Radix.{cells, look};
ghost use Rattle.file_index.specs.Runs.{run_begins, before_of, begins_at, begins_near, runs_below};

use crate::node::{Node, PLACES, read_cell};
use crate::page_map::Mapping;

// 1 for two places by different items.
fn begins_anew(last: u64, this: u64) -> u64
    ensures is { result ≡ (if last == this then 0 else 1) }
    ensures few { result ≤ 1 }
{
    if last == this { 0 } else { 1 }
}

// 1 for a place that leads here, where the place before it leads to no mapping by the same item.
fn run_begins(here: Option<Mapping>, before: Option<Mapping>) -> u64
    ensures is { result ≡ run_begins here before }
    ensures few { result ≤ 1 }
{
    match here {
        None => 0,
        Some(this) => match before {
            None => 1,
            Some(last) => begins_anew(last.slot, this.slot),
        },
    }
}

// What the cell before that of a place holds.
fn cell_before(nodes: &[Node], place: usize) -> Option<Mapping>
    ensures { result ≡ before_of (look (cells nodes.now)) place }
{
    if place == 0 {
        None
    } else {
        read_cell(nodes, place - 1)
    }
}

// 1 for a place at which a run begins.
fn begins_at(nodes: &[Node], place: usize) -> u64
    ensures is { result ≡ begins_at (look (cells nodes.now)) place }
    ensures few { result ≤ 1 }
{
    run_begins(read_cell(nodes, place), cell_before(nodes, place))
}

// How many runs begin at a place or at the next.
pub(crate) fn begins_near(nodes: &[Node], place: usize) -> u64
    requires { place < 4096 }
    ensures is { result ≡ begins_near (look (cells nodes.now)) place }
    ensures few { result ≤ 2 }
{
    begins_at(nodes, place) + begins_at(nodes, place + 1)
}

// The next place, or the first of the next node where the place's node has no cells.
fn next_place(nodes: &[Node], place: usize) -> usize
    requires in_root { place / 64 < length nodes.now }
    requires few { length nodes.now ≤ 64 }
    ensures more { place < result }
    ensures none { (k : ℕ) → place < k → k < result → look (cells nodes.now) k ≡ None }
{
    if nodes[place / PLACES].is_empty() {
        (place / PLACES + 1) * PLACES
    } else {
        place + 1
    }
}

// How many runs begin at this place or after it. Nodes without cells are passed at once.
pub(crate) fn count_runs(nodes: &[Node], from: usize) -> u64
    requires { length nodes.now ≤ 64 }
    ensures { result + runs_below (look (cells nodes.now)) from
        ≡ runs_below (look (cells nodes.now)) 4096 }
{
    let end = nodes.len() * PLACES;
    let mut runs = 0;
    let mut place = from;
    while place < end {
        runs += begins_at(nodes, place);
        place = next_place(nodes, place);
    }
    runs
}
