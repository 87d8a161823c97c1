// What the threads leave is put together.
ghost use Rattle.std.specs.Prelude.{◌≡◌, ◌≤◌, ◌+◌, [], true, length, Ok, vec_len, vec_capacity};
ghost use Rattle.thread_runs.specs.Reading.{Pairs};
ghost use Rattle.thread_runs.specs.Parts.{RisesTo, IsReadIn, ArePassesOf, NoneFails, noted_in};
ghost use Rattle.thread_runs.specs.Parts.{IsNumbered, Each};

use crate::reading::{Reading, Readings};
use crate::task::Task;
use count_board::Pass;
use dn_script::Lines;
use dn_shared::{CallFault, Site};
use fingerprint::Fingerprint;
use pm_device::Pm;

/// The passes, what the clients read, and whether no thread had a fault.
pub(crate) struct Gathered<D: Pm, F: Fingerprint> {
    pub(crate) passes: Vec<Pass<Site<D, F>>>,
    pub(crate) readings: Vec<Readings>,
    pub(crate) whole: bool,
}

// Puts what a number read to the readings, where it is the client that follows.
fn note(clients: &[(u32, Lines)], readings: &mut Vec<Readings>, who: u32, own: Vec<Reading>)
    requires place { length clients.now ≤ vec_capacity readings.old }
    ensures noted { readings.new.items ≡ noted_in clients.now readings.old.items who own }
    ensures place { vec_capacity readings.new ≡ vec_capacity readings.old }
{
    let next = readings.len();
    if next < clients.len() && clients[next].0 == who {
        readings.push_reserved(Readings { who, readings: own });
    }
}

// Whether there was no fault so far, and there is none here.
fn still_whole(whole: bool, answer: Result<(), CallFault>) -> bool
    ensures { result ≡ true → (whole ≡ true) × (answer ≡ Ok tt) }
{
    match answer {
        Ok(()) => whole,
        Err(_) => false,
    }
}

/// Takes the tasks apart, from that of number 1 on.
pub(crate) fn gather<D: Pm, F: Fingerprint>(
    clients: &[(u32, Lines)],
    last: u32,
    mut tasks: Vec<Task<D, F>>,
    mut passes: Vec<Pass<Site<D, F>>>,
    mut readings: Vec<Readings>,
) -> Gathered<D, F>
    requires rises { RisesTo last 0 clients.now }
    requires many { vec_len tasks ≡ last + 2 }
    requires numbers { Each (IsNumbered (last + 2)) tasks.items }
    requires place { (passes.items ≡ []) × (last + 2 ≤ vec_capacity passes) }
    requires room { (readings.items ≡ []) × (length clients.now ≤ vec_capacity readings) }
    ensures many { vec_len result.passes ≡ last + 2 }
    ensures passes { ArePassesOf (last + 2) tasks.items result.passes.items }
    ensures whole { result.whole ≡ true → NoneFails 0 tasks.items }
    ensures readings { Pairs (IsReadIn (last + 2) tasks.items) clients.now
        result.readings.items }
{
    let mut whole = true;
    while let Some(task) = tasks.pop() {
        let Task {
            pass,
            readings: own,
            result,
        } = task;
        whole = still_whole(whole, result);
        note(clients, &mut readings, pass.number(), own);
        passes.push_reserved(pass);
    }
    Gathered {
        passes,
        readings,
        whole,
    }
}
