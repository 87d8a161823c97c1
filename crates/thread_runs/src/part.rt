// What each thread does with its pass.
ghost use Rattle.std.specs.Prelude.{◌≡◌, ◌≤◌, ◌<◌, ◌+◌, ℕ, length, []};
ghost use Rattle.pm_layout.specs.Geometry.{slots};
ghost use Rattle.count_board.specs.Boards.{base_of, IsPassOf};
ghost use Rattle.count_board.specs.Kept.{new_account};
ghost use Rattle.count_board.specs.Passes.{account, IsAway};
ghost use Rattle.thread_runs.specs.Parts.{IsBack, Ran, IsStart, IsRun, RisesTo};

use crate::client::run_client;
use crate::reading::Reading;
use crate::task::Task;
use count_board::Pass;
use dn_script::Lines;
use dn_shared::{CallFault, Gate, Shared, Site};
use fingerprint::Fingerprint;
use pm_device::Pm;
use std::alloc::Global;
use std::sync::Wait;

// The part of a pass: the lines of a client up to the last number, behind which are the daemon and
// reclaim.
fn run_part<R: Wait, D: Pm, F: Fingerprint, G: Gate>(
    alloc: Global,
    rt: &R,
    shared: &Shared<D, F>,
    pass: &mut Pass<Site<D, F>>,
    clients: &[(u32, Lines)],
    last: u32,
    readings: &mut Vec<Reading>,
    gate: &G,
) -> Result<(), CallFault>
    requires own { IsPassOf shared.now.board pass.old }
    requires away { IsAway pass.old }
    requires some { 1 ≤ (account pass.old).number }
    requires few { (last ≤ 14) × (last ≡ length (base_of shared.now.board).gone.items) }
    requires rises { RisesTo last 0 clients.now }
    requires new { account pass.old ≡ new_account (account pass.old).number }
    requires none { readings.old.items ≡ [] }
    ensures back { IsBack shared.now.board pass.old pass.new }
    ensures ran { Ran (slots (base_of shared.now.board).volume.parts.geometry) last clients.now
        (account pass.old).number (account pass.new) readings.new.items result }
{
    let number = pass.number();
    if number <= last {
        run_client(alloc, rt, shared, pass, clients, readings, gate)
    } else if number == last + 1 {
        shared.daemon_loop(alloc, rt, pass, gate)
    } else {
        shared.reclaim_loop(alloc, rt, pass, gate)
    }
}

/// Runs a task in the thread that calls this.
pub(crate) fn run_task<R: Wait, D: Pm, F: Fingerprint, G: Gate>(
    alloc: Global,
    rt: &R,
    shared: &Shared<D, F>,
    clients: &[(u32, Lines)],
    last: u32,
    gate: &G,
    task: &mut Task<D, F>,
)
    requires few { (last ≤ 14) × (last ≡ length (base_of shared.now.board).gone.items) }
    requires rises { RisesTo last 0 clients.now }
    requires start { (k : ℕ) × (1 ≤ k) × IsStart shared.now.board (last + 2) k task.old }
    ensures { (k : ℕ) → IsStart shared.now.board (last + 2) k task.old
        → IsRun shared.now.board (slots (base_of shared.now.board).volume.parts.geometry) last
        clients.now k task.new }
{
    task.result = run_part(
        alloc,
        rt,
        shared,
        &mut task.pass,
        clients,
        last,
        &mut task.readings,
        gate,
    );
}
