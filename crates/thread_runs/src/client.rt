// The lines of a client.
ghost use Rattle.std.specs.Prelude.{◌≡◌, ◌≤◌, ◌<◌, [], Some, None, IfOk, vec_len, vec_capacity};
ghost use Rattle.pm_layout.specs.Geometry.{slots};
ghost use Rattle.count_board.specs.declared.told.Hand.TheVariants.{Gone};
ghost use Rattle.count_board.specs.Boards.{base_of, IsPassOf};
ghost use Rattle.count_board.specs.Kept.{new_account};
ghost use Rattle.count_board.specs.Passes.{account, IsAway};
ghost use Rattle.dn_shared.specs.Calls.{IsClientPass};
ghost use Rattle.dn_shared.specs.Turns.{IsAgain};
ghost use Rattle.job_texts.specs.Plan.{ops_in};
ghost use Rattle.thread_runs.specs.Parts.{IsBack, Looks, RanOp, RanLook, RanLine, RanOps, ReadAll};
ghost use Rattle.thread_runs.specs.Parts.{AddsReadings, lines_by};

use crate::reading::Reading;
use count_board::Pass;
use dn_model::Op;
use dn_script::{Command, Line, Lines};
use dn_shared::{CallFault, Gate, Shared, Site};
use fingerprint::Fingerprint;
use pm_device::Pm;
use std::alloc::Global;
use std::sync::Wait;

// Reads the count of the slot that a line names.
fn look<D: Pm, F: Fingerprint>(
    shared: &Shared<D, F>,
    pass: &mut Pass<Site<D, F>>,
    line: u64,
    slot: u64,
) -> Reading
    requires own { IsPassOf shared.now.board pass.old }
    requires away { IsAway pass.old }
    ensures back { IsBack shared.now.board pass.old pass.new }
    ensures looks { Looks (slots (base_of shared.now.board).volume.parts.geometry) line slot
        (account pass.old) (account pass.new) result }
{
    if shared.slots() <= slot {
        return Reading {
            line,
            slot,
            count: None,
        };
    }
    let count = shared.read_count(pass, slot);
    Reading {
        line,
        slot,
        count: Some(count),
    }
}

// The same, and puts what was read to the readings.
fn run_look<D: Pm, F: Fingerprint>(
    shared: &Shared<D, F>,
    pass: &mut Pass<Site<D, F>>,
    number: u64,
    slot: u64,
    readings: &mut Vec<Reading>,
) -> Result<(), CallFault>
    requires own { IsPassOf shared.now.board pass.old }
    requires away { IsAway pass.old }
    requires free { (account pass.old).hand ≡ None }
    ensures back { IsBack shared.now.board pass.old pass.new }
    ensures ran { RanLook (slots (base_of shared.now.board).volume.parts.geometry) number slot
        (account pass.old) (account pass.new) readings.old.items readings.new.items result }
{
    if readings.reserve(1).is_err() {
        return Err(CallFault::NoMemory);
    }
    let reading = look(shared, pass, number, slot);
    readings.push_reserved(reading);
    Ok(())
}

// A copy of an operation is made.
fn run_op<R: Wait, D: Pm, F: Fingerprint, G: Gate>(
    alloc: Global,
    rt: &R,
    shared: &Shared<D, F>,
    pass: &mut Pass<Site<D, F>>,
    op: &Op,
    gate: &G,
) -> Result<(), CallFault>
    requires own { IsPassOf shared.now.board pass.old }
    requires away { IsAway pass.old }
    requires client { IsClientPass shared.now.board pass.old }
    requires free { (account pass.old).hand ≡ None }
    ensures again { IsAgain shared.now.board pass.old pass.new }
    ensures ran { RanOp op.now (account pass.old) (account pass.new) result }
{
    let Ok(copy) = op.copy(alloc) else {
        return Err(CallFault::NoMemory);
    };
    match shared.call(alloc, rt, pass, copy, gate) {
        Ok(_) => Ok(()),
        Err(fault) => Err(fault),
    }
}

// One line of a client: its operation, or its look at a count.
fn run_line<R: Wait, D: Pm, F: Fingerprint, G: Gate>(
    alloc: Global,
    rt: &R,
    shared: &Shared<D, F>,
    pass: &mut Pass<Site<D, F>>,
    line: &Line,
    readings: &mut Vec<Reading>,
    gate: &G,
) -> Result<(), CallFault>
    requires own { IsPassOf shared.now.board pass.old }
    requires away { IsAway pass.old }
    requires client { IsClientPass shared.now.board pass.old }
    requires free { (account pass.old).hand ≡ None }
    ensures back { IsBack shared.now.board pass.old pass.new }
    ensures ran { RanLine (slots (base_of shared.now.board).volume.parts.geometry) line.now
        (account pass.old) (account pass.new) readings.old.items readings.new.items result }
{
    match &line.command {
        Command::Do(op) => run_op(alloc, rt, shared, pass, op, gate),
        Command::Count { slot } => run_look(shared, pass, line.number, *slot, readings),
    }
}

// The lines of a client, in order.
fn run_lines<R: Wait, D: Pm, F: Fingerprint, G: Gate>(
    alloc: Global,
    rt: &R,
    shared: &Shared<D, F>,
    pass: &mut Pass<Site<D, F>>,
    lines: &[Line],
    readings: &mut Vec<Reading>,
    gate: &G,
) -> Result<(), CallFault>
    requires own { IsPassOf shared.now.board pass.old }
    requires away { IsAway pass.old }
    requires client { IsClientPass shared.now.board pass.old }
    requires new { account pass.old ≡ new_account (account pass.old).number }
    requires none { readings.old.items ≡ [] }
    ensures back { IsBack shared.now.board pass.old pass.new }
    ensures ops { RanOps (ops_in lines.now) None (account pass.new) result }
    ensures reads { ReadAll (slots (base_of shared.now.board).volume.parts.geometry) lines.now
        (account pass.new) readings.new.items result }
{
    for line in lines {
        run_line(alloc, rt, shared, pass, line, readings, gate)?;
    }
    Ok(())
}

// The lines of the client that has the pass's number, none where no client has it.
fn run_own<R: Wait, D: Pm, F: Fingerprint, G: Gate>(
    alloc: Global,
    rt: &R,
    shared: &Shared<D, F>,
    pass: &mut Pass<Site<D, F>>,
    clients: &[(u32, Lines)],
    readings: &mut Vec<Reading>,
    gate: &G,
) -> Result<(), CallFault>
    requires own { IsPassOf shared.now.board pass.old }
    requires away { IsAway pass.old }
    requires client { IsClientPass shared.now.board pass.old }
    requires new { account pass.old ≡ new_account (account pass.old).number }
    requires none { readings.old.items ≡ [] }
    ensures back { IsBack shared.now.board pass.old pass.new }
    ensures ops { RanOps (ops_in (lines_by (account pass.old).number clients.now)) None
        (account pass.new) result }
    ensures reads { ReadAll (slots (base_of shared.now.board).volume.parts.geometry)
        (lines_by (account pass.old).number clients.now) (account pass.new) readings.new.items
        result }
{
    let number = pass.number();
    for (who, lines) in clients {
        if *who == number {
            return run_lines(alloc, rt, shared, pass, lines.lines(), readings, gate);
        }
    }
    Ok(())
}

/// All of a client: its lines, and then it leaves, also where memory was wanting. Where the volume
/// stopped it stays, since an operation may be in flight.
pub(crate) fn run_client<R: Wait, D: Pm, F: Fingerprint, G: Gate>(
    alloc: Global,
    rt: &R,
    shared: &Shared<D, F>,
    pass: &mut Pass<Site<D, F>>,
    clients: &[(u32, Lines)],
    readings: &mut Vec<Reading>,
    gate: &G,
) -> Result<(), CallFault>
    requires own { IsPassOf shared.now.board pass.old }
    requires away { IsAway pass.old }
    requires client { IsClientPass shared.now.board pass.old }
    requires new { account pass.old ≡ new_account (account pass.old).number }
    requires none { readings.old.items ≡ [] }
    ensures back { IsBack shared.now.board pass.old pass.new }
    ensures ops { RanOps (ops_in (lines_by (account pass.old).number clients.now)) (Some Gone)
        (account pass.new) result }
    ensures reads { ReadAll (slots (base_of shared.now.board).volume.parts.geometry)
        (lines_by (account pass.old).number clients.now) (account pass.new) readings.new.items
        result }
{
    let result = run_own(alloc, rt, shared, pass, clients, readings, gate);
    match result {
        Err(CallFault::Stopped) => {}
        _ => shared.leave(rt, pass),
    }
    result
}
