// Calls are made, one after another.
ghost use Rattle.std.specs.Prelude.{◌≡◌, ◌+◌, ◌*◌, ◌≤◌, length, OnOk, IsErr};
ghost use Rattle.pm_device.specs.State.{Rose};
ghost use Rattle.pm_device.specs.Settled.{StoresOnly, KeepsFlushed, Others, FlushesAll};
ghost use Rattle.law_table.specs.Words.{IsTableWord};
ghost use Rattle.fact_calls.specs.Made.{CanCall, CanCallAll, LeavesCall, MakesCall, LeavesAll, LeavesEach, MakesAll};

use crate::call::TableCall;
use fact_changes::stale::STALE_UNITS;
use fact_changes::{clear_stale, insert, remove_zero};
use fact_counts::{raise, recount, settle_down, settle_up};
use fact_table::Fact;
use pm_device::{Failed, Pm};

/// The units of the device that a call uses, for each page of the image.
pub const CALL_UNITS: u64 = STALE_UNITS;

/// Makes one call. What it stores is fenced, and so is all that this actor had flushed before; only a call that has
/// nothing to clear fences nothing.
///
/// Where the table is settled before, at each moment a crash leaves the rows of before or those of after.
///
/// # Errors
/// `Failed` where a fence failed. A crash may leave either; the table that is kept in memory isn't used again.
pub fn make<D: Pm>(
    fact: &mut Fact,
    device: &mut D,
    who: u32,
    call: &TableCall,
) -> Result<(), Failed>
    requires can { CanCall (D.state device.old).now fact.old call.now }
    requires room { CALL_UNITS * fact.old.geometry.pages ≤ (D.state device.old).spare }
    ensures images { LeavesCall fact.old call.now (D.state device.old) (D.state device.new) }
    ensures done { OnOk result (MakesCall fact.old fact.new call.now (D.state device.old)
        (D.state device.new)) }
    ensures flushes { OnOk result (FlushesAll who (D.state device.old) (D.state device.new)) }
    ensures only { StoresOnly (IsTableWord fact.old.geometry) (D.state device.old)
        (D.state device.new) }
    ensures others { KeepsFlushed (Others who) (IsTableWord fact.old.geometry)
        (D.state device.old) (D.state device.new) }
    ensures spare { (D.state device.old).spare ≤ (D.state device.new).spare + CALL_UNITS
        * fact.old.geometry.pages }
    ensures faults { (D.state device.old).faults ≤ (D.state device.new).faults }
    ensures failed { IsErr result → Rose (D.state device.old).faults (D.state device.new).faults }
{
    match call {
        TableCall::Insert { print, page } => {
            insert(fact, device, who, print, *page)?;
            Ok(())
        }
        TableCall::Raise { slot } => raise(fact, device, who, *slot),
        TableCall::SettleUp { slot } => settle_up(fact, device, who, *slot),
        TableCall::SettleDown { slot } => settle_down(fact, device, who, *slot),
        TableCall::Recount { slot, rfc } => recount(fact, device, who, *slot, *rfc),
        TableCall::RemoveZero { slot } => remove_zero(fact, device, who, *slot),
        TableCall::ClearStale => clear_stale(fact, device, who),
    }
}

/// Makes these calls, one after another, up to the first that fails.
///
/// Where the table is settled before, each call that was made has a moment, in order: at each moment a crash leaves the
/// rows after the calls that were made by then, or after one more.
///
/// # Errors
/// `Failed` where a fence failed. The calls after that one weren't made.
pub fn make_all<D: Pm>(
    fact: &mut Fact,
    device: &mut D,
    who: u32,
    calls: &[TableCall],
) -> Result<(), Failed>
    requires can { CanCallAll (D.state device.old).now fact.old calls.now }
    requires room { CALL_UNITS * fact.old.geometry.pages * length calls.now ≤
        (D.state device.old).spare }
    ensures images { LeavesAll fact.old calls.now (D.state device.old) (D.state device.new) }
    ensures each { OnOk result (LeavesEach fact.old calls.now (D.state device.old)
        (D.state device.new)) }
    ensures done { OnOk result (MakesAll fact.old fact.new calls.now (D.state device.old)
        (D.state device.new)) }
    ensures flushes { OnOk result (FlushesAll who (D.state device.old) (D.state device.new)) }
    ensures only { StoresOnly (IsTableWord fact.old.geometry) (D.state device.old)
        (D.state device.new) }
    ensures others { KeepsFlushed (Others who) (IsTableWord fact.old.geometry)
        (D.state device.old) (D.state device.new) }
    ensures spare { (D.state device.old).spare ≤ (D.state device.new).spare + CALL_UNITS
        * fact.old.geometry.pages * length calls.now }
    ensures faults { (D.state device.old).faults ≤ (D.state device.new).faults }
    ensures failed { IsErr result → Rose (D.state device.old).faults (D.state device.new).faults }
{
    for i in 0..calls.len() {
        make(fact, device, who, &calls[i])?;
    }
    Ok(())
}
