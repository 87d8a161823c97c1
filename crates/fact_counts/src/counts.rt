// The counts of a row become others.
ghost use Rattle.std.specs.Prelude.{◌≡◌, ◌+◌, ◌^◌, ◌<◌, ◌≤◌, OnOk, IsErr};
ghost use Rattle.pm_device.specs.State.{Rose};
ghost use Rattle.pm_device.specs.Settled.{StoresOnly, KeepsFlushed, Others, SettlesAll};
ghost use Rattle.pm_layout.specs.Geometry.{slot_word};
ghost use Rattle.fact_counts.specs.Standing.{HasRowWith};
ghost use Rattle.fact_counts.specs.Counted.{raised, up, down, counted, MayRaise, MaySettleUp, MaySettleDown, AnyRow, CountsAre, MakesTable, SettlesTable, LeavesTables};

use fact_slot::slot::FIELD_UNITS;
use fact_slot::{load_field, set_field};
use fact_table::Fact;
use fingerprint::CountWord;
use pm_device::{Failed, Pm};
use pm_layout::FACT_COUNT;

/// The units of the device that each change of counts uses: those of one word of a slot.
pub const COUNT_UNITS: u64 = FIELD_UNITS;

// The counts of the row at a slot.
fn counts_at<D: Pm>(fact: &Fact, device: &D, slot: u64) -> CountWord
    requires row { HasRowWith (D.state device.now).now fact.now slot AnyRow }
    ensures counts { CountsAre (D.state device.now).now fact.now slot result }
{
    CountWord::of_word(load_field(device, &fact.geometry(), slot, FACT_COUNT))
}

// The row at a slot gets these counts.
fn set_counts<D: Pm>(
    fact: &Fact,
    device: &mut D,
    who: u32,
    slot: u64,
    counts: CountWord,
) -> Result<(), Failed>
    requires rfc { counts.rfc < 2 ^ 32 }
    requires uc { counts.uc < 2 ^ 32 }
    requires row { HasRowWith (D.state device.old).now fact.now slot AnyRow }
    requires room { COUNT_UNITS ≤ (D.state device.old).spare }
    ensures images { LeavesTables (λ row. counts) fact.now slot (D.state device.old)
        (D.state device.new) }
    ensures table { OnOk result (MakesTable (λ row. counts) fact.now slot (D.state device.old)
        (D.state device.new)) }
    ensures settled { OnOk result (SettlesTable (λ row. counts) fact.now slot (D.state device.old)
        (D.state device.new)) }
    ensures settles { OnOk result (SettlesAll who (D.state device.old) (D.state device.new)) }
    ensures only { StoresOnly (λ a. a ≡ slot_word fact.now.geometry slot 4) (D.state device.old)
        (D.state device.new) }
    ensures others { KeepsFlushed (Others who) (λ a. a ≡ slot_word fact.now.geometry slot 4)
        (D.state device.old) (D.state device.new) }
    ensures spare { (D.state device.old).spare ≤ (D.state device.new).spare + COUNT_UNITS }
    ensures faults { (D.state device.old).faults ≤ (D.state device.new).faults }
    ensures failed { IsErr result → Rose (D.state device.old).faults (D.state device.new).faults }
{
    set_field(
        device,
        &fact.geometry(),
        who,
        slot,
        FACT_COUNT,
        counts.word(),
    )
}

/// One update more of the row at a slot is under way.
///
/// One word of the table is stored, flushed and fenced, and so is all that this actor had flushed before. It uses
/// `COUNT_UNITS`. Where the table is settled before, at each moment a crash leaves the counts of before or those of
/// after.
///
/// # Errors
/// `Failed` where the fence failed. Then the new counts are stored, and a crash may leave either.
pub fn raise<D: Pm>(fact: &Fact, device: &mut D, who: u32, slot: u64) -> Result<(), Failed>
    requires row { HasRowWith (D.state device.old).now fact.now slot MayRaise }
    requires room { COUNT_UNITS ≤ (D.state device.old).spare }
    ensures images { LeavesTables raised fact.now slot (D.state device.old) (D.state device.new) }
    ensures table { OnOk result (MakesTable raised fact.now slot (D.state device.old)
        (D.state device.new)) }
    ensures settled { OnOk result (SettlesTable raised fact.now slot (D.state device.old)
        (D.state device.new)) }
    ensures settles { OnOk result (SettlesAll who (D.state device.old) (D.state device.new)) }
    ensures only { StoresOnly (λ a. a ≡ slot_word fact.now.geometry slot 4) (D.state device.old)
        (D.state device.new) }
    ensures others { KeepsFlushed (Others who) (λ a. a ≡ slot_word fact.now.geometry slot 4)
        (D.state device.old) (D.state device.new) }
    ensures spare { (D.state device.old).spare ≤ (D.state device.new).spare + COUNT_UNITS }
    ensures faults { (D.state device.old).faults ≤ (D.state device.new).faults }
    ensures failed { IsErr result → Rose (D.state device.old).faults (D.state device.new).faults }
{
    let counts = counts_at(fact, device, slot);
    set_counts(fact, device, who, slot, counts.raised())
}

/// An update of the row at a slot is made, which adds a reference to its page.
///
/// One word of the table is stored, flushed and fenced, and so is all that this actor had flushed before. It uses
/// `COUNT_UNITS`. Where the table is settled before, at each moment a crash leaves the counts of before or those of
/// after.
///
/// # Errors
/// `Failed` where the fence failed. Then the new counts are stored, and a crash may leave either.
pub fn settle_up<D: Pm>(fact: &Fact, device: &mut D, who: u32, slot: u64) -> Result<(), Failed>
    requires row { HasRowWith (D.state device.old).now fact.now slot MaySettleUp }
    requires room { COUNT_UNITS ≤ (D.state device.old).spare }
    ensures images { LeavesTables up fact.now slot (D.state device.old) (D.state device.new) }
    ensures table { OnOk result (MakesTable up fact.now slot (D.state device.old)
        (D.state device.new)) }
    ensures settled { OnOk result (SettlesTable up fact.now slot (D.state device.old)
        (D.state device.new)) }
    ensures settles { OnOk result (SettlesAll who (D.state device.old) (D.state device.new)) }
    ensures only { StoresOnly (λ a. a ≡ slot_word fact.now.geometry slot 4) (D.state device.old)
        (D.state device.new) }
    ensures others { KeepsFlushed (Others who) (λ a. a ≡ slot_word fact.now.geometry slot 4)
        (D.state device.old) (D.state device.new) }
    ensures spare { (D.state device.old).spare ≤ (D.state device.new).spare + COUNT_UNITS }
    ensures faults { (D.state device.old).faults ≤ (D.state device.new).faults }
    ensures failed { IsErr result → Rose (D.state device.old).faults (D.state device.new).faults }
{
    let counts = counts_at(fact, device, slot);
    set_counts(fact, device, who, slot, counts.up())
}

/// An update of the row at a slot is made, which takes a reference to its page away.
///
/// One word of the table is stored, flushed and fenced, and so is all that this actor had flushed before. It uses
/// `COUNT_UNITS`. Where the table is settled before, at each moment a crash leaves the counts of before or those of
/// after.
///
/// # Errors
/// `Failed` where the fence failed. Then the new counts are stored, and a crash may leave either.
pub fn settle_down<D: Pm>(fact: &Fact, device: &mut D, who: u32, slot: u64) -> Result<(), Failed>
    requires row { HasRowWith (D.state device.old).now fact.now slot MaySettleDown }
    requires room { COUNT_UNITS ≤ (D.state device.old).spare }
    ensures images { LeavesTables down fact.now slot (D.state device.old) (D.state device.new) }
    ensures table { OnOk result (MakesTable down fact.now slot (D.state device.old)
        (D.state device.new)) }
    ensures settled { OnOk result (SettlesTable down fact.now slot (D.state device.old)
        (D.state device.new)) }
    ensures settles { OnOk result (SettlesAll who (D.state device.old) (D.state device.new)) }
    ensures only { StoresOnly (λ a. a ≡ slot_word fact.now.geometry slot 4) (D.state device.old)
        (D.state device.new) }
    ensures others { KeepsFlushed (Others who) (λ a. a ≡ slot_word fact.now.geometry slot 4)
        (D.state device.old) (D.state device.new) }
    ensures spare { (D.state device.old).spare ≤ (D.state device.new).spare + COUNT_UNITS }
    ensures faults { (D.state device.old).faults ≤ (D.state device.new).faults }
    ensures failed { IsErr result → Rose (D.state device.old).faults (D.state device.new).faults }
{
    let counts = counts_at(fact, device, slot);
    set_counts(fact, device, who, slot, counts.down())
}

/// The row at a slot gets this count of references, and no update of it is under way.
///
/// One word of the table is stored, flushed and fenced, and so is all that this actor had flushed before. It uses
/// `COUNT_UNITS`. Where the table is settled before, at each moment a crash leaves the counts of before or those of
/// after.
///
/// # Errors
/// `Failed` where the fence failed. Then the new counts are stored, and a crash may leave either.
pub fn recount<D: Pm>(
    fact: &Fact,
    device: &mut D,
    who: u32,
    slot: u64,
    rfc: u32,
) -> Result<(), Failed>
    requires row { HasRowWith (D.state device.old).now fact.now slot AnyRow }
    requires room { COUNT_UNITS ≤ (D.state device.old).spare }
    ensures images { LeavesTables (counted rfc) fact.now slot (D.state device.old)
        (D.state device.new) }
    ensures table { OnOk result (MakesTable (counted rfc) fact.now slot (D.state device.old)
        (D.state device.new)) }
    ensures settled { OnOk result (SettlesTable (counted rfc) fact.now slot (D.state device.old)
        (D.state device.new)) }
    ensures settles { OnOk result (SettlesAll who (D.state device.old) (D.state device.new)) }
    ensures only { StoresOnly (λ a. a ≡ slot_word fact.now.geometry slot 4) (D.state device.old)
        (D.state device.new) }
    ensures others { KeepsFlushed (Others who) (λ a. a ≡ slot_word fact.now.geometry slot 4)
        (D.state device.old) (D.state device.new) }
    ensures spare { (D.state device.old).spare ≤ (D.state device.new).spare + COUNT_UNITS }
    ensures faults { (D.state device.old).faults ≤ (D.state device.new).faults }
    ensures failed { IsErr result → Rose (D.state device.old).faults (D.state device.new).faults }
{
    set_counts(fact, device, who, slot, CountWord { rfc, uc: 0 })
}
