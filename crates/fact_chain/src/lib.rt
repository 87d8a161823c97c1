//! The chains of the table of fingerprints: the rows of a prefix that don't stand in its direct slot.
//!
//! The next word of a slot is the number of the next slot of the chain, or 0. A row is put in by filling an indirect
//! slot that no chain reaches, with the direct slot's next word as its own, and then linking it directly after the
//! direct slot by that slot's next word. It is taken out by one store to the next word of the slot before it.
#![tactic(auto)]

ghost use Rattle.std.specs.Prelude.{◌≡◌, ◌+◌, ◌*◌, ◌<◌, ◌≤◌, length, slice_index, OnOk, IsErr};
ghost use Rattle.pm_device.specs.State.{Rose};
ghost use Rattle.pm_device.specs.Settled.{IsSettled, LeavesOnly, StoresOnly, KeepsFlushed, Others, FlushesAll, SettlesAll};
ghost use Rattle.pm_device.specs.Commit.{IsDone, LeavesOneWord};
ghost use Rattle.pm_device.specs.Lines.{StoresRun};
ghost use Rattle.pm_layout.specs.Geometry.{IsAccepted, slot_word, directs, slots};
ghost use Rattle.fingerprint.specs.Slot.{IsSlot, IsReadFrom, IsTheSlotOf, slot_words};
ghost use Rattle.fact_slot.specs.Words.{words_of};

use fact_slot::slot::{FIELD_UNITS, STORE_UNITS};
use fact_slot::{Steps, load_field, read_slot, set_field, store_fields};
use fingerprint::FactSlot;
use pm_device::{Failed, Pm};
use pm_layout::{FACT_NEXT, Geometry};
use std::sync::ledger::Ledger;

/// The units of the device that `fill_chain` uses.
pub const FILL_UNITS: u64 = STORE_UNITS;

/// The units of the device that `link` and `unlink` use, each.
pub const LINK_UNITS: u64 = FIELD_UNITS;

/// What an indirect slot holds. It is one step. The slot has a row where a chain reaches it.
pub fn read_chain<D: Pm, L: Ledger>(
    device: &D,
    g: &Geometry,
    slot: u64,
    steps: &mut Steps<L>,
) -> FactSlot
    requires accepted { IsAccepted g.now }
    requires size { length (D.state device.now).now ≡ 512 * g.now.pages }
    requires indirect { directs g.now ≤ slot }
    requires slot { slot < slots g.now }
    ensures read { IsReadFrom (words_of g.now (D.state device.now).now slot) result }
    ensures fits { IsSlot result }

    // Words that a slot spells give that slot back.
    ensures back { IsTheSlotOf (words_of g.now (D.state device.now).now slot) result }
    ensures one_step { steps.new ≡ steps.old + 1 }
{
    read_slot(device, g, slot, steps)
}

/// Stores the eight words of a row, and flushes them. They aren't fenced.
pub fn fill_chain<D: Pm>(device: &mut D, g: &Geometry, who: u32, slot: u64, row: &FactSlot)
    requires accepted { IsAccepted g.now }
    requires size { length (D.state device.old).now ≡ 512 * g.now.pages }
    requires indirect { directs g.now ≤ slot }
    requires slot { slot < slots g.now }
    requires room { FILL_UNITS ≤ (D.state device.old).spare }
    ensures stores { StoresRun who (slot_word g.now slot 0) (slot_words row.now)
        (D.state device.old) (D.state device.new) }
    ensures flushes { FlushesAll who (D.state device.old) (D.state device.new) }
    ensures spare { (D.state device.old).spare ≤ (D.state device.new).spare + FILL_UNITS }
    ensures faults { (D.state device.old).faults ≤ (D.state device.new).faults }
{
    store_fields(device, g, who, slot, 0, &row.words());
}

/// Puts a filled slot directly after the direct slot, by the direct slot's next word, which is stored, flushed and
/// fenced. The fill and the page's pointer are fenced before.
///
/// Where the next word is settled before, at each moment on the way a crash leaves it old or new.
///
/// # Errors
/// `Failed` where the fence failed. Then the next word is stored, and a crash may leave either.
pub fn link<D: Pm>(
    device: &mut D,
    g: &Geometry,
    who: u32,
    direct: u64,
    slot: u64,
) -> Result<(), Failed>
    requires accepted { IsAccepted g.now }
    requires size { length (D.state device.old).now ≡ 512 * g.now.pages }
    requires direct { direct < directs g.now }
    requires indirect { directs g.now ≤ slot }
    requires slot { slot < slots g.now }
    requires room { LINK_UNITS ≤ (D.state device.old).spare }
    ensures any_moment { IsSettled (D.state device.old) (slot_word g.now direct 5)
        → LeavesOnly (D.state device.old) (D.state device.new)
        (LeavesOneWord (slot_word g.now direct 5) slot (D.state device.old)) }
    ensures done { OnOk result (IsDone who (slot_word g.now direct 5) slot (D.state device.old)
        (D.state device.new)) }
    ensures settles { OnOk result (SettlesAll who (D.state device.old) (D.state device.new)) }
    ensures only { StoresOnly (λ a. a ≡ slot_word g.now direct 5) (D.state device.old)
        (D.state device.new) }
    ensures others { KeepsFlushed (Others who) (λ a. a ≡ slot_word g.now direct 5)
        (D.state device.old) (D.state device.new) }
    ensures spare { (D.state device.old).spare ≤ (D.state device.new).spare + LINK_UNITS }
    ensures faults { (D.state device.old).faults ≤ (D.state device.new).faults }
    ensures failed { IsErr result → Rose (D.state device.old).faults (D.state device.new).faults }
{
    set_field(device, g, who, direct, FACT_NEXT, slot)
}

/// Takes an indirect slot out of its chain: the next word of the slot before it becomes that of the slot itself, so
/// that the rest of the chain follows there. The word is stored, flushed and fenced.
///
/// Where the next word of the slot before it is settled before, at each moment on the way a crash leaves it old or new.
///
/// # Errors
/// `Failed` where the fence failed. Then the next word is stored, and a crash may leave either.
pub fn unlink<D: Pm>(
    device: &mut D,
    g: &Geometry,
    who: u32,
    before: u64,
    slot: u64,
) -> Result<(), Failed>
    requires accepted { IsAccepted g.now }
    requires size { length (D.state device.old).now ≡ 512 * g.now.pages }
    requires before { before < slots g.now }
    requires indirect { directs g.now ≤ slot }
    requires slot { slot < slots g.now }
    requires room { LINK_UNITS ≤ (D.state device.old).spare }
    ensures any_moment { IsSettled (D.state device.old) (slot_word g.now before 5)
        → LeavesOnly (D.state device.old) (D.state device.new)
        (LeavesOneWord (slot_word g.now before 5)
        (slice_index (D.state device.old).now (slot_word g.now slot 5)) (D.state device.old)) }
    ensures done { OnOk result
        (IsDone who (slot_word g.now before 5)
        (slice_index (D.state device.old).now (slot_word g.now slot 5)) (D.state device.old)
        (D.state device.new)) }
    ensures settles { OnOk result (SettlesAll who (D.state device.old) (D.state device.new)) }
    ensures only { StoresOnly (λ a. a ≡ slot_word g.now before 5) (D.state device.old)
        (D.state device.new) }
    ensures others { KeepsFlushed (Others who) (λ a. a ≡ slot_word g.now before 5)
        (D.state device.old) (D.state device.new) }
    ensures spare { (D.state device.old).spare ≤ (D.state device.new).spare + LINK_UNITS }
    ensures faults { (D.state device.old).faults ≤ (D.state device.new).faults }
    ensures failed { IsErr result → Rose (D.state device.old).faults (D.state device.new).faults }
{
    let next = load_field(device, g, slot, FACT_NEXT);
    set_field(device, g, who, before, FACT_NEXT, next)
}
