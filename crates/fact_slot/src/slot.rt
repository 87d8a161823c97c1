// The words of one slot.
ghost use Rattle.std.specs.Prelude.{◌≡◌, ◌+◌, ◌*◌, ◌<◌, ◌≤◌, ℕ, length, slice_index, OnOk, IsErr};
ghost use Rattle.pm_device.specs.State.{Rose};
ghost use Rattle.pm_device.specs.Settled.{IsSettled, LeavesOnly, StoresOnly, KeepsFlushed, Others, FlushesAll, SettlesAll};
ghost use Rattle.pm_device.specs.Commit.{IsDone, LeavesOneWord};
ghost use Rattle.pm_device.specs.Lines.{StoresRun};
ghost use Rattle.pm_layout.specs.Geometry.{IsAccepted, slot_word, slots};
ghost use Rattle.fingerprint.specs.Slot.{IsSlot, IsReadFrom, IsTheSlotOf};
ghost use Rattle.fact_slot.specs.Words.{words_of};

use crate::steps::Steps;
use fingerprint::FactSlot;
use pm_device::line::LINE_UNITS;
use pm_device::set::{SET_UNITS, set_word};
use pm_device::{Failed, Pm};
use pm_layout::Geometry;
use std::marker::Brand;
use std::sync::ledger::{Blank, Ledger};

/// The units of the device that `store_fields` uses at most: those of a line.
pub const STORE_UNITS: u64 = LINE_UNITS;

/// The units of the device that `set_field` uses: those of one word that is set.
pub const FIELD_UNITS: u64 = SET_UNITS;

/// One word of a slot: `field` is its place among the slot's eight words.
pub fn load_field<D: Pm>(device: &D, g: &Geometry, slot: u64, field: u64) -> u64
    requires accepted { IsAccepted g.now }
    requires size { length (D.state device.now).now ≡ 512 * g.now.pages }
    requires slot { slot < slots g.now }
    requires field { field < 8 }
    ensures { result ≡ slice_index (D.state device.now).now (slot_word g.now slot field) }
{
    device.load(g.slot_word(slot, field))
}

// The eight words of a slot.
fn load_words<D: Pm>(device: &D, g: &Geometry, slot: u64) -> [u64; 8]
    requires accepted { IsAccepted g.now }
    requires size { length (D.state device.now).now ≡ 512 * g.now.pages }
    requires slot { slot < slots g.now }
    ensures { result ≡ words_of g.now (D.state device.now).now slot }
{
    [
        load_field(device, g, slot, 0),
        load_field(device, g, slot, 1),
        load_field(device, g, slot, 2),
        load_field(device, g, slot, 3),
        load_field(device, g, slot, 4),
        load_field(device, g, slot, 5),
        load_field(device, g, slot, 6),
        load_field(device, g, slot, 7),
    ]
}

/// The slot that the eight words hold. It is one step.
///
/// Whether the slot has a row isn't told by it: a direct slot has one where its page isn't 0, another slot where a
/// chain reaches it.
pub fn read_slot<D: Pm, L: Ledger>(
    device: &D,
    g: &Geometry,
    slot: u64,
    steps: &mut Steps<L>,
) -> FactSlot
    requires accepted { IsAccepted g.now }
    requires size { length (D.state device.now).now ≡ 512 * g.now.pages }
    requires slot { slot < slots g.now }
    ensures read { IsReadFrom (words_of g.now (D.state device.now).now slot) result }
    ensures fits { IsSlot result }

    // Words that a slot spells give that slot back.
    ensures back { IsTheSlotOf (words_of g.now (D.state device.now).now slot) result }
    ensures one_step { steps.new ≡ steps.old + 1 }
{
    steps.tick();
    FactSlot::of_words(&load_words(device, g, slot))
}

// Reads a slot with a count of its own, over this ledger.
fn read_over<D: Pm, L: Ledger>(device: &D, g: &Geometry, slot: u64, blank: Blank) -> FactSlot
    requires name { blank.name ≡ L.name }
    requires parts { blank.parts ≡ L.parts }
    requires part { 0 < blank.parts }
    requires accepted { IsAccepted g.now }
    requires size { length (D.state device.now).now ≡ 512 * g.now.pages }
    requires slot { slot < slots g.now }
    ensures read { IsReadFrom (words_of g.now (D.state device.now).now slot) result }
    ensures fits { IsSlot result }
    ensures back { IsTheSlotOf (words_of g.now (D.state device.now).now slot) result }
{
    let mut steps = Steps::<L>::new(blank);
    read_slot(device, g, slot, &mut steps)
}

/// The slot that the eight words hold, for callers that don't count their steps.
pub fn peek_slot<D: Pm>(device: &D, g: &Geometry, slot: u64) -> FactSlot
    requires accepted { IsAccepted g.now }
    requires size { length (D.state device.now).now ≡ 512 * g.now.pages }
    requires slot { slot < slots g.now }
    ensures read { IsReadFrom (words_of g.now (D.state device.now).now slot) result }
    ensures fits { IsSlot result }

    // Words that a slot spells give that slot back.
    ensures back { IsTheSlotOf (words_of g.now (D.state device.now).now slot) result }
{
    read_over::<D, Brand>(device, g, slot, Blank::new(1))
}

/// Stores words of a slot from `field` on, and flushes the slot's line. They aren't fenced. It uses at most
/// `STORE_UNITS`.
pub fn store_fields<D: Pm>(
    device: &mut D,
    g: &Geometry,
    who: u32,
    slot: u64,
    field: u64,
    words: &[u64],
)
    requires accepted { IsAccepted g.now }
    requires size { length (D.state device.old).now ≡ 512 * g.now.pages }
    requires slot { slot < slots g.now }
    requires some { 1 ≤ length words.now }
    requires in_slot { field + length words.now ≤ 8 }
    requires room { STORE_UNITS ≤ (D.state device.old).spare }
    ensures stores { StoresRun who (slot_word g.now slot field) words.now (D.state device.old)
        (D.state device.new) }
    ensures flushes { FlushesAll who (D.state device.old) (D.state device.new) }
    ensures spare { (D.state device.old).spare ≤ (D.state device.new).spare + STORE_UNITS }
    ensures faults { (D.state device.old).faults ≤ (D.state device.new).faults }
{
    let at = g.slot_word(slot, field);
    device.store_run(at, words);
    device.flush(who, at / 8, 1);
}

/// Makes one word of a slot new: stores it, flushes its line and fences, and so with it all that this actor flushed
/// before. It uses `FIELD_UNITS`.
///
/// Where the word is settled before, at each moment on the way a crash leaves it old or new.
///
/// # Errors
/// `Failed` where the fence failed. Then the word is stored, and a crash may leave either.
pub fn set_field<D: Pm>(
    device: &mut D,
    g: &Geometry,
    who: u32,
    slot: u64,
    field: u64,
    value: u64,
) -> Result<(), Failed>
    requires accepted { IsAccepted g.now }
    requires size { length (D.state device.old).now ≡ 512 * g.now.pages }
    requires slot { slot < slots g.now }
    requires field { field < 8 }
    requires room { FIELD_UNITS ≤ (D.state device.old).spare }
    ensures any_moment { IsSettled (D.state device.old) (slot_word g.now slot field)
        → LeavesOnly (D.state device.old) (D.state device.new)
        (LeavesOneWord (slot_word g.now slot field) value (D.state device.old)) }
    ensures done { OnOk result (IsDone who (slot_word g.now slot field) value (D.state device.old)
        (D.state device.new)) }
    ensures settles { OnOk result (SettlesAll who (D.state device.old) (D.state device.new)) }
    ensures only { StoresOnly (λ a. a ≡ slot_word g.now slot field) (D.state device.old)
        (D.state device.new) }
    ensures others { KeepsFlushed (Others who) (λ a. a ≡ slot_word g.now slot field)
        (D.state device.old) (D.state device.new) }
    ensures spare { (D.state device.old).spare ≤ (D.state device.new).spare + FIELD_UNITS }
    ensures faults { (D.state device.old).faults ≤ (D.state device.new).faults }
    ensures failed { IsErr result → Rose (D.state device.old).faults (D.state device.new).faults }
{
    set_word(device, who, g.slot_word(slot, field), value)
}
