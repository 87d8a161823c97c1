//! The direct slots of the table of fingerprints, one for each prefix of a fingerprint.
//!
//! A direct slot has a row where its page word isn't 0. A row is put in by filling the other words first and then
//! opening the slot by its page word, and taken out by one store of 0 to that word.
#![tactic(auto)]

ghost use Rattle.std.specs.Prelude.{◌≡◌, ◌+◌, ◌*◌, ◌<◌, ◌≤◌, length, OnOk, IsErr};
ghost use Rattle.pm_device.specs.State.{Rose};
ghost use Rattle.pm_device.specs.Settled.{IsSettled, LeavesOnly, StoresOnly, KeepsFlushed, Others, FlushesAll, SettlesAll};
ghost use Rattle.pm_device.specs.Commit.{IsDone, LeavesOneWord};
ghost use Rattle.pm_device.specs.Lines.{StoresRun};
ghost use Rattle.pm_layout.specs.Geometry.{IsAccepted, slot_word, directs};
ghost use Rattle.fingerprint.specs.Slot.{IsSlot, IsReadFrom, IsTheSlotOf};
ghost use Rattle.fact_slot.specs.Words.{words_of};
ghost use Rattle.fact_direct.specs.Filled.{words_but_page};

use fact_slot::slot::{FIELD_UNITS, STORE_UNITS};
use fact_slot::{Steps, read_slot, set_field, store_fields};
use fingerprint::FactSlot;
use pm_device::{Failed, Pm};
use pm_layout::{FACT_PAGE, Geometry};
use std::sync::ledger::Ledger;

/// The units of the device that `fill_direct` uses.
pub const FILL_UNITS: u64 = STORE_UNITS;

/// The units of the device that `open_direct` and `close_direct` use, each.
pub const GATE_UNITS: u64 = FIELD_UNITS;

/// What a direct slot holds. It is one step. The slot has no row where the page is 0.
pub fn read_direct<D: Pm, L: Ledger>(
    device: &D,
    g: &Geometry,
    slot: u64,
    steps: &mut Steps<L>,
) -> FactSlot
    requires accepted { IsAccepted g.now }
    requires size { length (D.state device.now).now ≡ 512 * g.now.pages }
    requires slot { slot < directs g.now }
    ensures read { IsReadFrom (words_of g.now (D.state device.now).now slot) result }
    ensures fits { IsSlot result }

    // Words that a slot spells give that slot back.
    ensures back { IsTheSlotOf (words_of g.now (D.state device.now).now slot) result }
    ensures one_step { steps.new ≡ steps.old + 1 }
{
    read_slot(device, g, slot, steps)
}

/// Stores the words of a row but its page word, and flushes them. They aren't fenced.
///
/// The next word is stored too: where other rows are chained behind the slot, the row has to lead to them.
pub fn fill_direct<D: Pm>(device: &mut D, g: &Geometry, who: u32, slot: u64, row: &FactSlot)
    requires accepted { IsAccepted g.now }
    requires size { length (D.state device.old).now ≡ 512 * g.now.pages }
    requires slot { slot < directs g.now }
    requires room { FILL_UNITS ≤ (D.state device.old).spare }
    ensures stores { StoresRun who (slot_word g.now slot 1) (words_but_page row.now)
        (D.state device.old) (D.state device.new) }
    ensures flushes { FlushesAll who (D.state device.old) (D.state device.new) }
    ensures spare { (D.state device.old).spare ≤ (D.state device.new).spare + FILL_UNITS }
    ensures faults { (D.state device.old).faults ≤ (D.state device.new).faults }
{
    store_fields(device, g, who, slot, 1, &row.words()[1..]);
}

/// Opens a filled slot by its page word: from then on it has a row. The page word is stored, flushed and fenced. The fill
/// and the page's pointer are fenced before.
///
/// Where the page word is settled before, at each moment on the way a crash leaves it old or new.
///
/// # Errors
/// `Failed` where the fence failed. Then the page word is stored, and a crash may leave either.
pub fn open_direct<D: Pm>(
    device: &mut D,
    g: &Geometry,
    who: u32,
    slot: u64,
    page: u64,
) -> Result<(), Failed>
    requires accepted { IsAccepted g.now }
    requires size { length (D.state device.old).now ≡ 512 * g.now.pages }
    requires slot { slot < directs g.now }
    requires page { page < g.now.pages }
    requires room { GATE_UNITS ≤ (D.state device.old).spare }
    ensures any_moment { IsSettled (D.state device.old) (slot_word g.now slot 0)
        → LeavesOnly (D.state device.old) (D.state device.new)
        (LeavesOneWord (slot_word g.now slot 0) page (D.state device.old)) }
    ensures done { OnOk result (IsDone who (slot_word g.now slot 0) page (D.state device.old)
        (D.state device.new)) }
    ensures settles { OnOk result (SettlesAll who (D.state device.old) (D.state device.new)) }
    ensures only { StoresOnly (λ a. a ≡ slot_word g.now slot 0) (D.state device.old)
        (D.state device.new) }
    ensures others { KeepsFlushed (Others who) (λ a. a ≡ slot_word g.now slot 0)
        (D.state device.old) (D.state device.new) }
    ensures spare { (D.state device.old).spare ≤ (D.state device.new).spare + GATE_UNITS }
    ensures faults { (D.state device.old).faults ≤ (D.state device.new).faults }
    ensures failed { IsErr result → Rose (D.state device.old).faults (D.state device.new).faults }
{
    set_field(device, g, who, slot, FACT_PAGE, page)
}

/// Closes a slot by a page word of 0: from then on it has no row. The word is stored, flushed and fenced. The next word
/// stays, and so do the rows that are chained behind the slot.
///
/// Where the page word is settled before, at each moment on the way a crash leaves it old, or leaves it 0.
///
/// # Errors
/// `Failed` where the fence failed. Then the page word is stored, and a crash may leave either.
pub fn close_direct<D: Pm>(device: &mut D, g: &Geometry, who: u32, slot: u64) -> Result<(), Failed>
    requires accepted { IsAccepted g.now }
    requires size { length (D.state device.old).now ≡ 512 * g.now.pages }
    requires slot { slot < directs g.now }
    requires room { GATE_UNITS ≤ (D.state device.old).spare }
    ensures any_moment { IsSettled (D.state device.old) (slot_word g.now slot 0)
        → LeavesOnly (D.state device.old) (D.state device.new)
        (LeavesOneWord (slot_word g.now slot 0) 0 (D.state device.old)) }
    ensures done { OnOk result (IsDone who (slot_word g.now slot 0) 0 (D.state device.old)
        (D.state device.new)) }
    ensures settles { OnOk result (SettlesAll who (D.state device.old) (D.state device.new)) }
    ensures only { StoresOnly (λ a. a ≡ slot_word g.now slot 0) (D.state device.old)
        (D.state device.new) }
    ensures others { KeepsFlushed (Others who) (λ a. a ≡ slot_word g.now slot 0)
        (D.state device.old) (D.state device.new) }
    ensures spare { (D.state device.old).spare ≤ (D.state device.new).spare + GATE_UNITS }
    ensures faults { (D.state device.old).faults ≤ (D.state device.new).faults }
    ensures failed { IsErr result → Rose (D.state device.old).faults (D.state device.new).faults }
{
    set_field(device, g, who, slot, FACT_PAGE, 0)
}
