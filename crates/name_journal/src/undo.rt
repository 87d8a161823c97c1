// The old values are put back.
ghost use Rattle.std.specs.Prelude.{◌≡◌, ◌⊎◌, ◌+◌, ◌*◌, ◌<◌, ◌≤◌, ◌↔◌, ℕ, List, length, slice_index, OnOk, IsErr, Err};
ghost use Rattle.pm_device.specs.State.{IsSame, Rose};
ghost use Rattle.pm_device.specs.Settled.{IsSettled, Still, LeavesOnly, StoresOnly, KeepsFlushed, Others, FlushesAll, SettlesAll};
ghost use Rattle.pm_device.specs.Commit.{IsCommitted, IsDone};
ghost use Rattle.pm_layout.specs.Geometry.{IsAccepted, gate_word};
ghost use Rattle.dn_model.specs.Rolled.{rolled, IsGate, IsJournaled};
ghost use Rattle.name_journal.specs.Changes.{AreInside};
ghost use Rattle.name_journal.specs.Pairs.{AreOpen, IsRolledAt, HasGateOf, SettlesOpen};

use crate::change::{Change, MOST_CHANGES};
use crate::pairs::{GATE, is_gate, read_pairs};
use crate::values::{VALUE_UNITS, store_values};
use pm_device::commit::{COMMIT_UNITS, commit};
use pm_device::{Failed, Pm};
use pm_layout::Geometry;
use thiserror::Error;

/// The units of the device that `roll_back` uses at most: four values, and a commit of the gate.
pub const ROLL_BACK_UNITS: u64 = MOST_CHANGES * VALUE_UNITS + COMMIT_UNITS;

/// Why the old values weren't put back, or not for sure.
#[derive(Clone, Copy, Debug, PartialEq, Eq, Error)]
pub enum RollFault {
    /// The gate is above 4, or one of its pairs' addresses isn't the state, the head or the tail of an inode, or two
    /// pairs have one address.
    #[error("the journal is bad")]
    BadJournal,
    #[error("the device failed")]
    Failed,
}

// Puts the values of these pairs, which are the open journal's, back and closes the gate.
fn put_back<D: Pm>(device: &mut D, who: u32, pairs: &[Change]) -> Result<(), Failed>
    requires page { 1024 ≤ length (D.state device.old).now }
    requires pairs { AreOpen (D.state device.old).now pairs.now }
    requires inside { AreInside pairs.now (length (D.state device.old).now) }
    requires room { ROLL_BACK_UNITS ≤ (D.state device.old).spare }
    ensures rolled { OnOk result ((D.state device.new).now ≡ rolled (D.state device.old).now) }
    ensures any_moment { Still (D.state device.old) → LeavesOnly (D.state device.old)
        (D.state device.new) (λ c. rolled c ≡ rolled (D.state device.old).now) }
    ensures gates { Still (D.state device.old) → LeavesOnly (D.state device.old)
        (D.state device.new) (HasGateOf (D.state device.old).now) }
    ensures still { OnOk result (Still (D.state device.old) → Still (D.state device.new)) }
    ensures settles { OnOk result (SettlesAll who (D.state device.old) (D.state device.new)) }
    ensures only { StoresOnly (IsRolledAt pairs.now) (D.state device.old) (D.state device.new) }
    ensures others { KeepsFlushed (Others who) (IsRolledAt pairs.now) (D.state device.old)
        (D.state device.new) }
    ensures spare { (D.state device.old).spare ≤ (D.state device.new).spare + ROLL_BACK_UNITS }
    ensures faults { (D.state device.old).faults ≤ (D.state device.new).faults }
    ensures failed { IsErr result → Rose (D.state device.old).faults (D.state device.new).faults }
{
    store_values(device, who, pairs);
    commit(device, who, GATE, 0)
}

/// Puts the old values of an open journal back and closes its gate. Where the gate is closed, it stores nothing.
///
/// A stop at any moment leaves what rolls to the same words, so that it may be made again. It takes no memory. Where the
/// gate was open, in the end all that it stored and all that this actor had flushed is settled.
///
/// # Errors
/// - `BadJournal` exactly where the gate is above 4, or one of its pairs' addresses isn't the state, the head or the
///   tail of an inode, or two pairs have one address. Then nothing was stored.
/// - `Failed` where one of the device's two fences failed. The device is to be opened anew.
pub fn roll_back<D: Pm>(device: &mut D, g: &Geometry, who: u32) -> Result<(), RollFault>
    requires accepted { IsAccepted g.now }
    requires size { length (D.state device.old).now ≡ 512 * g.now.pages }
    requires room { ROLL_BACK_UNITS ≤ (D.state device.old).spare }
    ensures rolled { OnOk result ((D.state device.new).now ≡ rolled (D.state device.old).now) }
    ensures any_moment { Still (D.state device.old) → LeavesOnly (D.state device.old)
        (D.state device.new) (λ c. rolled c ≡ rolled (D.state device.old).now) }
    ensures gates { Still (D.state device.old) → LeavesOnly (D.state device.old)
        (D.state device.new) (HasGateOf (D.state device.old).now) }
    ensures still { OnOk result (Still (D.state device.old) → Still (D.state device.new)) }
    ensures closed { slice_index (D.state device.old).now gate_word ≡ 0
        → IsSame (D.state device.old) (D.state device.new) }
    ensures bad { (result ≡ Err RollFault.BadJournal) ↔
        (IsGate g.now.inodes (D.state device.old).now → ⊥) }
    ensures bad_stores_nothing { result ≡ Err RollFault.BadJournal → IsSame (D.state device.old)
        (D.state device.new) }
    ensures failed { result ≡ Err RollFault.Failed → Rose (D.state device.old).faults
        (D.state device.new).faults }
    ensures settles { OnOk result (SettlesOpen who (D.state device.old) (D.state device.new)) }
    ensures flushes { OnOk result (FlushesAll who (D.state device.old) (D.state device.new)) }
    ensures only { StoresOnly (λ a. IsJournaled g.now.inodes a ⊎ (a ≡ gate_word))
        (D.state device.old) (D.state device.new) }
    ensures others { KeepsFlushed (Others who) (λ a. IsJournaled g.now.inodes a ⊎ (a ≡ gate_word))
        (D.state device.old) (D.state device.new) }
    ensures spare { (D.state device.old).spare ≤ (D.state device.new).spare + ROLL_BACK_UNITS }
    ensures faults { (D.state device.old).faults ≤ (D.state device.new).faults }
{
    let gate = device.load(GATE);
    if gate == 0 {
        return Ok(());
    }
    let pairs = read_pairs(device);
    if !is_gate(device, g, &pairs) {
        return Err(RollFault::BadJournal);
    }
    match put_back(device, who, &pairs[..gate as usize]) {
        Ok(()) => Ok(()),
        Err(Failed) => Err(RollFault::Failed),
    }
}
