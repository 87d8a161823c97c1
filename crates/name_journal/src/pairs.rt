// The pairs of the journal: each is the address of a word and its old value.
ghost use Rattle.std.specs.Prelude.{◌≡◌, ◌+◌, ◌*◌, ◌/◌, ◌<◌, ◌≤◌, ◌↔◌, ℕ, List, length, slice_index, IsTrue};
ghost use Rattle.pm_device.specs.Settled.{StoresOnly, KeepsFlushed, Anyone, FlushesAll};
ghost use Rattle.pm_device.specs.Reading.{IsReady};
ghost use Rattle.pm_layout.specs.Geometry.{gate_word};
ghost use Rattle.dn_model.specs.Rolled.{pair_address, pair_value, IsGate};
ghost use Rattle.name_journal.specs.Changes.{address, change_at, AreInside};
ghost use Rattle.name_journal.specs.Pairs.{ArePairs, HavePairs, PairsOf, IsInPairs};

use crate::change::{Change, are_changes};
use pm_device::Pm;
use pm_device::line::LINE_UNITS;
use pm_device::run::store_words;
use pm_layout::Geometry;

/// The word of the gate.
pub const GATE: u64 = 512;

// The first word of the pairs.
const PAIRS: u64 = 520;

/// The units of the device that `store_pairs` uses at most: one for each of eight words, and one for their line.
pub const PAIRS_UNITS: u64 = LINE_UNITS;

fn pair<D: Pm>(device: &D, i: u64) -> Change
    requires page { 1024 ≤ length (D.state device.now).now }
    requires few { i < 4 }
    ensures at { result.at ≡ pair_address (D.state device.now).now i }
    ensures value { result.value ≡ pair_value (D.state device.now).now i }
{
    Change {
        at: device.load(PAIRS + 2 * i),
        value: device.load(PAIRS + 1 + 2 * i),
    }
}

/// All that the journal has room for, whatever the gate says.
pub(crate) fn read_pairs<D: Pm>(device: &D) -> [Change; 4]
    requires page { 1024 ≤ length (D.state device.now).now }
    ensures { ArePairs (D.state device.now).now result }
{
    [
        pair(device, 0),
        pair(device, 1),
        pair(device, 2),
        pair(device, 3),
    ]
}

/// Whether the journal is closed, or holds up to four pairs of different words, each the state, the head or the
/// tail of an inode.
pub(crate) fn is_gate<D: Pm>(device: &D, g: &Geometry, pairs: &[Change]) -> bool
    requires page { 1024 ≤ length (D.state device.now).now }
    requires pairs { ArePairs (D.state device.now).now pairs.now }
    ensures { IsTrue result ↔ IsGate g.now.inodes (D.state device.now).now }
{
    let gate = device.load(GATE);
    gate <= 4 && are_changes(g, &pairs[..gate as usize])
}

// The words of the pairs that keep what these changes will replace.
fn pair_words<D: Pm>(device: &D, changes: &[Change]) -> [u64; 8]
    requires inside { AreInside changes.now (length (D.state device.now).now) }
    requires few { length changes.now ≤ 4 }
    ensures { HavePairs changes.now (D.state device.now).now (length changes.now) result }
{
    let mut words = [0; 8];
    for i in 0..changes.len() {
        words[2 * i] = changes[i].at;
        words[2 * i + 1] = device.load(changes[i].at);
    }
    words
}

/// Stores the address and the present value of each word that is to change, and flushes them.
pub(crate) fn store_pairs<D: Pm>(device: &mut D, who: u32, changes: &[Change])
    requires page { 1024 ≤ length (D.state device.old).now }
    requires inside { AreInside changes.now (length (D.state device.old).now) }
    requires some { 1 ≤ length changes.now }
    requires few { length changes.now ≤ 4 }
    requires room { PAIRS_UNITS ≤ (D.state device.old).spare }
    ensures only { StoresOnly (IsInPairs changes.now) (D.state device.old) (D.state device.new) }
    ensures ready { IsReady who (PairsOf changes.now (D.state device.old).now) (D.state device.new) }
    ensures keeps { KeepsFlushed Anyone (IsInPairs changes.now) (D.state device.old)
        (D.state device.new) }
    ensures flushes { FlushesAll who (D.state device.old) (D.state device.new) }
    ensures spare { (D.state device.old).spare ≤ (D.state device.new).spare + PAIRS_UNITS }
    ensures faults { (D.state device.old).faults ≤ (D.state device.new).faults }
{
    let words = pair_words(device, changes);
    store_words(device, who, PAIRS, &words[..2 * changes.len()]);
}
