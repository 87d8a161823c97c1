// The journal of an image is read, and rolled back in a copy.
ghost use Rattle.std.specs.Prelude.{◌≡◌, ◌+◌, ◌*◌, ◌<◌, ◌≤◌, ◌↔◌, length, slice_index, IsTrue, IfOk};
ghost use Rattle.pm_layout.specs.Geometry.{gate_word};
ghost use Rattle.dn_model.specs.Rolled.{rolled, pair_address, pair_value, IsGate};
ghost use Rattle.dn_model.specs.Faults.{HasGate};
ghost use Rattle.name_journal.specs.Pairs.{ArePairs};

use name_journal::change::{Change, MOST_CHANGES, are_changes};
use pm_layout::{GATE_WORD, Geometry, PAIRS_WORD};
use std::alloc::{AllocError, Global};

// The word of the gate, as a place in an image.
const GATE: usize = GATE_WORD as usize;

// The first word of the pairs, as a place in an image.
const PAIRS: usize = PAIRS_WORD as usize;

// Pair i of the journal, whatever the gate says.
fn pair(image: &[u64], i: usize) -> Change
    requires page { 1024 ≤ length image.now }
    requires few { i < 4 }
    ensures at { result.at ≡ pair_address image.now i }
    ensures value { result.value ≡ pair_value image.now i }
{
    Change {
        at: image[PAIRS + 2 * i],
        value: image[PAIRS + 1 + 2 * i],
    }
}

// All that the journal has room for, whatever the gate says.
fn read_pairs(image: &[u64]) -> [Change; 4]
    requires page { 1024 ≤ length image.now }
    ensures { ArePairs image.now result }
{
    [
        pair(image, 0),
        pair(image, 1),
        pair(image, 2),
        pair(image, 3),
    ]
}

/// Whether the journal is closed, or holds up to four pairs of different words, each the state, the head or the
/// tail of an inode of this geometry.
pub(crate) fn is_gate(image: &[u64], g: &Geometry) -> bool
    requires page { 1024 ≤ length image.now }
    ensures { IsTrue result ↔ IsGate g.now.inodes image.now }
{
    let gate = image[GATE];
    let pairs = read_pairs(image);
    gate <= MOST_CHANGES && are_changes(g, &pairs[..gate as usize])
}

/// Rolls the image back: the old values of its journal's pairs are put back, and the gate is closed.
pub fn roll(image: &mut [u64])
    requires { HasGate image.old }
    ensures { image.new ≡ rolled image.old }
{
    let open = image[GATE] as usize;
    let pairs = read_pairs(image);
    for i in 0..open {
        image[pairs[i].at as usize] = pairs[i].value;
    }
    image[GATE] = 0;
}

/// The image once more, rolled back.
pub fn rolled_copy(alloc: Global, image: &[u64]) -> Result<Vec<u64>, AllocError>
    requires { HasGate image.now }
    ensures rolled { IfOk result (λ words. words.items ≡ rolled image.now) }
    ensures size { IfOk result (λ words. length words.items ≡ length image.now) }
{
    let mut words = Vec::from_slice(alloc, image)?;
    roll(&mut words);
    Ok(words)
}
