// A file system without files is made.
ghost use Rattle.std.specs.Prelude.{◌≡◌, ◌≢◌, ◌⊎◌, ◌+◌, ◌*◌, ◌<◌, ◌≤◌, ◌↔◌, ℕ, List, length, slice_index, OnOk, IsErr, Err};
ghost use Rattle.pm_device.specs.State.{IsSame, Rose};
ghost use Rattle.pm_device.specs.Settled.{Still, LeavesOnly};
ghost use Rattle.pm_layout.specs.Geometry.{IsAccepted, first_data};
ghost use Rattle.dn_model.specs.Empty.{IsFormatting, IsFormatted};

use crate::tables::make_parts;
use dn_model::RECLAIM;
use pm_device::commit::commit;
use pm_device::page::PAGE_UNITS;
use pm_device::{Failed, Pm};
use pm_layout::{Geometry, MAGIC, MAGIC_WORD, PAGE_WORDS};
use thiserror::Error;

/// Why no file system was made, or not for sure.
#[derive(Clone, Copy, Debug, PartialEq, Eq, Error)]
pub enum FormatFault {
    /// The device has so many words, which aren't those of the geometry's pages.
    #[error("the device has {words} words")]
    WrongSize { words: u64 },
    #[error("the device failed")]
    Failed,
    #[error("memory is wanting")]
    NoMemory,
}

// Clears the magic, makes all other words, and stores the magic; before each of these, what comes before it is fenced.
fn make_image<D: Pm>(device: &mut D, g: &Geometry) -> Result<(), Failed>
    requires accepted { IsAccepted g.now }
    requires size { length (D.state device.old).now ≡ 512 * g.now.pages }
    requires room { PAGE_UNITS * first_data g.now ≤ (D.state device.old).spare }
    requires still { Still (D.state device.old) }
    ensures any_moment { LeavesOnly (D.state device.old) (D.state device.new)
        (IsFormatting g.now (D.state device.old).now) }
    ensures done { OnOk result (IsFormatted g.now (D.state device.old).now (D.state device.new)) }
    ensures faults { (D.state device.old).faults ≤ (D.state device.new).faults }
    ensures failed { IsErr result → Rose (D.state device.old).faults (D.state device.new).faults }
{
    commit(device, RECLAIM, MAGIC_WORD, 0)?;
    make_parts(device, g);
    commit(device, RECLAIM, MAGIC_WORD, MAGIC)
}

/// Makes a file system without files, in which all pages of the data area are free. The words that are read of one
/// are stored, and all others stay.
///
/// The magic is cleared and fenced first, and is stored last, after a fence: so a stop at any moment leaves the words as
/// they were, or what is no image, or the new file system.
///
/// # Errors
/// - `WrongSize` exactly where the device hasn't 512 words for each page. Nothing was stored.
/// - `NoMemory` where the device had no room. Nothing was stored.
/// - `Failed` where one of the device's fences failed.
pub fn format<D: Pm>(device: &mut D, g: Geometry) -> Result<(), FormatFault>
    requires accepted { IsAccepted g }
    requires still { Still (D.state device.old) }
    ensures any_moment { LeavesOnly (D.state device.old) (D.state device.new)
        (IsFormatting g (D.state device.old).now) }
    ensures done { OnOk result (IsFormatted g (D.state device.old).now (D.state device.new)) }
    ensures wrong_size { (n : ℕ) → (result ≡ Err (FormatFault.WrongSize n)) ↔
        ((length (D.state device.old).now ≢ 512 * g.pages) × (n ≡ length (D.state device.old).now)) }
    ensures wrong_size_stores_nothing { (n : ℕ) → result ≡ Err (FormatFault.WrongSize n)
        → IsSame (D.state device.old) (D.state device.new) }
    ensures no_memory_stores_nothing { result ≡ Err FormatFault.NoMemory
        → IsSame (D.state device.old) (D.state device.new) }
    ensures failed { result ≡ Err FormatFault.Failed → Rose (D.state device.old).faults
        (D.state device.new).faults }
    ensures faults { (D.state device.old).faults ≤ (D.state device.new).faults }
{
    let words = device.words();
    if words != PAGE_WORDS * g.pages {
        return Err(FormatFault::WrongSize { words });
    }
    if device.ready(PAGE_UNITS * g.first_data()).is_err() {
        return Err(FormatFault::NoMemory);
    }
    match make_image(device, &g) {
        Ok(()) => Ok(()),
        Err(Failed) => Err(FormatFault::Failed),
    }
}
