// The words of a device.
ghost use Rattle.std.specs.Prelude.{◌≡◌, take, IfOk};

use pm_device::Pm;
use std::alloc::{AllocError, Global};

/// A copy of the words of a device.
///
/// # Errors
/// `AllocError` where there is no memory for them.
pub fn words_of<D: Pm>(alloc: Global, device: &D) -> Result<Vec<u64>, AllocError>
    ensures { IfOk result (λ words. words.items ≡ (D.state device.now).now) }
{
    let length = device.words();
    let mut words = Vec::with_capacity(alloc, length as usize)?;
    for at in 0..length {
        words.push(device.load(at))?;
    }
    Ok(words)
}
