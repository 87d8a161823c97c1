// The check of an image.
ghost use Rattle.std.specs.Prelude.{◌≡◌, ◌*◌, length, IfOk};
ghost use Rattle.pm_layout.specs.Geometry.{IsAccepted};
ghost use Rattle.dn_check.specs.Finding.{Tells};
ghost use Rattle.dn_check.specs.Passing.{HasGoodInodes, TellsEach};

use crate::finding::Finding;
use crate::judge::judge;
use crate::read::{Halt, read_image};
use dn_model::ImageFault;
use image_head::{geometry_of, head_fault, inode_fault, roll};
use pm_device::Pm;
use pm_layout::Geometry;
use pm_snapshot::SnapshotPm;
use std::alloc::{AllocError, Global};

// What is found of an image with these words once it is rolled back, whose inodes have no fault.
fn check_device<D: Pm>(alloc: Global, device: &D, g: &Geometry) -> Result<Finding, AllocError>
    requires accepted { IsAccepted g.now }
    requires size { length (D.state device.now).now ≡ 512 * g.now.pages }
    requires inodes { HasGoodInodes g.now (D.state device.now).now }
    ensures { IfOk result (TellsEach g.now (D.state device.now).now) }
{
    match read_image(alloc, device, g) {
        Ok(read) => Ok(judge(g, read)),
        Err(Halt::Fault(fault)) => Ok(Finding::Fault(fault)),
        Err(Halt::NoMemory) => Err(AllocError),
    }
}

// What is found of an image with these words once it is rolled back.
fn check_rolled(alloc: Global, words: Vec<u64>, g: &Geometry) -> Result<Finding, AllocError>
    requires accepted { IsAccepted g.now }
    requires size { length words.items ≡ 512 * g.now.pages }
    ensures { IfOk result (TellsEach g.now words.items) }
{
    let device = SnapshotPm::of_words(words);
    if let Some(ino) = inode_fault(&device, g) {
        return Ok(Finding::Fault(ImageFault::BadInode { ino }));
    }
    check_device(alloc, &device, g)
}

/// Checks an image of which these are the words: the first fault by the twelve rules, or the numbers of the state that
/// it stands for. The words may be any. It takes the words, and makes no copy of them.
///
/// # Errors
/// `AllocError` where memory runs out.
pub fn check_words(alloc: Global, words: Vec<u64>) -> Result<Finding, AllocError>
    ensures { IfOk result (Tells words.items) }
{
    if let Some(fault) = head_fault(&words) {
        return Ok(Finding::Fault(fault));
    }
    let g = geometry_of(&words);
    let mut words = words;
    roll(&mut words);
    check_rolled(alloc, words, &g)
}

/// Checks an image: the first fault by the twelve rules, whatever its words are, or the numbers of the state that it
/// stands for. All is read of a copy in which the journal is rolled back; the image isn't changed.
///
/// # Errors
/// `AllocError` where memory runs out.
pub fn check(alloc: Global, image: &[u64]) -> Result<Finding, AllocError>
    ensures { IfOk result (Tells image.now) }
{
    let words = Vec::from_slice(alloc, image)?;
    check_words(alloc, words)
}
