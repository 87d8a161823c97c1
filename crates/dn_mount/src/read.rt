// An image is read for a mount, after its journal was rolled back.
ghost use Rattle.std.specs.Prelude.{◌≡◌, ◌*◌, length, IfOk, IfErr};
ghost use Rattle.pm_layout.specs.Geometry.{IsAccepted};
ghost use Rattle.image_logs.specs.Logs.{AreRead};
ghost use Rattle.image_keep.specs.Keeping.{AreKeptTo};
ghost use Rattle.dn_check.specs.Passing.{HasGoodInodes, IsHalt, IsWhole, IsFaultOfEach};
ghost use Rattle.dn_mount.specs.Reading.{IsReadWhole, HasFreeOfEach};

use dn_check::judge::free_or_fault;
use dn_check::read::{Halt, ImageRead, read_rest};
use dn_model::ImageFault;
use image_head::inode_fault;
use image_keep::keep::{Kept, keep_logs};
use image_logs::LogsRead;
use pm_device::Pm;
use pm_layout::Geometry;
use std::alloc::Global;

/// What is read of an image without a fault, and what a volume keeps of it.
#[derive(Debug, Drop)]
pub struct WholeRead {
    /// What its logs and its table say.
    pub image: ImageRead,
    /// What is kept of its inodes.
    pub kept: Kept,
}

// The logs of all inodes, and what is kept of them, where none has a fault.
fn kept_logs<D: Pm>(alloc: Global, device: &D, g: &Geometry) -> Result<(LogsRead, Kept), Halt>
    requires accepted { IsAccepted g.now }
    requires size { length (D.state device.now).now ≡ 512 * g.now.pages }
    requires inodes { HasGoodInodes g.now (D.state device.now).now }
    ensures read { IfOk result (λ both. AreRead g.now (D.state device.now).now both.0) }
    ensures kept { IfOk result
        (λ both. AreKeptTo g.now (D.state device.now).now g.now.inodes both.1) }
    ensures halt { IfErr result (IsHalt g.now (D.state device.now).now) }
{
    let logs = keep_logs(alloc, device, g)?;
    Ok(logs)
}

// The last three rules are asked of what was read.
fn judge_read(g: &Geometry, image: ImageRead, kept: Kept) -> Result<WholeRead, ImageFault>
    requires accepted { IsAccepted g.now }
    requires whole { IsWhole g.now image }
    ensures image { IfOk result (λ read. read.image ≡ image) }
    ensures kept { IfOk result (λ read. read.kept ≡ kept) }
    ensures free { IfOk result (λ _. HasFreeOfEach g.now image) }
    ensures fault { IfErr result (IsFaultOfEach g.now image) }
{
    match free_or_fault(g, &image) {
        Ok(_) => Ok(WholeRead { image, kept }),
        Err(fault) => Err(fault),
    }
}

/// Reads an image whose journal was rolled back, by the rules of its inodes and all after them. Each log is read once.
///
/// # Errors
/// `Fault` where the image has a fault by these rules, and which is the first. `NoMemory` where memory runs out.
pub fn read_rolled<D: Pm>(alloc: Global, device: &D, g: &Geometry) -> Result<WholeRead, Halt>
    requires accepted { IsAccepted g.now }
    requires size { length (D.state device.now).now ≡ 512 * g.now.pages }
    ensures read { IfOk result (IsReadWhole g.now (D.state device.now).now) }
    ensures halt { IfErr result (IsHalt g.now (D.state device.now).now) }
{
    if let Some(ino) = inode_fault(device, g) {
        return Err(Halt::Fault(ImageFault::BadInode { ino }));
    }
    let (logs, kept) = kept_logs(alloc, device, g)?;
    let image = read_rest(alloc, device, g, logs)?;
    match judge_read(g, image, kept) {
        Ok(read) => Ok(read),
        Err(fault) => Err(Halt::Fault(fault)),
    }
}
