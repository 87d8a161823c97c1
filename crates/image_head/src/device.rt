// The geometry of a device, by the head of its words.
ghost use Rattle.std.specs.Prelude.{◌≡◌, ◌*◌, ◌<◌, ◌≤◌, ◌↔◌, length, IsTrue, IsNone, IfSome, IfOk, IfErr};
ghost use Rattle.dn_model.specs.Faults.{IsImage, HasGeometry, FaultOf, geometry_of};
ghost use Rattle.image_head.specs.Heads.{IsSized, IsHeadFault};

use dn_model::ImageFault;
use pm_device::Pm;
use pm_layout::{
    FEWEST_PAGES, Geometry, INODES_WORD, MAGIC, MAGIC_WORD, PAGE_WORDS, PAGES_WORD, VERSION,
    VERSION_WORD,
};

// Whether there are enough words, and the magic comes first.
fn is_image<D: Pm>(device: &D) -> bool
    ensures { IsTrue result ↔ IsImage (D.state device.now).now }
{
    device.words() >= PAGE_WORDS * FEWEST_PAGES && device.load(MAGIC_WORD) == MAGIC
}

// The geometry by words 2 and 3, if it is one and the device has just its pages.
fn sized_geometry<D: Pm>(device: &D) -> Option<Geometry>
    requires { 4 ≤ length (D.state device.now).now }
    ensures some { IfSome result
        (λ g. (g ≡ geometry_of (D.state device.now).now) × IsSized (D.state device.now).now) }
    ensures none { IsNone result → IsSized (D.state device.now).now → ⊥ }
{
    match Geometry::of(device.load(PAGES_WORD), device.load(INODES_WORD)) {
        Ok(g) if device.words() == PAGE_WORDS * g.pages => Some(g),
        _ => None,
    }
}

/// The geometry of a device, before its journal is asked.
///
/// # Errors
/// `NotAnImage` where it has fewer than 32,768 words, or word 0 isn't the magic; `WrongVersion` where word 1 isn't 1;
/// `BadGeometry` where words 2 and 3 make no geometry, or it hasn't as many words as its pages.
pub fn device_geometry<D: Pm>(device: &D) -> Result<Geometry, ImageFault>
    ensures geometry { IfOk result (λ g. g ≡ geometry_of (D.state device.now).now) }
    ensures head { IfOk result (λ _. HasGeometry (D.state device.now).now) }
    ensures fault { IfErr result (λ fault. FaultOf (D.state device.now).now fault) }
    ensures of_head { IfErr result IsHeadFault }
{
    if !is_image(device) {
        return Err(ImageFault::NotAnImage);
    }
    let found = device.load(VERSION_WORD);
    if found != VERSION {
        return Err(ImageFault::WrongVersion { found });
    }
    match sized_geometry(device) {
        Some(g) => Ok(g),
        None => Err(ImageFault::BadGeometry),
    }
}
