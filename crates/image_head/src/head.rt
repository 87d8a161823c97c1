// The superblock, and the first fault of an image's head.
ghost use Rattle.std.specs.Prelude.{◌≡◌, ◌*◌, ◌<◌, ◌≤◌, ◌↔◌, length, slice_index, IsTrue, IsNone, IfSome};
ghost use Rattle.pm_layout.specs.Geometry.{IsAccepted};
ghost use Rattle.dn_model.specs.Faults.{IsImage, HasGate, FaultOf, geometry_of};
ghost use Rattle.image_head.specs.Heads.{IsSized};

use crate::journal::is_gate;
use dn_model::ImageFault;
use pm_layout::{
    FEWEST_PAGES, Geometry, INODES_WORD, MAGIC, MAGIC_WORD, PAGE_WORDS, PAGES_WORD, VERSION,
    VERSION_WORD,
};

// Whether there are enough words, and the magic comes first.
fn is_image(image: &[u64]) -> bool
    ensures { IsTrue result ↔ IsImage image.now }
{
    image.len() as u64 >= PAGE_WORDS * FEWEST_PAGES && image[MAGIC_WORD as usize] == MAGIC
}

// The geometry by words 2 and 3, if it is one and the image has just its pages.
fn sized_geometry(image: &[u64]) -> Option<Geometry>
    requires { 4 ≤ length image.now }
    ensures some { IfSome result (λ g. (g ≡ geometry_of image.now) × IsSized image.now) }
    ensures none { IsNone result → IsSized image.now → ⊥ }
{
    match Geometry::of(image[PAGES_WORD as usize], image[INODES_WORD as usize]) {
        Ok(g) if image.len() as u64 == PAGE_WORDS * g.pages => Some(g),
        _ => None,
    }
}

/// The first fault of an image by its head and its journal, whatever its words are.
///
/// In this order: fewer than 32,768 words, or another word than the magic comes first; the version isn't 1; words 2
/// and 3 make no geometry, or the image hasn't as many words as its pages; and the journal's gate is above 4, or one
/// of its pairs' addresses isn't the state, the head or the tail of an inode, or two pairs have one address.
pub fn head_fault(image: &[u64]) -> Option<ImageFault>
    ensures some { IfSome result (λ fault. FaultOf image.now fault) }
    ensures none { IsNone result → HasGate image.now }
{
    if !is_image(image) {
        return Some(ImageFault::NotAnImage);
    }
    let found = image[VERSION_WORD as usize];
    if found != VERSION {
        return Some(ImageFault::WrongVersion { found });
    }
    let Some(g) = sized_geometry(image) else {
        return Some(ImageFault::BadGeometry);
    };
    if !is_gate(image, &g) {
        return Some(ImageFault::BadJournal);
    }
    None
}

/// The geometry of an image whose head and journal are without fault.
pub fn geometry_of(image: &[u64]) -> Geometry
    requires { HasGate image.now }
    ensures value { result ≡ geometry_of image.now }
    ensures accepted { IsAccepted result }
    ensures size { length image.now ≡ 512 * result.pages }
{
    Geometry {
        pages: image[PAGES_WORD as usize],
        inodes: image[INODES_WORD as usize],
    }
}
