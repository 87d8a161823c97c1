// The bytes of a page of a file are read.
ghost use Rattle.std.specs.Prelude.{◌≡◌, ◌↔◌, ◌+◌, ◌*◌, ◌<◌, ◌≤◌, ℕ, length, IfSome};
ghost use Rattle.pm_device.specs.Reading.{Stands};
ghost use Rattle.pm_layout.specs.Geometry.{IsAccepted};
ghost use Rattle.page_bytes.specs.Bytes.{page_byte};
ghost use Rattle.dn_model.specs.Disk.{Disk, DiskSays};
ghost use Rattle.dn_model.specs.Files.{bytes};
ghost use Rattle.dn_model.specs.Valid.{IsValid};
ghost use Rattle.dn_model.specs.Own.{file_page};
ghost use Rattle.file_content.specs.Content.{IsFileOf, AreBlocksIn, IsPlaceOf};
ghost use Rattle.file_content.specs.ReadLoop.{place_byte};

use file_index::{Mapping, PageMap};
use pm_device::Pm;
use pm_layout::Geometry;

// Byte k of a page of the device.
fn load_byte<D: Pm>(device: &D, page: u64, k: usize) -> u8
    requires small { page < 65536 }
    requires in_page { k < 4096 }
    requires inside { 512 * page + 512 ≤ length (D.state device.now).now }
    ensures { result ≡ page_byte (D.state device.now).now page k }
{
    device.load(512 * page + k as u64 / 8).to_le_bytes()[k % 8]
}

// Byte k of a place that is mapped so, if at all, and of which so many bytes lie below the file's size.
fn byte_of_place<D: Pm>(device: &D, mapping: Option<Mapping>, inside: u64, k: usize) -> u8
    requires in_page { k < 4096 }
    requires small { IfSome mapping (λ m. m.block < 65536) }
    requires inside { IfSome mapping (λ m. 512 * m.block + 512 ≤ length (D.state device.now).now) }
    ensures { result ≡ place_byte (D.state device.now).now mapping inside k }
{
    if k as u64 >= inside {
        return 0;
    }
    match mapping {
        Some(m) => load_byte(device, m.block, k),
        None => 0,
    }
}

// How many of the bytes from the start of a place on lie below the file's size.
fn bytes_inside(size: u64, place: u64) -> u64
    ensures { (k : ℕ) → (k < result) ↔ (4096 * place + k < size) }
{
    size.saturating_sub(place.saturating_mul(4096))
}

/// Reads the page at a place of a file of this size, in bytes, whose places are mapped so. Where nothing is mapped
/// there are zeros, and from the size on. It takes no memory.
pub fn read_place<D: Pm>(
    device: &D,
    g: &Geometry,
    map: &PageMap,
    size: u64,
    place: u64,
    into: &mut [u8],
)
    requires accepted { IsAccepted g.now }
    requires device { length (D.state device.now).now ≡ 512 * g.now.pages }
    requires blocks { AreBlocksIn g.now map.now.map }
    requires whole { length into.old ≡ 4096 }
    ensures read { IsPlaceOf (D.state device.now).now map.now.map size place into.new }
    ensures page { (d : Disk) (ino : ℕ) → IsFileOf d ino size map.now.map → IsValid d
        → d.geometry ≡ g.now → Stands (DiskSays d) (D.state device.now)
        → into.new ≡ file_page (bytes d ino) place }
{
    let mapping = map.get(place);
    let inside = bytes_inside(size, place);
    for (k, byte) in into.iter_mut().enumerate() {
        *byte = byte_of_place(device, mapping, inside, k);
    }
}
