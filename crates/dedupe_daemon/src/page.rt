// The bytes of pages, without memory: what is begun may take none.
ghost use Rattle.std.specs.Prelude.{◌≡◌, ◌+◌, ◌*◌, ◌<◌, ◌≤◌, ◌↔◌, false, length, IsTrue};
ghost use Rattle.dn_model.specs.Disk.{Disk};
ghost use Rattle.dn_model.specs.Own.{page_bytes};
ghost use Rattle.page_bytes.specs.Bytes.{IsPageOf};
ghost use Rattle.dn_volume.specs.Agrees.{Agrees, IsVolume};
ghost use Rattle.dedupe_daemon.specs.Pages.{IsRead};

use dn_volume::Volume;
use fingerprint::Fingerprint;
use pm_device::Pm;
use pm_layout::{PAGE_BYTES, PAGE_WORDS};

// The bytes of a page of the device.
fn page_at<D: Pm>(device: &D, page: u64) -> [u8; PAGE_BYTES as usize]
    requires small { page < 65536 }
    requires inside { 512 * page + 512 ≤ length (D.state device.now).now }
    ensures { IsPageOf (D.state device.now).now page result }
{
    let mut bytes = [0; PAGE_BYTES as usize];
    for k in 0..PAGE_WORDS {
        let word = device.load(PAGE_WORDS * page + k);
        let at = 8 * k as usize;
        bytes[at..at + 8].copy_from_slice(&word.to_le_bytes());
    }
    bytes
}

/// The fingerprint of a page that is read.
pub fn print_of<D: Pm, F: Fingerprint>(v: &Volume<D, F>, page: u64) -> [u8; 20]
    requires agrees { Agrees D.state v.now }
    requires running { v.now.parts.stopped ≡ false }
    requires read { IsRead v.now.parts (D.state v.now.device) page }
    ensures { (d : Disk) → IsVolume d v.now.parts (D.state v.now.device)
        → result ≡ F.print (page_bytes d page) }
{
    v.print(page, &page_at(&v.device, page))
}

// Whether two pages' bytes are equal.
fn are_same(bytes: &[u8; PAGE_BYTES as usize], other: &[u8; PAGE_BYTES as usize]) -> bool
    ensures { IsTrue result ↔ (bytes.now ≡ other.now) }
{
    *bytes == *other
}

/// Whether two pages that are read have equal bytes.
pub fn same_pages<D: Pm, F: Fingerprint>(v: &Volume<D, F>, page: u64, other: u64) -> bool
    requires agrees { Agrees D.state v.now }
    requires running { v.now.parts.stopped ≡ false }
    requires read { IsRead v.now.parts (D.state v.now.device) page }
    requires read_other { IsRead v.now.parts (D.state v.now.device) other }
    ensures { (d : Disk) → IsVolume d v.now.parts (D.state v.now.device)
        → IsTrue result ↔ (page_bytes d page ≡ page_bytes d other) }
{
    are_same(&page_at(&v.device, page), &page_at(&v.device, other))
}
