// The first inode whose names are wrong.
ghost use Rattle.std.specs.Prelude.{◌≡◌, ◌≢◌, ◌↔◌, ◌+◌, ◌*◌, ◌<◌, ◌≤◌, ◌^◌, ℕ, length, slice_index, IfOk, IfSome, IfNone, IsTrue};
ghost use Rattle.pm_layout.specs.Geometry.{IsAccepted};
ghost use Rattle.dn_model.specs.Disk.{Disk};
ghost use Rattle.dn_model.specs.Valid.{IsLinked};
ghost use Rattle.dn_model.specs.Faults.{IsLeast};
ghost use Rattle.image_uses.specs.Links.{name_hit, ino_at, AreLinks, IsLinkedBy, IsNamed};

use file_index::NameMap;
use inode_table::read_field;
use log_entry::Name;
use pm_device::Pm;
use pm_layout::{Geometry, LIVE, STATE};
use std::alloc::{AllocError, Global};

// Counts one more name of an inode, if there is such an inode.
fn count_name(links: &mut [u64], ino: u64)
    requires { ino < length links.old → slice_index links.old ino + 1 < 2 ^ 64 }
    ensures long { length links.new ≡ length links.old }
    ensures each { (i : ℕ) → i < length links.old → slice_index links.new i ≡ slice_index links.old
        i + name_hit i ino }
{
    if (ino as usize) < links.len() {
        links[ino as usize] += 1;
    }
}

// The inode to which entry k leads.
fn ino_of(entries: &[(Name, u64)], k: usize) -> u64
    requires { k < length entries.now }
    ensures { result ≡ ino_at entries.now k }
{
    entries[k].1
}

// So many zeros.
fn zeros(alloc: Global, count: u64) -> Result<Vec<u64>, AllocError>
    requires { count ≤ 65536 }
    ensures long { IfOk result (λ v. length v.items ≡ count) }
    ensures zeros { IfOk result (λ v. (i : ℕ) → slice_index v.items i ≡ 0) }
{
    vec![in alloc; 0u64; count as usize]
}

// How many names each inode has.
fn link_counts(alloc: Global, g: &Geometry, names: &NameMap) -> Result<Vec<u64>, AllocError>
    requires { IsAccepted g.now }
    ensures { IfOk result (λ links. AreLinks names.now.map g.now.inodes links.items) }
{
    let mut links = zeros(alloc, g.inodes)?;
    let entries = names.entries();
    for k in 0..entries.len() {
        count_name(&mut links, ino_of(entries, k));
    }
    Ok(links)
}

// Whether an inode in this state may have so many names: a live one has one, and another has none.
fn is_linked(state: u64, links: u64) -> bool
    ensures { IsTrue result ↔ IsLinkedBy state links }
{
    if state == LIVE {
        links == 1
    } else {
        links == 0
    }
}

/// The first inode but the root that is live and hasn't exactly one name, or isn't live and has one; from the names of
/// the root's log. The time is linear in the names and the inodes.
///
/// # Errors
/// `AllocError` where there is no memory for a number for each inode.
pub fn link_fault<D: Pm>(
    alloc: Global,
    device: &D,
    g: &Geometry,
    names: &NameMap,
) -> Result<Option<u64>, AllocError>
    requires accepted { IsAccepted g.now }
    requires size { length (D.state device.now).now ≡ 512 * g.now.pages }
    ensures some { IfOk result
        (λ found. IfSome found (λ ino. (d : Disk) → IsNamed g.now (D.state device.now).now
        names.now.map d → IsLeast d.geometry.inodes
        (λ i. (1 ≤ i) × (IsLinked d i (d.inode i).use_of → ⊥)) ino)) }
    ensures none { IfOk result
        (λ found. IfNone found ((d : Disk) → IsNamed g.now (D.state device.now).now names.now.map d
        → (i : ℕ) → 1 ≤ i → i < d.geometry.inodes → IsLinked d i (d.inode i).use_of)) }
{
    let links = link_counts(alloc, g, names)?;
    for ino in 1..g.inodes {
        if !is_linked(read_field(device, g, ino, STATE), links[ino as usize]) {
            return Ok(Some(ino));
        }
    }
    Ok(None)
}
