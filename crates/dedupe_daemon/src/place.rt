// The place that the daemon looks at.
ghost use Rattle.std.specs.Prelude.{◌≡◌, ℕ, ◌+◌, ◌*◌, ◌^◌, ◌<◌, ◌≤◌, ◌↔◌, false, length, IfSome, IfNone, IsTrue, IsBitSet, slice_index};
ghost use Rattle.file_index.specs.declared.page_map.Mapping.{Mapping as KeptMapping};
ghost use Rattle.dn_model.specs.Disk.{Disk};
ghost use Rattle.dn_volume.specs.Agrees.{Agrees, IsVolume};
ghost use Rattle.dedupe_daemon.specs.Looked.{IsLooking, IsAtPlace, IsPassed, IsNextPlace};

use dn_volume::{InodeState, Sharing, Volume};
use file_index::Mapping;
use fingerprint::Fingerprint;
use pm_device::Pm;

// The word of a Write's slot that has its mask.
const MASK_FIELD: u64 = 6;

// The next place of an item, if the item maps it still.
fn place_of(inodes: &[InodeState], sharing: Sharing) -> Option<Mapping>
    requires there { sharing.work.ino < length inodes.now }
    requires small { sharing.first + sharing.done < 2 ^ 64 }
    ensures found { IfSome result (IsNextPlace inodes.now sharing) }
    ensures none { IfNone result ((m : KeptMapping) → IsNextPlace inodes.now sharing m → ⊥) }
{
    let node = &inodes[sharing.work.ino as usize];
    let mapping = node.map.get(sharing.first + sharing.done)?;
    if mapping.slot == sharing.work.slot {
        Some(mapping)
    } else {
        None
    }
}

// Whether bit k of a mask is set.
fn has_bit(mask: u64, k: u64) -> bool
    requires { k < 64 }
    ensures { IsTrue result ↔ IsBitSet mask k }
{
    mask & (1 << k) != 0
}

// The mask of an item.
pub(crate) fn mask_of<D: Pm>(device: &D, slot: u64) -> u64
    requires small { slot < 2 ^ 32 }
    requires inside { 8 * slot + 8 ≤ length (D.state device.now).now }
    ensures { result ≡ slice_index (D.state device.now).now (8 * slot + 6) }
{
    device.load(8 * slot + MASK_FIELD)
}

// Whether the next place of an item is left alone.
fn is_masked<D: Pm>(device: &D, sharing: Sharing) -> bool
    requires small { sharing.work.slot < 2 ^ 32 }
    requires inside { 8 * sharing.work.slot + 8 ≤ length (D.state device.now).now }
    requires few { sharing.done < 64 }
    ensures { IsTrue result ↔ IsBitSet (slice_index (D.state device.now).now
        (8 * sharing.work.slot + 6)) sharing.done }
{
    has_bit(mask_of(device, sharing.work.slot), sharing.done)
}

/// The page of the place that is looked at, or None where the place is passed over: the item maps it no more, it is
/// left alone, or its page has a row.
pub fn page_to_share<D: Pm, F: Fingerprint>(v: &Volume<D, F>, sharing: Sharing) -> Option<u64>
    requires agrees { Agrees D.state v.now }
    requires running { v.now.parts.stopped ≡ false }
    requires looking { IsLooking v.now.parts sharing }
    ensures page { IfSome result (λ page. (d : Disk) → IsVolume d v.now.parts (D.state v.now.device)
        → IsAtPlace d sharing page) }
    ensures passed { IfNone result ((d : Disk) → IsVolume d v.now.parts (D.state v.now.device)
        → IsPassed d sharing) }
{
    let Some(mapping) = place_of(&v.parts.inodes, sharing) else {
        return None;
    };
    if is_masked(&v.device, sharing) {
        return None;
    }
    match v.parts.fact.by_page(&v.device, mapping.block) {
        Some(_) => None,
        None => Some(mapping.block),
    }
}
