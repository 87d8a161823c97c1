// How many files, rows and mapped pages a volume has.
ghost use Rattle.std.specs.Prelude.{◌≡◌, ◌+◌, ◌<◌, ◌≤◌, false, length, map, count_by, if◌then◌else◌, IfOk, IfSome};
ghost use Rattle.std.specs.FinMap.{get};
ghost use Rattle.dn_model.specs.Disk.{Disk, rows};
ghost use Rattle.dn_model.specs.Numbers.{file_hit, files_in, mapped_in};
ghost use Rattle.dn_volume.specs.Agrees.{Agrees, IsVolume};
ghost use Rattle.dn_volume.specs.Inodes.{as_use};
ghost use Rattle.job_texts.specs.Marks.{MarksBlocks, MarksMapped, IsInside};

use dn_volume::{InodeState, InodeUse, Volume};
use file_index::{MOST_PLACES, PageMap};
use fingerprint::Fingerprint;
use pm_device::Pm;
use std::alloc::{AllocError, Global};

// Whether an inode is a file.
fn is_file(ino: usize, node: &InodeState) -> bool
    ensures { file_hit ino (as_use node.now.used) ≡ (if result then 1 else 0) }
{
    ino != 0 && node.used == InodeUse::Live
}

/// How many files a volume has.
pub fn count_files<D: Pm, F: Fingerprint>(v: &Volume<D, F>) -> u64
    ensures { (d : Disk) → IsVolume d v.now.parts (D.state v.now.device) → result ≡ files_in d }
{
    let mut files = 0;
    for (ino, node) in v.parts.inodes.iter().enumerate() {
        if is_file(ino, node) {
            files += 1;
        }
    }
    files
}

/// How many rows its table of fingerprints has. The time is linear in the slots.
pub fn count_rows<D: Pm, F: Fingerprint>(v: &Volume<D, F>) -> u64
    requires agrees { Agrees D.state v.now }
    requires running { v.now.parts.stopped ≡ false }
    ensures { (d : Disk) → IsVolume d v.now.parts (D.state v.now.device)
        → result ≡ length (rows d) }
{
    let mut rows = 0;
    for slot in 0..v.parts.geometry.slots() {
        if v.row_at(slot).is_some() {
            rows += 1;
        }
    }
    rows
}

// Marks the page of a place, if there is one.
fn mark_place(marks: &mut [bool], map: &PageMap, place: u64)
    requires inside { IsInside (length marks.old) map.now.map }
    requires place { place < MOST_PLACES }
    ensures { MarksBlocks map.now.map place (place + 1) marks.old marks.new }
{
    if let Some(mapping) = map.get(place) {
        marks[mapping.block as usize] = true;
    }
}

// Marks the pages of a file.
fn mark_pages(marks: &mut [bool], map: &PageMap)
    requires inside { IsInside (length marks.old) map.now.map }
    ensures { MarksBlocks map.now.map 0 MOST_PLACES marks.old marks.new }
{
    let mut end = MOST_PLACES;
    while let Some(place) = map.last_below(end) {
        mark_place(marks, map, place);
        end = place;
    }
}

// For each page whether a place is mapped to it.
fn mapped_pages<D: Pm, F: Fingerprint>(
    alloc: Global,
    v: &Volume<D, F>,
) -> Result<Vec<bool>, AllocError>
    requires agrees { Agrees D.state v.now }
    requires running { v.now.parts.stopped ≡ false }
    ensures { IfOk result (λ marks. (d : Disk) → IsVolume d v.now.parts (D.state v.now.device)
        → MarksMapped d marks.items) }
{
    let mut marks = vec![in alloc; false; v.parts.geometry.pages as usize]?;
    for node in &v.parts.inodes {
        mark_pages(&mut marks, &node.map);
    }
    Ok(marks)
}

// How many marks are set.
fn count_marks(marks: &[bool]) -> u64
    ensures { result ≡ count_by (λ m. m) marks.now }
{
    marks.iter().filter(|mark| **mark).count() as u64
}

/// How many pages are mapped by a place of a file, or by one of a removed file that still holds pages. The memory is a
/// mark for each page of the image; the time is linear in the pages, the inodes and the places that are mapped.
///
/// # Errors
/// `AllocError` where there is no memory for the marks.
pub fn count_mapped<D: Pm, F: Fingerprint>(
    alloc: Global,
    v: &Volume<D, F>,
) -> Result<u64, AllocError>
    requires agrees { Agrees D.state v.now }
    requires running { v.now.parts.stopped ≡ false }
    ensures { IfOk result (λ mapped. (d : Disk) → IsVolume d v.now.parts (D.state v.now.device)
        → mapped ≡ mapped_in d) }
{
    let marks = mapped_pages(alloc, v)?;
    Ok(count_marks(&marks))
}
