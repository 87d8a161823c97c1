// The rows of the pages of a file's places.
ghost use Rattle.std.specs.Prelude.{◌≡◌, ℕ, ◌+◌, ◌<◌, ◌≤◌, ◌++◌, length, IfOk, OnOk};
ghost use Rattle.std.specs.FinMap.{get};
ghost use Rattle.fact_table.specs.Table.{HasTable, IsTable};
ghost use Rattle.file_content.specs.Content.{AreBlocksIn};
ghost use Rattle.dn_model.specs.Disk.{Disk, maps};
ghost use Rattle.dn_volume.specs.Planned.{slot_of, row_slots};
ghost use Rattle.data_begins.specs.Places.{ArePlacesOf, slot_list};

use dn_model::NoMemory;
use fact_table::Fact;
use file_index::PageMap;
use pm_device::Pm;
use std::alloc::Global;

// The slot of the row of the page of a place, if it is mapped and its page has a row.
fn slot_at<D: Pm>(fact: &Fact, device: &D, map: &PageMap, place: u64) -> Option<u64>
    requires table { HasTable (D.state device.now).now fact.now }
    requires blocks { AreBlocksIn fact.now.geometry map.now.map }
    ensures { (d : Disk) (ino : ℕ) → IsTable d (D.state device.now).now fact.now
        → ArePlacesOf d ino map.now.map → slot_list result ≡ slot_of d (maps d ino place) }
{
    let mapping = map.get(place)?;
    match fact.by_page(device, mapping.block) {
        Some(row) => Some(row.slot),
        None => None,
    }
}

// One for a slot that was found.
fn one_if(slot: Option<u64>) -> u64
    ensures long { result ≡ length (slot_list slot) }
    ensures few { result ≤ 1 }
{
    u64::from(slot.is_some())
}

// Puts a slot that was found behind the others.
fn push_slot(slots: &mut Vec<u64>, slot: Option<u64>) -> Result<(), NoMemory>
    ensures { OnOk result (slots.new.items ≡ slots.old.items ++ slot_list slot) }
{
    if let Some(slot) = slot {
        slots.push(slot)?;
    }
    Ok(())
}

/// How many of so many places of a file from `first` on are mapped to pages that have rows.
pub fn count_rows<D: Pm>(fact: &Fact, device: &D, map: &PageMap, first: u64, places: u64) -> u64
    requires table { HasTable (D.state device.now).now fact.now }
    requires blocks { AreBlocksIn fact.now.geometry map.now.map }
    requires in_file { first + places ≤ 4096 }
    ensures few { result ≤ places }
    ensures count { (d : Disk) (ino : ℕ) → IsTable d (D.state device.now).now fact.now
        → ArePlacesOf d ino map.now.map → result ≡ length (row_slots d ino first places) }
{
    let mut count = 0;
    for i in 0..places {
        count += one_if(slot_at(fact, device, map, first + i));
    }
    count
}

/// The slots of these rows, one for each place, in order.
///
/// # Errors
/// `NoMemory` where memory is wanting.
pub fn rows_of<D: Pm>(
    alloc: Global,
    fact: &Fact,
    device: &D,
    map: &PageMap,
    first: u64,
    places: u64,
) -> Result<Vec<u64>, NoMemory>
    requires table { HasTable (D.state device.now).now fact.now }
    requires blocks { AreBlocksIn fact.now.geometry map.now.map }
    requires in_file { first + places ≤ 4096 }
    ensures { IfOk result (λ slots. (d : Disk) (ino : ℕ)
        → IsTable d (D.state device.now).now fact.now → ArePlacesOf d ino map.now.map
        → slots.items ≡ row_slots d ino first places) }
{
    let mut slots = Vec::new(alloc);
    for i in 0..places {
        push_slot(&mut slots, slot_at(fact, device, map, first + i))?;
    }
    Ok(slots)
}
