// A table is loaded from a device's words.
ghost use Rattle.std.specs.Prelude.{◌≡◌, ◌+◌, ◌-◌, ◌*◌, ◌<◌, ◌≤◌, ◌↔◌, ℕ, map, length, slice_index_or, false, IfOk, IfErr, List, IfSome, IfNone, IsTrue, Contains, All};
ghost use Rattle.pm_layout.specs.Geometry.{IsAccepted, slots};
ghost use Rattle.dn_model.specs.Faults.{IsLeast};
ghost use Rattle.fact_table.specs.Seen.{as_row};
ghost use Rattle.dn_model.specs.Disk.{Disk};
ghost use Rattle.fact_table.specs.Table.{HasTable, IsTable};
ghost use Rattle.fact_table.specs.Loaded.{IsFaultOf, ArePointers, IsWrong, AreUsed, AreUnused, HasRowsOf};

use crate::fact::Fact;
use fact_scan::{Row, ScanFault, scan_rows};
use page_alloc::FreeSet;
use pm_device::Pm;
use pm_layout::Geometry;
use std::alloc::{AllocError, Global};
use thiserror::Error;

/// Why a table can't be loaded.
#[derive(Clone, Copy, Debug, PartialEq, Eq, Error)]
pub enum FactFault {
    /// The rows have a fault.
    #[error("the table of fingerprints has a fault at slot {slot}")]
    BadTable {
        /// The first slot, in the order of the direct slots with their chains, that has a row which may not stand
        /// there, or that leads to no indirect slot.
        slot: u64,
    },
    /// A pointer has a fault.
    #[error("the pointer of page {page} is wrong")]
    BadPointer {
        /// The least page whose pointer is no slot's, or that has a row to which its pointer doesn't lead.
        page: u64,
    },
    /// Memory ran out.
    #[error("out of memory")]
    NoMemory,
}

impl From<ScanFault> for FactFault {
    ghost use Rattle.std.specs.Prelude.{◌≡◌};
    ghost use Rattle.fact_table.specs.Loaded.{told};

    ghost from_gives = { λ fault e. e ≡ told fault };

    fn from(fault: ScanFault) -> FactFault {
        match fault {
            ScanFault::BadTable { slot } => FactFault::BadTable { slot },
            ScanFault::NoMemory => FactFault::NoMemory,
        }
    }
}

impl From<AllocError> for FactFault {
    ghost use Rattle.std.specs.Prelude.{◌≡◌};
    ghost use Rattle.fact_table.specs.declared.load.FactFault.TheVariants.{NoMemory};

    ghost from_gives = { λ _ e. e ≡ NoMemory };

    fn from(_fault: AllocError) -> FactFault {
        FactFault::NoMemory
    }
}

/// For each page what its pointer is to be: the slot of its row plus 1, or 0 where no row has the page.
pub fn pointers_of(alloc: Global, g: &Geometry, rows: &[Row]) -> Result<Vec<u64>, AllocError>
    requires pages { All (λ row. row.page < g.now.pages) rows.now }
    requires slots { All (λ row. row.slot < slots g.now) rows.now }
    requires accepted { IsAccepted g.now }
    ensures { IfOk result (λ wanted. ArePointers g.now (map as_row rows.now) wanted.items) }
{
    let mut wanted = vec![in alloc; 0u64; g.pages as usize]?;
    for row in rows {
        wanted[row.page as usize] = row.slot + 1;
    }
    Ok(wanted)
}

// Whether the pointer of a page is no slot's, or isn't the one that is wanted.
fn is_wrong<D: Pm>(device: &D, g: &Geometry, wanted: &[u64], page: u64) -> bool
    requires accepted { IsAccepted g.now }
    requires size { length (D.state device.now).now ≡ 512 * g.now.pages }
    requires all { length wanted.now ≡ g.now.pages }
    requires page { page < g.now.pages }
    ensures { IsTrue result ↔ IsWrong g.now (D.state device.now).now wanted.now page }
{
    let pointer = device.load(g.pointer_word(page));
    let row = wanted[page as usize];
    pointer > g.slots() || (row != 0 && pointer != row)
}

/// The least page whose pointer is wrong: above the number of slots, or not the one that is wanted of a page with a row.
pub fn wrong_pointer<D: Pm>(device: &D, g: &Geometry, wanted: &[u64]) -> Option<u64>
    requires accepted { IsAccepted g.now }
    requires size { length (D.state device.now).now ≡ 512 * g.now.pages }
    requires all { length wanted.now ≡ g.now.pages }
    ensures some { IfSome result
        (IsLeast g.now.pages (IsWrong g.now (D.state device.now).now wanted.now)) }
    ensures none { IfNone result ((page : ℕ) → page < g.now.pages
        → ¬ IsWrong g.now (D.state device.now).now wanted.now page) }
{
    for page in 0..g.pages {
        if is_wrong(device, g, wanted, page) {
            return Some(page);
        }
    }
    None
}

// For each indirect slot whether it has a row.
fn used_slots(alloc: Global, g: &Geometry, rows: &[Row]) -> Result<Vec<bool>, AllocError>
    requires slots { All (λ row. row.slot < slots g.now) rows.now }
    requires accepted { IsAccepted g.now }
    ensures { IfOk result (λ used. AreUsed g.now (map as_row rows.now) used.items) }
{
    let directs = g.directs();
    let mut used = vec![in alloc; false; g.pages as usize]?;
    for row in rows {
        if row.slot >= directs {
            used[(row.slot - directs) as usize] = true;
        }
    }
    Ok(used)
}

// The numbers that aren't marked.
fn unmarked(alloc: Global, used: &[bool]) -> Result<FreeSet, AllocError>
    ensures all { IfOk result (λ set. set.pages ≡ length used.now) }
    ensures free { IfOk result (λ set. (k : ℕ)
        → Contains set.free k ↔ ((k < length used.now) × (slice_index_or used.now k false ≡ false))) }
{
    let mut set = FreeSet::none(alloc, used.len() as u64)?;
    for (k, marked) in used.iter().enumerate() {
        if !*marked {
            set.give_back(k as u64);
        }
    }
    Ok(set)
}

// The indirect slots without a row.
fn unused_slots(alloc: Global, g: &Geometry, rows: &[Row]) -> Result<FreeSet, AllocError>
    requires slots { All (λ row. row.slot < slots g.now) rows.now }
    requires accepted { IsAccepted g.now }
    ensures { IfOk result (λ set. AreUnused g.now (map as_row rows.now) set) }
{
    let used = used_slots(alloc, g, rows)?;
    unmarked(alloc, &used)
}

impl Fact {
    /// The table that a device's words hold.
    ///
    /// # Errors
    /// `BadTable` where the rows have a fault, and at which slot, as `fact_scan::scan_rows` tells. `BadPointer` where
    /// the rows can be read and a pointer has a fault, and of which page: the least whose pointer is above the number
    /// of slots, or that has a row to which its pointer doesn't lead. `NoMemory` where there is no memory for the rows.
    ///
    /// Words have one such fault at most, and none where they hold a table (`laws::one_answer`).
    pub fn load<D: Pm>(alloc: Global, device: &D, g: &Geometry) -> Result<Fact, FactFault>
        requires accepted { IsAccepted g.now }
        requires size { length (D.state device.now).now ≡ 512 * g.now.pages }
        ensures table { IfOk result (λ fact. HasTable (D.state device.now).now fact) }
        ensures geometry { IfOk result (λ fact. fact.geometry ≡ g.now) }
        ensures fault { IfErr result (λ fault. IsFaultOf g.now (D.state device.now).now fault) }
    {
        let rows = scan_rows(alloc, device, g)?;
        let wanted = pointers_of(alloc, g, &rows)?;
        if let Some(page) = wrong_pointer(device, g, &wanted) {
            return Err(FactFault::BadPointer { page });
        }
        let free = unused_slots(alloc, g, &rows)?;
        Ok(Fact::of_parts(*g, free))
    }

    /// The table whose rows were read already: all that have a fingerprint in the device's words. It looks at no word,
    /// so that a mount reads each chain once. `AllocError` where there is no memory for the unused slots.
    pub fn of_rows(alloc: Global, g: &Geometry, rows: &[Row]) -> Result<Fact, AllocError>
        requires accepted { IsAccepted g.now }
        requires slots { All (λ row. row.slot < slots g.now) rows.now }
        ensures geometry { IfOk result (λ fact. fact.geometry ≡ g.now) }
        ensures table { IfOk result (λ fact. (d : Disk) (words : List ℕ) → HasRowsOf d g.now words (map as_row rows.now)
            → IsTable d words fact) }
    {
        let free = unused_slots(alloc, g, rows)?;
        Ok(Fact::of_parts(*g, free))
    }
}
