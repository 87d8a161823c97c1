// All rows of the table are read.
ghost use Rattle.std.specs.Prelude.{◌≡◌, ◌*◌, map, length, IfOk, IfErr};
ghost use Rattle.pm_layout.specs.Geometry.{IsAccepted, directs};
ghost use Rattle.fact_scan.specs.Seen.{as_row};
ghost use Rattle.fact_scan.specs.Scan.{HasRows, IsFaultOf};

use crate::found::Found;
use crate::row::Row;
use pm_device::Pm;
use pm_layout::Geometry;
use std::alloc::Global;
use thiserror::Error;

/// Why a table can't be read.
#[derive(Clone, Copy, Debug, PartialEq, Eq, Error)]
pub enum ScanFault {
    /// The table has a fault.
    #[error("the table of fingerprints has a fault at slot {slot}")]
    BadTable {
        /// The first slot, in the order of the direct slots with their chains, that has a row which may not stand
        /// there, or that leads to no indirect slot.
        slot: u64,
    },
    /// Memory ran out.
    #[error("out of memory")]
    NoMemory,
}

/// The rows of a table in the order of their direct slots and chains. No two rows have one slot, page or fingerprint.
/// The time is linear in the slots of the table, but for the look-ups of a row's fingerprint among those of its chain.
///
/// # Errors
/// `BadTable` where the table has a fault, and at which slot: a page outside the data area or of an earlier row, a
/// fingerprint of another prefix or of an earlier row, a third word of fingerprint with more than 32 bits, or a slot
/// met before. Where a next word is neither 0 nor that of an indirect slot, the slot that holds it is told. `NoMemory`
/// where there is no memory for the rows.
///
/// A table has one first fault at most, and none where its chains may be read (`law_unique::faults::one_table_fault`).
/// So but for want of memory the answer is `Ok` exactly where the table has no fault.
pub fn scan_rows<D: Pm>(alloc: Global, device: &D, g: &Geometry) -> Result<Vec<Row>, ScanFault>
    requires accepted { IsAccepted g.now }
    requires size { length (D.state device.now).now ≡ 512 * g.now.pages }
    ensures rows { IfOk result (λ rows. HasRows g.now (D.state device.now).now (directs g.now)
        (map as_row rows.items)) }
    ensures fault { IfErr result (λ fault. IsFaultOf g.now (D.state device.now).now fault) }
{
    let mut found = match Found::none(alloc, g.pages) {
        Ok(found) => found,
        Err(_) => return Err(ScanFault::NoMemory),
    };
    for prefix in 0..g.directs() {
        found.read_chain(device, g, prefix)?;
    }
    Ok(found.into_rows())
}
