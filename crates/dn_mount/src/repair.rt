// A device is repaired.
ghost use Rattle.std.specs.Prelude.{◌≡◌, ◌*◌, ◌≤◌, IfOk, IfErr};
ghost use Rattle.pm_device.specs.Settled.{Still};
ghost use Rattle.pm_layout.specs.Geometry.{IsAccepted};
ghost use Rattle.dn_model.specs.Disk.{Disk};
ghost use Rattle.dn_model.specs.Image.{StandsFor, HasNoFault};
ghost use Rattle.dn_model.specs.Counts.{Exact};
ghost use Rattle.dn_volume.specs.Agrees.{HasNoStale};
ghost use Rattle.dn_check.specs.Passing.{IsWhole};
ghost use Rattle.image_keep.specs.Keeping.{AreKeptTo};
ghost use Rattle.dn_mount.specs.Mounted.{IsMountFault, IsRepaired, LeavesRepairs, IsClean, StoresNothing};
ghost use Rattle.dn_mount.specs.Reading.{IsReadyOf, HasReady, IsSettleFault};

use crate::fault::MountFault;
use crate::parts::Scan;
use crate::prepare::prepare;
use crate::read::{WholeRead, read_rolled};
use crate::undo::RECOVERY;
use dn_check::read::ImageRead;
use fact_table::Fact;
use file_index::NameMap;
use image_keep::free::free_pages;
use image_keep::keep::Kept;
use page_alloc::FreeSet;
use pm_device::Pm;
use pm_layout::Geometry;
use std::alloc::Global;
use table_repair::settle_table;

// What was read, as a scan.
fn scan_of(g: &Geometry, free: FreeSet, names: NameMap, kept: Kept, fact: Fact) -> Scan
    ensures { result ≡ record {
      geometry = g.now;
      free = free;
      names = names;
      inodes = kept.inodes;
      work = kept.work;
      fact = fact;
      waiting = kept.waiting;
    } }
{
    Scan {
        geometry: *g,
        free,
        names,
        inodes: kept.inodes,
        work: kept.work,
        fact,
        waiting: kept.waiting,
    }
}

// The table is settled, and what was read becomes the scan.
fn settle_read<D: Pm>(
    alloc: Global,
    device: &mut D,
    g: &Geometry,
    read: WholeRead,
) -> Result<Scan, MountFault>
    requires accepted { IsAccepted g.now }
    requires ready { HasReady g.now (D.state device.old) read }
    requires whole { IsWhole g.now read.image }
    requires kept { AreKeptTo g.now (D.state device.old).now g.now.inodes read.kept }
    requires room { 12 * g.now.pages ≤ (D.state device.old).spare }
    ensures images { (d : Disk) → IsReadyOf d g.now (D.state device.old) read
        → LeavesRepairs d (D.state device.old) (D.state device.new) }
    ensures done { IfOk result (λ scan. (d : Disk) → IsReadyOf d g.now (D.state device.old) read
        → IsRepaired d scan (D.state device.new)) }
    ensures quiet { (d : Disk) → IsReadyOf d g.now (D.state device.old) read → Exact d
        → HasNoStale d → StoresNothing (D.state device.old) (D.state device.new) }
    ensures fault { IfErr result (IsSettleFault (D.state device.old) (D.state device.new)) }
    ensures faults { (D.state device.old).faults ≤ (D.state device.new).faults }
{
    let WholeRead { image, kept } = read;
    let ImageRead { logs, table } = image;
    let mut fact = Fact::of_rows(alloc, g, &table.rows)?;
    let free = free_pages(alloc, g, &logs.in_logs, &logs.mapped)?;
    settle_table(&mut fact, device, RECOVERY, &table.rows, &logs.mapped)?;
    Ok(scan_of(g, free, logs.names, kept, fact))
}

/// Repairs a still device: rolls its journal back, reads its logs and its table, sets the count of each row with updates
/// under way to the mappings of its page, removes the rows without mappings, and clears stale pointers. A count word of
/// a row with references and no update under way isn't stored to.
///
/// A stop at any moment leaves an image without a fault that has the same files, if the words had no fault. Where the
/// journal is closed, all counts are exact and no pointer is stale, nothing is stored.
///
/// # Errors
/// `Image` exactly where the words have a fault by the twelve rules, and which comes first. `NoMemory` where memory runs
/// out. `Failed` where a fence failed.
pub fn repair<D: Pm>(alloc: Global, device: &mut D) -> Result<Scan, MountFault>
    requires still { Still (D.state device.old) }
    ensures sound { IfOk result (λ _. HasNoFault (D.state device.old).now) }
    ensures scan { IfOk result (λ scan. (d : Disk) → StandsFor (D.state device.old).now d
        → IsRepaired d scan (D.state device.new)) }
    ensures images { (d : Disk) → StandsFor (D.state device.old).now d
        → LeavesRepairs d (D.state device.old) (D.state device.new) }
    ensures quiet { (d : Disk) → StandsFor (D.state device.old).now d
        → IsClean d (D.state device.old).now
        → StoresNothing (D.state device.old) (D.state device.new) }
    ensures fault { IfErr result (IsMountFault (D.state device.old) (D.state device.new)) }
    ensures faults { (D.state device.old).faults ≤ (D.state device.new).faults }
{
    let g = prepare(device)?;
    let read = read_rolled(alloc, device, &g)?;
    settle_read(alloc, device, &g, read)
}
