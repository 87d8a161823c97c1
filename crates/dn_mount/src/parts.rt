// The parts of a volume that was just mounted.
ghost use Rattle.std.specs.Prelude.{◌≡◌, ℕ, ◌<◌, None, length, IfOk};
ghost use Rattle.pm_device.specs.State.{State};
ghost use Rattle.dn_model.specs.Disk.{Disk};
ghost use Rattle.dn_volume.specs.Agrees.{IsVolume};
ghost use Rattle.dn_mount.specs.Scanned.{IsScanOf, AreNoFlights, IsFreshOf};

use dedupe_queue::WorkQueue;
use dn_volume::{Flight, InodeState, Parts, Reclaiming, Room};
use fact_table::Fact;
use file_index::NameMap;
use page_alloc::FreeSet;
use pm_layout::Geometry;
use std::alloc::{AllocError, Global};
use std::collections::VecDeque;

/// What was read of an image.
#[derive(Debug, Drop)]
pub struct Scan {
    /// The pages and inodes of the image.
    pub geometry: Geometry,
    /// The free pages.
    pub free: FreeSet,
    /// The names, with the inodes that they lead to.
    pub names: NameMap,
    /// What is kept of each inode.
    pub inodes: Vec<InodeState>,
    /// The items that aren't complete and map a place still.
    pub work: WorkQueue,
    /// The table of fingerprints.
    pub fact: Fact,
    /// The units of work that the dying inodes are for.
    pub waiting: u64,
}

// No operation is in flight.
fn no_flights(alloc: Global) -> Result<Vec<Option<Flight>>, AllocError>
    ensures { IfOk result (λ flights. AreNoFlights flights.items) }
{
    let mut flights = Vec::with_capacity(alloc, 14)?;
    for _i in 0..14u64 {
        flights.push(None)?;
    }
    Ok(flights)
}

/// The parts of a volume of which this was read: nothing is under way, and nothing was answered.
///
/// # Errors
/// `AllocError` where memory runs out.
pub fn volume_of_scan(alloc: Global, scan: Scan) -> Result<Parts, AllocError>
    ensures volume { IfOk result (λ b. (d : Disk) (s : State) → IsScanOf d scan s
        → IsVolume d b s) }
    ensures fresh { IfOk result (IsFreshOf scan) }
{
    let flights = no_flights(alloc)?;
    Ok(Parts {
        geometry: scan.geometry,
        free: scan.free,
        names: scan.names,
        inodes: scan.inodes,
        fact: scan.fact,
        queue: scan.work,
        flights,
        sharing: None,
        reclaiming: Reclaiming {
            zero_check: None,
            raised: None,
            releases: VecDeque::new(alloc),
            waiting: scan.waiting,
            cleaning: None,
        },
        history: Vec::new(alloc),
        trace: Vec::new(alloc),
        made: 0,
        stopped: false,
        owed: Room {
            units: 0,
            trace: 0,
            history: 0,
            queue: 0,
            releases: 0,
        },
    })
}
