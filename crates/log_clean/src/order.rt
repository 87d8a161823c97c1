// The events of a cleaning, in their order.
ghost use Rattle.std.specs.Prelude.{◌≡◌, false};
ghost use Rattle.dn_model.specs.Disk.{Disk};
ghost use Rattle.dn_volume.specs.Agrees.{Agrees, IsVolume};
ghost use Rattle.dn_volume.specs.Works.{CleanWorks};

use crate::begin::begin_cleaning;
use crate::finish::finish_cleaning;
use crate::page::write_next_page;
use dn_volume::{Outcome, Volume};
use fingerprint::Fingerprint;
use pm_device::Pm;
use std::alloc::Global;

/// One event of a cleaning, where nothing waits to be released: the next page of the new log is written; or, once all are,
/// the new log replaces the old one; or, where none is begun, the cleaning of the least inode whose log may be cleaned
/// begins. `Running` tells how many events are left of it, `Idle` that none is begun and no log may be cleaned. What is begun
/// takes no memory; `NoMemory` where none could begin, and nothing was changed. `Stopped` where a fence of the device
/// failed.
pub fn clean<D: Pm, F: Fingerprint>(alloc: Global, v: &mut Volume<D, F>) -> Outcome
    requires agrees { Agrees D.state v.old }
    requires running { v.old.parts.stopped ≡ false }
    requires none_waits { v.old.parts.reclaiming.waiting ≡ 0 }
    ensures agrees { Agrees D.state v.new }
    ensures event { (d : Disk) → IsVolume d v.old.parts (D.state v.old.device)
        → CleanWorks D.state F.print v.old v.new d result }
{
    let Some(cleaning) = &v.parts.reclaiming.cleaning else {
        return begin_cleaning(alloc, v);
    };
    if cleaning.written < cleaning.pages.len() as u64 {
        write_next_page(v)
    } else {
        finish_cleaning(v)
    }
}
