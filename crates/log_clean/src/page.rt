// The next page of a new log is written.
ghost use Rattle.std.specs.Prelude.{◌≡◌, ◌+◌, ◌^◌, ◌≤◌, ◌<◌, length, false, Some, IfSome, IsSome};
ghost use Rattle.dn_model.specs.Disk.{Disk};
ghost use Rattle.dn_volume.specs.declared.background.Cleaning.{Cleaning};
ghost use Rattle.dn_volume.specs.Agrees.{Agrees, IsVolume};
ghost use Rattle.dn_volume.specs.Events.{Counts};
ghost use Rattle.dn_volume.specs.Works.{CleanWorks};
ghost use Rattle.log_clean.specs.Writing.{page_written};

use count_events::release::stop;
use dn_volume::units::LOG_PAGE_UNITS;
use dn_volume::{Outcome, Parts, RECLAIM, Volume};
use fingerprint::Fingerprint;
use log_replace::store_log_page;
use pm_device::Pm;

// One page more is written; its units are owed no more.
fn note_page(parts: &mut Parts)
    requires units { LOG_PAGE_UNITS ≤ parts.old.owed.units }
    requires few { IfSome parts.old.reclaiming.cleaning (λ c. c.written + 1 < 2 ^ 64) }
    ensures written { (c : Cleaning) → parts.old.reclaiming.cleaning ≡ Some c
        → parts.new ≡ page_written parts.old c parts.new.made }
    ensures made { Counts parts.old parts.new }
{
    if let Some(cleaning) = &mut parts.reclaiming.cleaning {
        cleaning.written += 1;
    }
    parts.owed.units -= LOG_PAGE_UNITS;
    parts.made = parts.made.saturating_add(1);
}

/// The next page of the new log is written whole: stored, flushed and fenced. `Stopped` where the device's fence failed.
pub fn write_next_page<D: Pm, F: Fingerprint>(v: &mut Volume<D, F>) -> Outcome
    requires agrees { Agrees D.state v.old }
    requires running { v.old.parts.stopped ≡ false }
    requires none_waits { v.old.parts.reclaiming.waiting ≡ 0 }
    requires more { IfSome v.old.parts.reclaiming.cleaning (λ c. c.written < length c.pages.items) }
    requires begun { IsSome v.old.parts.reclaiming.cleaning }
    ensures agrees { Agrees D.state v.new }
    ensures event { (d : Disk) → IsVolume d v.old.parts (D.state v.old.device)
        → CleanWorks D.state F.print v.old v.new d result }
{
    let Some(cleaning) = &v.parts.reclaiming.cleaning else {
        unreachable!();
    };
    let page = cleaning.written as usize;
    let left = cleaning.pages.len() as u64 - cleaning.written;
    match store_log_page(
        &mut v.device,
        RECLAIM,
        &cleaning.pages,
        page,
        &cleaning.slots,
    ) {
        Ok(()) => {
            note_page(&mut v.parts);
            Outcome::Running { left }
        }
        Err(_) => {
            stop(&mut v.parts);
            Outcome::Stopped
        }
    }
}
