// A cleaning begins.
ghost use Rattle.std.specs.Prelude.{◌≡◌, ◌⊎◌, ◌+◌, ◌*◌, ◌^◌, ◌<◌, ◌≤◌, ℕ, length, true, false, None, IfOk, IfErr, IsErr, All};
ghost use Rattle.log_entry.specs.Spelling.{spelled};
ghost use Rattle.pm_device.specs.State.{IsSame};
ghost use Rattle.dn_model.specs.Disk.{Disk};
ghost use Rattle.dn_volume.specs.Agrees.{Agrees, IsVolume};
ghost use Rattle.dn_volume.specs.Cleans.{may_clean};
ghost use Rattle.dn_volume.specs.Kept.{OfInodes};
ghost use Rattle.dn_volume.specs.Works.{CleanWorks};
ghost use Rattle.log_clean.specs.Planning.{MayBeLaid};
ghost use Rattle.log_clean.specs.Beginning.{IsPlanOf, Plans, MakesQueueRoom, units_for, HasRoomFor, IsHeldFor, Notes};

use crate::plan::{NoMemory, Remains, lay_out, read_remains};
use crate::worth::first_worth;
use dn_volume::units::{LOG_PAGE_UNITS, REPLACE_UNITS};
use dn_volume::{Cleaning, InodeState, Outcome, Parts, RECLAIM, Volume};
use file_write::take::{take_pages, untake_pages};
use fingerprint::Fingerprint;
use log_worth::pages_for;
use pm_device::Pm;
use std::alloc::{AllocError, Global};

// The cleaning of an inode's log on pages that were taken for it; the pages, where memory is wanting.
fn plan_on(alloc: Global, ino: u64, pages: Vec<u64>, remains: Remains) -> Result<Cleaning, Vec<u64>>
    requires small { All (λ page. page < 65536) pages.items }
    requires few { length pages.items ≤ 65536 }
    requires fits { length (spelled remains.items.items) ≤ 63 * length pages.items }
    requires laid { All MayBeLaid remains.items.items }
    ensures plan { IfOk result (IsPlanOf ino pages.items remains) }
    ensures back { IfErr result (λ back. back.items ≡ pages.items) }
{
    match lay_out(alloc, &pages, remains.items) {
        Ok(layout) => Ok(Cleaning {
            ino,
            slots: remains.slots,
            pages,
            written: 0,
            map: layout.map,
            due: layout.due,
        }),
        Err(_) => Err(pages),
    }
}

// Takes the pages for the cleaning of an inode's log, and plans it. Where memory is wanting, none is taken.
fn plan<D: Pm, F: Fingerprint>(
    alloc: Global,
    v: &mut Volume<D, F>,
    ino: u64,
) -> Result<Cleaning, NoMemory>
    requires agrees { Agrees D.state v.old }
    requires running { v.old.parts.stopped ≡ false }
    requires inside { ino < length v.old.parts.inodes.items }
    requires may { may_clean v.old.parts ino ≡ true }
    ensures plans { IfOk result (Plans D.state v.old v.new ino) }
    ensures none { IsErr result → v.new ≡ v.old }
{
    let remains = read_remains(alloc, v, ino)?;
    let count = pages_for(remains.slots.len() as u64);
    let pages = take_pages(alloc, &mut v.parts.free, count)?;
    match plan_on(alloc, ino, pages, remains) {
        Ok(cleaning) => Ok(cleaning),
        Err(pages) => {
            untake_pages(&mut v.parts.free, pages);
            Err(AllocError)
        }
    }
}

// The units of the device that a cleaning is owed, none of whose pages is written.
fn units_of(cleaning: &Cleaning) -> u64
    requires { length cleaning.now.pages.items ≤ 65536 }
    ensures { result ≡ units_for (length cleaning.now.pages.items) }
{
    LOG_PAGE_UNITS * cleaning.pages.len() as u64 + REPLACE_UNITS
}

// Makes room for all that the cleaning is owed.
fn make_room<D: Pm, F: Fingerprint>(v: &mut Volume<D, F>, cleaning: &Cleaning) -> bool
    requires { length cleaning.now.pages.items ≤ 65536 }
    ensures device { IsSame (D.state v.old.device) (D.state v.new.device) }
    ensures spare { ((D.state v.new.device).spare ≡ (D.state v.old.device).spare)
        ⊎ (v.old.parts.owed.units ≤ (D.state v.new.device).spare) }
    ensures makes { MakesQueueRoom v.old.parts v.new.parts }
    ensures room { result ≡ true → HasRoomFor cleaning.now v.new.parts (D.state v.new.device) }
{
    let Some(units) = v.parts.owed.units.checked_add(units_of(cleaning)) else {
        return false;
    };
    let Some(queue) = v.parts.owed.queue.checked_add(cleaning.due.len() as u64) else {
        return false;
    };
    if v.device.ready(units).is_err() {
        return false;
    }
    v.parts.queue.reserve(queue).is_ok()
}

// Reclaim holds an inode.
fn hold(inodes: &mut Vec<InodeState>, ino: u64)
    requires { ino < length inodes.old.items }
    ensures { OfInodes (IsHeldFor ino) inodes.old.items inodes.new.items }
{
    inodes[ino as usize].holder = Some(RECLAIM);
}

// Reclaim holds the inode of the cleaning, which is begun, and what it needs is owed to it.
fn note_begun(parts: &mut Parts, cleaning: Cleaning)
    requires inside { cleaning.ino < length parts.old.inodes.items }
    requires few { length cleaning.pages.items ≤ 65536 }
    requires units { parts.old.owed.units + units_for (length cleaning.pages.items) < 2 ^ 64 }
    requires queue { parts.old.owed.queue + length cleaning.due.items < 2 ^ 64 }
    ensures { Notes cleaning parts.old parts.new }
{
    hold(&mut parts.inodes, cleaning.ino);
    parts.owed.units += units_of(&cleaning);
    parts.owed.queue += cleaning.due.len() as u64;
    parts.made = parts.made.saturating_add(1);
    parts.reclaiming.cleaning = Some(cleaning);
}

/// The cleaning of the least inode whose log may be cleaned begins: what the log says still is read, and it gets its
/// pages and all the memory that it needs. `Idle` where no log may be cleaned. `NoMemory` where memory is wanting; nothing
/// was changed then.
pub fn begin_cleaning<D: Pm, F: Fingerprint>(alloc: Global, v: &mut Volume<D, F>) -> Outcome
    requires agrees { Agrees D.state v.old }
    requires running { v.old.parts.stopped ≡ false }
    requires none_waits { v.old.parts.reclaiming.waiting ≡ 0 }
    requires none_begun { v.old.parts.reclaiming.cleaning ≡ None }
    ensures agrees { Agrees D.state v.new }
    ensures event { (d : Disk) → IsVolume d v.old.parts (D.state v.old.device)
        → CleanWorks D.state F.print v.old v.new d result }
{
    let Some(ino) = first_worth(&v.parts) else {
        return Outcome::Idle;
    };
    let Ok(cleaning) = plan(alloc, v, ino) else {
        return Outcome::NoMemory;
    };
    if !make_room(v, &cleaning) {
        untake_pages(&mut v.parts.free, cleaning.pages);
        return Outcome::NoMemory;
    }
    let left = cleaning.pages.len() as u64 + 1;
    note_begun(&mut v.parts, cleaning);
    Outcome::Running { left }
}
