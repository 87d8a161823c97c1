// The events of the daemon, in their order.
ghost use Rattle.std.specs.Prelude.{◌≡◌, ℕ, false, Some};
ghost use Rattle.dn_model.specs.Disk.{Disk};
ghost use Rattle.dn_volume.specs.declared.background.SharingStep.TheVariants.{Look};
ghost use Rattle.dn_volume.specs.Agrees.{Agrees, IsVolume};
ghost use Rattle.dn_volume.specs.Works.{DaemonWorks};
ghost use Rattle.dedupe_daemon.specs.Looked.{IsLooking, IsAtPlace};

use crate::begin::begin_item;
use crate::end::end_item;
use crate::find::find_row;
use crate::insert::insert_row;
use crate::mask::mask_place;
use crate::page::{print_of, same_pages};
use crate::pass::pass_place;
use crate::place::page_to_share;
use crate::raise::raise_share;
use crate::remap::remap_place;
use count_events::share::settle_share;
use dn_volume::{Outcome, Sharing, SharingStep, Volume};
use fingerprint::Fingerprint;
use pm_device::Pm;

// A page without a row is looked up by its fingerprint. Where a row has it, the bytes of the two pages are compared:
// the place is left alone if they differ.
fn look_up<D: Pm, F: Fingerprint>(v: &mut Volume<D, F>, sharing: Sharing, page: u64) -> Outcome
    requires agrees { Agrees D.state v.old }
    requires running { v.old.parts.stopped ≡ false }
    requires looking { IsLooking v.old.parts sharing }
    requires place { (d : Disk) → IsVolume d v.old.parts (D.state v.old.device)
        → IsAtPlace d sharing page }
    ensures agrees { Agrees D.state v.new }
    ensures event { (d : Disk) → IsVolume d v.old.parts (D.state v.old.device)
        → DaemonWorks D.state F.print v.old v.new d result }
{
    let print = print_of(v, page);
    match find_row(&v.parts.fact, &v.device, &print) {
        None => insert_row(v, sharing, &print, page),
        Some(row) => {
            if same_pages(v, row.page, page) {
                raise_share(v, sharing, row.slot)
            } else {
                mask_place(v, sharing)
            }
        }
    }
}

// The next place of an item is looked at, or the item is ended where none is left.
fn look<D: Pm, F: Fingerprint>(v: &mut Volume<D, F>, sharing: Sharing) -> Outcome
    requires agrees { Agrees D.state v.old }
    requires running { v.old.parts.stopped ≡ false }
    requires begun { v.old.parts.sharing ≡ Some sharing }
    requires step { sharing.step ≡ Look }
    ensures agrees { Agrees D.state v.new }
    ensures event { (d : Disk) → IsVolume d v.old.parts (D.state v.old.device)
        → DaemonWorks D.state F.print v.old v.new d result }
{
    if sharing.done >= sharing.count {
        return end_item(v, sharing);
    }
    match page_to_share(v, sharing) {
        Some(page) => look_up(v, sharing, page),
        None => pass_place(v, sharing),
    }
}

/// One event of the daemon (DeNova, IPDPS 2022). With nothing begun, the front item of the queue is begun, or dropped
/// where it is stale. Else the next place of the begun item is looked at: it is passed over, its page gets a row, the
/// row of a page with equal bytes is raised, or the place is left alone; or the place is mapped to the page of the
/// raised row; or the row is settled; and an item without a place left is flagged complete.
///
/// `Running` tells the events that are left of the item, `Idle` that no item waits, `Busy` that another actor holds the
/// inode of the front item. `NoMemory` comes only where nothing is begun, and nothing was changed then. `Stopped` where
/// a fence of the device failed.
pub fn daemon<D: Pm, F: Fingerprint>(v: &mut Volume<D, F>) -> Outcome
    requires agrees { Agrees D.state v.old }
    requires running { v.old.parts.stopped ≡ false }
    ensures agrees { Agrees D.state v.new }
    ensures event { (d : Disk) → IsVolume d v.old.parts (D.state v.old.device)
        → DaemonWorks D.state F.print v.old v.new d result }
{
    let Some(sharing) = v.parts.sharing else {
        return begin_item(v);
    };
    match sharing.step {
        SharingStep::Look => look(v, sharing),
        SharingStep::Remap { slot } => remap_place(v, sharing, slot),
        SharingStep::Settle { .. } => settle_share(v),
    }
}
