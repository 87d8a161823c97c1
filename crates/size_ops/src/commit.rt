// The last event of a cut.
ghost use Rattle.std.specs.Prelude.{◌≡◌, ◌*◌, ◌<◌, ◌≤◌, length, false};
ghost use Rattle.dn_model.specs.Disk.{Disk};
ghost use Rattle.dn_model.specs.declared.op.Op.{Op as DiskOp};
ghost use Rattle.dn_volume.specs.Agrees.{Agrees, IsVolume};
ghost use Rattle.dn_volume.specs.Events.{InFlight, Advances};
ghost use Rattle.size_ops.specs.Ending.{IsLastOfCut};

use crate::ending::{finish_cut, first_gone};
use dn_model::Reply;
use dn_volume::{Change, Outcome, Volume};
use file_commit::append_items;
use file_index::MOST_PLACES;
use file_ops::ending::{count_call, end_flight, put_back};
use file_ops::giving::give_back_unshared;
use fingerprint::Fingerprint;
use inode_table::TAIL;
use pm_device::Pm;

/// Ends a cut in flight, whose page is filled and all of whose rows are raised: its items become part of the file's log
/// by one store of its tail (NOVA, FAST 2016). The pages of the places that go are free, or their rows wait to be released
/// (DeNova, IPDPS 2022); the item of the page that is filled anew waits for the daemon, and the cut enters the history.
///
/// A crash on the way leaves an image with the files of before or of after. `Stopped` where a fence of the device failed.
pub fn commit_cut<D: Pm, F: Fingerprint>(v: &mut Volume<D, F>, who: u32) -> Outcome
    requires agrees { Agrees D.state v.old }
    requires running { v.old.parts.stopped ≡ false }
    requires last { IsLastOfCut v.old.parts who }
    ensures agrees { Agrees D.state v.new }
    ensures event { (d : Disk) (op : DiskOp) → IsVolume d v.old.parts (D.state v.old.device)
        → InFlight v.old.parts who op 1 → Advances D.state F.print who op 1 v.old v.new d result }
{
    let flight = end_flight(&mut v.parts.flights, who);
    let Change::Data(change) = &flight.change else {
        unreachable!()
    };
    let g = v.parts.geometry;
    let tail = v.device.load(g.inode_word(flight.ino, TAIL));
    let from = first_gone(change);
    give_back_unshared(
        &mut v.parts.free,
        &v.parts.fact,
        &v.device,
        &v.parts.inodes[flight.ino as usize].map,
        from,
        MOST_PLACES - from,
    );
    v.parts.made = count_call(v.parts.made);
    let Ok(()) = append_items(
        &mut v.device,
        &g,
        who,
        flight.ino,
        &flight.slots,
        &flight.fresh,
    ) else {
        v.parts.stopped = true;
        put_back(&mut v.parts.flights, who, flight);
        return Outcome::Stopped;
    };
    finish_cut(&mut v.parts, who, tail, flight);
    Outcome::Done(Reply::Done)
}
