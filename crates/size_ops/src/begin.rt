// A cut begins.
ghost use Rattle.std.specs.Prelude.{◌≡◌, ◌+◌, ◌-◌, ◌≤◌, false, Some};
ghost use Rattle.dn_model.specs.Disk.{Disk};
ghost use Rattle.dn_volume.specs.Agrees.{Agrees, IsVolume};
ghost use Rattle.dn_volume.specs.Begins.{MayBegin, IsCutOp, HasAll, Begins};
ghost use Rattle.data_begins.specs.Asked.{IsInTheWay};
ghost use Rattle.size_ops.specs.Planning.{IsCutNow, IsPlanOf};

use crate::plan::{CutPlan, file_to_cut, plan_cut};
use crate::taking::take_for_cut;
use begin_steps::answer;
use data_begins::{DataAsk, Hindrance, in_the_way, make_ready, start_data};
use dn_model::{Op, Refusal, Reply};
use dn_volume::{Outcome, Volume};
use file_index::MOST_PLACES;
use fingerprint::Fingerprint;
use pm_device::Pm;
use std::alloc::Global;

// What a cut asks for.
fn ask_of(cut: &CutPlan) -> DataAsk
    requires few { cut.now.pages + cut.now.log_pages ≤ 2 }
    requires from { cut.now.from ≤ 4096 }
    ensures { result ≡ record {
      ino = cut.now.ino;
      needed = cut.now.pages + cut.now.log_pages;
      lost = cut.now.from;
      lost_places = 4096 - cut.now.from;
    } }
{
    DataAsk {
        ino: cut.ino,
        needed: cut.pages + cut.log_pages,
        lost: cut.from,
        lost_places: MOST_PLACES - cut.from,
    }
}

// A cut for which there is all that it takes is in flight, unless there is no memory for it.
fn open_cut<D: Pm, F: Fingerprint>(
    alloc: Global,
    v: &mut Volume<D, F>,
    who: u32,
    op: Op,
    cut: &CutPlan,
) -> Outcome
    requires agrees { Agrees D.state v.old }
    requires running { v.old.parts.stopped ≡ false }
    requires begins { MayBegin v.old.parts who }
    requires plan { (d : Disk) → IsVolume d v.old.parts (D.state v.old.device) → IsPlanOf d op
        cut.now.ino cut.now }
    requires has { (d : Disk) → IsVolume d v.old.parts (D.state v.old.device) → HasAll d v.old.parts
        op }
    ensures agrees { Agrees D.state v.new }
    ensures event { (d : Disk) → IsVolume d v.old.parts (D.state v.old.device)
        → Begins D.state who op v.old v.new d result }
{
    let ask = ask_of(cut);
    let Some(ready) = make_ready(alloc, v, &ask, cut.pages, cut.pages + 1) else {
        return Outcome::NoMemory;
    };
    let Ok(plan) = take_for_cut(alloc, &mut v.parts.free, cut) else {
        return Outcome::NoMemory;
    };
    let left = start_data(&mut v.parts, who, op, cut.ino, ready, plan);
    Outcome::Running { left }
}

// What is told of a cut that doesn't begin, for what stands in its way.
fn hinder<D: Pm, F: Fingerprint>(
    alloc: Global,
    v: &mut Volume<D, F>,
    who: u32,
    op: Op,
    ask: &DataAsk,
    why: Hindrance,
) -> Outcome
    requires agrees { Agrees D.state v.old }
    requires running { v.old.parts.stopped ≡ false }
    requires begins { MayBegin v.old.parts who }
    requires hindered { (d : Disk) → IsVolume d v.old.parts (D.state v.old.device) → IsInTheWay d
        v.old.parts op ask.now (Some why) }
    ensures agrees { Agrees D.state v.new }
    ensures event { (d : Disk) → IsVolume d v.old.parts (D.state v.old.device)
        → Begins D.state who op v.old v.new d result }
{
    match why {
        Hindrance::Held { holder } => Outcome::Busy { holder },
        Hindrance::Waits => Outcome::Released {
            waiting: v.parts.reclaiming.waiting,
        },
        Hindrance::NoSpace => {
            let free = v.parts.free.count();
            let lack = Refusal::NoSpace {
                needed: ask.needed,
                free,
            };
            answer(alloc, v, who, op, Reply::Refused(lack))
        }
    }
}

// A cut that the files grant begins, unless its file is held, or pages or room for releases are wanting.
fn try_cut<D: Pm, F: Fingerprint>(
    alloc: Global,
    v: &mut Volume<D, F>,
    who: u32,
    op: Op,
    ino: u64,
) -> Outcome
    requires agrees { Agrees D.state v.old }
    requires running { v.old.parts.stopped ≡ false }
    requires begins { MayBegin v.old.parts who }
    requires cut { IsCutNow v.old.parts op ino }
    ensures agrees { Agrees D.state v.new }
    ensures event { (d : Disk) → IsVolume d v.old.parts (D.state v.old.device)
        → Begins D.state who op v.old v.new d result }
{
    let cut = plan_cut(v, ino, &op);
    let ask = ask_of(&cut);
    match in_the_way(v, &ask) {
        None => open_cut(alloc, v, who, op, &cut),
        Some(why) => hinder(alloc, v, who, op, &ask, why),
    }
}

/// Begins a cut of a file to a size in bytes. `Running` tells how many events are left of it: one for the page that the
/// new size ends in, if it has to be filled anew, one for each place that loses a page with a row, and the commit.
///
/// It is answered at once with `BadName` where the name is not legal, `NotFound` where no file has it, `TooBig` where
/// the size is greater than that of any file, and `NoSpace` where the free pages don't cover what it needs and its
/// reserve while nothing waits to be released. `Busy` tells who holds the file; `Released`, with what waits, that space
/// or room for releases is wanting; `NoMemory` that memory is. In these three nothing was changed but room.
pub fn begin_cut<D: Pm, F: Fingerprint>(
    alloc: Global,
    v: &mut Volume<D, F>,
    who: u32,
    op: Op,
) -> Outcome
    requires agrees { Agrees D.state v.old }
    requires running { v.old.parts.stopped ≡ false }
    requires begins { MayBegin v.old.parts who }
    requires kind { IsCutOp op }
    ensures agrees { Agrees D.state v.new }
    ensures event { (d : Disk) → IsVolume d v.old.parts (D.state v.old.device)
        → Begins D.state who op v.old v.new d result }
{
    match file_to_cut(&v.parts, &op) {
        Ok(ino) => try_cut(alloc, v, who, op, ino),
        Err(why) => answer(alloc, v, who, op, Reply::Refused(why)),
    }
}
