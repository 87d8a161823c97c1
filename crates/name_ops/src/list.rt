// The names of all files.
ghost use Rattle.std.specs.Prelude.{false, ◌≡◌};
ghost use Rattle.dn_model.specs.Disk.{Disk};
ghost use Rattle.dn_model.specs.declared.op.Op.TheVariants.{List as ListAll};
ghost use Rattle.dn_volume.specs.Agrees.{Agrees, IsVolume};
ghost use Rattle.dn_volume.specs.Begins.{MayBegin, Begins};

use begin_steps::answer;
use dn_model::{Op, Reply};
use dn_volume::{Outcome, Volume};
use fingerprint::Fingerprint;
use pm_device::Pm;
use std::alloc::Global;

/// Answers a List: the names of all files, in the order of their bytes. It enters the history. `NoMemory` where there is
/// no memory for the names or for the entry; nothing was changed then.
pub fn list<D: Pm, F: Fingerprint>(alloc: Global, v: &mut Volume<D, F>, who: u32) -> Outcome
    requires agrees { Agrees D.state v.old }
    requires running { v.old.parts.stopped ≡ false }
    requires begins { MayBegin v.old.parts who }
    ensures agrees { Agrees D.state v.new }
    ensures event { (d : Disk) → IsVolume d v.old.parts (D.state v.old.device)
        → Begins D.state who ListAll v.old v.new d result }
{
    match v.parts.names.names(alloc) {
        Ok(names) => answer(alloc, v, who, Op::List, Reply::Names(names)),
        Err(_) => Outcome::NoMemory,
    }
}
