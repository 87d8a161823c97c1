// The size of a file.
ghost use Rattle.std.specs.Prelude.{◌≡◌, false};
ghost use Rattle.dn_model.specs.Disk.{Disk};
ghost use Rattle.dn_volume.specs.Agrees.{Agrees, IsVolume};
ghost use Rattle.dn_volume.specs.Begins.{MayBegin, IsSizeOp, Begins};
ghost use Rattle.size_ops.specs.Sizing.{IsSomeVolume, IsAnswerNow};

use begin_steps::answer;
use data_begins::find_file;
use dn_model::{Op, Reply};
use dn_volume::{Outcome, Parts, Volume};
use fingerprint::Fingerprint;
use pm_device::Pm;
use std::alloc::Global;

// The number of a file's bytes, or why there is none.
fn size_reply(parts: &Parts, op: &Op) -> Reply
    requires kind { IsSizeOp op.now }
    requires volume { IsSomeVolume parts.now }
    ensures { IsAnswerNow parts.now op.now result }
{
    let Op::Size { name } = op else {
        unreachable!()
    };
    match find_file(&parts.names, name.bytes()) {
        Ok(ino) => Reply::Number(parts.inodes[ino as usize].size),
        Err(why) => Reply::Refused(why),
    }
}

/// Answers how many bytes a file has, in the begin of the operation: a number, `BadName` exactly where the name is not
/// legal, or `NotFound` exactly where it is and no file has it. It holds nothing and enters the history. `NoMemory` where
/// there is no memory for its entry; nothing was changed then.
pub fn size<D: Pm, F: Fingerprint>(alloc: Global, v: &mut Volume<D, F>, who: u32, op: Op) -> Outcome
    requires agrees { Agrees D.state v.old }
    requires running { v.old.parts.stopped ≡ false }
    requires begins { MayBegin v.old.parts who }
    requires kind { IsSizeOp op }
    ensures agrees { Agrees D.state v.new }
    ensures event { (d : Disk) → IsVolume d v.old.parts (D.state v.old.device)
        → Begins D.state who op v.old v.new d result }
{
    let reply = size_reply(&v.parts, &op);
    answer(alloc, v, who, op, reply)
}
