// A Read is answered.
ghost use Rattle.std.specs.Prelude.{◌≡◌, ◌≤◌, IfOk, IfErr, false};
ghost use Rattle.dn_model.specs.Disk.{Disk};
ghost use Rattle.dn_model.specs.declared.op.Op.TheVariants.{Read};
ghost use Rattle.dn_volume.specs.Agrees.{Agrees, IsVolume};
ghost use Rattle.dn_volume.specs.Begins.{MayBegin, IsReadOp, IsAnswerOf, Begins};
ghost use Rattle.data_begins.specs.Lookup.{IsFound};

use begin_steps::answer;
use data_begins::find_file;
use dn_model::{ByteText, MOST_BYTES, NoMemory, Op, Refusal, Reply};
use dn_volume::{Outcome, Volume};
use file_content::read_bytes;
use fingerprint::Fingerprint;
use pm_device::Pm;
use std::alloc::Global;

// The reply to a Read of so many bytes from a place of a file on.
fn read_file<D: Pm, F: Fingerprint>(
    alloc: Global,
    v: &Volume<D, F>,
    name: &ByteText,
    ino: u64,
    at: u64,
    length: u64,
) -> Result<Reply, NoMemory>
    requires agrees { Agrees D.state v.now }
    requires running { v.now.parts.stopped ≡ false }
    requires found { IsFound v.now.parts.names.map name.now ino }
    requires few { length ≤ 65536 }
    ensures { IfOk result (λ reply. (d : Disk) → IsVolume d v.now.parts (D.state v.now.device)
        → IsAnswerOf d v.now.parts (Read name.now at length) reply) }
{
    let node = &v.parts.inodes[ino as usize];
    let found = read_bytes(
        alloc,
        &v.device,
        &v.parts.geometry,
        &node.map,
        node.size,
        at,
        length,
    )?;
    Ok(Reply::Bytes(ByteText::of(found)))
}

// The reply to a Read.
fn read_reply<D: Pm, F: Fingerprint>(
    alloc: Global,
    v: &Volume<D, F>,
    op: &Op,
) -> Result<Reply, NoMemory>
    requires agrees { Agrees D.state v.now }
    requires running { v.now.parts.stopped ≡ false }
    requires kind { IsReadOp op.now }
    ensures { IfOk result (λ reply. (d : Disk) → IsVolume d v.now.parts (D.state v.now.device)
        → IsAnswerOf d v.now.parts op.now reply) }
{
    let Op::Read { name, at, length } = op else {
        unreachable!();
    };
    match find_file(&v.parts.names, name.bytes()) {
        Ok(_) if *length > MOST_BYTES => Ok(Reply::Refused(Refusal::TooLong)),
        Ok(ino) => read_file(alloc, v, name, ino, *at, *length),
        Err(refusal) => Ok(Reply::Refused(refusal)),
    }
}

/// Answers a Read: `BadName`, `NotFound` or `TooLong` in this order, and else the bytes from a place on, up to the lesser
/// of the file's size and the place and the length that it asks for. Places without a page are zeros. It enters the
/// history. `NoMemory` where there is no memory for the bytes or for the entry; nothing was changed then.
pub fn read<D: Pm, F: Fingerprint>(alloc: Global, v: &mut Volume<D, F>, who: u32, op: Op) -> Outcome
    requires agrees { Agrees D.state v.old }
    requires running { v.old.parts.stopped ≡ false }
    requires begins { MayBegin v.old.parts who }
    requires kind { IsReadOp op }
    ensures agrees { Agrees D.state v.new }
    ensures event { (d : Disk) → IsVolume d v.old.parts (D.state v.old.device)
        → Begins D.state who op v.old v.new d result }
{
    match read_reply(alloc, v, &op) {
        Ok(reply) => answer(alloc, v, who, op, reply),
        Err(_) => Outcome::NoMemory,
    }
}
