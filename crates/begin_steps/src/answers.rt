// Operations that are answered in their begin.
ghost use Rattle.std.specs.Prelude.{◌≡◌, ◌⊎◌, ℕ, ◌+◌, false, true, IfOk, length};
ghost use Rattle.dn_model.specs.Disk.{Disk};
ghost use Rattle.dn_volume.specs.Agrees.{Agrees, IsVolume};
ghost use Rattle.dn_volume.specs.Begins.{MayBegin, IsAnswerOf, Begins};
ghost use Rattle.begin_steps.specs.Answering.{HasEntryRoom, MakesEntryRoom, EntersHistory};

use dn_model::{ByteText, Entry, NameList, NoMemory, Op, Reply};
use dn_volume::{Outcome, Parts, Volume};
use fingerprint::Fingerprint;
use pm_device::Pm;
use std::alloc::Global;

// The same names again.
fn copy_names(alloc: Global, names: &NameList) -> Result<NameList, NoMemory>
    ensures { IfOk result (λ copy. copy ≡ names.now) }
{
    let mut copy = Vec::with_capacity(alloc, names.names().len())?;
    for name in names.names() {
        copy.push(name.clone()?)?;
    }
    Ok(NameList::of(copy))
}

// An equal reply: one goes to the history, and one to the caller.
fn copy_reply(alloc: Global, reply: &Reply) -> Result<Reply, NoMemory>
    ensures { IfOk result (λ copy. copy ≡ reply.now) }
{
    Ok(match reply {
        Reply::Done => Reply::Done,
        Reply::Bytes(bytes) => Reply::Bytes(bytes.copy(alloc)?),
        Reply::Number(number) => Reply::Number(*number),
        Reply::Names(names) => Reply::Names(copy_names(alloc, names)?),
        Reply::Refused(refusal) => Reply::Refused(*refusal),
    })
}

// Makes room in the history for one entry beside those that it is owed.
fn make_entry_room(parts: &mut Parts) -> bool
    ensures makes { MakesEntryRoom parts.old parts.new }
    ensures room { result ≡ true → HasEntryRoom parts.new }
{
    let Some(entries) = parts.owed.history.checked_add(1) else {
        return false;
    };
    parts.history.reserve(entries as usize).is_ok()
}

// An operation enters the history with its reply.
fn enter(parts: &mut Parts, who: u32, op: Op, reply: Reply)
    requires { HasEntryRoom parts.old }
    ensures { EntersHistory who op reply parts.old parts.new }
{
    parts.history.push_reserved(Entry { who, op, reply });
    parts.made = parts.made.saturating_add(1);
}

/// Answers an operation in its begin: it enters the history with its reply, which is that of the files, or says that an
/// inode or pages are wanting while nothing waits to be released. `NoMemory` where there is no memory for the entry or
/// for the reply's copy in it; nothing was changed then.
pub fn answer<D: Pm, F: Fingerprint>(
    alloc: Global,
    v: &mut Volume<D, F>,
    who: u32,
    op: Op,
    reply: Reply,
) -> Outcome
    requires agrees { Agrees D.state v.old }
    requires running { v.old.parts.stopped ≡ false }
    requires begins { MayBegin v.old.parts who }
    requires why { (d : Disk) → IsVolume d v.old.parts (D.state v.old.device)
        → IsAnswerOf d v.old.parts op reply }
    ensures agrees { Agrees D.state v.new }
    ensures event { (d : Disk) → IsVolume d v.old.parts (D.state v.old.device)
        → Begins D.state who op v.old v.new d result }
{
    let Ok(copy) = copy_reply(alloc, &reply) else {
        return Outcome::NoMemory;
    };
    if !make_entry_room(&mut v.parts) {
        return Outcome::NoMemory;
    }
    enter(&mut v.parts, who, op, copy);
    Outcome::Done(reply)
}
