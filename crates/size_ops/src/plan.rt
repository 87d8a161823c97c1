// What a cut takes.
ghost use Rattle.std.specs.Prelude.{◌≡◌, ℕ, ◌≤◌, List, IfOk, IfErr, false};
ghost use Rattle.pm_layout.specs.declared.Geometry.{Geometry};
ghost use Rattle.dn_model.specs.Log.{Log, IsPaged, count, tail_at};
ghost use Rattle.dn_model.specs.Disk.{Disk};
ghost use Rattle.dn_model.specs.Files.{named};
ghost use Rattle.dn_model.specs.History.{refilled, extra};
ghost use Rattle.dn_model.specs.declared.op.Reply.TheVariants.{Refused};
ghost use Rattle.dn_volume.specs.Agrees.{Agrees, IsVolume};
ghost use Rattle.dn_volume.specs.Begins.{IsCutOp};
ghost use Rattle.size_ops.specs.Sizing.{IsAnswerNow};
ghost use Rattle.size_ops.specs.Planning.{IsCutNow, IsCutOf, IsStateOf, IsPlanOf, lost_from};

use data_begins::find_file;
use dn_model::{Op, Refusal};
use dn_volume::{InodeState, Parts, Volume};
use file_write::take::room_of;
use fingerprint::Fingerprint;
use inode_table::TAIL;
use log_entry::MOST_SIZE;
use pm_device::Pm;

/// What a cut of a file takes.
#[derive(Clone, Copy, Debug, PartialEq, Eq)]
pub struct CutPlan {
    /// The inode of the file.
    pub ino: u64,
    /// The new size, in bytes.
    pub size: u64,
    /// How many pages are filled anew: the one that the new size ends in, or none.
    pub pages: u64,
    /// How many pages the file's log grows by: one, or none.
    pub log_pages: u64,
    /// The first place that loses its page.
    pub from: u64,
}

// The inode of the file that is cut, or why none is.
pub(crate) fn file_to_cut(parts: &Parts, op: &Op) -> Result<u64, Refusal>
    requires kind { IsCutOp op.now }
    ensures granted { IfOk result (IsCutNow parts.now op.now) }
    ensures refused { IfErr result (λ why. IsAnswerNow parts.now op.now (Refused why)) }
{
    let Op::Cut { name, size } = op else {
        unreachable!()
    };
    let ino = find_file(&parts.names, name.bytes())?;
    if *size > MOST_SIZE {
        return Err(Refusal::TooBig);
    }
    Ok(ino)
}

// How many pages a cut to this size fills anew: one where the size ends inside of a page that is mapped and cut.
fn pages_to_fill(node: &InodeState, size: u64) -> u64
    ensures few { result ≤ 1 }
    ensures places { (d : Disk) (ino : ℕ) (name : List ℕ) → IsStateOf d ino node.now
        → named d name ≡ Some ino → result ≡ refilled d name size }
{
    if size % 4096 != 0 && size < node.size && node.map.get(size / 4096).is_some() {
        1
    } else {
        0
    }
}

// How many pages a log with this tail grows by for so many slots, which are fewer than a page has.
fn pages_for_slots(tail: u64, slots: u64) -> u64
    ensures few { result ≤ 1 }
    ensures pages { (g : Geometry) (log : Log) → IsPaged g log
        → tail ≡ tail_at log.pages (count log) → result ≡ extra slots log }
{
    if room_of(tail) < slots { 1 } else { 0 }
}

// The first place that a cut to this size takes away, where so many pages are filled anew.
fn first_lost(size: u64, pages: u64) -> u64
    requires small { size ≤ 16777216 }
    ensures { result ≡ lost_from size pages }
{
    if pages == 0 {
        size.div_ceil(4096)
    } else {
        size / 4096
    }
}

// What a cut of the file of this inode takes.
pub(crate) fn plan_cut<D: Pm, F: Fingerprint>(v: &Volume<D, F>, ino: u64, op: &Op) -> CutPlan
    requires agrees { Agrees D.state v.now }
    requires running { v.now.parts.stopped ≡ false }
    requires cut { (d : Disk) → IsVolume d v.now.parts (D.state v.now.device) → IsCutOf d op.now
        ino }
    ensures { (d : Disk) → IsVolume d v.now.parts (D.state v.now.device) → IsPlanOf d op.now ino
        result }
{
    let Op::Cut { size, .. } = op else {
        unreachable!()
    };
    let pages = pages_to_fill(&v.parts.inodes[ino as usize], *size);
    let tail = v.device.load(v.parts.geometry.inode_word(ino, TAIL));
    CutPlan {
        ino,
        size: *size,
        pages,
        log_pages: pages_for_slots(tail, pages + 1),
        from: first_lost(*size, pages),
    }
}
