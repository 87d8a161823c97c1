// A volume is opened for threads, and comes back from them.
ghost use Rattle.std.specs.Prelude.{◌≡◌, ◌<◌, ◌≤◌, ◌+◌, [], Bool, List, false, length, replicate, All, IfOk, IfErr};
ghost use Rattle.pm_layout.specs.Geometry.{slots};
ghost use Rattle.dn_model.specs.Disk.{Disk};
ghost use Rattle.dn_volume.specs.Agrees.{Agrees, IsVolume};
ghost use Rattle.dn_volume.specs.Events.{word_at};
ghost use Rattle.count_board.specs.Boards.{base_of, AreItsPasses, AreNewPasses};
ghost use Rattle.dn_shared.specs.Ends.{AreCountWords, IsOpened, KeepsSound, NoneFlies};
ghost use Rattle.dn_shared.specs.Ends.{HasCalls, HasNoOthers, HasInHand, HasRead, HasSeenPast};
ghost use Rattle.dn_shared.specs.Ends.{OfEach, CountsAsTraced, StoppedSince};

use crate::shared::Shared;
use crate::site::Site;
use count_board::{Board, Pass};
use dn_volume::Volume;
use fingerprint::Fingerprint;
use pm_device::Pm;
use std::alloc::{AllocError, Global};

// The count word of the row at a slot, 0 without a row.
fn word_of_row<D: Pm, F: Fingerprint>(v: &Volume<D, F>, slot: u64) -> u64
    requires agrees { Agrees D.state v.now }
    requires running { v.now.parts.stopped ≡ false }
    requires inside { slot < slots v.now.parts.geometry }
    ensures { (d : Disk) → IsVolume d v.now.parts (D.state v.now.device)
        → word_at d slot ≡ result }
{
    match v.row_at(slot) {
        Some(row) => row.count.word(),
        None => 0,
    }
}

/// The count word of each slot, 0 without a row.
///
/// # Errors
/// `AllocError` where memory is wanting.
pub fn words_of_rows<D: Pm, F: Fingerprint>(
    alloc: Global,
    v: &Volume<D, F>,
) -> Result<Vec<u64>, AllocError>
    requires agrees { Agrees D.state v.now }
    requires running { v.now.parts.stopped ≡ false }
    ensures { IfOk result (λ words. AreCountWords D.state v.now words.items) }
{
    let slots = v.geometry().slots();
    let mut words = Vec::with_capacity(alloc, slots as usize)?;
    for slot in 0..slots {
        words.push_reserved(word_of_row(v, slot));
    }
    Ok(words)
}

// What is kept beside the volume, and the count words once more.
struct Beside {
    gone: Vec<bool>,
    opening: Vec<u64>,
    events: Vec<u32>,
    words: Vec<u64>,
}

fn make_beside<D: Pm, F: Fingerprint>(
    alloc: Global,
    v: &Volume<D, F>,
    clients: u32,
) -> Result<Beside, AllocError>
    requires few { clients ≤ 14 }
    requires agrees { Agrees D.state v.now }
    requires running { v.now.parts.stopped ≡ false }
    ensures gone { IfOk result (λ b. b.gone.items ≡ replicate clients false) }
    ensures opening { IfOk result (λ b. AreCountWords D.state v.now b.opening.items) }
    ensures words { IfOk result (λ b. b.words.items ≡ b.opening.items) }
{
    let words = words_of_rows(alloc, v)?;
    let opening = Vec::from_slice(alloc, words.as_slice())?;
    let gone = vec![in alloc; false; clients as usize]?;
    let events = vec![in alloc; 0; clients as usize + 3]?;
    Ok(Beside {
        gone,
        opening,
        events,
        words,
    })
}

impl<D: Pm, F: Fingerprint> Shared<D, F> {
    /// Shares a volume that was just mounted among so many clients, up to 14. The passes are those
    /// of the clients, by number from 1, then the daemon's, then reclaim's.
    ///
    /// # Errors
    /// `AllocError`, with the volume, where memory is wanting.
    pub fn open(
        alloc: Global,
        volume: Volume<D, F>,
        clients: u32,
    ) -> Result<(Shared<D, F>, Vec<Pass<Site<D, F>>>), (AllocError, Volume<D, F>)>
        requires few { clients ≤ 14 }
        requires agrees { Agrees D.state volume }
        requires running { volume.parts.stopped ≡ false }
        requires history { volume.parts.history.items ≡ [] }
        requires trace { volume.parts.trace.items ≡ [] }
        requires landed { NoneFlies volume.parts }
        ensures board { IfOk result (λ r. IsOpened D.state volume clients r.0.board) }
        ensures passes { IfOk result (λ r. AreNewPasses r.0.board (clients + 2) r.1.items) }
        ensures err { IfErr result (λ e. e.1 ≡ volume) }
    {
        let Beside {
            gone,
            opening,
            events,
            words,
        } = match make_beside(alloc, &volume, clients) {
            Ok(beside) => beside,
            Err(error) => return Err((error, volume)),
        };
        let site = Site {
            volume,
            gone,
            opening,
            events,
        };
        match Board::new(alloc, site, words.as_slice(), clients + 2) {
            Ok((board, passes)) => Ok((Shared { board }, passes)),
            Err((error, site)) => Err((error, site.volume)),
        }
    }

    /// The volume, once all passes have come back, in any order. Where the volume that was opened
    /// kept to its history, this one keeps to its own. It takes no memory.
    pub fn close(self, passes: Vec<Pass<Site<D, F>>>) -> Volume<D, F>
        requires { AreItsPasses self.board passes.items }
        ensures agrees { Agrees D.state result }
        ensures keeps { KeepsSound D.state F.print (base_of self.board).volume result }
        ensures faults { (D.state (base_of self.board).volume.device).faults
            ≤ (D.state result.device).faults }
        ensures stopped { StoppedSince D.state (base_of self.board).volume result }
        ensures calls { OfEach (HasCalls result) passes.items }
        ensures others { HasNoOthers result (length passes.items) }
        ensures hands { OfEach (HasInHand result) passes.items }
        ensures reads { OfEach (HasRead (base_of self.board).opening.items result) passes.items }
        ensures marks { (gone : List Bool) × OfEach (HasSeenPast gone result) passes.items }
        ensures counts { CountsAsTraced D.state (base_of self.board).opening.items result }
    {
        let Shared { board } = self;
        let site = board.close(passes);
        site.volume
    }
}
