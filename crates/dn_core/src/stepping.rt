// One event of a volume.
ghost use Rattle.std.specs.Prelude.{List, [], ◌∷◌, ◌≡◌, ◌≢◌, ◌↔◌, ◌≤◌, ◌<◌, false, true, IsTrue, IfSome, IsSome, None, length};
ghost use Rattle.dn_model.specs.Disk.{Disk};
ghost use Rattle.dn_volume.specs.declared.outcome.Outcome.TheVariants.{NotYours};
ghost use Rattle.dn_volume.specs.declared.flight.Flight.{Flight};
ghost use Rattle.dn_volume.specs.Agrees.{Agrees, IsVolume};
ghost use Rattle.dn_volume.specs.Parties.{Flies, flight_of};
ghost use Rattle.dn_volume.specs.Begins.{MayBegin, Begins};
ghost use Rattle.dn_volume.specs.Works.{ReclaimWorks};
ghost use Rattle.dn_model.specs.Course.{Base};
ghost use Rattle.dn_volume.specs.Sound.{Sound};
ghost use Rattle.dn_core.specs.Images.{StepImages};
ghost use Rattle.dn_volume.specs.declared.volume.Volume.{Volume as KeptVolume};
ghost use Rattle.dn_volume.specs.declared.outcome.Outcome.{Outcome as Told};
ghost use Rattle.dn_core.specs.declared.event.Event.{Event as MadeEvent};
ghost use Rattle.dn_core.specs.Headline.{Headline};
ghost use Rattle.dn_core.specs.Run.{Run, Records};
ghost use Rattle.dn_core.specs.Steps.{Steps, Opens, GoesOn, ReleasesInstead};

use crate::event::Event;
use dedupe_daemon::daemon;
use dn_model::{CLIENTS, Op};
use dn_volume::{FlightKind, Outcome, Volume};
use file_ops::{advance_write, begin_write, read};
use fingerprint::Fingerprint;
use log_clean::clean;
use name_ops::list::list;
use name_ops::{advance_name, begin_name};
use pm_device::Pm;
use reclaim::reclaim;
use size_ops::{advance_cut, begin_cut, size};
use std::alloc::Global;

// Whether this is a client that has nothing in flight.
fn may_begin<D: Pm, F: Fingerprint>(v: &Volume<D, F>, who: u32) -> bool
    ensures { IsTrue result ↔ MayBegin v.now.parts who }
{
    1 <= who && who <= CLIENTS && !v.in_flight(who)
}

// The begin by the machine that serves this kind of operation.
fn begin_served<D: Pm, F: Fingerprint>(
    alloc: Global,
    v: &mut Volume<D, F>,
    who: u32,
    op: Op,
) -> Outcome
    requires agrees { Agrees D.state v.old }
    requires running { v.old.parts.stopped ≡ false }
    requires begins { MayBegin v.old.parts who }
    ensures agrees { Agrees D.state v.new }
    ensures event { (d : Disk) → IsVolume d v.old.parts (D.state v.old.device)
        → Begins D.state who op v.old v.new d result }
{
    match op {
        Op::Create { .. } | Op::Remove { .. } | Op::Rename { .. } => begin_name(alloc, v, who, op),
        Op::Write { .. } => begin_write(alloc, v, who, op),
        Op::Read { .. } => read(alloc, v, who, op),
        Op::Cut { .. } => begin_cut(alloc, v, who, op),
        Op::Size { .. } => size(alloc, v, who, op),
        Op::List => list(alloc, v, who),
    }
}

// One event of reclaim, in place of a begin that waits for releases.
fn release_instead<D: Pm, F: Fingerprint>(v: &mut Volume<D, F>) -> Outcome
    requires agrees { Agrees D.state v.old }
    requires running { v.old.parts.stopped ≡ false }
    requires waits { v.old.parts.reclaiming.waiting ≢ 0 }
    ensures agrees { Agrees D.state v.new }
    ensures event { (d : Disk) → IsVolume d v.old.parts (D.state v.old.device)
        → ReleasesInstead D.state F.print v.old v.new d result }
{
    match reclaim(v) {
        Outcome::Running { left } => Outcome::Released { waiting: left },
        Outcome::NoMemory => Outcome::NoMemory,
        Outcome::Stopped => Outcome::Stopped,
        _ => unreachable!(),
    }
}

// A begin by a client that may.
fn begin_by<D: Pm, F: Fingerprint>(alloc: Global, v: &mut Volume<D, F>, who: u32, op: Op) -> Outcome
    requires agrees { Agrees D.state v.old }
    requires running { v.old.parts.stopped ≡ false }
    requires begins { MayBegin v.old.parts who }
    ensures agrees { Agrees D.state v.new }
    ensures event { (d : Disk) → IsVolume d v.old.parts (D.state v.old.device)
        → Opens D.state F.print who op v.old v.new d result }
{
    match begin_served(alloc, v, who, op) {
        Outcome::Released { .. } => release_instead(v),
        outcome => outcome,
    }
}

// An advance by a client that has an operation in flight.
fn advance_by<D: Pm, F: Fingerprint>(v: &mut Volume<D, F>, who: u32) -> Outcome
    requires agrees { Agrees D.state v.old }
    requires running { v.old.parts.stopped ≡ false }
    requires flies { IsSome (flight_of v.old.parts who) }
    ensures agrees { Agrees D.state v.new }
    ensures event { (d : Disk) → IsVolume d v.old.parts (D.state v.old.device)
        → GoesOn D.state F.print who v.old v.new d result }
{
    match v.kind_in_flight(who) {
        Some(FlightKind::Write) => advance_write(v, who),
        Some(FlightKind::Cut) => advance_cut(v, who),
        Some(FlightKind::Names) => advance_name(v, who),
        None => unreachable!(),
    }
}

// A begin on a volume that isn't stopped.
fn begin<D: Pm, F: Fingerprint>(alloc: Global, v: &mut Volume<D, F>, who: u32, op: Op) -> Outcome
    requires agrees { Agrees D.state v.old }
    requires running { v.old.parts.stopped ≡ false }
    ensures agrees { Agrees D.state v.new }
    ensures event { Steps D.state F.print (Event.Begin who op) v.old v.new result }
{
    if may_begin(v, who) {
        begin_by(alloc, v, who, op)
    } else {
        Outcome::NotYours
    }
}

// An advance on a volume that isn't stopped.
fn advance<D: Pm, F: Fingerprint>(v: &mut Volume<D, F>, who: u32) -> Outcome
    requires agrees { Agrees D.state v.old }
    requires running { v.old.parts.stopped ≡ false }
    ensures agrees { Agrees D.state v.new }
    ensures event { Steps D.state F.print (Event.Advance who) v.old v.new result }
{
    if v.in_flight(who) {
        advance_by(v, who)
    } else {
        Outcome::NotYours
    }
}

// One event of reclaim: what waits is released, and where nothing waits a log is cleaned.
fn reclaim_or_clean<D: Pm, F: Fingerprint>(alloc: Global, v: &mut Volume<D, F>) -> Outcome
    requires agrees { Agrees D.state v.old }
    requires running { v.old.parts.stopped ≡ false }
    ensures agrees { Agrees D.state v.new }
    ensures event { (d : Disk) → IsVolume d v.old.parts (D.state v.old.device)
        → ReclaimWorks D.state F.print v.old v.new d result }
{
    match reclaim(v) {
        Outcome::Idle => clean(alloc, v),
        outcome => outcome,
    }
}

// Makes one event.
fn step_once<D: Pm, F: Fingerprint>(alloc: Global, v: &mut Volume<D, F>, event: Event) -> Outcome
    requires agrees { Agrees D.state v.old }
    ensures agrees { Agrees D.state v.new }
    ensures event { Steps D.state F.print event v.old v.new result }
{
    if v.stopped() {
        return Outcome::Stopped;
    }
    match event {
        Event::Begin { who, op } => begin(alloc, v, who, op),
        Event::Advance { who } => advance(v, who),
        Event::Daemon => daemon(v),
        Event::Reclaim => reclaim_or_clean(alloc, v),
    }
}

/// Makes one event of a client, of the daemon or of reclaim, and answers how it went.
pub fn step<D: Pm, F: Fingerprint>(alloc: Global, v: &mut Volume<D, F>, event: Event) -> Outcome
    requires agrees { Agrees D.state v.old }
    ensures agrees { Agrees D.state v.new }
    ensures event { Steps D.state F.print event v.old v.new result }
    ensures sound { (base : Base) → Sound D.state F.print base v.old
        → Sound D.state F.print base v.new }
    ensures images { (d : Disk) → IsVolume d v.old.parts (D.state v.old.device)
        → StepImages D.state F.print event v.old v.new d result }
    ensures history { Records v.old v.new (event ∷ []) (result ∷ []) }
    ensures headline { (base : Base) (u : KeptVolume D F) (events : List MadeEvent) (outcomes : List Told)
        → Sound D.state F.print base u → u.parts.history.items ≡ []
        → Run D.state F.print u events outcomes v.old → v.old.parts.stopped ≡ false
        → Headline D.state F.print base events outcomes v.old v.new event result }
{
    step_once(alloc, v, event)
}
