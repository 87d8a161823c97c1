// Operations on names begin and get on.
ghost use Rattle.std.specs.Prelude.{false, ◌≡◌};
ghost use Rattle.dn_model.specs.Disk.{Disk};
ghost use Rattle.dn_volume.specs.declared.flight.Flight.{Flight as KeptFlight};
ghost use Rattle.dn_volume.specs.declared.flight.NameChange.{NameChange as KeptChange};
ghost use Rattle.dn_volume.specs.declared.flight.Change.TheVariants.{Names};
ghost use Rattle.dn_volume.specs.Parties.{Flies};
ghost use Rattle.dn_volume.specs.Flights.{left_of};
ghost use Rattle.dn_volume.specs.Agrees.{Agrees, IsVolume};
ghost use Rattle.dn_volume.specs.Begins.{MayBegin, IsNamesOp, Begins, FliesAs};
ghost use Rattle.dn_volume.specs.Events.{Advances};
ghost use Rattle.name_ops.specs.Ending.{FliesNames};

use crate::commit::commit_names;
use crate::create::begin_create;
use crate::prepare::prepare_names;
use crate::remove::begin_remove;
use crate::rename::begin_rename;
use dn_model::Op;
use dn_volume::{Change, Outcome, Parts, Volume};
use fingerprint::Fingerprint;
use pm_device::Pm;
use std::alloc::Global;

/// Begins a creation, a removal or a renaming: it is answered at once, has to wait for an actor or for reclaim, or is in
/// flight.
pub fn begin_name<D: Pm, F: Fingerprint>(
    alloc: Global,
    v: &mut Volume<D, F>,
    who: u32,
    op: Op,
) -> Outcome
    requires agrees { Agrees D.state v.old }
    requires running { v.old.parts.stopped ≡ false }
    requires begins { MayBegin v.old.parts who }
    requires kind { IsNamesOp op }
    ensures agrees { Agrees D.state v.new }
    ensures event { (d : Disk) → IsVolume d v.old.parts (D.state v.old.device)
        → Begins D.state who op v.old v.new d result }
{
    match op {
        Op::Create { name } => begin_create(alloc, v, who, name),
        Op::Remove { name } => begin_remove(alloc, v, who, name),
        Op::Rename { from, to } => begin_rename(alloc, v, who, from, to),
        _ => unreachable!(),
    }
}

// Whether all that has to stand before the commit of a client's operation on names was stored.
fn is_prepared(parts: &Parts, who: u32) -> bool
    requires { FliesNames parts.now who }
    ensures { (f : KeptFlight) (c : KeptChange) → Flies parts.now who f → f.change ≡ Names c
        → result ≡ c.prepared }
{
    let Some(flight) = &parts.flights[who as usize - 1] else {
        unreachable!()
    };
    let Change::Names(change) = &flight.change else {
        unreachable!()
    };
    change.prepared
}

/// A client's operation on names in flight gets on by one event: what has to stand before its commit is stored, and then
/// it is committed. `Running` tells that one event is left of it, `Done` that it is answered, and `Stopped` that a fence
/// of the device failed.
pub fn advance_name<D: Pm, F: Fingerprint>(v: &mut Volume<D, F>, who: u32) -> Outcome
    requires agrees { Agrees D.state v.old }
    requires running { v.old.parts.stopped ≡ false }
    requires flies { FliesAs IsNamesOp v.old.parts who }
    ensures agrees { Agrees D.state v.new }
    ensures event { (d : Disk) (f : KeptFlight) → IsVolume d v.old.parts (D.state v.old.device)
        → Flies v.old.parts who f → Advances D.state F.print who f.op (left_of f) v.old v.new d
        result }
{
    if is_prepared(&v.parts, who) {
        commit_names(v, who)
    } else {
        prepare_names(v, who)
    }
}
