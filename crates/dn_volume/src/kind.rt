// Which machine goes on with an operation in flight.
ghost use Rattle.std.specs.Prelude.{◌≡◌, IsSome};
ghost use Rattle.dn_volume.specs.declared.flight.Flight.{Flight as KeptFlight};
ghost use Rattle.dn_volume.specs.Parties.{Flies, flight_of};
ghost use Rattle.dn_volume.specs.Kinds.{machine_of};

use crate::volume::Volume;
use dn_model::Op;
use fingerprint::Fingerprint;
use pm_device::Pm;

/// The machine that goes on with an operation in flight.
#[derive(Clone, Copy, Debug, PartialEq, Eq)]
pub enum FlightKind {
    /// That of writes.
    Write,
    /// That of cuts.
    Cut,
    /// That of creations, removals and renamings.
    Names,
}

// That of an operation; none of one that is answered in its begin.
fn kind_of(op: &Op) -> Option<FlightKind>
    ensures { result ≡ machine_of op.now }
{
    match op {
        Op::Write { .. } => Some(FlightKind::Write),
        Op::Cut { .. } => Some(FlightKind::Cut),
        Op::Create { .. } | Op::Remove { .. } | Op::Rename { .. } => Some(FlightKind::Names),
        Op::Read { .. } | Op::Size { .. } | Op::List => None,
    }
}

impl<D: Pm, F: Fingerprint> Volume<D, F> {
    /// The machine that goes on with the operation that a client has in flight.
    pub fn kind_in_flight(&self, who: u32) -> Option<FlightKind>
        requires flies { IsSome (flight_of self.now.parts who) }
        ensures { (f : KeptFlight) → Flies self.now.parts who f → result ≡ machine_of f.op }
    {
        match self.parts.flights.get(who as usize - 1) {
            Some(Some(flight)) => kind_of(&flight.op),
            _ => None,
        }
    }
}
