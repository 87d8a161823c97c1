// Turns of actors.
ghost use Rattle.std.specs.Prelude.{◌≡◌, if◌then◌else◌, [], ◌∷◌};
ghost use Rattle.dn_core.specs.declared.event.Event.{Event as MadeEvent};
ghost use Rattle.job_runs.specs.Turns.{is_idle as was_idle, rest_after};
ghost use Rattle.job_runs.specs.Player.{turn_for};

use crate::plan::Order;
use dn_core::Event;
use dn_volume::Outcome;

/// An event without its operation.
#[derive(Clone, Copy, Debug, PartialEq, Eq)]
pub(crate) enum Turn {
    /// A client begins its next operation.
    Begin {
        /// The client.
        who: u32,
    },
    /// A client goes on with its operation.
    Advance {
        /// The client.
        who: u32,
    },
    /// The daemon shares pages.
    Daemon,
    /// Reclaim releases pages.
    Reclaim,
}

/// The turn of this event.
pub(crate) fn turn_of(event: &Event) -> Turn
    ensures { result ≡ turn_for event.now }
{
    match event {
        Event::Begin { who, .. } => Turn::Begin { who: *who },
        Event::Advance { who } => Turn::Advance { who: *who },
        Event::Daemon => Turn::Daemon,
        Event::Reclaim => Turn::Reclaim,
    }
}

/// Whether there was nothing to do.
pub(crate) fn is_idle(outcome: &Outcome) -> bool
    ensures { result ≡ was_idle outcome.now }
{
    match outcome {
        Outcome::Idle => true,
        _ => false,
    }
}

/// Whether the daemon and reclaim come next: where they go along with a client, behind an answer, and behind a begin that
/// somebody held up.
pub(crate) fn has_rest(order: Order, turn: Turn, outcome: &Outcome) -> bool
    ensures { (event : MadeEvent) → turn ≡ turn_for event
        → rest_after order event outcome.now ≡ (if result then 15 ∷ 16 ∷ [] else []) }
{
    match (order, turn, outcome) {
        (Order::WithRest, Turn::Begin { .. } | Turn::Advance { .. }, Outcome::Done(_)) => true,
        (Order::WithRest, Turn::Begin { .. }, Outcome::Busy { .. }) => true,
        _ => false,
    }
}
