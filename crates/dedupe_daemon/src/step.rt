// What comes next at a place that was looked up.
ghost use Rattle.std.specs.Prelude.{◌≡◌, ◌^◌, ◌<◌, ◌≤◌, ℕ, Some, vec_len, vec_capacity};
ghost use Rattle.dn_volume.specs.declared.background.Sharing.{Sharing as KeptSharing};
ghost use Rattle.dn_volume.specs.Works.{sharing_events, step_events};
ghost use Rattle.dedupe_daemon.specs.Looked.{IsLooking};
ghost use Rattle.dedupe_daemon.specs.Stepped.{Looks};

use dn_volume::{CountChange, Parts, Sharing, SharingStep};

// The item, with this to come next at its place.
pub(crate) fn at_step(sharing: Sharing, step: SharingStep) -> Sharing
    ensures { result ≡ record sharing { step = step } }
{
    Sharing {
        work: sharing.work,
        first: sharing.first,
        count: sharing.count,
        done: sharing.done,
        step,
    }
}

// The place was looked up: this comes next at it. The row at the slot has this word, and so many units are no longer
// owed.
pub(crate) fn note_looked(parts: &mut Parts, step: SharingStep, slot: u64, word: u64, units: u64)
    requires look { (sharing : KeptSharing) × IsLooking parts.old sharing }
    requires trace { vec_len parts.old.trace < vec_capacity parts.old.trace }
    requires units { units ≤ parts.old.owed.units }
    requires changes { 1 ≤ parts.old.owed.trace }
    ensures looks { Looks step slot word units parts.old parts.new }
    ensures fact { parts.new.fact ≡ parts.old.fact }
{
    if let Some(sharing) = parts.sharing {
        parts.sharing = Some(at_step(sharing, step));
    }
    parts.trace.push_reserved(CountChange { slot, word });
    parts.made = parts.made.saturating_add(1);
    parts.owed.units -= units;
    parts.owed.trace -= 1;
}

// How many events are left at a place of which this comes next.
fn step_left(step: SharingStep) -> u64
    ensures { result ≡ step_events step }
{
    match step {
        SharingStep::Look => 3,
        SharingStep::Remap { .. } => 2,
        SharingStep::Settle { inserted, .. } => { if inserted { 2 } else { 1 } }
    }
}

// How many events are left of the item that the daemon has begun.
pub(crate) fn events_left(parts: &Parts) -> u64
    requires { (sharing : KeptSharing) ×
        ((parts.now.sharing ≡ Some sharing) × (sharing.count < 2 ^ 32)) }
    ensures { result ≡ sharing_events parts.now.sharing }
{
    match parts.sharing {
        Some(sharing) => {
            if sharing.done < sharing.count {
                3 * (sharing.count - sharing.done - 1) + step_left(sharing.step) + 1
            } else {
                1
            }
        }
        None => unreachable!(),
    }
}
