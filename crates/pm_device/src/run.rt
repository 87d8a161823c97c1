// A run of words is written whole.
ghost use Rattle.std.specs.Prelude.{◌≡◌, ◌+◌, ◌*◌, ◌/◌, ◌<◌, ◌≤◌, ℕ, List, length, slice_index};
ghost use Rattle.pm_device.specs.Settled.{StoresOnly, KeepsFlushed, Anyone, FlushesAll, LeavesOldOr};
ghost use Rattle.pm_device.specs.Words.{IsIn};
ghost use Rattle.pm_device.specs.Pages.{HoldsRun, SaysRun, lines_of};

use crate::Pm;

/// Stores a run of words from word `at` on and flushes its lines, so that this actor's next fence that succeeds
/// settles them. It uses one unit for each word, and one for each line of 8 words that the run touches. At each moment
/// on the way a crash leaves of each word of the run an old value or the new one.
pub fn store_words<D: Pm>(device: &mut D, who: u32, at: u64, values: &[u64])
    requires some { 1 ≤ length values.now }
    requires inside { 8 * (at / 8 + lines_of at (length values.now)) ≤ length
        (D.state device.old).now }
    requires room { length values.now + lines_of at (length values.now) ≤ (D.state device.old).spare }
    ensures only { StoresOnly (IsIn at (length values.now)) (D.state device.old)
        (D.state device.new) }
    ensures holds { HoldsRun who at values.now (D.state device.new) }
    ensures keeps { KeepsFlushed Anyone (IsIn at (length values.now)) (D.state device.old)
        (D.state device.new) }
    ensures leaves { LeavesOldOr (SaysRun at values.now) (D.state device.old) (D.state device.new) }
    ensures flushes { FlushesAll who (D.state device.old) (D.state device.new) }
    ensures faults { (D.state device.old).faults ≤ (D.state device.new).faults }
    ensures spare { (D.state device.old).spare ≤ (D.state device.new).spare + length values.now +
        lines_of at (length values.now) }
{
    let lines = (at % 8 + values.len() as u64 + 7) / 8;
    device.store_run(at, values);
    device.flush(who, at / 8, lines);
}
