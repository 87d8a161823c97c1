// New values are stored.
ghost use Rattle.std.specs.Prelude.{◌≡◌, ◌+◌, ◌*◌, ◌<◌, ◌≤◌, ℕ, List, length};
ghost use Rattle.pm_device.specs.Settled.{StoresOnly, KeepsFlushed, Anyone, FlushesAll};
ghost use Rattle.pm_device.specs.Reading.{IsReady};
ghost use Rattle.name_journal.specs.Changes.{AreInside, AreApart, IsNamed, NewValues};

use crate::change::Change;
use pm_device::Pm;
use pm_device::line::WORD_UNITS;
use pm_device::run::store_words;

/// The units of the device that `store_values` uses for each change.
pub const VALUE_UNITS: u64 = WORD_UNITS;

/// Stores the value of each change into its word and flushes it.
pub(crate) fn store_values<D: Pm>(device: &mut D, who: u32, changes: &[Change])
    requires inside { AreInside changes.now (length (D.state device.old).now) }
    requires apart { AreApart changes.now }
    requires few { length changes.now ≤ 4 }
    requires room { VALUE_UNITS * length changes.now ≤ (D.state device.old).spare }
    ensures only { StoresOnly (IsNamed changes.now) (D.state device.old) (D.state device.new) }
    ensures ready { IsReady who (NewValues changes.now (length changes.now)) (D.state device.new) }
    ensures keeps { KeepsFlushed Anyone (IsNamed changes.now) (D.state device.old)
        (D.state device.new) }
    ensures flushes { FlushesAll who (D.state device.old) (D.state device.new) }
    ensures spare { (D.state device.old).spare ≤ (D.state device.new).spare + VALUE_UNITS * length
        changes.now }
    ensures faults { (D.state device.old).faults ≤ (D.state device.new).faults }
{
    for change in changes {
        store_words(device, who, change.at, &[change.value]);
    }
}
