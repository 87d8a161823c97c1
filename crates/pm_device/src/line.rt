// A line, or a word of one, is stored and flushed.
ghost use Rattle.std.specs.Prelude.{◌≡◌, ◌+◌, ◌*◌, ◌/◌, ◌<◌, ◌≤◌, ℕ, List, [], ◌∷◌, length};
ghost use Rattle.pm_device.specs.Settled.{FlushesAll};
ghost use Rattle.pm_device.specs.Lines.{StoresRun};

use crate::Pm;

/// The units of the device that `store_line` uses: one for each of 8 words, and one for their line.
pub const LINE_UNITS: u64 = 9;

/// The units of the device that `store_word` uses: one for the word, and one for its line.
pub const WORD_UNITS: u64 = 2;

/// Stores the eight words of a line and flushes it. It uses `LINE_UNITS`.
pub fn store_line<D: Pm>(device: &mut D, who: u32, line: u64, words: &[u64])
    requires small { line < 4194304 }
    requires whole { length words.now ≡ 8 }
    requires inside { 8 * line + 8 ≤ length (D.state device.old).now }
    requires room { LINE_UNITS ≤ (D.state device.old).spare }
    ensures stores { StoresRun who (8 * line) words.now (D.state device.old) (D.state device.new) }
    ensures flushes { FlushesAll who (D.state device.old) (D.state device.new) }
    ensures spare { (D.state device.old).spare ≤ (D.state device.new).spare + LINE_UNITS }
    ensures faults { (D.state device.old).faults ≤ (D.state device.new).faults }
{
    device.store_run(8 * line, words);
    device.flush(who, line, 1);
}

/// Stores one word and flushes its line. It uses `WORD_UNITS`.
pub fn store_word<D: Pm>(device: &mut D, who: u32, at: u64, value: u64)
    requires inside { at / 8 * 8 + 8 ≤ length (D.state device.old).now }
    requires room { WORD_UNITS ≤ (D.state device.old).spare }
    ensures stores { StoresRun who at (value ∷ []) (D.state device.old) (D.state device.new) }
    ensures flushes { FlushesAll who (D.state device.old) (D.state device.new) }
    ensures spare { (D.state device.old).spare ≤ (D.state device.new).spare + WORD_UNITS }
    ensures faults { (D.state device.old).faults ≤ (D.state device.new).faults }
{
    device.store(at, value);
    device.flush(who, at / 8, 1);
}
