// Standard input and output as a source and a sink.
ghost use Rattle.std.specs.Prelude.{◌≡◌, ◌≤◌, None, IfOk};
ghost use Rattle.pm_device.specs.State.{Rose};

use dn_script::{Sink, Source};
use pm_device::Failed;
use std::io::{Read, Write};
use std::marker::Model;

// One fault more, but at the end of the type.
fn one_more(faults: u64) -> u64
    ensures counts { faults ≤ result }
    ensures rose { Rose faults result }
{
    faults.saturating_add(1)
}

/// What a program reads from, as a source that counts its faults and tells nothing of its bytes. The count is what
/// clauses see of it.
#[derive(Drop)]
pub struct StdSource<R: Read> {
    reader: R,
    faults: u64,
}

impl<R: Read> Model for StdSource<R> {
    ghost use Rattle.std.specs.Prelude.{ℕ};

    ghost Value = { ℕ };

    ghost view = { λ s. s.faults };
}

impl<R: Read> StdSource<R> {
    /// A source of what this reads, as `rt.reader()` does of standard input.
    pub fn of(reader: R) -> StdSource<R>
        ensures { result ≡ 0 }
    {
        StdSource { reader, faults: 0 }
    }
}

impl<R: Read> Source for StdSource<R> {
    ghost left = { λ _. None };

    ghost faults = { λ s. s };

    /// Each error of a read is a fault. The count of faults stays at its last value.
    fn take(&mut self, into: &mut [u8]) -> Result<usize, Failed> {
        match self.reader.read(into) {
            Ok(count) => Ok(count),
            Err(_) => {
                self.faults = one_more(self.faults);
                Err(Failed)
            }
        }
    }
}

/// What a program writes to, as a sink that counts its faults and tells nothing of its bytes. The count is what
/// clauses see of it.
#[derive(Drop)]
pub struct StdSink<W: Write> {
    writer: W,
    faults: u64,
}

impl<W: Write> Model for StdSink<W> {
    ghost use Rattle.std.specs.Prelude.{ℕ};

    ghost Value = { ℕ };

    ghost view = { λ s. s.faults };
}

impl<W: Write> StdSink<W> {
    /// A sink that writes with this, as `io::writer(&rt)` does to standard output.
    pub fn of(writer: W) -> StdSink<W>
        ensures { result ≡ 0 }
    {
        StdSink { writer, faults: 0 }
    }
}

impl<W: Write> Sink for StdSink<W> {
    ghost taken = { λ _. None };

    ghost faults = { λ s. s };

    /// Each error of a write is a fault, and so is a write of no bytes where there were some. The count of faults
    /// stays at its last value.
    fn put(&mut self, bytes: &[u8]) -> Result<usize, Failed> {
        match self.writer.write(bytes) {
            Ok(count) if count > 0 || bytes.is_empty() => Ok(count),
            _ => {
                self.faults = one_more(self.faults);
                Err(Failed)
            }
        }
    }
}
