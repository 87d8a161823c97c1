// The standard streams as a source and a sink.
ghost use Rattle.std.specs.Prelude.{◌≤◌, IfOk};

use denova_main::streams::{StdSink, StdSource};
use dn_script::{Sink, Source};
use pm_device::Failed;
use std::io;
use std::io::{Read, Write};
use std::test::Fail;

// Moves two bytes a call, but for the second call, which fails, and the third, which moves none.
#[derive(Drop)]
struct Broken {
    calls: u8,
}

impl Broken {
    fn next(&mut self, most: usize) -> io::Result<usize>
        ensures { IfOk result (λ n. n ≤ most) }
    {
        self.calls = self.calls.saturating_add(1);
        match self.calls {
            2 => Err(io::Error::from(io::ErrorKind::Other)),
            3 => Ok(0),
            _ => Ok(most.min(2)),
        }
    }
}

impl Read for Broken {
    fn read(&mut self, buf: &mut [u8]) -> io::Result<usize> {
        self.next(buf.len())
    }
}

impl Write for Broken {
    fn write(&mut self, buf: &[u8]) -> io::Result<usize> {
        self.next(buf.len())
    }

    fn flush(&mut self) -> io::Result<()> {
        Ok(())
    }
}

#[test]
fn faults_are_answered_once(rt: HostRuntime) -> Result<(), Fail> {
    let mut source = StdSource::of(Broken { calls: 0 });
    for want in [Ok(2), Err(Failed), Ok(0), Ok(2)] {
        assert_eq!(rt; source.take(&mut [0u8; 4]), want);
    }
    let mut sink = StdSink::of(Broken { calls: 0 });
    for want in [Ok(2), Err(Failed), Err(Failed), Ok(2)] {
        assert_eq!(rt; sink.put(b"abc"), want);
    }
    assert_eq!(rt; sink.put(&[]), Ok(0));
    assert_eq!(rt; StdSource::of(rt.reader()).take(&mut [0u8; 0]), Ok(0));
    assert_eq!(rt; StdSink::of(io::writer(&rt)).put(b"\n"), Ok(1));
    Ok(())
}
