// Real files, opened again; and a file whose writes fail.
ghost use Rattle.std.specs.Prelude.{IsErr};

use super::FilePm;
use crate::OpenFault;
use pm_device::{Failed, Pm};
use std::fs::{Metadata, OpenFile};
use std::os::unix::fs::FileExt;
use std::test::Fail;
use std::{fs, io};

#[test]
fn keeps_what_was_fenced(rt: HostRuntime) -> Result<(), Fail> {
    let mut device = FilePm::open(&rt, "image", Some(3))?;
    assert!(rt; device.words() == 1536);
    device.ready(1000)?;
    device.store(5, 0x0102030405060708);
    device.store(100, 7);
    device.store_run(8, &[9; 600]);
    assert!(rt; device.words() == 1536);
    device.flush(1, 0, 1);
    device.flush(2, 1, 75);
    let zeros = fs::read(&rt, "image")?;
    assert_eq!(rt; zeros.iter().filter(|byte| **byte != 0).count(), 0);
    device.fence(1)?;
    let bytes = fs::read(&rt, "image")?;
    assert_eq!(rt; bytes.len(), 12288);
    assert_eq!(rt;
        bytes.get(40..48),
        Some([8, 7, 6, 5, 4, 3, 2, 1].as_slice())
    );
    let again = FilePm::open(&rt, "image", None)?;
    assert!(rt; again.words() == 1536);
    for at in 0..1536 {
        let value = if at == 5 { 0x0102030405060708 } else { 0 };
        assert_eq!(rt; again.load(at), value, "at {at}, before the second fence");
    }
    device.fence(2)?;
    let last = FilePm::open(&rt, "image", None)?;
    assert!(rt; last.words() == 1536);
    for at in 0..1536 {
        assert_eq!(rt; last.load(at), device.load(at), "at {at}");
    }
    assert_eq!(rt; last.load(100), 9);
    Ok(())
}

#[test]
fn refuses_bad_files(rt: HostRuntime) -> Result<(), Fail> {
    let refused = [("missing", None), ("missing/image", Some(1)), (".", None)];
    for (path, wanted) in refused {
        assert!(rt;
            matches!(FilePm::open(&rt, path, wanted), Err(OpenFault::Refused)),
            "{path}"
        );
    }
    for bytes in [0, 1, 4095, 4097, 268_435_457, 268_439_552] {
        let file = fs::create(&rt, "image")?;
        file.set_len(bytes)?;
        assert!(rt;
            matches!(FilePm::open(&rt, "image", None), Err(OpenFault::BadLength { bytes: found }) if found == bytes),
            "{bytes}"
        );
    }
    for (pages, bytes) in [(0, 0), (65_537, 268_439_552), (u64::MAX, u64::MAX)] {
        assert!(rt;
            matches!(FilePm::open(&rt, "other", Some(pages)), Err(OpenFault::BadLength { bytes: found }) if found == bytes),
            "{pages} pages"
        );
    }
    assert!(rt; fs::read(&rt, "other").is_err(), "no file is made");
    fs::remove_file(&rt, "image")?;
    Ok(())
}

// A file that takes nothing.
#[derive(Drop)]
struct Broken;

fn fault<T>() -> io::Result<T>
    ensures { IsErr result }
{
    Err(io::Error::from(io::ErrorKind::Other))
}

impl FileExt for Broken {
    fn read_at(&self, _buf: &mut [u8], _offset: u64) -> io::Result<usize> {
        fault()
    }

    fn write_at(&self, _buf: &[u8], _offset: u64) -> io::Result<usize> {
        fault()
    }
}

impl OpenFile for Broken {
    fn metadata(&self) -> io::Result<Metadata> {
        fault()
    }

    fn set_len(&self, _size: u64) -> io::Result<()> {
        fault()
    }

    fn sync_all(&self) -> io::Result<()> {
        fault()
    }

    fn sync_data(&self) -> io::Result<()> {
        fault()
    }
}

#[test]
fn counts_faults(rt: HostRuntime) -> Result<(), Fail> {
    let mut device = FilePm {
        file: Broken,
        words: vec![in rt.alloc(); 0; 512]?,
        flushed: Vec::new(rt.alloc()),
        faults: u64::MAX - 1,
    };
    device.ready(10)?;
    device.flush(1, 0, 1);
    assert_eq!(rt; device.fence(1), Err(Failed));
    assert_eq!(rt; device.faults, u64::MAX);
    assert_eq!(rt; device.flushed.len(), 0);
    device.ready(10)?;
    device.flush(1, 0, 1);
    assert_eq!(rt; device.fence(1), Err(Failed));
    assert_eq!(rt; device.faults, u64::MAX, "the last value stays");
    Ok(())
}
