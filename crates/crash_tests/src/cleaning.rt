// A log is cleaned, and crashed at every moment of that.
ghost use Rattle.dn_volume.specs.Agrees.{Agrees};

use crate::asks::{Ask, files_after};
use crate::courses::{Mark, Moments, Went, make};
use crate::opening::{open, prepared};
use crate::operations::{Ran, look_at_mounts};
use dn_core::Event;
use dn_volume::Volume;
use fingerprint::{Fingerprint, Sha1Print};
use pm_device::Pm;
use std::alloc::{AllocError, Global};
use std::test::Fail;

// More events than a cleaning here takes.
const MOST_EVENTS: u32 = 100;

// A file whose first page was filled 64 times: of its log's two pages one item counts.
fn filled_often(alloc: Global) -> Result<Vec<Ask>, AllocError> {
    let mut script = Vec::new(alloc);
    script.push(Ask::Create("f"))?;
    script.append(&mut vec![in alloc; Ask::Fill("f", 0, 4096, 0x41); 64]?)?;
    Ok(script)
}

// Events of reclaim until it has nothing to do: how many got on.
fn reclaim_all<D: Pm + Moments, F: Fingerprint>(
    alloc: Global,
    v: &mut Volume<D, F>,
    marks: &mut Vec<Mark>,
) -> Result<u32, Fail>
    requires { Agrees D.state v.old }
    ensures { Agrees D.state v.new }
{
    for count in 0..MOST_EVENTS {
        match make(alloc, v, Event::Reclaim, marks)? {
            Went::On => {}
            Went::Idle => return Ok(count),
            _ => return Err(Fail::from("reclaim was held up")),
        }
    }
    Err(Fail::from("too many events"))
}

// Its begin, the new log's page, and its end.
#[test]
fn a_log_is_cleaned(rt: HostRuntime) -> Result<(), Fail> {
    let alloc = rt.alloc();
    let script = filled_often(alloc)?;
    let words = prepared(&rt, alloc, &script, Sha1Print, false)?;
    let mut v = open(&rt, alloc, words, Sha1Print)?;
    let mut marks = Vec::new(alloc);
    let count = reclaim_all(alloc, &mut v, &mut marks)?;
    assert_eq!(rt; count, 3);
    let mut files = Vec::new(alloc);
    files.push(files_after(alloc, &script)?)?;
    let device = v.into_device();
    let ran = Ran {
        device,
        marks,
        files,
    };
    let known = ran.look_all(&rt, alloc, Sha1Print)?;
    let count = look_at_mounts(&rt, alloc, &known, &ran.files, Sha1Print)?;
    assert!(rt; count > 0);
    Ok(())
}
