// The files of an image are listed, or one of them is shown.
ghost use Rattle.std.specs.Prelude.{◌≡◌, ◌≤◌, false};
ghost use Rattle.pm_device.specs.Settled.{Still};
ghost use Rattle.dn_volume.specs.Agrees.{Agrees};
ghost use Rattle.denova_calls.specs.LookEnds.{ListEnds, CatEnds};
ghost use Rattle.denova_calls.specs.LookSteps.{RefusedEnds, ListedEnds, FoundEnds, ShownEnds};

use crate::mounted::mounted;
use call_endings::Ending;
use dn_report::report::{Cause, write_refused};
use dn_volume::Volume;
use file_looks::{file_bytes, list_text};
use fingerprint::Fingerprint;
use log_entry::{Name, NameFault};
use pm_device::Pm;
use std::alloc::Global;

// What a call comes to that was refused.
fn refused(alloc: Global, cause: Cause) -> Ending
    ensures { RefusedEnds cause result }
{
    let mut text = Vec::new(alloc);
    match write_refused(&mut text, cause) {
        Ok(()) => Ending::Refused(text),
        Err(_) => Ending::NoMemory,
    }
}

// The list of a volume's files.
fn listed<D: Pm, F: Fingerprint>(alloc: Global, v: &Volume<D, F>) -> Ending
    requires agrees { Agrees D.state v.now }
    requires running { v.now.parts.stopped ≡ false }
    ensures { ListedEnds D.state v.now result }
{
    match list_text(alloc, v) {
        Ok(text) => Ending::Done(text),
        Err(_) => Ending::NoMemory,
    }
}

// The bytes of a volume's file of a legal name.
fn found<D: Pm, F: Fingerprint>(alloc: Global, v: &Volume<D, F>, name: &[u8]) -> Ending
    requires agrees { Agrees D.state v.now }
    requires running { v.now.parts.stopped ≡ false }
    ensures { FoundEnds D.state v.now name.now result }
{
    match file_bytes(alloc, v, name) {
        Ok(Some(bytes)) => Ending::Done(bytes),
        Ok(None) => refused(alloc, Cause::NotFound),
        Err(_) => Ending::NoMemory,
    }
}

// The bytes of a volume's file of a name.
fn shown<D: Pm, F: Fingerprint>(alloc: Global, v: &Volume<D, F>, name: &[u8]) -> Ending
    requires agrees { Agrees D.state v.now }
    requires running { v.now.parts.stopped ≡ false }
    ensures { ShownEnds D.state v.now name.now result }
{
    match Name::of(alloc, name) {
        Ok(_) => found(alloc, v, name),
        Err(NameFault::Illegal) => refused(alloc, Cause::BadName),
        Err(NameFault::NoMemory) => Ending::NoMemory,
    }
}

/// Mounts the image of a still device and lists its files in the order of their names: a line for each with its size, the
/// SHA-1 digest of its bytes and its name, and a last line that tells how many there are. A crash at any moment leaves an
/// image with the same files.
///
/// `Faulty` comes exactly where the image has a fault and the mount didn't fail before, `Failed` only where a fence of the
/// device failed, and `NoMemory` where memory ran out.
pub fn list<D: Pm, F: Fingerprint + Drop>(alloc: Global, device: D, print: F) -> (Ending, D)
    requires still { Still (D.state device) }
    ensures ends { ListEnds F.print (D.state device) (D.state result.1) result.0 }
    ensures faults { (D.state device).faults ≤ (D.state result.1).faults }
{
    match mounted(alloc, device, print) {
        Ok(v) => {
            let ending = listed(alloc, &v);
            (ending, v.into_device())
        }
        Err(back) => back,
    }
}

/// Mounts the image of a still device and shows the bytes of the file with this name. A crash at any moment leaves an image
/// with the same files.
///
/// Once the image is mounted, `Refused` comes exactly where no file can have the name, or none has it. `Faulty`, `Failed`
/// and `NoMemory` come as in `list`.
pub fn cat<D: Pm, F: Fingerprint + Drop>(
    alloc: Global,
    device: D,
    print: F,
    name: &[u8],
) -> (Ending, D)
    requires still { Still (D.state device) }
    ensures ends { CatEnds F.print name.now (D.state device) (D.state result.1) result.0 }
    ensures faults { (D.state device).faults ≤ (D.state result.1).faults }
{
    match mounted(alloc, device, print) {
        Ok(v) => {
            let ending = shown(alloc, &v, name);
            (ending, v.into_device())
        }
        Err(back) => back,
    }
}
