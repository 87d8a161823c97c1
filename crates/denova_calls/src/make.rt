// A file system is made.
ghost use Rattle.std.specs.Prelude.{◌≡◌, ◌-◌, ◌≤◌, IfOk};
ghost use Rattle.pm_device.specs.Settled.{Still};
ghost use Rattle.pm_layout.specs.Geometry.{IsAccepted, first_data};
ghost use Rattle.dn_report.specs.Report.{formatted_text, refused_text};
ghost use Rattle.denova_calls.specs.Ends.{MakeEnds};
ghost use Rattle.denova_calls.specs.Steps.{cause_of, RefusalEnds};

use call_endings::Ending;
use dn_report::report::{Cause, write_formatted, write_refused};
use pm_device::Pm;
use pm_layout::{Geometry, GeometryFault};
use recovery::{FormatFault, format};
use std::alloc::{AllocError, Global};

// The text of a file system with this geometry.
fn formatted(alloc: Global, g: &Geometry) -> Result<Vec<u8>, AllocError>
    requires { IsAccepted g.now }
    ensures { IfOk result (λ text. text.items
        ≡ formatted_text g.now.pages g.now.inodes (g.now.pages - first_data g.now)) }
{
    let mut text = Vec::new(alloc);
    write_formatted(&mut text, g.pages, g.inodes, g.pages - g.first_data())?;
    Ok(text)
}

// The text of a cause.
fn refused_for(alloc: Global, cause: Cause) -> Result<Vec<u8>, AllocError>
    ensures { IfOk result (λ text. text.items ≡ refused_text cause) }
{
    let mut text = Vec::new(alloc);
    write_refused(&mut text, cause)?;
    Ok(text)
}

// How a call ends that is refused for a cause.
fn refused(alloc: Global, cause: Cause) -> Ending
    ensures { RefusalEnds cause result }
{
    match refused_for(alloc, cause) {
        Ok(text) => Ending::Refused(text),
        Err(_) => Ending::NoMemory,
    }
}

// Makes a file system of this geometry.
fn make<D: Pm>(alloc: Global, device: &mut D, g: Geometry) -> Ending
    requires accepted { IsAccepted g }
    requires still { Still (D.state device.old) }
    ensures ends { MakeEnds g.pages g.inodes (D.state device.old) (D.state device.new) result }
    ensures faults { (D.state device.old).faults ≤ (D.state device.new).faults }
{
    let Ok(text) = formatted(alloc, &g) else {
        return Ending::NoMemory;
    };
    match format(device, g) {
        Ok(()) => Ending::Done(text),
        Err(FormatFault::WrongSize { words }) => refused(alloc, Cause::WrongSize { words }),
        Err(FormatFault::Failed) => Ending::Failed,
        Err(FormatFault::NoMemory) => Ending::NoMemory,
    }
}

// The cause that a geometry's numbers are refused for.
fn cause_of(fault: GeometryFault) -> Cause
    ensures { result ≡ cause_of fault }
{
    match fault {
        GeometryFault::TooFewPages => Cause::TooFewPages,
        GeometryFault::TooManyPages => Cause::TooManyPages,
        GeometryFault::BadInodes => Cause::BadInodes,
    }
}

/// Makes a file system with so many pages and inodes, and without files, on a device of that size. The device's words
/// are lost.
pub fn make_image<D: Pm>(alloc: Global, device: &mut D, pages: u64, inodes: u64) -> Ending
    requires still { Still (D.state device.old) }
    ensures ends { MakeEnds pages inodes (D.state device.old) (D.state device.new) result }
    ensures faults { (D.state device.old).faults ≤ (D.state device.new).faults }
{
    match Geometry::of(pages, inodes) {
        Ok(g) => make(alloc, device, g),
        Err(fault) => refused(alloc, cause_of(fault)),
    }
}
