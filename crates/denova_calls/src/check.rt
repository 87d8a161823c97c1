// An image is checked.
ghost use Rattle.std.specs.Prelude.{◌≡◌, IfOk};
ghost use Rattle.dn_check.specs.Finding.{Tells};
ghost use Rattle.denova_calls.specs.Ends.{CheckEnds};
ghost use Rattle.denova_calls.specs.Steps.{finding_text, FindingEnds};

use crate::words::words_of;
use call_endings::Ending;
use dn_check::{Finding, check_words};
use dn_report::found::{Numbers, write_faulty, write_found};
use pm_device::Pm;
use std::alloc::{AllocError, Global};

// What is found of the image of a device.
fn find<D: Pm>(alloc: Global, device: &D) -> Result<Finding, AllocError>
    ensures { IfOk result (Tells (D.state device.now).now) }
{
    let words = words_of(alloc, device)?;
    check_words(alloc, words)
}

// The text of a finding.
fn text_of(alloc: Global, finding: &Finding) -> Result<Vec<u8>, AllocError>
    ensures { IfOk result (λ text. text.items ≡ finding_text finding.now) }
{
    let mut text = Vec::new(alloc);
    match finding {
        Finding::Fault(fault) => write_faulty(&mut text, *fault)?,
        Finding::Sound {
            files,
            dying,
            rows,
            mapped,
            free,
            exact,
        } => {
            let numbers = Numbers {
                files: *files,
                dying: *dying,
                mapped: *mapped,
                free: *free,
                exact: *exact,
            };
            write_found(&mut text, numbers, rows.rows())?;
        }
    }
    Ok(text)
}

// How a check ends with a finding.
fn ending_of(alloc: Global, finding: &Finding) -> Ending
    ensures { FindingEnds finding.now result }
{
    match text_of(alloc, finding) {
        Ok(text) => match finding {
            Finding::Fault(_) => Ending::Faulty(text),
            Finding::Sound { .. } => Ending::Done(text),
        },
        Err(_) => Ending::NoMemory,
    }
}

/// Looks for the first fault of the image that a device holds, and counts its files and pages where it has none. The
/// device is only read.
pub fn check_image<D: Pm>(alloc: Global, device: &D) -> Ending
    ensures { CheckEnds (D.state device.now).now result }
{
    match find(alloc, device) {
        Ok(finding) => ending_of(alloc, &finding),
        Err(_) => Ending::NoMemory,
    }
}
