// Generated work as a script, and the text of its run.
ghost use Rattle.std.specs.Prelude.{◌≡◌, false, length, IfOk, OnOk};
ghost use Rattle.dn_model.specs.Disk.{Disk};
ghost use Rattle.dn_report.specs.Listing.{work_text};
ghost use Rattle.dn_volume.specs.Agrees.{Agrees, IsVolume};
ghost use Rattle.job_runs.specs.Scripts.{Rises, IsAlone};
ghost use Rattle.job_texts.specs.Plan.{work_scripts, work_numbers};

use crate::counting::{count_files, count_mapped, count_rows};
use crate::plan::LineNumbers;
use dn_report::listing::{WorkDone, done_in, write_work};
use dn_script::{Numbers, generated};
use dn_volume::Volume;
use fingerprint::Fingerprint;
use job_runs::{Script, Scripts};
use pm_device::Pm;
use std::alloc::{AllocError, Global};

/// Generated work, as the script of client 1: as many operations as the number, which also seeds them.
///
/// # Errors
/// `AllocError` where there is no memory for the operations.
pub fn work_plan(alloc: Global, number: u64) -> Result<Scripts, AllocError>
    ensures scripts { IfOk result (λ scripts. scripts ≡ work_scripts number) }
    ensures rises { IfOk result (λ scripts. Rises 0 scripts) }
    ensures alone { IfOk result (λ scripts. IsAlone scripts) }
{
    let ops = generated(alloc, number)?;
    Ok(Scripts::of(vec![in alloc; (1, Script::of(ops))]?))
}

/// The numbers by which the operations of generated work are told: each by its place in the script, from 1.
///
/// # Errors
/// `AllocError` where there is no memory for the numbers.
pub fn work_numbers(alloc: Global, number: u64) -> Result<LineNumbers, AllocError>
    ensures { IfOk result (λ numbers. numbers ≡ work_numbers number) }
{
    let mut numbers = Vec::new(alloc);
    for before in 0..number {
        numbers.push(before + 1)?;
    }
    Ok(LineNumbers::of(vec![in alloc; (1, Numbers::of(numbers))]?))
}

/// The text of generated work of this number, once it was run on a volume: how many operations were done and refused, and
/// the files, the rows, the mapped pages and the free pages in the end. Pages that an operation in flight took count as
/// used.
///
/// # Errors
/// `AllocError` where there is no memory for the text, or for a mark for each page of the image.
pub fn work_text<D: Pm, F: Fingerprint>(
    alloc: Global,
    v: &Volume<D, F>,
    number: u64,
) -> Result<Vec<u8>, AllocError>
    requires agrees { Agrees D.state v.now }
    requires running { v.now.parts.stopped ≡ false }
    ensures { IfOk result (λ text. (d : Disk) → IsVolume d v.now.parts (D.state v.now.device)
        → text.items ≡ work_text number v.now.parts.history.items d
        (length v.now.parts.free.free)) }
{
    let done = done_in(v.history());
    let work = WorkDone {
        done,
        refused: v.history().len() as u64 - done,
        files: count_files(v),
        rows: count_rows(v),
        mapped: count_mapped(alloc, v)?,
        free: v.free_pages(),
    };
    let mut text = Vec::new(alloc);
    write_work(&mut text, number, work)?;
    Ok(text)
}
