// Jobs are run on devices in memory, and texts tell what comes of it.
ghost use Rattle.std.specs.Prelude.{◌≡◌, false, IfOk};
ghost use Rattle.pm_device.specs.Settled.{Still};
ghost use Rattle.dn_volume.specs.Agrees.{Agrees};
ghost use Rattle.job_runs.specs.Scripts.{Rises, Suits};
ghost use Rattle.volume_tests.specs.Forms.{form_of};

use denova_runs::run_scripts;
use dn_check::{Finding, check_words};
use dn_report::found::{Numbers, write_faulty, write_found};
use dn_script::{JobForm, MemSource, read_job};
use dn_volume::Volume;
use fingerprint::Fingerprint;
use job_runs::{Order, Scripts};
use job_texts::{JobPlan, plan_of, run_text};
use pm_device::{MemPm, Pm};
use pm_layout::Geometry;
use recovery::format;
use std::alloc::{AllocError, Global};
use std::process::Abort;
use std::test::Fail;

/// The words that are read of a device.
pub(crate) fn words_of(alloc: Global, device: &MemPm) -> Result<Vec<u64>, AllocError> {
    device.image_at(alloc, device.moment(), 1)
}

/// A device of these words. Its fences with these numbers fail, counted from 1.
pub(crate) fn device_of(alloc: Global, words: Vec<u64>, fail_at: Vec<u64>) -> Result<MemPm, Fail>
    ensures { IfOk result (λ device. Still (⟦<MemPm as Pm>⟧.state device)) }
{
    if words.len() % 512 != 0 {
        return Err(Fail::from("no whole pages"));
    }
    let device = MemPm::of_words(alloc, words, fail_at)?;
    Ok(device)
}

/// The words of a file system without files.
pub(crate) fn formatted(alloc: Global, pages: u64, inodes: u64) -> Result<Vec<u64>, Fail> {
    let g = Geometry::of(pages, inodes)?;
    let zeros = vec![in alloc; 0u64; 512 * pages as usize]?;
    let mut device = device_of(alloc, zeros, Vec::new(alloc))?;
    format(&mut device, g)?;
    Ok(words_of(alloc, &device)?)
}

// The form of a job that is run in this order.
fn form_of(order: Order) -> JobForm
    ensures { result ≡ form_of order }
{
    match order {
        Order::InTurns => JobForm::Replay,
        Order::Alone | Order::WithRest => JobForm::Apply,
    }
}

/// The plan of a job that is run in this order.
pub(crate) fn plan_of_job(alloc: Global, job: &[u8], order: Order) -> Result<JobPlan, Fail>
    ensures rises { IfOk result (λ plan. Rises 0 plan.scripts) }
    ensures suits { IfOk result (λ plan. Suits order plan.scripts) }
{
    let text = Vec::from_slice(alloc, job)?;
    let mut source = MemSource::of(text, Vec::new(alloc));
    let job = read_job(alloc, &mut source, form_of(order))?;
    let plan = plan_of(alloc, job)?;
    Ok(plan)
}

/// The volume of these words on which scripts were run, and all work was drained.
pub(crate) fn run_on<F: Fingerprint + Drop>(
    alloc: Global,
    words: Vec<u64>,
    print: F,
    scripts: &Scripts,
    turns: &[u32],
    order: Order,
) -> Result<Volume<MemPm, F>, Fail>
    requires clients { Rises 0 scripts.now }
    requires suits { Suits order scripts.now }
    ensures agrees { IfOk result (λ v. Agrees (⟦<MemPm as Pm>⟧.state) v) }
    ensures running { IfOk result (λ v. v.parts.stopped ≡ false) }
{
    let device = device_of(alloc, words, Vec::new(alloc))?;
    match run_scripts(alloc, device, print, scripts, turns, order) {
        Ok(v) => Ok(v),
        Err((end, _device)) => Err(end)?,
    }
}

/// The volume of these words on which a job was run, and the text of the run.
pub(crate) fn run_job<F: Fingerprint + Drop>(
    alloc: Global,
    words: Vec<u64>,
    print: F,
    job: &str,
    order: Order,
) -> Result<(Volume<MemPm, F>, Vec<u8>), Fail>
    ensures agrees { IfOk result (λ r. Agrees (⟦<MemPm as Pm>⟧.state) r.0) }
    ensures running { IfOk result (λ r. r.0.parts.stopped ≡ false) }
{
    let plan = plan_of_job(alloc, job.as_bytes(), order)?;
    let v = run_on(alloc, words, print, &plan.scripts, &plan.turns, order)?;
    let told = run_text(alloc, &plan.numbers, v.history(), v.free_pages())?;
    Ok((v, told))
}

/// The words that a job leaves on an image of 64 pages and 8 inodes without files.
pub(crate) fn words_after<F: Fingerprint + Drop>(
    alloc: Global,
    print: F,
    job: &str,
) -> Result<Vec<u64>, Fail> {
    let empty = formatted(alloc, 64, 8)?;
    let (v, _told) = run_job(alloc, empty, print, job, Order::Alone)?;
    Ok(words_of(alloc, v.device())?)
}

/// The text of what is found of words.
pub(crate) fn found(alloc: Global, words: Vec<u64>) -> Result<Vec<u8>, AllocError> {
    let mut text = Vec::new(alloc);
    match check_words(alloc, words)? {
        Finding::Fault(fault) => write_faulty(&mut text, fault)?,
        Finding::Sound {
            files,
            dying,
            rows,
            mapped,
            free,
            exact,
        } => {
            let numbers = Numbers {
                files,
                dying,
                mapped,
                free,
                exact,
            };
            write_found(&mut text, numbers, rows.rows())?;
        }
    }
    Ok(text)
}

/// Texts are the same.
pub(crate) fn expect_text(rt: &impl Abort, name: &str, told: Vec<u8>, want: &str) {
    match String::from_utf8(told) {
        Ok(text) => assert!(rt; text.as_str() == want, "{name}: told {text} and not {want}"),
        Err(_) => panic!(rt; "{name}: no text"),
    }
}
