// Eight files of 40 pages each, most of which they share, on an image of 1,024 pages and 64 inodes.
ghost use Rattle.std.specs.Prelude.{◌≡◌, false, IfOk};
ghost use Rattle.dn_volume.specs.Agrees.{Agrees};

use crate::harness::{formatted, found, plan_of_job, run_on, words_of};
use dn_model::Reply;
use dn_volume::Volume;
use file_looks::file_bytes;
use fingerprint::{Fingerprint, Sha1Print};
use job_runs::Order;
use pm_device::{MemPm, Pm};
use std::alloc::{AllocError, Global};
use std::process::Abort;
use std::test::Fail;

// Appends a line that writes so many pages of a file, from a page on. Page k has bytes k + 1.
fn write_pages(
    alloc: Global,
    job: &mut String,
    file: u64,
    first: u64,
    count: u64,
) -> Result<(), AllocError> {
    let at = first.saturating_mul(4096);
    let head = format!(in alloc; "write f{file} {at} ")?;
    job.push_str(head.as_str())?;
    for page in first..first.saturating_add(count) {
        let byte = page.saturating_add(1);
        let digits = format!(in alloc; "{byte:02x}")?;
        for _ in 0..4096 {
            job.push_str(digits.as_str())?;
        }
    }
    job.push_str("\n")
}

// Appends the lines that make a file.
fn make_file(alloc: Global, job: &mut String, file: u64) -> Result<(), AllocError> {
    let made = format!(in alloc; "create f{file}\n")?;
    job.push_str(made.as_str())?;
    for (first, count) in [(0, 16), (16, 16), (32, 8)] {
        write_pages(alloc, job, file, first, count)?;
    }
    Ok(())
}

// Appends the line that gives a file a page of its own.
fn write_own(alloc: Global, job: &mut String, file: u64) -> Result<(), AllocError> {
    let at = file.saturating_sub(1).saturating_mul(4096);
    let byte = file.saturating_add(128);
    let own = format!(in alloc; "fill f{file} {at} 4096 {byte:02x}\n")?;
    job.push_str(own.as_str())
}

// The job of one client that makes all files, and then gives each its own page.
fn job_of_one(alloc: Global) -> Result<String, AllocError> {
    let mut job = String::new(alloc);
    for file in 1..9 {
        make_file(alloc, &mut job, file)?;
    }
    for file in 1..9 {
        write_own(alloc, &mut job, file)?;
    }
    Ok(job)
}

// The job of eight clients, each with its own file.
fn job_of_eight(alloc: Global) -> Result<String, AllocError> {
    let mut job = String::new(alloc);
    for file in 1..9 {
        let client = format!(in alloc; "client {file}\n")?;
        job.push_str(client.as_str())?;
        make_file(alloc, &mut job, file)?;
        write_own(alloc, &mut job, file)?;
    }
    Ok(job)
}

// So many turns of the eight clients, the daemon and reclaim, in an order that a number tells by a linear rule.
fn turns_of(alloc: Global, seed: u64, turns: u32) -> Result<Vec<u32>, AllocError> {
    let mut all = Vec::new(alloc);
    let mut x = seed;
    for _ in 0..turns {
        x = x
            .wrapping_mul(6364136223846793005)
            .wrapping_add(1442695040888963407);
        let who = ((x >> 33) % 10) as u32 + 1;
        all.push(if who > 8 { who + 6 } else { who })?;
    }
    Ok(all)
}

// The volume after a job, on an image without files.
fn run(
    alloc: Global,
    job: &String,
    turns: &[u32],
    order: Order,
) -> Result<Volume<MemPm, Sha1Print>, Fail>
    ensures agrees { IfOk result (λ v. Agrees (⟦<MemPm as Pm>⟧.state) v) }
    ensures running { IfOk result (λ v. v.parts.stopped ≡ false) }
{
    let plan = plan_of_job(alloc, job.as_bytes(), order)?;
    let words = formatted(alloc, 1024, 64)?;
    run_on(alloc, words, Sha1Print, &plan.scripts, turns, order)
}

// The byte of all places of a page of a file.
fn byte_of(file: u64, page: u64) -> u64 {
    if page.saturating_add(1) == file {
        file.saturating_add(128)
    } else {
        page.saturating_add(1)
    }
}

// A file has the bytes that were written to it, and no more.
fn check_file<D: Pm, F: Fingerprint>(
    rt: &impl Abort,
    alloc: Global,
    v: &Volume<D, F>,
    file: u64,
) -> Result<(), Fail>
    requires agrees { Agrees D.state v.now }
    requires running { v.now.parts.stopped ≡ false }
{
    let name = format!(in alloc; "f{file}")?;
    let Some(bytes) = file_bytes(alloc, v, name.as_bytes())? else {
        return Err(Fail::from("no file"));
    };
    assert_eq!(rt; bytes.len(), 163840);
    for (page, bytes) in bytes.chunks(4096).enumerate() {
        let byte = byte_of(file, page as u64);
        let same = bytes.iter().all(|b| u64::from(*b) == byte);
        assert!(rt; same, "{file}, {page}");
    }
    Ok(())
}

// How many lines of a text end so.
fn count_lines(text: &[u8], end: &str) -> usize {
    text.split(|byte| *byte == b'\n')
        .filter(|line| line.ends_with(end.as_bytes()))
        .count()
}

// All operations were done. Of 48 pages 32 are used by all files, 8 by all but one, and 8 by one.
fn check_volume(rt: &impl Abort, alloc: Global, v: &Volume<MemPm, Sha1Print>) -> Result<(), Fail>
    requires agrees { Agrees (⟦<MemPm as Pm>⟧.state) v.now }
    requires running { v.now.parts.stopped ≡ false }
{
    let entries = v.history();
    assert_eq!(rt; entries.len(), 40);
    assert!(rt;
        entries
            .iter()
            .all(|entry| matches!(entry.reply, Reply::Done))
    );
    assert_eq!(rt; v.free_pages(), 929);
    let found = found(alloc, words_of(alloc, v.device())?)?;
    assert!(rt; found.starts_with(b"ok files 8 dying 0 rows 48 mapped 48 free 929 exact\n"));
    for (counts, rows) in [(" 8 0", 32), (" 7 0", 8), (" 1 0", 8)] {
        assert_eq!(rt; count_lines(&found, counts), rows, "{counts}");
    }
    for file in 1..9 {
        check_file(rt, alloc, v, file)?;
    }
    Ok(())
}

#[test]
fn one_client_makes_files_that_share(rt: HostRuntime) -> Result<(), Fail> {
    let job = job_of_one(rt.alloc())?;
    let v = run(rt.alloc(), &job, &[], Order::Alone)?;
    check_volume(&rt, rt.alloc(), &v)
}

#[test]
fn eight_clients_make_files_that_share(rt: HostRuntime) -> Result<(), Fail> {
    let job = job_of_eight(rt.alloc())?;
    for (seed, turns) in [(0, 0), (1, 400), (2, 2000)] {
        let turns = turns_of(rt.alloc(), seed, turns)?;
        let v = run(rt.alloc(), &job, &turns, Order::InTurns)?;
        check_volume(&rt, rt.alloc(), &v)?;
    }
    Ok(())
}
