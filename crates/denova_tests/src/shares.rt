// Files with equal pages share them.
use crate::calls::{Call, FORMAT, check_call, check_calls, check_new, ended, words_left, zeros};
use fingerprint::{Sha1Print, SumPrint};
use std::alloc::{AllocError, Global};
use std::process::Abort;
use std::test::Fail;

// Two files with one page each, of the same bytes.
const EQUAL: Call = (
    "apply",
    "create a\nfill a 0 4096 41\ncreate b\nfill b 0 4096 41\n",
    0,
    "1 1 done\n1 2 done\n1 3 done\n1 4 done\nend 4 54\n",
);

// How many bytes of a text are this one, or None where others are among them.
fn count_only(text: &[u8], byte: u8) -> Option<usize> {
    for other in text {
        if *other != byte {
            return None;
        }
    }
    Some(text.len())
}

#[test]
fn equal_pages_are_shared(rt: HostRuntime) -> Result<(), Fail> {
    let shared = "ok files 2 dying 0 rows 1 mapped 1 free 54 exact\nrow 24 8 2 0\n";
    let alone = "ok files 1 dying 0 rows 1 mapped 1 free 55 exact\nrow 24 8 1 0\n";
    let left = check_new(
        &rt,
        &[
            EQUAL,
            ("check", "", 0, shared),
            ("apply", "remove a\n", 0, "1 1 done\nend 1 55\n"),
            ("check", "", 0, alone),
        ],
    )?;
    let job = Vec::new(rt.alloc());
    let (status, text, _) = ended(rt.alloc(), Sha1Print, left, "cat b", job, (0, 0, 0))?;
    assert_eq!(rt; status, 0);
    assert_eq!(rt; count_only(&text, 0x41), Some(4096));
    Ok(())
}

#[test]
fn pages_of_one_print_are_left_alone(rt: HostRuntime) -> Result<(), Fail> {
    let found = "ok files 2 dying 0 rows 1 mapped 2 free 53 exact\nrow 0 8 1 0\n";
    let calls = [
        FORMAT,
        (
            "apply",
            "create f\nwrite f 0 0102\ncreate g\nwrite g 0 0201\n",
            0,
            "1 1 done\n1 2 done\n1 3 done\n1 4 done\nend 4 53\n",
        ),
        ("check", "", 0, found),
    ];
    let mut left = check_calls(&rt, SumPrint, zeros(rt.alloc(), 64)?, &calls)?;
    for (at, value) in [(1536, 0), (2568, 0), (4611, 8)] {
        if let Some(word) = left.get_mut(at) {
            *word = value;
        }
    }
    check_call(
        &rt,
        SumPrint,
        left,
        ("check", "", 3, "refused double-mapped 8\n"),
    )?;
    Ok(())
}

// Appends a line that writes so many pages of a file, each of its number plus 1, from a page on.
fn write_pages(
    alloc: Global,
    job: &mut String,
    file: u64,
    first: u64,
    count: u64,
) -> Result<(), AllocError> {
    let at = first.saturating_mul(4096);
    let head = format!(in alloc; "write f{file} {at} ")?;
    job.push_str(head.as_str())?;
    for page in first..first.saturating_add(count) {
        let byte = page.saturating_add(1);
        let digits = format!(in alloc; "{byte:02x}")?;
        for _ in 0..4096 {
            job.push_str(digits.as_str())?;
        }
    }
    job.push_str("\n")
}

// Appends the lines of one of eight files: forty pages, of which the page of the file's number is then its own.
fn write_file(alloc: Global, job: &mut String, file: u64) -> Result<(), AllocError> {
    let made = format!(in alloc; "create f{file}\n")?;
    job.push_str(made.as_str())?;
    for (first, count) in [(0, 16), (16, 16), (32, 8)] {
        write_pages(alloc, job, file, first, count)?;
    }
    let at = file.saturating_sub(1).saturating_mul(4096);
    let byte = file.saturating_add(128);
    let own = format!(in alloc; "fill f{file} {at} 4096 {byte:02x}\n")?;
    job.push_str(own.as_str())
}

// The job of eight files, each made by a client of its own where that is wanted.
fn eight_files(alloc: Global, clients: bool) -> Result<Vec<u8>, AllocError> {
    let mut job = String::new(alloc);
    for file in 1..9 {
        if clients {
            let client = format!(in alloc; "client {file}\n")?;
            job.push_str(client.as_str())?;
        }
        write_file(alloc, &mut job, file)?;
    }
    Vec::from_slice(alloc, job.as_bytes())
}

// How many lines of a text end so.
fn count_lines(text: &[u8], end: &str) -> usize {
    text.split(|byte| *byte == b'\n')
        .filter(|line| line.ends_with(end.as_bytes()))
        .count()
}

// Eight files are made on a new image of 1,024 pages and 64 inodes. Gives the text of the files' list.
fn check_eight(
    rt: &(impl Abort + AllocGlobal),
    line: &str,
    clients: bool,
) -> Result<Vec<u8>, AllocError> {
    let alloc = rt.alloc();
    let made = ("format 1024 64", "", 0, "formatted 1024 64 986\n");
    let made = check_call(rt, Sha1Print, zeros(alloc, 1024)?, made)?;
    let job = eight_files(alloc, clients)?;
    let (status, text, device) = ended(alloc, Sha1Print, made, line, job, (0, 0, 0))?;
    assert_eq!(rt; status, 0, "at {line:?}");
    assert_eq!(rt; count_lines(&text, " done"), 40, "at {line:?}");
    assert!(rt; text.ends_with(b"\nend 40 929\n"), "at {line:?}");
    let image = words_left(alloc, &device)?;
    let (_, found, device) = ended(alloc, Sha1Print, image, "check", Vec::new(alloc), (0, 0, 0))?;
    assert!(rt; found.starts_with(b"ok files 8 dying 0 rows 48 mapped 48 free 929 exact\n"));
    for (counts, rows) in [(" 8 0", 32), (" 7 0", 8), (" 1 0", 8)] {
        assert_eq!(rt; count_lines(&found, counts), rows, "at {line:?} {counts:?}");
    }
    let image = words_left(alloc, &device)?;
    let (_, listed, _) = ended(alloc, Sha1Print, image, "list", Vec::new(alloc), (0, 0, 0))?;
    Ok(listed)
}

#[test]
fn eight_files_share_their_pages(rt: HostRuntime) -> Result<(), Fail> {
    let alone = check_eight(&rt, "apply", false)?;
    let together = check_eight(&rt, "replay", true)?;
    assert_eq!(rt; count_lines(&alone, ""), 10);
    assert_eq!(rt; alone, together);
    Ok(())
}
