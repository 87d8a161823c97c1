// Files are listed and read whole, and generated work is told by its numbers.
use crate::harness::{expect_text, formatted, run_job, run_on};
use file_looks::{file_bytes, list_text};
use fingerprint::Sha1Print;
use job_runs::Order;
use job_texts::{work_plan, work_text};
use std::alloc::Global;
use std::process::Abort;
use std::test::Fail;

// A job, the list of its files, and the bytes of some names.
struct Looked {
    job: &'static str,
    list: &'static str,
    files: &'static [(&'static str, Option<&'static str>)],
}

const LOOKED: [Looked; 2] = [
    Looked {
        job: "create e\ncreate f\nwrite f 0 616263\n",
        list: "\
0 da39a3ee5e6b4b0d3255bfef95601890afd80709 e
3 a9993e364706816aba3e25717850c26c9cd0d89d f
files 2
",
        files: &[
            ("e", Some("")),
            ("f", Some("abc")),
            ("x", None),
            ("a/b", None),
        ],
    },
    // a file of more bytes than one read takes
    Looked {
        job: "create g\nfill g 0 65536 61\nwrite g 65536 62\n",
        list: "65537 041808bdf43463e610a67291092632c556dee6c7 g\nfiles 1\n",
        files: &[],
    },
];

fn check_looked(rt: &impl Abort, alloc: Global, looked: &Looked) -> Result<(), Fail> {
    let empty = formatted(alloc, 64, 8)?;
    let (v, _told) = run_job(alloc, empty, Sha1Print, looked.job, Order::Alone)?;
    expect_text(rt, "the list", list_text(alloc, &v)?, looked.list);
    for (name, want) in looked.files {
        let bytes = file_bytes(alloc, &v, name.as_bytes())?;
        let want = want.map(|text| text.as_bytes());
        assert!(rt; bytes.as_ref().map(|b| b.as_slice()) == want, "{name}");
    }
    Ok(())
}

#[test]
fn files_are_listed_and_read(rt: HostRuntime) -> Result<(), Fail> {
    for looked in &LOOKED {
        check_looked(&rt, rt.alloc(), looked)?;
    }
    Ok(())
}

// The text of generated work on an image of 64 pages and 24 inodes.
fn check_work(rt: &impl Abort, alloc: Global, number: u64, want: &str) -> Result<(), Fail> {
    let scripts = work_plan(alloc, number)?;
    let empty = formatted(alloc, 64, 24)?;
    let v = run_on(alloc, empty, Sha1Print, &scripts, &[], Order::WithRest)?;
    expect_text(rt, "work", work_text(alloc, &v, number)?, want);
    Ok(())
}

#[test]
fn generated_work_is_told(rt: HostRuntime) -> Result<(), Fail> {
    for (number, want) in [
        (
            1,
            "work 1 done 0 refused 1 files 0 rows 0 mapped 0 free 58\n",
        ),
        (
            40,
            "work 40 done 14 refused 26 files 5 rows 2 mapped 2 free 53\n",
        ),
    ] {
        check_work(&rt, rt.alloc(), number, want)?;
    }
    Ok(())
}
