// Jobs on an image of 64 pages and 8 inodes, of one client or of several in turns.
ghost use Rattle.std.specs.Prelude.{◌≡◌, false};
ghost use Rattle.dn_volume.specs.Agrees.{Agrees};

use crate::harness::{expect_text, formatted, found, run_job, words_after, words_of};
use dn_core::{Event, step};
use dn_volume::{Outcome, Volume};
use fingerprint::{Fingerprint, Sha1Print, SumPrint};
use job_runs::Order;
use pm_device::Pm;
use std::alloc::Global;
use std::process::Abort;
use std::test::Fail;

// A job, and what is told of it.
struct Row {
    // what it is about
    name: &'static str,
    // the job of before, on an image without files
    start: &'static str,
    // how the job's clients come to their turns
    order: Order,
    // the job, once what that left is mounted again
    job: &'static str,
    // the replies and the last line
    told: &'static str,
    // what is found of the image that is left
    found: &'static str,
}

// Two files of one page, which they share.
const TWO: &str = "create a\nfill a 0 4096 41\ncreate b\nfill b 0 4096 41\n";

// Two files of 17 pages, of which the 15 inner ones are equal.
const LONG: &str = "create a\nfill a 1 65536 61\ncreate b\nfill b 1 65536 61\n";

const ROWS: [Row; 20] = [
    Row {
        name: "nothing is done",
        start: "",
        order: Order::Alone,
        job: "",
        told: "end 0 58\n",
        found: "ok files 0 dying 0 rows 0 mapped 0 free 58 exact\n",
    },
    Row {
        name: "equal pages are shared",
        start: "",
        order: Order::Alone,
        job: TWO,
        told: "1 1 done\n1 2 done\n1 3 done\n1 4 done\nend 4 54\n",
        found: "ok files 2 dying 0 rows 1 mapped 1 free 54 exact\nrow 24 8 2 0\n",
    },
    Row {
        name: "a file with a shared page goes",
        start: TWO,
        order: Order::Alone,
        job: "remove a\n",
        told: "1 1 done\nend 1 55\n",
        found: "ok files 1 dying 0 rows 1 mapped 1 free 55 exact\nrow 24 8 1 0\n",
    },
    Row {
        name: "a gap is zeros",
        start: "",
        order: Order::Alone,
        job: "create f\nwrite f 5000 616263\nsize f\nread f 4998 10\n",
        told: "1 1 done\n1 2 done\n1 3 number 5003\n1 4 bytes 5 0000616263\nend 4 55\n",
        found: "ok files 1 dying 0 rows 1 mapped 1 free 55 exact\nrow 62 8 1 0\n",
    },
    Row {
        name: "cut and grown",
        start: "",
        order: Order::Alone,
        job: "create f\nfill f 0 4096 41\ncut f 10\ncut f 4096\nread f 8 4\n",
        told: "1 1 done\n1 2 done\n1 3 done\n1 4 done\n1 5 bytes 4 41410000\nend 5 55\n",
        found: "ok files 1 dying 0 rows 1 mapped 1 free 55 exact\nrow 9 9 1 0\n",
    },
    Row {
        name: "the longest write",
        start: "",
        order: Order::Alone,
        job: "create f\nfill f 1 65536 61\nfill f 1 65537 61\n",
        told: "1 1 done\n1 2 done\n1 3 too-long\nend 3 53\n",
        found: "ok files 1 dying 0 rows 3 mapped 3 free 53 exact\nrow 21 8 1 0\nrow 35 9 15 0\nrow 37 24 1 0\n",
    },
    Row {
        name: "renames",
        start: "",
        order: Order::Alone,
        job: "create a\nwrite a 0 61\ncreate b\nwrite b 0 62\nrename a a\nrename a b\nlist\nread b 0 8\nsize a\n",
        told: "1 1 done\n1 2 done\n1 3 done\n1 4 done\n1 5 done\n1 6 done\n1 7 names 1 b\n1 8 bytes 1 61\n1 9 not-found\nend 9 55\n",
        found: "ok files 1 dying 0 rows 1 mapped 1 free 55 exact\nrow 37 8 1 0\n",
    },
    Row {
        name: "want of space",
        start: "",
        order: Order::Alone,
        job: "create f\nfill f 0 65536 61\nfill f 65536 65536 61\nfill f 131072 65536 61\nfill f 196608 65536 61\nremove f\ncreate g\nfill g 0 65536 61\n",
        told: "1 1 done\n1 2 done\n1 3 done\n1 4 done\n1 5 no-space 16 8\n1 6 done\n1 7 done\n1 8 done\nend 8 55\n",
        found: "ok files 1 dying 0 rows 1 mapped 1 free 55 exact\nrow 35 44 16 0\n",
    },
    Row {
        name: "files after a mount",
        start: "create e\ncreate f\nwrite f 0 616263\n",
        order: Order::Alone,
        job: "list\nread e 0 8\nread f 0 8\nread x 0 8\n",
        told: "1 1 names 2 e f\n1 2 bytes 0\n1 3 bytes 3 616263\n1 4 not-found\nend 4 55\n",
        found: "ok files 2 dying 0 rows 1 mapped 1 free 55 exact\nrow 4 8 1 0\n",
    },
    Row {
        name: "want of inodes",
        start: "",
        order: Order::Alone,
        job: "create a\ncreate b\ncreate c\ncreate d\ncreate e\ncreate f\ncreate g\ncreate h\n",
        told: "1 1 done\n1 2 done\n1 3 done\n1 4 done\n1 5 done\n1 6 done\n1 7 done\n1 8 no-inode\nend 8 57\n",
        found: "ok files 7 dying 0 rows 0 mapped 0 free 57 exact\n",
    },
    Row {
        name: "refusals",
        start: "",
        order: Order::Alone,
        job: "create a/b\ncreate .\ncreate f\ncreate f\ncut f 16777217\ncut f 16777216\nsize f\nwrite f 0 -\nread f 16777216 1\n",
        told: "1 1 bad-name\n1 2 bad-name\n1 3 done\n1 4 exists\n1 5 too-big\n1 6 done\n1 7 number 16777216\n1 8 done\n1 9 bytes 0\nend 9 56\n",
        found: "ok files 1 dying 0 rows 0 mapped 0 free 56 exact\n",
    },
    Row {
        name: "one of two long files is written over",
        start: LONG,
        order: Order::Alone,
        job: "fill a 1 65536 62\nread b 0 2\nread a 65535 8\n",
        told: "1 1 done\n1 2 bytes 2 0061\n1 3 bytes 2 6262\nend 3 49\n",
        found: "ok files 2 dying 0 rows 6 mapped 6 free 49 exact\nrow 7 11 15 0\nrow 12 10 1 0\nrow 21 8 1 0\nrow 33 28 1 0\nrow 35 9 15 0\nrow 37 24 1 0\n",
    },
    Row {
        name: "a file that shares takes the name of another that shares",
        start: TWO,
        order: Order::Alone,
        job: "create c\nfill c 0 4096 42\nrename c a\nread a 0 2\nread b 0 2\nlist\n",
        told: "1 1 done\n1 2 done\n1 3 done\n1 4 bytes 2 4242\n1 5 bytes 2 4141\n1 6 names 2 a b\nend 6 53\n",
        found: "ok files 2 dying 0 rows 2 mapped 2 free 53 exact\nrow 22 11 1 0\nrow 24 8 1 0\n",
    },
    Row {
        name: "a file takes the name of one that it shares with",
        start: TWO,
        order: Order::Alone,
        job: "rename a b\nlist\nread b 0 2\n",
        told: "1 1 done\n1 2 names 1 b\n1 3 bytes 2 4141\nend 3 55\n",
        found: "ok files 1 dying 0 rows 1 mapped 1 free 55 exact\nrow 24 8 1 0\n",
    },
    Row {
        name: "files are emptied",
        start: "create f\n",
        order: Order::Alone,
        job: "write f 0 61\nread f 0 2\nsize f\nlist\nremove f\nlist\n",
        told: "1 1 done\n1 2 bytes 1 61\n1 3 number 1\n1 4 names 1 f\n1 5 done\n1 6 names 0\nend 6 57\n",
        found: "ok files 0 dying 0 rows 0 mapped 0 free 57 exact\n",
    },
    Row {
        name: "the daemon and reclaim work after each operation",
        start: "create f\n",
        order: Order::WithRest,
        job: "write f 0 61\nwrite f 0 62\nwrite f 0 63\nwrite f 0 64\n",
        told: "1 1 done\n1 2 done\n1 3 done\n1 4 done\nend 4 55\n",
        found: "ok files 1 dying 0 rows 1 mapped 1 free 55 exact\nrow 23 9 1 0\n",
    },
    Row {
        name: "what is being written isn't read",
        start: "create f\nwrite f 0 61616161\n",
        order: Order::InTurns,
        job: "client 1\nwrite f 0 62626262\nclient 2\nread f 0 4\nturns 1 1 2 1\n",
        told: "2 4 bytes 4 61616161\n1 2 done\nend 2 55\n",
        found: "ok files 1 dying 0 rows 1 mapped 1 free 55 exact\nrow 43 9 1 0\n",
    },
    Row {
        name: "a page is shared while it is written over",
        start: "create f\nwrite f 0 61\n",
        order: Order::InTurns,
        job: "client 1\ncreate g\nwrite g 0 61\nclient 2\nwrite f 0 62\nturns 1 1 1 1 1 1 2 2 2 15 15 2 16 15 15\n",
        told: "1 2 done\n1 3 done\n2 5 done\nend 3 53\n",
        found: "ok files 2 dying 0 rows 2 mapped 2 free 53 exact\nrow 33 11 1 0\nrow 37 8 1 0\n",
    },
    Row {
        name: "a client that is held up comes again in a later round",
        start: "create f\n",
        order: Order::InTurns,
        job: "client 1\nwrite f 0 61\nclient 2\nwrite f 1 62\nclient 7\ncreate h\ncreate i\nturns 1 2 2 15 16\n",
        told: "1 2 done\n7 6 done\n2 4 done\n7 7 done\nend 4 55\n",
        found: "ok files 3 dying 0 rows 1 mapped 1 free 55 exact\nrow 34 9 1 0\n",
    },
    Row {
        name: "lines are told by their numbers in the job",
        start: "",
        order: Order::InTurns,
        job: "# two clients\nclient 2\ncreate a\n\nsize b\nclient 1\nsize a\ncreate a\nclient 2\nlist\nturns 2 2 1\n",
        told: "1 7 not-found\n2 3 done\n1 8 exists\n2 5 not-found\n2 10 names 1 a\nend 5 57\n",
        found: "ok files 1 dying 0 rows 0 mapped 0 free 57 exact\n",
    },
];

// The bytes of two pages differ, and their sums don't.
const COLLIDES: Row = Row {
    name: "pages of one print that differ",
    start: "",
    order: Order::Alone,
    job: "create f\nwrite f 0 0102\ncreate g\nwrite g 0 0201\n",
    told: "1 1 done\n1 2 done\n1 3 done\n1 4 done\nend 4 53\n",
    found: "ok files 2 dying 0 rows 1 mapped 2 free 53 exact\nrow 0 8 1 0\n",
};

// Runs a row's job, and answers the words that are left.
fn check_row<F: Fingerprint + Copy + Drop>(
    rt: &impl Abort,
    alloc: Global,
    print: F,
    row: &Row,
) -> Result<Vec<u64>, Fail> {
    let before = words_after(alloc, print, row.start)?;
    let (v, told) = run_job(alloc, before, print, row.job, row.order)?;
    expect_text(rt, row.name, told, row.told);
    let words = words_of(alloc, v.device())?;
    let left = found(alloc, words.clone()?)?;
    expect_text(rt, row.name, left, row.found);
    Ok(words)
}

#[test]
fn jobs_are_answered(rt: HostRuntime) -> Result<(), Fail> {
    for row in &ROWS {
        let _ = check_row(&rt, rt.alloc(), Sha1Print, row)?;
    }
    Ok(())
}

#[test]
fn a_page_of_the_same_print_is_left_alone(rt: HostRuntime) -> Result<(), Fail> {
    let words = check_row(&rt, rt.alloc(), SumPrint, &COLLIDES)?;
    // the mask of the item in the first slot of page 9
    assert_eq!(rt; words.get(4614), Some(&1));
    Ok(())
}

// A long name is accepted or refused.
fn check_name(rt: &impl Abort, alloc: Global, length: u64, want: &str) -> Result<(), Fail> {
    let mut job = String::from_str(alloc, "create ")?;
    for _ in 0..length {
        job.push_str("n")?;
    }
    let empty = formatted(alloc, 64, 8)?;
    let (_v, told) = run_job(alloc, empty, Sha1Print, job.as_str(), Order::Alone)?;
    expect_text(rt, "a long name", told, want);
    Ok(())
}

#[test]
fn names_have_255_bytes_at_most(rt: HostRuntime) -> Result<(), Fail> {
    check_name(&rt, rt.alloc(), 255, "1 1 done\nend 1 57\n")?;
    check_name(&rt, rt.alloc(), 256, "1 1 bad-name\nend 1 58\n")
}

// An event that has nothing to do.
fn check_rests<D: Pm, F: Fingerprint>(
    rt: &impl Abort,
    alloc: Global,
    v: &mut Volume<D, F>,
    event: Event,
)
    requires { Agrees D.state v.old }
    ensures { Agrees D.state v.new }
{
    let outcome = step(alloc, v, event);
    assert!(rt; matches!(outcome, Outcome::Idle), "{outcome:?}");
}

// Nothing is stored where nothing is to be done: by an empty run, and by the daemon and reclaim behind a run.
fn check_rest(rt: &impl Abort, alloc: Global, words: Vec<u64>) -> Result<(), Fail> {
    let (v, _told) = run_job(alloc, words.clone()?, Sha1Print, "", Order::Alone)?;
    assert_eq!(rt; v.device().moment(), 0);
    let job = "create z\nfill z 0 4096 41\n";
    let (mut v, _told) = run_job(alloc, words, Sha1Print, job, Order::Alone)?;
    let moment = v.device().moment();
    assert!(rt; moment > 0);
    check_rests(rt, alloc, &mut v, Event::Reclaim);
    check_rests(rt, alloc, &mut v, Event::Daemon);
    assert_eq!(rt; v.device().moment(), moment);
    Ok(())
}

#[test]
fn nothing_is_stored_where_nothing_is_done(rt: HostRuntime) -> Result<(), Fail> {
    for start in ["", TWO, LONG, "create a\nwrite a 0 61\nremove a\n"] {
        let words = words_after(rt.alloc(), Sha1Print, start)?;
        check_rest(&rt, rt.alloc(), words)?;
    }
    Ok(())
}
