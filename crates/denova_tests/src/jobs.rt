// Jobs of one client and of several are run.
use crate::calls::{check_new, ended, words_left, zeros};
use fingerprint::Sha1Print;
use std::alloc::{AllocError, Global};
use std::process::Abort;
use std::test::Fail;

// Jobs of one client on a new image of 64 pages and 8 inodes, and the texts that are written.
const SCRIPTS: [(&str, &str); 8] = [
    ("", "end 0 58\n"),
    (
        "create f\nwrite f 5000 616263\nsize f\nread f 4998 10\n",
        "1 1 done\n1 2 done\n1 3 number 5003\n1 4 bytes 5 0000616263\nend 4 55\n",
    ),
    (
        "create f\nfill f 0 4096 41\ncut f 10\ncut f 4096\nread f 8 4\n",
        "1 1 done\n1 2 done\n1 3 done\n1 4 done\n1 5 bytes 4 41410000\nend 5 55\n",
    ),
    (
        "create f\nfill f 1 65536 61\nfill f 1 65537 61\n",
        "1 1 done\n1 2 done\n1 3 too-long\nend 3 53\n",
    ),
    (
        "create a\nwrite a 0 61\ncreate b\nwrite b 0 62\nrename a a\nrename a b\nlist\nread b 0 8\nsize a\n",
        "1 1 done\n1 2 done\n1 3 done\n1 4 done\n1 5 done\n1 6 done\n1 7 names 1 b\n1 8 bytes 1 61\n1 9 not-found\nend 9 55\n",
    ),
    (
        "create f\nfill f 0 65536 61\nfill f 65536 65536 61\nfill f 131072 65536 61\nfill f 196608 65536 61\nremove f\ncreate g\nfill g 0 65536 61\n",
        "1 1 done\n1 2 done\n1 3 done\n1 4 done\n1 5 no-space 16 8\n1 6 done\n1 7 done\n1 8 done\nend 8 55\n",
    ),
    (
        "create a\ncreate b\ncreate c\ncreate d\ncreate e\ncreate f\ncreate g\ncreate h\n",
        "1 1 done\n1 2 done\n1 3 done\n1 4 done\n1 5 done\n1 6 done\n1 7 done\n1 8 no-inode\nend 8 57\n",
    ),
    (
        "create a/b\ncreate .\ncreate f\ncreate f\ncut f 16777217\ncut f 16777216\nsize f\nwrite f 0 -\nread f 16777216 1\n",
        "1 1 bad-name\n1 2 bad-name\n1 3 done\n1 4 exists\n1 5 too-big\n1 6 done\n1 7 number 16777216\n1 8 done\n1 9 bytes 0\nend 9 56\n",
    ),
];

// A job of a name of so many bytes.
fn creating(alloc: Global, bytes: usize) -> Result<Vec<u8>, AllocError> {
    let mut job = Vec::from_slice(alloc, b"create ")?;
    for _ in 0..bytes {
        job.push(b'n')?;
    }
    job.push(b'\n')?;
    Ok(job)
}

fn check_name(rt: &(impl Abort + AllocGlobal), bytes: usize, text: &str) -> Result<(), AllocError> {
    let made = check_new(rt, &[])?;
    let job = creating(rt.alloc(), bytes)?;
    let (status, told, _) = ended(rt.alloc(), Sha1Print, made, "apply", job, (0, 0, 0))?;
    assert_eq!(rt; status, 0, "at {bytes} bytes");
    assert_eq!(rt; told.as_slice(), text.as_bytes(), "at {bytes} bytes");
    Ok(())
}

#[test]
fn scripts_are_answered(rt: HostRuntime) -> Result<(), Fail> {
    for (job, text) in SCRIPTS {
        check_new(&rt, &[("apply", job, 0, text)])?;
    }
    check_name(&rt, 255, "1 1 done\nend 1 57\n")?;
    check_name(&rt, 256, "1 1 bad-name\nend 1 58\n")?;
    Ok(())
}

#[test]
fn a_job_without_operations_stores_nothing(rt: HostRuntime) -> Result<(), Fail> {
    let made = check_new(&rt, &[])?;
    let job = Vec::new(rt.alloc());
    let (status, _, device) = ended(rt.alloc(), Sha1Print, made, "apply", job, (0, 0, 0))?;
    assert_eq!(rt; status, 0);
    assert_eq!(rt; device.moment(), 0);
    Ok(())
}

// A job that makes a file and removes it so often.
fn coming_and_going(alloc: Global, times: usize) -> Result<Vec<u8>, AllocError> {
    let mut job = Vec::new(alloc);
    for _ in 0..times {
        job.extend_from_slice(b"create x\nremove x\n")?;
    }
    Ok(job)
}

// A job that fills the first page of a file so often.
fn filling(alloc: Global, times: usize) -> Result<Vec<u8>, AllocError> {
    let mut job = Vec::from_slice(alloc, b"create f\n")?;
    for _ in 0..times {
        job.extend_from_slice(b"fill f 0 4096 41\n")?;
    }
    Ok(job)
}

// The words of inodes 0 and 1 that tell the head and the tail of their logs.
const ROOT_TAIL: usize = 1026;

const FILE_HEAD: usize = 1041;

const FILE_TAIL: usize = 1042;

// The words that a job leaves of a new image, where its text ends so.
fn words_after(
    rt: &(impl Abort + AllocGlobal),
    job: Vec<u8>,
    end: &str,
) -> Result<Vec<u64>, AllocError> {
    let made = check_new(rt, &[])?;
    let (status, text, device) = ended(rt.alloc(), Sha1Print, made, "apply", job, (0, 0, 0))?;
    assert_eq!(rt; status, 0);
    assert!(rt; text.ends_with(end.as_bytes()), "{end:?}");
    words_left(rt.alloc(), &device)
}

// A root without names has no log, and a file that was filled again and again has a log of one page.
#[test]
fn logs_are_cleaned(rt: HostRuntime) -> Result<(), Fail> {
    let job = coming_and_going(rt.alloc(), 100)?;
    let words = words_after(&rt, job, "200 done\nend 200 58\n")?;
    assert_eq!(rt; words.get(ROOT_TAIL), Some(&0));
    let job = filling(rt.alloc(), 64)?;
    let words = words_after(&rt, job, "65 done\nend 65 55\n")?;
    let (Some(head), Some(tail)) = (words.get(FILE_HEAD), words.get(FILE_TAIL)) else {
        return Err(Fail::from("no inode"));
    };
    assert!(rt; *tail != 0);
    assert_eq!(rt; *head, *tail / 64);
    Ok(())
}

#[test]
fn clients_take_turns(rt: HostRuntime) -> Result<(), Fail> {
    check_new(
        &rt,
        &[
            (
                "apply",
                "create f\nwrite f 0 61616161\n",
                0,
                "1 1 done\n1 2 done\nend 2 55\n",
            ),
            (
                "replay",
                "client 1\nwrite f 0 62626262\nclient 2\nread f 0 4\nturns 1 1 2 1\n",
                0,
                "2 4 bytes 4 61616161\n1 2 done\nend 2 55\n",
            ),
        ],
    )?;
    check_new(
        &rt,
        &[
            (
                "apply",
                "create f\nwrite f 0 61\n",
                0,
                "1 1 done\n1 2 done\nend 2 55\n",
            ),
            (
                "replay",
                "client 1\ncreate g\nwrite g 0 61\nclient 2\nwrite f 0 62\nturns 1 1 1 1 1 1 2 2 2 15 15 2 16 15 15\n",
                0,
                "1 2 done\n1 3 done\n2 5 done\nend 3 53\n",
            ),
        ],
    )?;
    Ok(())
}

#[test]
fn work_is_generated(rt: HostRuntime) -> Result<(), Fail> {
    check_new(
        &rt,
        &[
            (
                "work 1",
                "",
                0,
                "work 1 done 0 refused 1 files 0 rows 0 mapped 0 free 58\n",
            ),
            (
                "check",
                "",
                0,
                "ok files 0 dying 0 rows 0 mapped 0 free 58 exact\n",
            ),
            ("work 0", "", 1, "usage\n"),
            ("work 100001", "", 1, "usage\n"),
        ],
    )?;
    Ok(())
}

#[test]
fn files_are_listed_and_shown(rt: HostRuntime) -> Result<(), Fail> {
    let listed =
        "0 da39a3ee5e6b4b0d3255bfef95601890afd80709 e\n3 a9993e364706816aba3e25717850c26c9cd0d89d f\nfiles 2\n";
    check_new(
        &rt,
        &[
            (
                "apply",
                "create e\ncreate f\nwrite f 0 616263\n",
                0,
                "1 1 done\n1 2 done\n1 3 done\nend 3 55\n",
            ),
            ("list", "", 0, listed),
            ("cat f", "", 0, "abc"),
            ("cat e", "", 0, ""),
            ("cat x", "", 11, "refused not-found\n"),
            ("cat a/b", "", 11, "refused bad-name\n"),
        ],
    )?;
    Ok(())
}

// A job with a line of so many bytes.
fn long_job(alloc: Global, bytes: usize) -> Result<Vec<u8>, AllocError> {
    vec![in alloc; b'#'; bytes]
}

#[test]
fn words_and_jobs_are_refused(rt: HostRuntime) -> Result<(), Fail> {
    check_new(
        &rt,
        &[
            ("apply", "creat a\n", 2, "bad-line 1\n"),
            ("replay", "client 1\nlist\nturns 3\n", 9, "bad-turn 3\n"),
            ("trial 0 0", "client 1\nlist\nturns 3\n", 9, "bad-turn 3\n"),
            ("apply", "turns 1\n", 2, "bad-line 1\n"),
            ("apply", "create f\n\nwrote f 0 61\n", 2, "bad-line 3\n"),
            ("cat", "", 1, "usage\n"),
            ("run", "", 1, "usage\n"),
            ("list f", "", 1, "usage\n"),
            ("--help", "", 1, "usage\n"),
        ],
    )?;
    let made = check_new(&rt, &[])?;
    let job = long_job(rt.alloc(), 16_777_217)?;
    let (status, text, _) = ended(rt.alloc(), Sha1Print, made, "apply", job, (0, 0, 0))?;
    assert_eq!(rt; status, 8);
    assert_eq!(rt; text.as_slice(), b"too-long\n".as_slice());
    Ok(())
}

#[test]
fn file_systems_are_made_or_refused(rt: HostRuntime) -> Result<(), Fail> {
    let table = [
        (64, "format 64 8", 0, "formatted 64 8 58\n"),
        (64, "format 64 864", 0, "formatted 64 864 32\n"),
        (
            65536,
            "format 65536 4096",
            0,
            "formatted 65536 4096 63230\n",
        ),
        (64, "format 63 8", 11, "refused too-few-pages\n"),
        (64, "format 65537 8", 11, "refused too-many-pages\n"),
        (64, "format 64 865", 11, "refused bad-inodes\n"),
        (64, "format 64 7", 11, "refused bad-inodes\n"),
        (63, "format 63 7", 11, "refused too-few-pages\n"),
        (64, "format 65537 7", 11, "refused too-many-pages\n"),
        (65, "format 64 8", 11, "refused wrong-size 33280\n"),
        (0, "format 64 8", 11, "refused wrong-size 0\n"),
        (64, "format 64 08", 1, "usage\n"),
    ];
    for (pages, line, status, text) in table {
        let words = zeros(rt.alloc(), pages)?;
        let (told, written, device) = ended(
            rt.alloc(),
            Sha1Print,
            words,
            line,
            Vec::new(rt.alloc()),
            (0, 0, 0),
        )?;
        assert_eq!(rt; told, status, "at {line:?}");
        assert_eq!(rt; written.as_slice(), text.as_bytes(), "at {line:?}");
        if status != 0 {
            assert_eq!(rt; device.moment(), 0, "at {line:?}");
        }
    }
    Ok(())
}
