// Images with a fault are told so, by commands that read them and by those that would run on them.
use crate::calls::{check_call, check_new, ended};
use fingerprint::Sha1Print;
use std::alloc::{AllocError, Global};
use std::process::Abort;
use std::test::Fail;

// The commands that want an image.
const COMMANDS: [&str; 7] = [
    "check",
    "apply",
    "replay",
    "list",
    "cat f",
    "work 1",
    "trial 0 0",
];

// A copy of an image, some words of which are set otherwise.
fn changed(alloc: Global, image: &[u64], changes: &[(usize, u64)]) -> Result<Vec<u64>, AllocError> {
    let mut image = Vec::from_slice(alloc, image)?;
    for (at, value) in changes {
        if let Some(word) = image.get_mut(*at) {
            *word = *value;
        }
    }
    Ok(image)
}

// Each command tells this fault of an image some words of which are set otherwise.
fn check_fault(
    rt: &(impl Abort + AllocGlobal),
    image: &[u64],
    changes: &[(usize, u64)],
    text: &'static str,
) -> Result<(), AllocError> {
    for line in COMMANDS {
        let image = changed(rt.alloc(), image, changes)?;
        check_call(rt, Sha1Print, image, (line, "", 3, text))?;
    }
    Ok(())
}

#[test]
fn faults_are_told(rt: HostRuntime) -> Result<(), Fail> {
    let shared = "create a\nfill a 0 4096 41\ncreate b\nfill b 0 4096 41\n";
    let answers = "1 1 done\n1 2 done\n1 3 done\n1 4 done\nend 4 54\n";
    let image = check_new(&rt, &[("apply", shared, 0, answers)])?;
    let table: [(&[(usize, u64)], &str); 7] = [
        (&[(0, 0)], "refused not-an-image\n"),
        (&[(1, 2)], "refused wrong-version 2\n"),
        (&[(2, 63)], "refused bad-geometry\n"),
        (&[(512, 5)], "refused bad-journal\n"),
        (&[(1040, 3)], "refused bad-inode 1\n"),
        (&[(1042, 450)], "refused bad-log 1 1\n"),
        (&[(2569, 129)], "refused bad-pointer 9\n"),
    ];
    for (changes, text) in table {
        check_fault(&rt, &image, changes, text)?;
    }
    Ok(())
}

// A check and a mount of an image with another word answer the same fault, or none.
fn agree(
    rt: &(impl Abort + AllocGlobal),
    image: &[u64],
    at: usize,
    value: u64,
) -> Result<(), AllocError> {
    let mut told = Vec::new(rt.alloc());
    for line in ["check", "apply"] {
        let image = changed(rt.alloc(), image, &[(at, value)])?;
        let none = Vec::new(rt.alloc());
        let (status, text, _) = ended(rt.alloc(), Sha1Print, image, line, none, (0, 0, 0))?;
        told.push((status, text))?;
    }
    let [(checked, fault), (mounted, refused)] = told.as_slice() else {
        return Err(AllocError);
    };
    assert_eq!(rt; checked, mounted, "word {at}, {value}");
    if *checked != 0 {
        assert_eq!(rt; fault.as_slice(), refused.as_slice(), "word {at}, {value}");
    }
    Ok(())
}

#[test]
fn checks_and_mounts_find_the_same_fault(rt: HostRuntime) -> Result<(), Fail> {
    let shared = "create a\nfill a 0 4096 41\ncreate b\nfill b 0 4096 41\n";
    let answers = "1 1 done\n1 2 done\n1 3 done\n1 4 done\nend 4 54\n";
    let image = check_new(&rt, &[("apply", shared, 0, answers)])?;
    for (at, word) in image.iter().enumerate() {
        if *word != 0 {
            for value in [0, word.wrapping_add(1), u64::MAX] {
                agree(&rt, &image, at, value)?;
            }
        }
    }
    Ok(())
}

// Jobs that write places of equal bytes, which come to share a page: each place has an item of its own then, so that the
// log keeps two pages.
const FIRST_PLACES: &str = "create f
fill f 0 65536 41
fill f 65536 65536 41
fill f 131072 32768 41
";

const NEXT_PLACES: &str = "fill f 163840 65536 41
fill f 229376 65536 41
fill f 294912 32768 41
";

#[test]
fn a_log_that_leads_to_itself_is_told(rt: HostRuntime) -> Result<(), Fail> {
    let first = "1 1 done\n1 2 done\n1 3 done\n1 4 done\nend 4 55\n";
    let next = "1 1 done\n1 2 done\n1 3 done\nend 3 54\n";
    let image = check_new(
        &rt,
        &[
            ("apply", FIRST_PLACES, 0, first),
            ("apply", NEXT_PLACES, 0, next),
        ],
    )?;
    assert_eq!(rt; image.get(1041), Some(&7));
    check_fault(&rt, &image, &[(4088, 7)], "refused bad-log 1 63\n")?;
    Ok(())
}
