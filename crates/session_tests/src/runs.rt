// Jobs whose texts are the same whatever the threads' turns, and jobs of several clients.
use crate::calls::{check_call, empty, ended, told};
use std::alloc::AllocError;
use std::process::Abort;
use std::sync::Wait;
use std::test::Fail;
use std::thread::Threads;

// Words that ask for another command, or jobs that one client alone changes names by.
const TOLD: [(&str, &str, u8, &str); 9] = [
    ("apply", "create f\n", 1, "usage\n"),
    ("run x", "", 1, "usage\n"),
    ("run", "", 0, "end 0 58\n"),
    ("run", "create f\nnone\n", 2, "bad-line 2\n"),
    ("run", "turns 1\n", 2, "bad-line 1\n"),
    (
        "run",
        "create f\nsize f\nremove f\nread f 0 1\n",
        0,
        "1 1 done\n1 2 number 0\n1 3 done\n1 4 not-found\nend 4 57\n",
    ),
    (
        "run",
        "client 3\ncreate f\n\ncount 0\n",
        0,
        "3 2 done\nr 3 4 0 0 0\nend 1 57\n",
    ),
    (
        "run",
        "count 18446744073709551615\n",
        0,
        "r 1 1 18446744073709551615 no-slot\nend 0 58\n",
    ),
    (
        "run",
        "client 2\ncount 1\nclient 1\ncount 2\nclient 2\ncount 3\n",
        0,
        "r 1 4 2 0 0\nr 2 2 1 0 0\nr 2 6 3 0 0\nend 0 58\n",
    ),
];

#[test]
fn each_call_has_its_text(rt: HostRuntime) -> Result<(), Fail> {
    for (line, job, status, text) in TOLD {
        let image = empty(rt.alloc())?;
        check_call(&rt, image, line, job, (0, 0, 0), (status, text))?;
    }
    Ok(())
}

// A job of two clients that store equal pages, and look at a count meanwhile.
const PAIR: &str = "client 1
create a
fill a 0 4096 61
count 17
client 2
create b
fill b 0 4096 61
";

#[test]
fn clients_share_equal_pages(rt: HostRuntime) -> Result<(), Fail> {
    for _ in 0..20 {
        let image = empty(rt.alloc())?;
        let (status, _, left) = ended(&rt, rt.alloc(), image, "run", PAIR, (0, 0, 0))?;
        assert_eq!(rt; status, 0);
        let (text, _) = told(rt.alloc(), left, "check")?;
        assert!(rt;
            text.starts_with(b"ok files 2 dying 0 rows 1 mapped 1 free 54 exact\n".as_slice())
        );
    }
    Ok(())
}
