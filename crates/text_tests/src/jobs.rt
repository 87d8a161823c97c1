// Words, lines, streams and jobs by example.
use dn_script::spelling::{byte_of, number_of};
use dn_script::{
    Job, JobFault, JobForm, MemSink, MemSource, ReadFault, first_line, line_meaning, read_job,
    read_to_end, write_all,
};
use std::alloc::{AllocError, Global};
use std::process::Abort;
use std::test::Fail;

// Asserts what lines say.
fn check_lines(
    rt: &impl Abort,
    alloc: Global,
    form: JobForm,
    lines: &[(&str, &str)],
) -> Result<(), AllocError> {
    for (line, wanted) in lines {
        let meaning = line_meaning(alloc, form, line.as_bytes())?;
        let text = format!(in alloc; "{meaning:?}")?;
        assert_eq!(rt; text.as_str(), *wanted, "at {line:?}");
    }
    Ok(())
}

// The lines of a text, each behind a bar.
fn barred(alloc: Global, text: &[u8]) -> Result<Vec<u8>, AllocError> {
    let mut out = Vec::new(alloc);
    let mut rest = text;
    for _ in 0..text.len() {
        if rest.is_empty() {
            break;
        }
        let (line, after) = first_line(rest);
        out.push(b'|')?;
        out.extend_from_slice(line)?;
        rest = after;
    }
    Ok(out)
}

#[test]
fn spells_numbers(rt: HostRuntime) -> Result<(), Fail> {
    for (word, wanted) in [
        ("0", Some(0)),
        ("7", Some(7)),
        ("90", Some(90)),
        ("18446744073709551615", Some(u64::MAX)),
        ("18446744073709551616", None),
        ("99999999999999999999999", None),
        ("", None),
        ("00", None),
        ("07", None),
        ("+7", None),
        ("-7", None),
        ("7a", None),
    ] {
        assert_eq!(rt; number_of(word.as_bytes()), wanted, "at {word:?}");
    }
    Ok(())
}

#[test]
fn spells_bytes(rt: HostRuntime) -> Result<(), Fail> {
    for (word, wanted) in [
        ("00", Some(0)),
        ("fF", Some(255)),
        ("1", None),
        ("123", None),
        ("0g", None),
    ] {
        assert_eq!(rt; byte_of(word.as_bytes()), wanted, "at {word:?}");
    }
    Ok(())
}

#[test]
fn parts_lines(rt: HostRuntime) -> Result<(), Fail> {
    for (text, wanted) in [
        ("", ""),
        ("a", "|a"),
        ("a\n", "|a"),
        ("a\nbc", "|a|bc"),
        ("\n\na\n\n", "|||a|"),
    ] {
        let lines = barred(rt.alloc(), text.as_bytes())?;
        assert_eq!(rt; lines.as_slice(), wanted.as_bytes(), "at {text:?}");
    }
    Ok(())
}

#[test]
fn reads_lines(rt: HostRuntime) -> Result<(), Fail> {
    let alloc = rt.alloc();
    let bad = [
        "list ",
        " list",
        "list a",
        "creat a",
        "create",
        "create ",
        "create a b",
        "create  a",
        "write a 0",
        "write a 0 1",
        "write a 0 6g",
        "write a 0 ",
        "write a 00 61",
        "fill a 0 2 6",
        "fill a 0 131073 61",
        "read a 0",
        "cut a -1",
        "rename a",
        "size",
        "client 0",
        "client 15",
        "client 01",
        "turns",
        "turns ",
        "turns 1 x",
        "count a",
        "count",
    ];
    for line in bad {
        check_lines(&rt, alloc, JobForm::Replay, &[(line, "Bad")])?;
    }
    check_lines(
        &rt,
        alloc,
        JobForm::Apply,
        &[
            ("", "Skip"),
            ("# list", "Skip"),
            (
                "create a",
                "Do { op: Create { name: ByteText { bytes: [97] } }, weight: 0 }",
            ),
            (
                "write a 5 4aB0",
                "Do { op: Write { name: ByteText { bytes: [97] }, at: 5, bytes: ByteText { bytes: [74, 176] } }, weight: 0 }",
            ),
            (
                "write a 5 -",
                "Do { op: Write { name: ByteText { bytes: [97] }, at: 5, bytes: ByteText { bytes: [] } }, weight: 0 }",
            ),
            (
                "fill a 5 3 61",
                "Do { op: Write { name: ByteText { bytes: [97] }, at: 5, bytes: ByteText { bytes: [97, 97, 97] } }, weight: 3 }",
            ),
            (
                "read a 5 131073",
                "Do { op: Read { name: ByteText { bytes: [97] }, at: 5, length: 131073 }, weight: 131073 }",
            ),
            (
                "cut a 0",
                "Do { op: Cut { name: ByteText { bytes: [97] }, size: 0 }, weight: 0 }",
            ),
            (
                "remove a",
                "Do { op: Remove { name: ByteText { bytes: [97] } }, weight: 0 }",
            ),
            (
                "rename a b",
                "Do { op: Rename { from: ByteText { bytes: [97] }, to: ByteText { bytes: [98] } }, weight: 0 }",
            ),
            (
                "size a",
                "Do { op: Size { name: ByteText { bytes: [97] } }, weight: 0 }",
            ),
            ("list", "Do { op: List, weight: 1048576 }"),
            ("client 1", "Bad"),
            ("turns 1", "Bad"),
            ("count 1", "Bad"),
        ],
    )?;
    check_lines(
        &rt,
        alloc,
        JobForm::Replay,
        &[
            ("client 14", "Client { number: 14 }"),
            ("turns 1 16 99", "Turns(Numbers { numbers: [1, 16, 99] })"),
            ("count 1", "Bad"),
        ],
    )?;
    check_lines(
        &rt,
        alloc,
        JobForm::Run,
        &[
            ("client 1", "Client { number: 1 }"),
            ("turns 1", "Bad"),
            ("count 7", "Count { slot: 7 }"),
        ],
    )?;
    Ok(())
}

// A source of five bytes, of which each take gives some. The take with this number fails.
fn read_five(alloc: Global, piece: usize, fail_at: u64) -> Result<Option<Vec<u8>>, AllocError> {
    let bytes = Vec::from_slice(alloc, b"hello".as_slice())?;
    let fail_at = Vec::from_slice(alloc, [fail_at].as_slice())?;
    let mut source = MemSource::in_pieces(bytes, fail_at, piece.max(1));
    match read_to_end(alloc, &mut source) {
        Ok(bytes) => Ok(Some(bytes)),
        Err(ReadFault::NoMemory) => Err(AllocError),
        Err(_) => Ok(None),
    }
}

// So many bytes, read from memory.
fn read_many(alloc: Global, count: usize) -> Result<Result<usize, ReadFault>, AllocError> {
    let bytes = vec![in alloc; 7u8; count]?;
    let mut source = MemSource::of(bytes, Vec::new(alloc));
    Ok(read_to_end(alloc, &mut source).map(|bytes| bytes.len()))
}

// Whether five bytes were written to a sink with this room, and what it took.
fn write_five(alloc: Global, room: u64, fail_at: u64) -> Result<(bool, usize), AllocError> {
    let fail_at = Vec::from_slice(alloc, [fail_at].as_slice())?;
    let mut sink = MemSink::of(alloc, room, fail_at)?;
    let written = write_all(&mut sink, b"hello".as_slice());
    Ok((written == Ok(()), sink.bytes().len()))
}

#[test]
fn reads_in_pieces(rt: HostRuntime) -> Result<(), Fail> {
    for (piece, takes) in [(1, 6), (2, 4), (3, 3), (5, 2), (9, 2)] {
        for fail_at in 1..9 {
            let read = read_five(rt.alloc(), piece, fail_at)?;
            let wanted = if fail_at > takes {
                Some(b"hello".as_slice())
            } else {
                None
            };
            assert_eq!(rt;
                read.as_deref(),
                wanted,
                "pieces of {piece}, failing at {fail_at}"
            );
        }
    }
    Ok(())
}

#[test]
fn reads_as_much_as_a_job_may_have(rt: HostRuntime) -> Result<(), Fail> {
    for (count, wanted) in [
        (0, Ok(0)),
        (200_000, Ok(200_000)),
        (16_777_216, Ok(16_777_216)),
        (16_777_217, Err(ReadFault::TooLong)),
    ] {
        assert_eq!(rt; read_many(rt.alloc(), count)?, wanted, "{count} bytes");
    }
    Ok(())
}

#[test]
fn writes_what_there_is_room_for(rt: HostRuntime) -> Result<(), Fail> {
    for (room, fail_at, wanted) in [
        (5, 0, (true, 5)),
        (9, 2, (true, 5)),
        (4, 0, (false, 4)),
        (0, 0, (false, 0)),
        (9, 1, (false, 0)),
    ] {
        assert_eq!(rt;
            write_five(rt.alloc(), room, fail_at)?,
            wanted,
            "{room}, {fail_at}"
        );
    }
    Ok(())
}

// The job of a text that is read in pieces of so many bytes.
fn job_of(
    alloc: Global,
    form: JobForm,
    text: &[u8],
    piece: usize,
) -> Result<Result<Job, JobFault>, AllocError> {
    let text = Vec::from_slice(alloc, text)?;
    let mut source = MemSource::in_pieces(text, Vec::new(alloc), piece.max(1));
    Ok(read_job(alloc, &mut source, form))
}

// A line again and again, and then another text.
fn repeated(alloc: Global, line: &str, count: u32, end: &str) -> Result<Vec<u8>, AllocError> {
    let mut text = Vec::new(alloc);
    for _ in 0..count {
        text.extend_from_slice(line.as_bytes())?;
        text.push(b'\n')?;
    }
    text.extend_from_slice(end.as_bytes())?;
    Ok(text)
}

#[test]
fn reads_jobs(rt: HostRuntime) -> Result<(), Fail> {
    let alloc = rt.alloc();
    let jobs = [
        (
            JobForm::Apply,
            "",
            "Ok(Job { clients: Clients { clients: [] }, turns: Turns { turns: [] } })",
        ),
        (
            JobForm::Apply,
            "#\nlist",
            "Ok(Job { clients: Clients { clients: [(1, Lines { lines: [Line { number: 2, command: Do(List) }] })] }, turns: Turns { turns: [] } })",
        ),
        (
            JobForm::Run,
            "count 5\nclient 2\n",
            "Ok(Job { clients: Clients { clients: [(1, Lines { lines: [Line { number: 1, command: Count { slot: 5 } }] }), (2, Lines { lines: [] })] }, turns: Turns { turns: [] } })",
        ),
        (
            JobForm::Replay,
            "turns 16 3\nclient 3\nlist\nclient 2\nclient 3\nlist\nturns 2 15",
            "Ok(Job { clients: Clients { clients: [(2, Lines { lines: [] }), (3, Lines { lines: [Line { number: 3, command: Do(List) }, Line { number: 6, command: Do(List) }] })] }, turns: Turns { turns: [16, 3, 2, 15] } })",
        ),
        (JobForm::Apply, "creat a", "Err(BadLine { line: 1 })"),
        (
            JobForm::Apply,
            "list\n\nclient 1",
            "Err(BadLine { line: 3 })",
        ),
        (
            JobForm::Replay,
            "client 1\nlist\nturns 3",
            "Err(BadTurn { number: 3 })",
        ),
        (
            JobForm::Replay,
            "turns 15 1 99",
            "Err(BadTurn { number: 1 })",
        ),
        (
            JobForm::Replay,
            "turns 99999999999\nlist x",
            "Err(BadLine { line: 2 })",
        ),
    ];
    for (form, text, wanted) in jobs {
        let job = job_of(alloc, form, text.as_bytes(), 3)?;
        let said = format!(in alloc; "{job:?}")?;
        assert_eq!(rt; said.as_str(), wanted, "at {text:?}");
    }
    let faults = [
        ("list", 256, "", None),
        ("list", 256, "read a 0 1", Some(JobFault::TooLong)),
        ("list", 256, "x", Some(JobFault::BadLine { line: 257 })),
        ("list", 257, "x", Some(JobFault::TooLong)),
        ("", 99_999, "list", None),
        ("x", 100_000, "", Some(JobFault::BadLine { line: 1 })),
        ("x", 100_000, "x", Some(JobFault::TooLong)),
        (
            "fill a 0 131072 00",
            3,
            "read a 0 18446744073709551615",
            Some(JobFault::TooLong),
        ),
    ];
    for (line, count, end, wanted) in faults {
        let text = repeated(alloc, line, count, end)?;
        let fault = job_of(alloc, JobForm::Apply, &text, 4096)?.err();
        assert_eq!(rt; fault, wanted, "{count} times {line:?}");
    }
    let text = Vec::from_slice(alloc, b"list".as_slice())?;
    let fail_at = Vec::from_slice(alloc, [2].as_slice())?;
    let mut source = MemSource::of(text, fail_at);
    assert_eq!(rt;
        read_job(alloc, &mut source, JobForm::Apply).err(),
        Some(JobFault::ReadFault)
    );
    Ok(())
}
