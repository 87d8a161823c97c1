// Operations with the replies that were worked out by hand.
use dn_files::{Files, apply};
use dn_model::{ByteText, NameList, NoMemory, Op, Refusal, Reply};
use std::alloc::Global;
use std::test::Fail;

#[derive(Clone, Copy, Debug)]
enum Ask {
    Create(&'static str),
    // a name of so many bytes
    CreateLong(usize),
    Write(&'static str, u64, &'static str),
    // so many times the same byte
    Fill(&'static str, u64, usize, u8),
    Read(&'static str, u64, u64),
    Cut(&'static str, u64),
    Remove(&'static str),
    Rename(&'static str, &'static str),
    Size(&'static str),
    List,
}

#[derive(Clone, Copy, Debug)]
enum Want {
    Done,
    Bytes(&'static str),
    Number(u64),
    // the names, each with a blank after it
    Names(&'static str),
    Refused(Refusal),
}

// A gap before the bytes that are written is zeros.
const GAP: [(Ask, Want); 4] = [
    (Ask::Create("f"), Want::Done),
    (Ask::Write("f", 5000, "abc"), Want::Done),
    (Ask::Size("f"), Want::Number(5003)),
    (Ask::Read("f", 4998, 10), Want::Bytes("\0\0abc")),
];

// Bytes that were cut off don't come back.
const CUTS: [(Ask, Want); 5] = [
    (Ask::Create("f"), Want::Done),
    (Ask::Fill("f", 0, 4096, 0x41), Want::Done),
    (Ask::Cut("f", 10), Want::Done),
    (Ask::Cut("f", 4096), Want::Done),
    (Ask::Read("f", 8, 4), Want::Bytes("AA\0\0")),
];

const RENAMES: [(Ask, Want); 13] = [
    (Ask::Create("a"), Want::Done),
    (Ask::Write("a", 0, "a"), Want::Done),
    (Ask::Create("b"), Want::Done),
    (Ask::Write("b", 0, "b"), Want::Done),
    (Ask::Rename("a", "a"), Want::Done),
    (Ask::Rename("a", "b"), Want::Done),
    (Ask::List, Want::Names("b ")),
    (Ask::Read("b", 0, 8), Want::Bytes("a")),
    (Ask::Size("a"), Want::Refused(Refusal::NotFound)),
    (Ask::Create("a"), Want::Done),
    (Ask::List, Want::Names("a b ")),
    (Ask::Remove("b"), Want::Done),
    (Ask::List, Want::Names("a ")),
];

const REFUSALS: [(Ask, Want); 13] = [
    (Ask::Create("a/b"), Want::Refused(Refusal::BadName)),
    (Ask::Create("."), Want::Refused(Refusal::BadName)),
    (Ask::Create("f"), Want::Done),
    (Ask::Create("f"), Want::Refused(Refusal::Exists)),
    (Ask::Cut("f", 16_777_217), Want::Refused(Refusal::TooBig)),
    (Ask::Cut("f", 16_777_216), Want::Done),
    (Ask::Size("f"), Want::Number(16_777_216)),
    (Ask::Write("f", 0, ""), Want::Done),
    (Ask::Read("f", 16_777_216, 1), Want::Bytes("")),
    (Ask::CreateLong(255), Want::Done),
    (Ask::CreateLong(256), Want::Refused(Refusal::BadName)),
    (Ask::Fill("f", 1, 65536, 0x61), Want::Done),
    (
        Ask::Fill("f", 1, 65537, 0x61),
        Want::Refused(Refusal::TooLong),
    ),
];

fn text(alloc: Global, words: &str) -> Result<ByteText, NoMemory> {
    Ok(ByteText::of(Vec::from_slice(alloc, words.as_bytes())?))
}

fn repeated(alloc: Global, byte: u8, count: usize) -> Result<ByteText, NoMemory> {
    Ok(ByteText::of(vec![in alloc; byte; count]?))
}

fn op_of(alloc: Global, ask: &Ask) -> Result<Op, NoMemory> {
    Ok(match *ask {
        Ask::Create(name) => Op::Create {
            name: text(alloc, name)?,
        },
        Ask::CreateLong(count) => Op::Create {
            name: repeated(alloc, b'n', count)?,
        },
        Ask::Write(name, at, bytes) => Op::Write {
            name: text(alloc, name)?,
            at,
            bytes: text(alloc, bytes)?,
        },
        Ask::Fill(name, at, count, byte) => Op::Write {
            name: text(alloc, name)?,
            at,
            bytes: repeated(alloc, byte, count)?,
        },
        Ask::Read(name, at, length) => Op::Read {
            name: text(alloc, name)?,
            at,
            length,
        },
        Ask::Cut(name, size) => Op::Cut {
            name: text(alloc, name)?,
            size,
        },
        Ask::Remove(name) => Op::Remove {
            name: text(alloc, name)?,
        },
        Ask::Rename(from, to) => Op::Rename {
            from: text(alloc, from)?,
            to: text(alloc, to)?,
        },
        Ask::Size(name) => Op::Size {
            name: text(alloc, name)?,
        },
        Ask::List => Op::List,
    })
}

// The names, each with a blank after it.
fn lines_of(alloc: Global, names: &NameList) -> Result<Vec<u8>, NoMemory> {
    let mut lines = Vec::new(alloc);
    for name in names.names() {
        lines.extend_from_slice(name.bytes())?;
        lines.push(b' ')?;
    }
    Ok(lines)
}

fn is_wanted(alloc: Global, reply: &Reply, want: &Want) -> Result<bool, NoMemory> {
    Ok(match (reply, want) {
        (Reply::Done, Want::Done) => true,
        (Reply::Bytes(found), Want::Bytes(bytes)) => found.bytes() == bytes.as_bytes(),
        (Reply::Number(found), Want::Number(number)) => *found == *number,
        (Reply::Names(found), Want::Names(names)) => {
            lines_of(alloc, found)?.as_slice() == names.as_bytes()
        }
        (Reply::Refused(found), Want::Refused(why)) => *found == *why,
        _ => false,
    })
}

// The number of the first row whose reply isn't the one that is wanted.
fn first_wrong(alloc: Global, rows: &[(Ask, Want)]) -> Result<Option<usize>, NoMemory> {
    let mut files = Files::of(Vec::new(alloc));
    for (k, row) in rows.iter().enumerate() {
        let op = op_of(alloc, &row.0)?.copy(alloc)?;
        let reply = apply(alloc, &mut files, &op)?;
        if !is_wanted(alloc, &reply, &row.1)? {
            return Ok(Some(k));
        }
    }
    Ok(None)
}

#[test]
fn answers_as_worked_by_hand(rt: HostRuntime) -> Result<(), Fail> {
    assert_eq!(rt; first_wrong(rt.alloc(), &GAP)?, None);
    assert_eq!(rt; first_wrong(rt.alloc(), &CUTS)?, None);
    assert_eq!(rt; first_wrong(rt.alloc(), &RENAMES)?, None);
    assert_eq!(rt; first_wrong(rt.alloc(), &REFUSALS)?, None);
    Ok(())
}
