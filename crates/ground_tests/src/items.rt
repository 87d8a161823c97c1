// What items are written as and read from, by the words of the format.
use log_entry::{
    Flag, Front, LogItem, Name, NameFault, is_legal, is_spelled, read_front, read_item, slots_of,
    write_item,
};
use std::alloc::{AllocError, Global};
use std::process::Abort;
use std::test::Fail;

const LETTERS: &[u8; 41] = b"abcdefghijklmnopqrstuvwxyzABCDEFGHIJKLMNO";

// The first 40 letters as words, and eight times the letter z.
const A: u64 = 0x6867_6665_6463_6261;

const I: u64 = 0x706f_6e6d_6c6b_6a69;

const Q: u64 = 0x7877_7675_7473_7271;

const Y: u64 = 0x4645_4443_4241_7a79;

const G: u64 = 0x4e4d_4c4b_4a49_4847;

const Z: u64 = 0x7a7a_7a7a_7a7a_7a7a;

// Letters, and from place 41 on the letter z.
fn letters(alloc: Global, length: usize) -> Result<Vec<u8>, AllocError> {
    let mut bytes = Vec::new(alloc);
    for k in 0..length {
        bytes.push(LETTERS.get(k).copied().unwrap_or(b'z'))?;
    }
    Ok(bytes)
}

fn name_of(alloc: Global, length: usize) -> Result<Name, Fail> {
    Ok(Name::of(alloc, &letters(alloc, length)?)?)
}

// The item is written behind another slot as these, and read again with one more behind it.
fn check_spelling(
    rt: &impl Abort,
    alloc: Global,
    item: &LogItem,
    slots: &[[u64; 8]],
) -> Result<(), Fail> {
    assert!(rt; is_spelled(item));
    assert_eq!(rt; slots_of(item), slots.len() as u64);
    let mut log = vec![in alloc; [7u64; 8]]?;
    write_item(item, &mut log)?;
    assert!(rt; log[0] == [7u64; 8] && &log[1..] == slots, "{item:?}");
    log.push([9; 8])?;
    let (again, count) = read_item(alloc, &log[1..])?.ok_or("no item")?;
    assert_eq!(rt; count, slots.len() as u64);
    let mut copy = Vec::new(alloc);
    write_item(&again.clone()?, &mut copy)?;
    assert!(rt; copy.as_slice() == slots, "{again:?}");
    let short = read_front(alloc, &slots[..slots.len() - 1])?;
    assert!(rt; matches!(short, Front::Part), "{item:?}");
    Ok(())
}

#[test]
fn items_are_spelled(rt: HostRuntime) -> Result<(), Fail> {
    let alloc = rt.alloc();
    let write = LogItem::Write {
        first: 0,
        count: 1,
        block: 8,
        size: 3,
        flag: Flag::Needed,
        mask: 0,
    };
    check_spelling(&rt, alloc, &write, &[[1, 0, 1, 8, 3, 1, 0, 0]])?;
    let write = LogItem::Write {
        first: 4079,
        count: 17,
        block: 70,
        size: 16_777_216,
        flag: Flag::Complete,
        mask: 0x1_0001,
    };
    check_spelling(
        &rt,
        alloc,
        &write,
        &[[1, 4079, 17, 70, 16_777_216, 3, 65_537, 0]],
    )?;
    check_spelling(
        &rt,
        alloc,
        &LogItem::Size { size: 4097 },
        &[[2, 4097, 0, 0, 0, 0, 0, 0]],
    )?;
    let add = LogItem::Add {
        ino: 1,
        name: Name::of(alloc, b"f")?,
    };
    check_spelling(&rt, alloc, &add, &[[3, 1, 1, 0x66, 0, 0, 0, 0]])?;
    check_names(&rt, alloc)
}

fn check_names(rt: &impl Abort, alloc: Global) -> Result<(), Fail> {
    let name = name_of(alloc, 40)?;
    check_spelling(
        rt,
        alloc,
        &LogItem::Forget { name },
        &[[4, 0, 40, A, I, Q, Y, G]],
    )?;
    let name = name_of(alloc, 41)?;
    check_spelling(
        rt,
        alloc,
        &LogItem::Add {
            ino: u64::MAX,
            name,
        },
        &[
            [3, u64::MAX, 41, A, I, Q, Y, G],
            [5, 0x4f, 0, 0, 0, 0, 0, 0],
        ],
    )?;
    let name = name_of(alloc, 96)?;
    check_spelling(
        rt,
        alloc,
        &LogItem::Add { ino: 2, name },
        &[
            [3, 2, 96, A, I, Q, Y, G],
            [5, 0x7a7a_7a7a_7a7a_7a4f, Z, Z, Z, Z, Z, Z],
        ],
    )?;
    let name = name_of(alloc, 255)?;
    check_spelling(
        rt,
        alloc,
        &LogItem::Forget { name },
        &[
            [4, 0, 255, A, I, Q, Y, G],
            [5, 0x7a7a_7a7a_7a7a_7a4f, Z, Z, Z, Z, Z, Z],
            [5, Z, Z, Z, Z, Z, Z, Z],
            [5, Z, Z, Z, Z, Z, Z, Z],
            [5, Z, Z, Z, Z, Z, 0x007a_7a7a_7a7a_7a7a, 0],
        ],
    )
}

#[test]
fn others_are_refused(rt: HostRuntime) -> Result<(), Fail> {
    let alloc = rt.alloc();
    for slots in [
        [[1, 0, 1, 8, 3, 4, 0, 0], [0; 8]],
        [[1, 0, 1, 8, 3, 1, 0, 1], [0; 8]],
        [[1, 0, 18, 8, 16_777_216, 1, 0, 0], [0; 8]],
        [[1, 0, 0, 8, 3, 1, 0, 0], [0; 8]],
        [[1, 1, 1, 8, 4096, 1, 0, 0], [0; 8]],
        [[1, u64::MAX, 2, 8, 3, 1, 0, 0], [0; 8]],
        [[1, 0, 1, 8, 3, 1, 2, 0], [0; 8]],
        [[2, 16_777_217, 0, 0, 0, 0, 0, 0], [0; 8]],
        [[2, 3, 1, 0, 0, 0, 0, 0], [0; 8]],
        [[3, 1, 3, 0x61_2f_61, 0, 0, 0, 0], [0; 8]],
        [[3, 1, 1, 0x6161, 0, 0, 0, 0], [0; 8]],
        [[3, 1, 0, 0, 0, 0, 0, 0], [0; 8]],
        [[3, 1, 256, Z, Z, Z, Z, Z], [5, Z, Z, Z, Z, Z, Z, Z]],
        [[3, 1, 41, Z, Z, Z, Z, Z], [4, 0x7a, 0, 0, 0, 0, 0, 0]],
        [[3, 1, 41, Z, Z, Z, Z, Z], [5, 0x7a7a, 0, 0, 0, 0, 0, 0]],
        [[3, 1, 200, Z, Z, Z, Z, Z], [5, Z, 0x2f, Z, Z, Z, Z, Z]],
        [[4, 1, 1, 0x61, 0, 0, 0, 0], [0; 8]],
        [[5, 0x61, 0, 0, 0, 0, 0, 0], [0; 8]],
        [[6, 0, 0, 0, 0, 0, 0, 0], [0; 8]],
        [[0; 8], [0; 8]],
    ] {
        let front = read_front(alloc, &slots)?;
        assert!(rt; matches!(front, Front::Nothing), "{slots:?}");
        assert!(rt; read_item(alloc, &slots)?.is_none(), "{slots:?}");
    }
    let short = [[3, 1, 100, Z, Z, Z, Z, Z], [5, Z, Z, Z, Z, Z, Z, Z]];
    assert!(rt; matches!(read_front(alloc, &short)?, Front::Part));
    assert!(rt; read_item(alloc, &short)?.is_none());
    Ok(())
}

#[test]
fn names_are_judged(rt: HostRuntime) -> Result<(), Fail> {
    let alloc = rt.alloc();
    for (bytes, legal) in [
        (b"".as_slice(), false),
        (b".".as_slice(), false),
        (b"..".as_slice(), false),
        (b"...".as_slice(), true),
        (b"a/b".as_slice(), false),
        (b"a b".as_slice(), false),
        (b"a\x7f".as_slice(), false),
        (b"!\x80\xff".as_slice(), true),
        (letters(alloc, 255)?.as_slice(), true),
        (letters(alloc, 256)?.as_slice(), false),
    ] {
        assert_eq!(rt; is_legal(bytes), legal, "{bytes:?}");
        match Name::of(alloc, bytes) {
            Ok(name) => assert!(rt; legal && name.is(bytes) && !name.is(b"b"), "{bytes:?}"),
            Err(fault) => assert!(rt; !legal && fault == NameFault::Illegal, "{bytes:?}"),
        }
    }
    Ok(())
}
