// Operations, written shortly.
use dn_files::{Files, apply};
use dn_model::{ByteText, Entry, Op, Reply};
use std::alloc::{AllocError, Global};

// An operation that changes files.
#[derive(Clone, Copy, Debug)]
pub enum Ask {
    Create(&'static str),
    // from a place on, so many bytes of one value
    Fill(&'static str, u64, usize, u8),
    Write(&'static str, u64, &'static [u8]),
    Cut(&'static str, u64),
    Remove(&'static str),
    Rename(&'static str, &'static str),
}

fn text(alloc: Global, words: &str) -> Result<ByteText, AllocError> {
    Ok(ByteText::of(Vec::from_slice(alloc, words.as_bytes())?))
}

pub fn op_of(alloc: Global, ask: &Ask) -> Result<Op, AllocError> {
    Ok(match *ask {
        Ask::Create(name) => Op::Create {
            name: text(alloc, name)?,
        },
        Ask::Fill(name, at, count, byte) => Op::Write {
            name: text(alloc, name)?,
            at,
            bytes: ByteText::of(vec![in alloc; byte; count]?),
        },
        Ask::Write(name, at, bytes) => Op::Write {
            name: text(alloc, name)?,
            at,
            bytes: ByteText::of(Vec::from_slice(alloc, bytes)?),
        },
        Ask::Cut(name, size) => Op::Cut {
            name: text(alloc, name)?,
            size,
        },
        Ask::Remove(name) => Op::Remove {
            name: text(alloc, name)?,
        },
        Ask::Rename(from, to) => Op::Rename {
            from: text(alloc, from)?,
            to: text(alloc, to)?,
        },
    })
}

pub fn ops_of(alloc: Global, asks: &[Ask]) -> Result<Vec<Op>, AllocError> {
    let mut ops = Vec::new(alloc);
    for ask in asks {
        ops.push(op_of(alloc, ask)?)?;
    }
    Ok(ops)
}

// Makes of the files what the plain program makes of these operations.
fn apply_all(alloc: Global, files: &mut Files, asks: &[Ask]) -> Result<(), AllocError> {
    for ask in asks {
        apply(alloc, files, &op_of(alloc, ask)?)?;
    }
    Ok(())
}

// The files after these operations, of which there are none before.
pub fn files_after(alloc: Global, asks: &[Ask]) -> Result<Files, AllocError> {
    files_after_both(alloc, asks, &[])
}

// The files after the ones and then the others.
fn files_after_both(alloc: Global, asks: &[Ask], others: &[Ask]) -> Result<Files, AllocError> {
    let mut files = Files::of(Vec::new(alloc));
    apply_all(alloc, &mut files, asks)?;
    apply_all(alloc, &mut files, others)?;
    Ok(files)
}

// The files after the script, and then after one operation more.
pub fn files_before_and_after(
    alloc: Global,
    script: &[Ask],
    ask: &Ask,
) -> Result<Vec<Files>, AllocError> {
    let mut files = Vec::new(alloc);
    files.push(files_after(alloc, script)?)?;
    files.push(files_after_both(alloc, script, &[*ask])?)?;
    Ok(files)
}

// The files after the operations and then after those of the entries that were done.
fn files_after_entries(
    alloc: Global,
    asks: &[Ask],
    entries: &[Entry],
) -> Result<Files, AllocError> {
    let mut files = files_after(alloc, asks)?;
    for entry in entries {
        if is_done(entry) {
            apply(alloc, &mut files, &entry.op)?;
        }
    }
    Ok(files)
}

// Whether an operation was done.
fn is_done(entry: &Entry) -> bool {
    matches!(entry.reply, Reply::Done)
}

// The files after the operations, and then after each entry that was done.
pub fn files_after_each(
    alloc: Global,
    asks: &[Ask],
    entries: &[Entry],
) -> Result<Vec<Files>, AllocError> {
    let mut files = Vec::new(alloc);
    files.push(files_after(alloc, asks)?)?;
    for (k, entry) in entries.iter().enumerate() {
        if is_done(entry) {
            files.push(files_after_entries(alloc, asks, &entries[..k + 1])?)?;
        }
    }
    Ok(files)
}
