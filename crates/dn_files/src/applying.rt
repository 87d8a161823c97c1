// What each operation answers and makes of files, plainly and slowly.
ghost use Rattle.std.specs.Prelude.{◌≡◌, ◌↔◌, ◌+◌, ◌-◌, ◌<◌, ◌≤◌, ◌&&◌, ◌⊎◌, [], ℕ, All, List, length, take, drop, slice_index, nat_le, nat_lt, if◌then◌else◌, None, IsTrue, IsSome, IsNone, IfSome, IfOk, OnOk, OnErr};
ghost use Rattle.log_entry.specs.Name.{IsLegal};
ghost use Rattle.dn_model.specs.Files.{IsSameFiles};
ghost use Rattle.dn_model.specs.Apply.{Replies, Grants, IsGranted, after_op, Finds, IsShort, Fits, names_of, miss, written, resized};
ghost use Rattle.dn_files.specs.FileLists.{files_of, Applies};

use crate::files::Files;
use dn_model::{ByteText, MOST_BYTES, NoMemory, Op, Refusal, Reply};
use log_entry::MOST_SIZE;
use log_entry::name::is_legal;
use std::alloc::Global;

// Whether the names of the operation are names that a file may have.
fn has_legal_names(op: &Op) -> bool
    ensures { IsTrue result ↔ All IsLegal (names_of op.now) }
{
    match op {
        Op::Create { name }
        | Op::Write { name, .. }
        | Op::Read { name, .. }
        | Op::Cut { name, .. }
        | Op::Remove { name }
        | Op::Size { name } => is_legal(name.bytes()),
        Op::Rename { from, to } => is_legal(from.bytes()) && is_legal(to.bytes()),
        Op::List => true,
    }
}

// Whether the operation finds its file, or for a new one that there is none.
fn finds(files: &Files, op: &Op) -> bool
    ensures { IsTrue result ↔ Finds (files_of files.now) op.now }
{
    match op {
        Op::Create { name } => !files.has(name.bytes()),
        Op::Write { name, .. }
        | Op::Read { name, .. }
        | Op::Cut { name, .. }
        | Op::Remove { name }
        | Op::Size { name } => files.has(name.bytes()),
        Op::Rename { from, .. } => files.has(from.bytes()),
        Op::List => true,
    }
}

// Whether the operation reads or writes few enough bytes.
fn is_short(op: &Op) -> bool
    ensures { IsTrue result ↔ IsShort op.now }
{
    match op {
        Op::Write { bytes, .. } => bytes.bytes().len() as u64 <= MOST_BYTES,
        Op::Read { length, .. } => *length <= MOST_BYTES,
        _ => true,
    }
}

// Whether these bytes at this place end inside the largest file.
fn ends_inside(at: u64, bytes: &[u8]) -> bool
    ensures { IsTrue result ↔ (at + length bytes.now ≤ MOST_SIZE) }
{
    at <= MOST_SIZE && bytes.len() as u64 <= MOST_SIZE - at
}

// Whether the operation makes no file too big.
fn fits(op: &Op) -> bool
    ensures { IsTrue result ↔ Fits op.now }
{
    match op {
        Op::Write { at, bytes, .. } => bytes.bytes().is_empty() || ends_inside(*at, bytes.bytes()),
        Op::Cut { size, .. } => *size <= MOST_SIZE,
        _ => true,
    }
}

// Why an operation finds no file, or one too many.
fn missed_by(op: &Op) -> Refusal
    ensures { result ≡ miss op.now }
{
    match op {
        Op::Create { .. } => Refusal::Exists,
        _ => Refusal::NotFound,
    }
}

// The first reason to refuse the operation, or None where nothing stands in its way.
fn refusal_of(files: &Files, op: &Op) -> Option<Refusal>
    ensures none { IsNone result ↔ IsGranted (files_of files.now) op.now }
    ensures some { IfSome result (λ why. Replies (files_of files.now) op.now (Reply.Refused why)) }
{
    if !has_legal_names(op) {
        Some(Refusal::BadName)
    } else if !finds(files, op) {
        Some(missed_by(op))
    } else if !is_short(op) {
        Some(Refusal::TooLong)
    } else if !fits(op) {
        Some(Refusal::TooBig)
    } else {
        None
    }
}

// The byte of a list, or 0 past its end.
fn byte_at(bytes: &[u8], j: usize) -> u8
    ensures { result ≡ slice_index bytes.now j }
{
    if j < bytes.len() { bytes[j] } else { 0 }
}

// A byte of a file after a write.
fn written_byte(old: &[u8], at: usize, new: &[u8], j: usize) -> u8
    requires { at + length new.now ≤ MOST_SIZE }
    ensures { result ≡ (if nat_le at j && nat_lt j (at + length new.now) then slice_index new.now
        (j - at) else slice_index old.now j) }
{
    if at <= j && j < at + new.len() {
        new[j - at]
    } else {
        byte_at(old, j)
    }
}

// The bytes of a file after a write of at least one byte.
fn written(alloc: Global, old: &[u8], at: usize, new: &[u8]) -> Result<Vec<u8>, NoMemory>
    requires { at + length new.now ≤ MOST_SIZE }
    ensures { IfOk result (λ bytes. bytes.items ≡ written old.now at new.now) }
{
    let size = old.len().max(at + new.len());
    let mut bytes = Vec::with_capacity(alloc, size)?;
    for j in 0..size {
        bytes.push(written_byte(old, at, new, j))?;
    }
    Ok(bytes)
}

// As many bytes as the size, zeros past the old end.
fn resized(alloc: Global, old: &[u8], size: usize) -> Result<Vec<u8>, NoMemory>
    ensures { IfOk result (λ bytes. bytes.items ≡ resized old.now size) }
{
    let mut bytes = Vec::with_capacity(alloc, size)?;
    for j in 0..size {
        bytes.push(byte_at(old, j))?;
    }
    Ok(bytes)
}

// At most so many bytes, from a place on.
fn part(alloc: Global, bytes: &[u8], at: u64, count: u64) -> Result<Vec<u8>, NoMemory>
    ensures { IfOk result (λ found. found.items ≡ take count (drop at bytes.now)) }
{
    let size = bytes.len() as u64;
    let start = at.min(size);
    let end = start + count.min(size - start);
    Vec::from_slice(alloc, &bytes[start as usize..end as usize])
}

// Puts bytes into a file. A write of no bytes changes nothing.
fn write(alloc: Global, files: &mut Files, name: &[u8], at: u64, new: &[u8]) -> Result<(), NoMemory>
    requires legal { IsLegal name.now }
    requires inside { (new.now ≡ []) ⊎ (at + length new.now ≤ MOST_SIZE) }
    ensures ok { OnOk result
        (IsSameFiles (files_of files.new)
        (after_op (files_of files.old) (Op.Write name.now at new.now))) }
    ensures err { OnErr result (files.new ≡ files.old) }
{
    if new.is_empty() {
        return Ok(());
    }
    let bytes = written(alloc, files.bytes_of(name), at as usize, new)?;
    files.put(alloc, name, bytes)
}

// Whether two names are the same.
fn is_same(name: &[u8], other: &[u8]) -> bool
    ensures { IsTrue result ↔ (name.now ≡ other.now) }
{
    name == other
}

// Gives a file another name. Another file of that name is gone.
fn rename(alloc: Global, files: &mut Files, from: &[u8], to: &[u8]) -> Result<(), NoMemory>
    requires legal { IsLegal to.now }
    requires found { IsSome (files_of files.old from.now) }
    ensures ok { OnOk result
        (IsSameFiles (files_of files.new)
        (after_op (files_of files.old) (Op.Rename from.now to.now))) }
    ensures err { OnErr result (files.new ≡ files.old) }
{
    if is_same(from, to) {
        return Ok(());
    }
    let bytes = Vec::from_slice(alloc, files.bytes_of(from))?;
    files.put(alloc, to, bytes)?;
    files.drop_name(from);
    Ok(())
}

// Makes of the files what the operation asks, where nothing stands in its way.
fn change(alloc: Global, files: &mut Files, op: &Op) -> Result<(), NoMemory>
    requires { IsGranted (files_of files.old) op.now }
    ensures ok { OnOk result
        (IsSameFiles (files_of files.new) (after_op (files_of files.old) op.now)) }
    ensures err { OnErr result (files.new ≡ files.old) }
{
    match op {
        Op::Create { name } => files.put(alloc, name.bytes(), Vec::new(alloc)),
        Op::Write { name, at, bytes } => write(alloc, files, name.bytes(), *at, bytes.bytes()),
        Op::Cut { name, size } => {
            let bytes = resized(alloc, files.bytes_of(name.bytes()), *size as usize)?;
            files.put(alloc, name.bytes(), bytes)
        }
        Op::Remove { name } => {
            files.drop_name(name.bytes());
            Ok(())
        }
        Op::Rename { from, to } => rename(alloc, files, from.bytes(), to.bytes()),
        _ => Ok(()),
    }
}

// The reply of an operation, where nothing stands in its way.
fn reply_to(alloc: Global, files: &Files, op: &Op) -> Result<Reply, NoMemory>
    ensures { IfOk result (Grants (files_of files.now) op.now) }
{
    Ok(match op {
        Op::Read { name, at, length } => {
            let bytes = part(alloc, files.bytes_of(name.bytes()), *at, *length)?;
            Reply::Bytes(ByteText::of(bytes))
        }
        Op::Size { name } => Reply::Number(files.bytes_of(name.bytes()).len() as u64),
        Op::List => Reply::Names(files.names(alloc)?),
        _ => Reply::Done,
    })
}

/// Answers an operation and makes of the files what it asks: the meaning of all operations, without pages, logs
/// or counts. It never answers that an inode or room is wanting. The time grows with all bytes of the files that
/// the operation names, and with the number of files.
///
/// # Errors
/// `NoMemory` where there is no memory for the reply or for the file's new bytes. The files are as before then.
pub fn apply(alloc: Global, files: &mut Files, op: &Op) -> Result<Reply, NoMemory>
    ensures applied { IfOk result (Applies files.old files.new op.now) }
    ensures no_memory { OnErr result (files.new ≡ files.old) }
{
    if let Some(why) = refusal_of(files, op) {
        return Ok(Reply::Refused(why));
    }
    let reply = reply_to(alloc, files, op)?;
    change(alloc, files, op)?;
    Ok(reply)
}
