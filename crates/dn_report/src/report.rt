// The texts that the program writes.
ghost use Rattle.std.specs.Prelude.{◌≡◌, ◌++◌, OnOk};
ghost use Rattle.dn_report.specs.Report.{spaced, spaced_number, spaced_digits, bytes_text, names_text, refusal_text, reply_text, history_line, line_end, last_line, bad_line_text, bad_turn_text, bad_length_text, cause_text, refused_text, formatted_text};

use dn_model::{Refusal, Reply};
use itoa::Buffer;
use log_entry::Name;
use std::alloc::AllocError;

/// Why a call was refused.
#[derive(Clone, Copy, Debug, PartialEq, Eq)]
pub enum Cause {
    /// A file system has 64 pages at least.
    TooFewPages,
    /// It has 65,536 pages at most.
    TooManyPages,
    /// It has 8 to 4,096 inodes, and 32 pages for data at least.
    BadInodes,
    /// The device has so many words, which aren't those of the pages.
    WrongSize { words: u64 },
    /// The name isn't one that a file can have.
    BadName,
    /// No file has the name.
    NotFound,
}

/// What is written where the words give no command.
pub const USAGE: &[u8] = b"usage\n";

/// What is written behind the history lines where the device stopped.
pub const STOPPED: &[u8] = b"stopped\n";

/// What is written where the job couldn't be read.
pub const READ_FAULT: &[u8] = b"read-fault\n";

/// What is written where memory ran out.
pub const NO_MEMORY: &[u8] = b"no-memory\n";

/// What is written where the job is too long.
pub const TOO_LONG: &[u8] = b"too-long\n";

/// What is written where the image can't be opened.
pub const CANNOT_OPEN: &[u8] = b"denova: cannot open image\n";

pub(crate) fn write_word(text: &mut Vec<u8>, word: &[u8]) -> Result<(), AllocError>
    ensures { OnOk result (text.new.items ≡ text.old.items ++ spaced word.now) }
{
    text.push(b' ')?;
    text.extend_from_slice(word)
}

pub(crate) fn write_number(text: &mut Vec<u8>, number: u64) -> Result<(), AllocError>
    ensures { OnOk result (text.new.items ≡ text.old.items ++ spaced_number number) }
{
    let mut buffer = Buffer::new();
    write_word(text, buffer.format(number).as_bytes())
}

pub(crate) fn write_count(text: &mut Vec<u8>, name: &[u8], number: u64) -> Result<(), AllocError>
    ensures { OnOk result (text.new.items ≡ text.old.items ++ name.now ++ spaced_number number) }
{
    text.extend_from_slice(name)?;
    write_number(text, number)
}

pub(crate) fn end_line(text: &mut Vec<u8>) -> Result<(), AllocError>
    ensures { OnOk result (text.new.items ≡ text.old.items ++ line_end) }
{
    text.push(b'\n')?;
    Ok(())
}

fn write_digits(text: &mut Vec<u8>, bytes: &[u8]) -> Result<(), AllocError>
    ensures { OnOk result (text.new.items ≡ text.old.items ++ spaced_digits bytes.now) }
{
    if bytes.is_empty() {
        return Ok(());
    }
    let digits = hex::encode(*text.allocator(), bytes)?;
    write_word(text, digits.as_bytes())
}

fn write_bytes(text: &mut Vec<u8>, bytes: &[u8]) -> Result<(), AllocError>
    ensures { OnOk result (text.new.items ≡ text.old.items ++ bytes_text bytes.now) }
{
    text.extend_from_slice(b"bytes")?;
    write_number(text, bytes.len() as u64)?;
    write_digits(text, bytes)
}

fn write_names(text: &mut Vec<u8>, names: &[Name]) -> Result<(), AllocError>
    ensures { OnOk result (text.new.items ≡ text.old.items ++ names_text names.now) }
{
    text.extend_from_slice(b"names")?;
    write_number(text, names.len() as u64)?;
    for name in names {
        write_word(text, name.bytes())?;
    }
    Ok(())
}

fn write_refusal(text: &mut Vec<u8>, refusal: Refusal) -> Result<(), AllocError>
    ensures { OnOk result (text.new.items ≡ text.old.items ++ refusal_text refusal) }
{
    match refusal {
        Refusal::BadName => text.extend_from_slice(b"bad-name"),
        Refusal::NotFound => text.extend_from_slice(b"not-found"),
        Refusal::Exists => text.extend_from_slice(b"exists"),
        Refusal::TooLong => text.extend_from_slice(b"too-long"),
        Refusal::TooBig => text.extend_from_slice(b"too-big"),
        Refusal::NoInode => text.extend_from_slice(b"no-inode"),
        Refusal::NoSpace { needed, free } => {
            text.extend_from_slice(b"no-space")?;
            write_number(text, needed)?;
            write_number(text, free)
        }
    }
}

fn write_reply(text: &mut Vec<u8>, reply: &Reply) -> Result<(), AllocError>
    ensures { OnOk result (text.new.items ≡ text.old.items ++ reply_text reply.now) }
{
    match reply {
        Reply::Done => text.extend_from_slice(b"done"),
        Reply::Bytes(bytes) => write_bytes(text, bytes.bytes()),
        Reply::Number(number) => {
            text.extend_from_slice(b"number")?;
            write_number(text, *number)
        }
        Reply::Names(names) => write_names(text, names.names()),
        Reply::Refused(refusal) => write_refusal(text, *refusal),
    }
}

/// Appends the line of one operation that was answered: the client, its line of the job, counted from 1, and the
/// reply.
#[tactic(auto, unfolding(crate::specs::Report::history_line))]
pub fn write_line(text: &mut Vec<u8>, who: u32, line: u64, reply: &Reply) -> Result<(), AllocError>
    ensures { OnOk result (text.new.items ≡ text.old.items ++ history_line who line reply.now) }
{
    let mut buffer = Buffer::new();
    text.extend_from_slice(buffer.format(who).as_bytes())?;
    write_number(text, line)?;
    text.push(b' ')?;
    write_reply(text, reply)?;
    end_line(text)
}

/// Appends the last line of a report: the number of history lines, and that of the free pages.
pub fn write_end(text: &mut Vec<u8>, entries: u64, free: u64) -> Result<(), AllocError>
    ensures { OnOk result (text.new.items ≡ text.old.items ++ last_line entries free) }
{
    text.extend_from_slice(b"end")?;
    write_number(text, entries)?;
    write_number(text, free)?;
    end_line(text)
}

/// Appends what is written where this line of the job, counted from 1, is no command.
pub fn write_bad_line(text: &mut Vec<u8>, line: u64) -> Result<(), AllocError>
    ensures { OnOk result (text.new.items ≡ text.old.items ++ bad_line_text line) }
{
    text.extend_from_slice(b"bad-line")?;
    write_number(text, line)?;
    end_line(text)
}

/// Appends what is written where a schedule has a number that is no actor of the job.
pub fn write_bad_turn(text: &mut Vec<u8>, number: u64) -> Result<(), AllocError>
    ensures { OnOk result (text.new.items ≡ text.old.items ++ bad_turn_text number) }
{
    text.extend_from_slice(b"bad-turn")?;
    write_number(text, number)?;
    end_line(text)
}

fn write_cause(text: &mut Vec<u8>, cause: Cause) -> Result<(), AllocError>
    ensures { OnOk result (text.new.items ≡ text.old.items ++ cause_text cause) }
{
    match cause {
        Cause::TooFewPages => text.extend_from_slice(b"too-few-pages"),
        Cause::TooManyPages => text.extend_from_slice(b"too-many-pages"),
        Cause::BadInodes => text.extend_from_slice(b"bad-inodes"),
        Cause::WrongSize { words } => {
            text.extend_from_slice(b"wrong-size")?;
            write_number(text, words)
        }
        Cause::BadName => text.extend_from_slice(b"bad-name"),
        Cause::NotFound => text.extend_from_slice(b"not-found"),
    }
}

/// Appends what is written where a call was refused.
pub fn write_refused(text: &mut Vec<u8>, cause: Cause) -> Result<(), AllocError>
    ensures { OnOk result (text.new.items ≡ text.old.items ++ refused_text cause) }
{
    text.extend_from_slice(b"refused")?;
    text.push(b' ')?;
    write_cause(text, cause)?;
    end_line(text)
}

/// Appends what is written where a file system was made: its pages, inodes and free pages.
pub fn write_formatted(
    text: &mut Vec<u8>,
    pages: u64,
    inodes: u64,
    free: u64,
) -> Result<(), AllocError>
    ensures { OnOk result (text.new.items ≡ text.old.items ++ formatted_text pages inodes free) }
{
    text.extend_from_slice(b"formatted")?;
    write_number(text, pages)?;
    write_number(text, inodes)?;
    write_number(text, free)?;
    end_line(text)
}

/// Appends what is written where the image's length, in bytes, is none that an image has.
pub fn write_bad_length(text: &mut Vec<u8>, bytes: u64) -> Result<(), AllocError>
    ensures { OnOk result (text.new.items ≡ text.old.items ++ bad_length_text bytes) }
{
    text.extend_from_slice(b"denova: bad length")?;
    write_number(text, bytes)?;
    end_line(text)
}
