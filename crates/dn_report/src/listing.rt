// The texts of files that are listed, and of generated work.
ghost use Rattle.std.specs.Prelude.{◌≡◌, ◌++◌, ◌-◌, ◌≤◌, OnOk, length, Some};
ghost use Rattle.dn_report.specs.Listing.{digest_line, line_of_file, files_line, is_done, count_done, work_line};

use crate::report::{end_line, write_count, write_number, write_word};
use dn_model::{Entry, Reply};
use itoa::Buffer;
use sha1::Sha1;
use std::alloc::AllocError;

/// The length of a digest, in bytes.
pub const DIGEST_BYTES: usize = 20;

/// Appends the line of a file of so many bytes with this SHA-1 digest, for files that are read in pieces.
///
/// # Errors
/// `AllocError` where there is no memory for the text.
pub fn write_digest(
    text: &mut Vec<u8>,
    size: u64,
    digest: &[u8; DIGEST_BYTES],
    name: &[u8],
) -> Result<(), AllocError>
    ensures { OnOk result (text.new.items
        ≡ text.old.items ++ digest_line size digest.now name.now) }
{
    let mut buffer = Buffer::new();
    text.extend_from_slice(buffer.format(size).as_bytes())?;
    let digits = hex::encode(*text.allocator(), digest.as_slice())?;
    write_word(text, digits.as_bytes())?;
    write_word(text, name)?;
    end_line(text)
}

/// Appends the line of a file: its size in bytes, the SHA-1 digest of its bytes (FIPS 180-4), and its name.
///
/// # Errors
/// `AllocError` where there is no memory for the text.
pub fn write_file(text: &mut Vec<u8>, name: &[u8], bytes: &[u8]) -> Result<(), AllocError>
    ensures { OnOk result (text.new.items
        ≡ text.old.items ++ line_of_file name.now (Some bytes.now)) }
{
    let digest = Sha1::digest(bytes);
    write_digest(text, bytes.len() as u64, &digest, name)
}

/// Appends the last line of a list: how many files there are.
///
/// # Errors
/// `AllocError` where there is no memory for the text.
pub fn write_file_count(text: &mut Vec<u8>, files: u64) -> Result<(), AllocError>
    ensures { OnOk result (text.new.items ≡ text.old.items ++ files_line files) }
{
    write_count(text, b"files", files)?;
    end_line(text)
}

// Whether an operation was done.
fn is_done(reply: &Reply) -> bool
    ensures { result ≡ is_done reply.now }
{
    matches!(reply, Reply::Done)
}

/// How many operations of a history were done. The others were refused.
pub fn done_in(history: &[Entry]) -> u64
    ensures done { result ≡ count_done history.now }
    ensures fits { result ≤ length history.now }
{
    let mut done = 0u64;
    for entry in history {
        if is_done(&entry.reply) {
            done += 1;
        }
    }
    done
}

/// What generated work comes to.
#[derive(Clone, Copy, Debug, PartialEq, Eq)]
pub struct WorkDone {
    /// The operations that were done.
    pub done: u64,
    /// The operations that were refused.
    pub refused: u64,
    /// The files in the end.
    pub files: u64,
    /// The rows of the table of fingerprints.
    pub rows: u64,
    /// The pages that files map.
    pub mapped: u64,
    /// The free pages.
    pub free: u64,
}

/// Appends the text of generated work of this number, which is also that of its operations.
///
/// # Errors
/// `AllocError` where there is no memory for the text.
pub fn write_work(text: &mut Vec<u8>, number: u64, work: WorkDone) -> Result<(), AllocError>
    ensures { OnOk result (text.new.items ≡ text.old.items ++ work_line number work.done
        work.refused work.files work.rows work.mapped work.free) }
{
    write_count(text, b"work", number)?;
    write_count(text, b" done", work.done)?;
    write_count(text, b" refused", work.refused)?;
    write_count(text, b" files", work.files)?;
    write_count(text, b" rows", work.rows)?;
    write_count(text, b" mapped", work.mapped)?;
    write_count(text, b" free", work.free)?;
    end_line(text)
}
