// The lines that tell counts.
ghost use Rattle.std.specs.Prelude.{◌≡◌, ◌++◌, OnOk};
ghost use Rattle.dn_report.specs.Report.{spaced_number, line_end};
ghost use Rattle.thread_texts.specs.Texts.{counts_text, word_text, change_line, row_line, read_text, read_line};

use dn_model::CountChange;
use fingerprint::CountWord;
use itoa::Buffer;
use std::alloc::AllocError;

/// A count that a client read.
#[derive(Clone, Copy, Debug, PartialEq, Eq)]
pub struct CountRead {
    /// The client.
    pub who: u32,
    /// The number of its line in the job, from 1.
    pub line: u64,
    /// The slot of the table of fingerprints, by number.
    pub slot: u64,
    /// The counts, none where the table has no such slot.
    pub count: Option<CountWord>,
}

fn write_number(text: &mut Vec<u8>, number: u64) -> Result<(), AllocError>
    ensures { OnOk result (text.new.items ≡ text.old.items ++ spaced_number number) }
{
    let mut buffer = Buffer::new();
    text.push(b' ')?;
    text.extend_from_slice(buffer.format(number).as_bytes())
}

fn write_named(text: &mut Vec<u8>, name: &[u8], number: u64) -> Result<(), AllocError>
    ensures { OnOk result (text.new.items ≡ text.old.items ++ name.now ++ spaced_number number) }
{
    text.extend_from_slice(name)?;
    write_number(text, number)
}

fn end_line(text: &mut Vec<u8>) -> Result<(), AllocError>
    ensures { OnOk result (text.new.items ≡ text.old.items ++ line_end) }
{
    text.push(b'\n')?;
    Ok(())
}

fn write_counts(text: &mut Vec<u8>, count: CountWord) -> Result<(), AllocError>
    ensures { OnOk result (text.new.items ≡ text.old.items ++ counts_text count.rfc count.uc) }
{
    write_number(text, u64::from(count.rfc))?;
    write_number(text, u64::from(count.uc))
}

// The line of a count word of a slot, behind its letter.
fn write_word(text: &mut Vec<u8>, letter: &[u8], slot: u64, word: u64) -> Result<(), AllocError>
    ensures { OnOk result (text.new.items ≡ text.old.items ++ word_text letter.now slot word) }
{
    write_named(text, letter, slot)?;
    write_counts(text, CountWord::of_word(word))?;
    end_line(text)
}

/// Appends the line of a change of a count word.
pub(crate) fn write_change(text: &mut Vec<u8>, change: &CountChange) -> Result<(), AllocError>
    ensures { OnOk result (text.new.items ≡ text.old.items ++ change_line change.now) }
{
    write_word(text, b"t", change.slot, change.word)
}

/// Appends the line of a slot's row, whose count word this is; nothing for 0, which none has.
pub(crate) fn write_row(text: &mut Vec<u8>, slot: u64, word: u64) -> Result<(), AllocError>
    ensures { OnOk result (text.new.items ≡ text.old.items ++ row_line slot word) }
{
    if word == 0 {
        return Ok(());
    }
    write_word(text, b"o", slot, word)
}

fn write_seen(text: &mut Vec<u8>, count: Option<CountWord>) -> Result<(), AllocError>
    ensures { OnOk result (text.new.items ≡ text.old.items ++ read_text count) }
{
    match count {
        Some(count) => write_counts(text, count),
        None => text.extend_from_slice(b" no-slot"),
    }
}

/// Appends the line of a count that a client read.
pub(crate) fn write_read(text: &mut Vec<u8>, read: &CountRead) -> Result<(), AllocError>
    ensures { OnOk result (text.new.items ≡ text.old.items ++ read_line read.now) }
{
    write_named(text, b"r", u64::from(read.who))?;
    write_number(text, read.line)?;
    write_number(text, read.slot)?;
    write_seen(text, read.count)?;
    end_line(text)
}
