// The text of a run in threads.
ghost use Rattle.std.specs.Prelude.{◌≡◌, ◌++◌, IfOk, OnOk};
ghost use Rattle.std.specs.List.{flat_map};
ghost use Rattle.thread_texts.specs.Texts.{opening_text, change_line, read_line, thread_text};

use crate::lines::{CountRead, write_change, write_read, write_row};
use dn_model::{CountChange, Entry};
use dn_report::report::write_end;
use job_texts::{LineNumbers, history_lines};
use std::alloc::{AllocError, Global};

// A line for each row, by slot.
fn write_opening(text: &mut Vec<u8>, words: &[u64]) -> Result<(), AllocError>
    ensures { OnOk result (text.new.items ≡ text.old.items ++ opening_text words.now) }
{
    for (slot, word) in words.iter().enumerate() {
        write_row(text, slot as u64, *word)?;
    }
    Ok(())
}

// A line for each change.
fn write_trace(text: &mut Vec<u8>, trace: &[CountChange]) -> Result<(), AllocError>
    ensures { OnOk result (text.new.items ≡ text.old.items ++ flat_map change_line trace.now) }
{
    for change in trace {
        write_change(text, change)?;
    }
    Ok(())
}

// A line for each count that was read.
fn write_reads(text: &mut Vec<u8>, reads: &[CountRead]) -> Result<(), AllocError>
    ensures { OnOk result (text.new.items ≡ text.old.items ++ flat_map read_line reads.now) }
{
    for read in reads {
        write_read(text, read)?;
    }
    Ok(())
}

/// The text of a run in threads, which began with this count word of each slot, 0 without a row: a line for each row, by
/// slot; one for each operation, in the
/// order of the history, with the line of the job that it stands in; one for each change of a count word, in order; one for
/// each count that was read; and a last one with the number of operations and that of the free pages.
///
/// # Errors
/// `AllocError` where there is no memory for the text.
pub fn thread_text(
    alloc: Global,
    words: &[u64],
    numbers: &LineNumbers,
    history: &[Entry],
    trace: &[CountChange],
    reads: &[CountRead],
    free: u64,
) -> Result<Vec<u8>, AllocError>
    ensures { IfOk result (λ text. text.items ≡ thread_text words.now numbers.now history.now
        trace.now reads.now free) }
{
    let mut text = Vec::new(alloc);
    write_opening(&mut text, words)?;
    let lines = history_lines(alloc, numbers, history)?;
    text.extend_from_slice(&lines)?;
    write_trace(&mut text, trace)?;
    write_reads(&mut text, reads)?;
    write_end(&mut text, history.len() as u64, free)?;
    Ok(text)
}
