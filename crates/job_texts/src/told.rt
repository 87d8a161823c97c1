// The texts of runs: histories, with the line of each operation.
ghost use Rattle.std.specs.Prelude.{◌≡◌, ◌+◌, ◌<◌, ◌^◌, All, IfOk, IfSome, IfNone, length, slice_index};
ghost use Rattle.dn_report.specs.Report.{history_text};
ghost use Rattle.job_texts.specs.Told.{lines_of, told_of, run_text, stopped_run_text};
ghost use Rattle.job_texts.specs.Telling.{told_by, IsFirst, IsNobody, Tells};

use crate::plan::LineNumbers;
use dn_model::Entry;
use dn_report::report::{STOPPED, write_end, write_line};
use dn_script::Numbers;
use std::alloc::{AllocError, Global};

// The place of a client among these.
fn place_of(clients: &[(u32, Numbers)], who: u32) -> Option<usize>
    ensures found { IfSome result (IsFirst clients.now who) }
    ensures none { IfNone result (IsNobody clients.now who) }
{
    clients.iter().position(|client| client.0 == who)
}

// The number at a place, or 0 past the last one.
fn number_at(numbers: &[u64], place: usize) -> u64
    ensures { result ≡ slice_index numbers.now place }
{
    numbers.get(place).copied().unwrap_or(0)
}

// The line of a client's next operation, where so many of each client's were told; 0 where it has none. It counts as told
// then.
fn next_line(clients: &[(u32, Numbers)], told: &mut [usize], who: u32) -> u64
    requires each { length told.old ≡ length clients.now }
    requires room { All (λ n. n + 1 < 2 ^ 64) told.old }
    ensures line { result ≡ slice_index (lines_of clients.now who)
        (told_by clients.now told.old who) }
    ensures tells { Tells clients.now who told.old told.new }
{
    let Some(at) = place_of(clients, who) else {
        return 0;
    };
    let line = number_at(clients[at].1.numbers(), told[at]);
    told[at] += 1;
    line
}

/// The lines of a history: one for each operation that was answered, in order, with the line of the job that it stands in.
///
/// # Errors
/// `AllocError` where there is no memory for the text.
pub fn history_lines(
    alloc: Global,
    numbers: &LineNumbers,
    history: &[Entry],
) -> Result<Vec<u8>, AllocError>
    ensures { IfOk result (λ text. text.items ≡ history_text (told_of numbers.now history.now)) }
{
    let clients = numbers.clients();
    let mut told = vec![in alloc; 0usize; clients.len()]?;
    let mut text = Vec::new(alloc);
    for entry in history {
        let line = next_line(clients, &mut told, entry.who);
        write_line(&mut text, entry.who, line, &entry.reply)?;
    }
    Ok(text)
}

/// The text of a run: a line for each operation that was answered, in order, with the line of the job that it stands in, and
/// a last one with their number and that of the free pages.
///
/// # Errors
/// `AllocError` where there is no memory for the text.
pub fn run_text(
    alloc: Global,
    numbers: &LineNumbers,
    history: &[Entry],
    free: u64,
) -> Result<Vec<u8>, AllocError>
    ensures { IfOk result (λ text. text.items ≡ run_text numbers.now history.now free) }
{
    let mut text = history_lines(alloc, numbers, history)?;
    write_end(&mut text, history.len() as u64, free)?;
    Ok(text)
}

/// The text of a run that the device stopped: a line for each operation that was answered, in order, and a last one that
/// says so.
///
/// # Errors
/// `AllocError` where there is no memory for the text.
pub fn stopped_text(
    alloc: Global,
    numbers: &LineNumbers,
    history: &[Entry],
) -> Result<Vec<u8>, AllocError>
    ensures { IfOk result (λ text. text.items ≡ stopped_run_text numbers.now history.now) }
{
    let mut text = history_lines(alloc, numbers, history)?;
    text.extend_from_slice(STOPPED)?;
    Ok(text)
}
