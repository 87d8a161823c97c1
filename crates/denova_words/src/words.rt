// The command that the words after the program's name give.
ghost use Rattle.std.specs.Prelude.{◌≡◌, IfOk, map, option_and_then, string_bytes};
ghost use Rattle.std.specs.List.{list_all};
ghost use Rattle.dn_script.specs.Text.{number_of};
ghost use Rattle.denova_words.specs.Words.{is_plain, alone_of, cat_of, work_on, work_of, pair_of, numbers_of, format_of, trial_of, named_of, order_of, command_of};

use crate::arguments::{has_none, one_of, two_of};
use dn_model::ByteText;
use dn_script::{MOST_WORK, number_of};
use std::alloc::{AllocError, Global};

/// What the program is asked to do with the image.
#[derive(Debug, Drop)]
pub enum Command {
    /// `IMAGE format PAGES INODES`: makes a file system without files.
    Format { pages: u64, inodes: u64 },
    /// `IMAGE apply`: runs one script.
    Apply,
    /// `IMAGE replay`: runs scripts by a schedule.
    Replay,
    /// `IMAGE check`: looks for the first fault, or counts.
    Check,
    /// `IMAGE list`: lists the files.
    List,
    /// `IMAGE cat NAME`: writes a file's bytes.
    Cat { name: ByteText },
    /// `IMAGE work N`: runs so many generated operations.
    Work { operations: u64 },
    /// `IMAGE trial CALLS PICK`: replays on a copy, lets it crash after so many calls of the device, picks one of the
    /// images that may be left, and lists its files.
    Trial { calls: u64, pick: u64 },
    /// `IMAGE run`: runs scripts in threads.
    Run,
}

// Whether a word doesn't begin with `-`.
fn is_plain(word: &str) -> bool
    ensures { result ≡ is_plain word.now }
{
    !word.starts_with('-')
}

fn each_is_plain(words: &[String]) -> bool
    ensures { result ≡ list_all (λ word. is_plain (string_bytes word)) words.now }
{
    words.iter().all(|word| is_plain(word.as_str()))
}

// Whether no word begins with `-`.
fn all_plain(words: &[String]) -> bool
    ensures { result ≡ list_all is_plain (map string_bytes words.now) }
{
    each_is_plain(words)
}

// A command without further words.
fn alone(alloc: Global, words: &[String], command: Command) -> Result<Option<Command>, AllocError>
    ensures { IfOk result (λ o. o ≡ alone_of command (map string_bytes words.now)) }
{
    if has_none(alloc, words)? {
        Ok(Some(command))
    } else {
        Ok(None)
    }
}

// `cat NAME`.
fn cat(alloc: Global, words: &[String]) -> Result<Option<Command>, AllocError>
    ensures { IfOk result (λ o. o ≡ cat_of (map string_bytes words.now)) }
{
    let Some(name) = one_of(alloc, words)? else {
        return Ok(None);
    };
    if name.bytes().is_empty() {
        return Ok(None);
    }
    Ok(Some(Command::Cat { name }))
}

// `work` of a number that is in its range.
fn work_on(operations: u64) -> Option<Command>
    ensures { result ≡ work_on operations }
{
    if operations < 1 || operations > MOST_WORK {
        return None;
    }
    Some(Command::Work { operations })
}

// The work of a word that spells its number.
fn work_by(word: &[u8]) -> Option<Command>
    ensures { result ≡ option_and_then work_on (number_of word.now) }
{
    work_on(number_of(word)?)
}

// `work N`.
fn work(alloc: Global, words: &[String]) -> Result<Option<Command>, AllocError>
    ensures { IfOk result (λ o. o ≡ work_of (map string_bytes words.now)) }
{
    let Some(word) = one_of(alloc, words)? else {
        return Ok(None);
    };
    Ok(work_by(word.bytes()))
}

// Two words that spell numbers.
fn pair(first: &[u8], second: &[u8]) -> Option<(u64, u64)>
    ensures { result ≡ pair_of (first.now, second.now) }
{
    let first = number_of(first)?;
    let second = number_of(second)?;
    Some((first, second))
}

fn numbers(alloc: Global, words: &[String]) -> Result<Option<(u64, u64)>, AllocError>
    ensures { IfOk result (λ o. o ≡ numbers_of (map string_bytes words.now)) }
{
    let Some((first, second)) = two_of(alloc, words)? else {
        return Ok(None);
    };
    Ok(pair(first.bytes(), second.bytes()))
}

// `format PAGES INODES`.
fn format(alloc: Global, words: &[String]) -> Result<Option<Command>, AllocError>
    ensures { IfOk result (λ o. o ≡ format_of (map string_bytes words.now)) }
{
    Ok(numbers(alloc, words)?.map(|(pages, inodes)| Command::Format { pages, inodes }))
}

// `trial CALLS PICK`.
fn trial(alloc: Global, words: &[String]) -> Result<Option<Command>, AllocError>
    ensures { IfOk result (λ o. o ≡ trial_of (map string_bytes words.now)) }
{
    Ok(numbers(alloc, words)?.map(|(calls, pick)| Command::Trial { calls, pick }))
}

// The command with this name, where these are the words behind it.
fn named(alloc: Global, name: &str, words: &[String]) -> Result<Option<Command>, AllocError>
    ensures { IfOk result (λ o. o ≡ named_of name.now (map string_bytes words.now)) }
{
    if name == "format" {
        format(alloc, words)
    } else if name == "apply" {
        alone(alloc, words, Command::Apply)
    } else if name == "replay" {
        alone(alloc, words, Command::Replay)
    } else if name == "check" {
        alone(alloc, words, Command::Check)
    } else if name == "list" {
        alone(alloc, words, Command::List)
    } else if name == "cat" {
        cat(alloc, words)
    } else if name == "work" {
        work(alloc, words)
    } else if name == "trial" {
        trial(alloc, words)
    } else if name == "run" {
        alone(alloc, words, Command::Run)
    } else {
        Ok(None)
    }
}

// The command of the words behind the image.
fn order_of(alloc: Global, words: &[String]) -> Result<Option<Command>, AllocError>
    ensures { IfOk result (λ o. o ≡ order_of (map string_bytes words.now)) }
{
    match words {
        [name, others @ ..] => named(alloc, name.as_str(), others),
        [] => Ok(None),
    }
}

/// The command that these words give, the first of which names the image, or None where they give none.
///
/// # Errors
/// `AllocError` where there is no memory to read them.
pub fn command_of(alloc: Global, words: &[String]) -> Result<Option<Command>, AllocError>
    ensures { IfOk result (λ o. o ≡ command_of (map string_bytes words.now)) }
{
    let [image, others @ ..] = words else {
        return Ok(None);
    };
    if !image.is_empty() && all_plain(words) {
        order_of(alloc, others)
    } else {
        Ok(None)
    }
}
