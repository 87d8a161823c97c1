// The lines of a job.
ghost use Rattle.std.specs.Prelude.{◌≡◌, List, ℕ, Option, Some, None, IfOk, replicate};
ghost use Rattle.dn_script.specs.Text.{number_of, hex_of, byte_of, name_of};
ghost use Rattle.dn_script.specs.Line.{Gives, GivesBy, keyword_of, has, create_of, write_of, fill_of, read_of, cut_of, remove_of, rename_of, size_of, list_of, client_of, numbers_of, turns_of, count_of, after_keyword, command_of, meaning_of};

use crate::spelling::{byte_of, number_of};
use crate::text::Words;
use dn_model::{ByteText, CLIENTS, Op};
use hex::FromHexError;
use std::alloc::{AllocError, Global};
use std::marker::Model;

/// The most bytes that one line fills a file with.
pub const MOST_FILLED: u64 = 131_072;

/// The weight of a line that lists all names.
pub const LIST_WEIGHT: u64 = 1_048_576;

/// The forms of a job.
#[derive(Clone, Copy, Debug, PartialEq, Eq)]
pub enum JobForm {
    /// One script.
    Apply,
    /// Scripts and a schedule.
    Replay,
    /// Scripts for threads.
    Run,
}

/// The first word of a command.
#[derive(Clone, Copy, Debug, PartialEq, Eq)]
enum Keyword {
    Create,
    Write,
    Fill,
    Read,
    Cut,
    Remove,
    Rename,
    Size,
    List,
    Client,
    Turns,
    Count,
}

/// Numbers of actors, seen as their list.
#[derive(Debug, Drop)]
pub struct Numbers {
    numbers: Vec<u64>,
}

impl Model for Numbers {
    ghost use Rattle.std.specs.Prelude.{List, ℕ};

    ghost Value = { List ℕ };

    ghost view = { λ t. t.numbers.items };
}

impl Numbers {
    /// These numbers.
    pub fn of(numbers: Vec<u64>) -> Numbers
        ensures { result ≡ numbers.items }
    {
        Numbers { numbers }
    }

    /// The numbers, in order.
    pub fn numbers(&self) -> &[u64]
        ensures { result.now ≡ self.now }
    {
        &self.numbers
    }
}

/// What a line of a job says.
#[derive(Debug, Drop)]
pub enum LineMeaning {
    /// Nothing: an empty line, or one that begins with `#`.
    Skip,
    /// An operation, and the weight of its line.
    Do { op: Op, weight: u64 },
    /// A look at a count.
    Count { slot: u64 },
    /// The lines after it belong to this client.
    Client { number: u32 },
    /// More turns of the schedule.
    Turns(Numbers),
    /// It is no command of the form.
    Bad,
}

/// Why words weren't read.
#[derive(Clone, Copy, Debug, PartialEq, Eq)]
enum LineFault {
    /// They are no command.
    Bad,
    /// Memory ran out.
    NoMemory,
}

// The keyword that a word is.
fn keyword_of(word: &[u8]) -> Option<Keyword>
    ensures { result ≡ keyword_of word.now }
{
    if word == b"create".as_slice() {
        Some(Keyword::Create)
    } else if word == b"write".as_slice() {
        Some(Keyword::Write)
    } else if word == b"fill".as_slice() {
        Some(Keyword::Fill)
    } else if word == b"read".as_slice() {
        Some(Keyword::Read)
    } else if word == b"cut".as_slice() {
        Some(Keyword::Cut)
    } else if word == b"remove".as_slice() {
        Some(Keyword::Remove)
    } else if word == b"rename".as_slice() {
        Some(Keyword::Rename)
    } else if word == b"size".as_slice() {
        Some(Keyword::Size)
    } else if word == b"list".as_slice() {
        Some(Keyword::List)
    } else if word == b"client".as_slice() {
        Some(Keyword::Client)
    } else if word == b"turns".as_slice() {
        Some(Keyword::Turns)
    } else if word == b"count".as_slice() {
        Some(Keyword::Count)
    } else {
        None
    }
}

// A name: any word that isn't empty.
fn name(alloc: Global, word: &[u8]) -> Result<ByteText, LineFault>
    ensures { Gives result (name_of word.now) }
{
    if word.is_empty() {
        return Err(LineFault::Bad);
    }
    let bytes = Vec::from_slice(alloc, word).map_err(|_| LineFault::NoMemory)?;
    Ok(ByteText::of(bytes))
}

fn number(word: &[u8]) -> Result<u64, LineFault>
    ensures { Gives result (number_of word.now) }
{
    number_of(word).ok_or(LineFault::Bad)
}

fn byte(word: &[u8]) -> Result<u8, LineFault>
    ensures { Gives result (byte_of word.now) }
{
    byte_of(word).ok_or(LineFault::Bad)
}

// Pairs of hexadecimal digits, or `-`.
fn hex_bytes(alloc: Global, word: &[u8]) -> Result<ByteText, LineFault>
    ensures { Gives result (hex_of word.now) }
{
    if word.is_empty() {
        return Err(LineFault::Bad);
    }
    if word == b"-".as_slice() {
        return Ok(ByteText::of(Vec::new(alloc)));
    }
    match hex::decode(alloc, word) {
        Ok(bytes) => Ok(ByteText::of(bytes)),
        Err(FromHexError::OutOfMemory) => Err(LineFault::NoMemory),
        Err(_) => Err(LineFault::Bad),
    }
}

// So many bytes of this value.
fn filled(alloc: Global, byte: u8, count: u64) -> Result<ByteText, LineFault>
    ensures { Gives result (Some (replicate count byte)) }
{
    let bytes = vec![in alloc; byte; count as usize].map_err(|_| LineFault::NoMemory)?;
    Ok(ByteText::of(bytes))
}

fn create(alloc: Global, words: Words) -> Result<LineMeaning, LineFault>
    ensures { Gives result (create_of words.entry) }
{
    let name = name(alloc, words.one().ok_or(LineFault::Bad)?)?;
    Ok(LineMeaning::Do {
        op: Op::Create { name },
        weight: 0,
    })
}

fn write(alloc: Global, words: Words) -> Result<LineMeaning, LineFault>
    ensures { Gives result (write_of words.entry) }
{
    let (file, at, hex) = words.three().ok_or(LineFault::Bad)?;
    let name = name(alloc, file)?;
    let at = number(at)?;
    let bytes = hex_bytes(alloc, hex)?;
    Ok(LineMeaning::Do {
        op: Op::Write { name, at, bytes },
        weight: 0,
    })
}

fn fill(alloc: Global, words: Words) -> Result<LineMeaning, LineFault>
    ensures { Gives result (fill_of words.entry) }
{
    let (file, at, count, value) = words.four().ok_or(LineFault::Bad)?;
    let name = name(alloc, file)?;
    let at = number(at)?;
    let count = number(count)?;
    let value = byte(value)?;
    if count > MOST_FILLED {
        return Err(LineFault::Bad);
    }
    let bytes = filled(alloc, value, count)?;
    Ok(LineMeaning::Do {
        op: Op::Write { name, at, bytes },
        weight: count,
    })
}

fn read(alloc: Global, words: Words) -> Result<LineMeaning, LineFault>
    ensures { Gives result (read_of words.entry) }
{
    let (file, at, length) = words.three().ok_or(LineFault::Bad)?;
    let name = name(alloc, file)?;
    let at = number(at)?;
    let length = number(length)?;
    Ok(LineMeaning::Do {
        op: Op::Read { name, at, length },
        weight: length,
    })
}

fn cut(alloc: Global, words: Words) -> Result<LineMeaning, LineFault>
    ensures { Gives result (cut_of words.entry) }
{
    let (file, size) = words.two().ok_or(LineFault::Bad)?;
    let name = name(alloc, file)?;
    let size = number(size)?;
    Ok(LineMeaning::Do {
        op: Op::Cut { name, size },
        weight: 0,
    })
}

fn remove(alloc: Global, words: Words) -> Result<LineMeaning, LineFault>
    ensures { Gives result (remove_of words.entry) }
{
    let name = name(alloc, words.one().ok_or(LineFault::Bad)?)?;
    Ok(LineMeaning::Do {
        op: Op::Remove { name },
        weight: 0,
    })
}

fn rename(alloc: Global, words: Words) -> Result<LineMeaning, LineFault>
    ensures { Gives result (rename_of words.entry) }
{
    let (from, to) = words.two().ok_or(LineFault::Bad)?;
    let from = name(alloc, from)?;
    let to = name(alloc, to)?;
    Ok(LineMeaning::Do {
        op: Op::Rename { from, to },
        weight: 0,
    })
}

fn size(alloc: Global, words: Words) -> Result<LineMeaning, LineFault>
    ensures { Gives result (size_of words.entry) }
{
    let name = name(alloc, words.one().ok_or(LineFault::Bad)?)?;
    Ok(LineMeaning::Do {
        op: Op::Size { name },
        weight: 0,
    })
}

fn list(mut words: Words) -> Result<LineMeaning, LineFault>
    ensures { Gives result (list_of words.entry) }
{
    match words.next_word() {
        Some(_) => Err(LineFault::Bad),
        None => Ok(LineMeaning::Do {
            op: Op::List,
            weight: LIST_WEIGHT,
        }),
    }
}

fn client(words: Words) -> Result<LineMeaning, LineFault>
    ensures { Gives result (client_of words.entry) }
{
    let number = number(words.one().ok_or(LineFault::Bad)?)?;
    if number < 1 || number > u64::from(CLIENTS) {
        return Err(LineFault::Bad);
    }
    Ok(LineMeaning::Client {
        number: number as u32,
    })
}

fn count(words: Words) -> Result<LineMeaning, LineFault>
    ensures { Gives result (count_of words.entry) }
{
    let slot = number(words.one().ok_or(LineFault::Bad)?)?;
    Ok(LineMeaning::Count { slot })
}

// The number of each word.
#[tactic(auto, using(crate::proofs::NumberLists::number_steps))]
fn all_numbers(alloc: Global, mut words: Words) -> Result<Vec<u64>, LineFault>
    ensures { GivesBy (λ v. v.items) result (numbers_of words.entry) }
{
    let mut numbers = Vec::new(alloc);
    while let Some(word) = words.next_word() {
        numbers
            .push(number(word)?)
            .map_err(|_| LineFault::NoMemory)?;
    }
    Ok(numbers)
}

fn turns(alloc: Global, words: Words) -> Result<LineMeaning, LineFault>
    ensures { Gives result (turns_of words.entry) }
{
    let numbers = all_numbers(alloc, words)?;
    if numbers.is_empty() {
        return Err(LineFault::Bad);
    }
    Ok(LineMeaning::Turns(Numbers::of(numbers)))
}

// Whether jobs of a form have a command.
fn has(form: JobForm, keyword: Keyword) -> bool
    ensures { result ≡ has form keyword }
{
    match keyword {
        Keyword::Client => form != JobForm::Apply,
        Keyword::Turns => form == JobForm::Replay,
        Keyword::Count => form == JobForm::Run,
        _ => true,
    }
}

// What the words after a keyword say.
fn after_keyword(alloc: Global, keyword: Keyword, words: Words) -> Result<LineMeaning, LineFault>
    ensures { Gives result (after_keyword keyword words.entry) }
{
    match keyword {
        Keyword::Create => create(alloc, words),
        Keyword::Write => write(alloc, words),
        Keyword::Fill => fill(alloc, words),
        Keyword::Read => read(alloc, words),
        Keyword::Cut => cut(alloc, words),
        Keyword::Remove => remove(alloc, words),
        Keyword::Rename => rename(alloc, words),
        Keyword::Size => size(alloc, words),
        Keyword::List => list(words),
        Keyword::Client => client(words),
        Keyword::Turns => turns(alloc, words),
        Keyword::Count => count(words),
    }
}

// What the words of a line say.
fn command(alloc: Global, form: JobForm, mut words: Words) -> Result<LineMeaning, LineFault>
    ensures { Gives result (command_of form words.entry) }
{
    let first = words.next_word().ok_or(LineFault::Bad)?;
    let keyword = keyword_of(first).ok_or(LineFault::Bad)?;
    if !has(form, keyword) {
        return Err(LineFault::Bad);
    }
    after_keyword(alloc, keyword, words)
}

/// What a line of a job of this form says.
pub fn line_meaning(alloc: Global, form: JobForm, line: &[u8]) -> Result<LineMeaning, AllocError>
    ensures { IfOk result (λ meaning. meaning ≡ meaning_of form line.now) }
{
    match line {
        [] | [b'#', ..] => return Ok(LineMeaning::Skip),
        _ => {}
    }
    match command(alloc, form, Words::of(line)) {
        Ok(meaning) => Ok(meaning),
        Err(LineFault::Bad) => Ok(LineMeaning::Bad),
        Err(LineFault::NoMemory) => Err(AllocError),
    }
}
