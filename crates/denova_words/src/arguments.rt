// The words behind a command's own, which are required and positional.
ghost use Rattle.std.specs.Prelude.{◌≡◌, ◌≢◌, IfOk, IfSome, IfNone, map, option_map, string_bytes, codes, false};
ghost use Rattle.dn_script.specs.Text.{one_of, two_of};
ghost use Rattle.denova_words.specs.Words.{has_none};
ghost use Rattle.denova_words.specs.Parses.{value_line, required_rule, both_of, Parses, IsUnfit};
ghost use Rattle.clap.specs.Words.{app_of, first_value, found_of, kind_of, rule_of};
ghost use Rattle.clap.specs.declared.error.ErrorKind.TheVariants.{OutOfMemory};

use clap::error::ErrorKind;
use clap::{Arg, ArgMatches, Command, Error};
use dn_model::ByteText;
use std::alloc::{AllocError, Global};

// The words of a call whose further words are all values: `--` ends what could be flags.
fn value_line<'w>(alloc: Global, words: &'w [String]) -> Result<Vec<&'w str>, AllocError>
    ensures { IfOk result (λ line. map (λ w. w.now) line.items
        ≡ value_line (map string_bytes words.now)) }
{
    let mut line = Vec::new(alloc);
    line.push("denova")?;
    line.push("--")?;
    for word in words {
        line.push(word.as_str())?;
    }
    Ok(line)
}

// An argument that has to be there.
fn required<'a>(alloc: Global, id: &'a str) -> Arg<'a>
    ensures rule { rule_of result ≡ required_rule id.entry.now }
    ensures local { result.global ≡ false }
{
    Arg::new(alloc, id).required(true)
}

// Whether an error is another than want of memory.
fn other_than_memory(error: &Error) -> Result<(), AllocError>
    ensures { IfOk result (λ u. kind_of error.now ≢ OutOfMemory) }
{
    if error.kind() == ErrorKind::OutOfMemory {
        return Err(AllocError);
    }
    Ok(())
}

// What a command makes of words, or None where they don't fit it.
fn parsed<'a>(
    command: Command<'a>,
    line: &'a [&'a str],
) -> Result<Option<ArgMatches<'a>>, AllocError>
    ensures some { IfOk result (λ o. IfSome o (Parses (app_of command.entry)
        (map (λ w. w.now) line.entry.now))) }
    ensures none { IfOk result (λ o. IfNone o (IsUnfit (app_of command.entry)
        (map (λ w. w.now) line.entry.now))) }
{
    match command.try_get_matches_from(line) {
        Ok(matches) => Ok(Some(matches)),
        Err(error) => {
            other_than_memory(&error)?;
            Ok(None)
        }
    }
}

// The bytes of a word, where there is one.
fn copied(alloc: Global, word: Option<&str>) -> Result<Option<ByteText>, AllocError>
    ensures { IfOk result (λ copy. copy ≡ option_map (λ w. w.now) word.entry) }
{
    match word {
        Some(word) => Ok(Some(ByteText::of(Vec::from_slice(alloc, word.as_bytes())?))),
        None => Ok(None),
    }
}

/// Whether there is no word.
pub(crate) fn has_none(alloc: Global, words: &[String]) -> Result<bool, AllocError>
    ensures { IfOk result (λ none. none ≡ has_none (map string_bytes words.now)) }
{
    let line = value_line(alloc, words)?;
    let matches = parsed(Command::new(alloc, "denova"), line.as_slice())?;
    Ok(matches.is_some())
}

/// The word, where it is the only one.
pub(crate) fn one_of(alloc: Global, words: &[String]) -> Result<Option<ByteText>, AllocError>
    ensures { IfOk result (λ word. word ≡ one_of (map string_bytes words.now)) }
{
    let line = value_line(alloc, words)?;
    let command = Command::new(alloc, "denova").arg(required(alloc, "first"))?;
    match parsed(command, line.as_slice())? {
        Some(matches) => copied(alloc, matches.get_str("first")),
        None => Ok(None),
    }
}

// The words of both arguments.
fn both(alloc: Global, matches: &ArgMatches) -> Result<Option<(ByteText, ByteText)>, AllocError>
    ensures { IfOk result (λ both. both ≡ both_of (first_value (found_of matches.now) (codes "first"))
        (first_value (found_of matches.now) (codes "second"))) }
{
    let Some(first) = copied(alloc, matches.get_str("first"))? else {
        return Ok(None);
    };
    let Some(second) = copied(alloc, matches.get_str("second"))? else {
        return Ok(None);
    };
    Ok(Some((first, second)))
}

/// The words, where they are two.
pub(crate) fn two_of(
    alloc: Global,
    words: &[String],
) -> Result<Option<(ByteText, ByteText)>, AllocError>
    ensures { IfOk result (λ both. both ≡ two_of (map string_bytes words.now)) }
{
    let line = value_line(alloc, words)?;
    let command = Command::new(alloc, "denova")
        .arg(required(alloc, "first"))?
        .arg(required(alloc, "second"))?;
    match parsed(command, line.as_slice())? {
        Some(matches) => both(alloc, &matches),
        None => Ok(None),
    }
}
