// What the program does with its words, its image file and its streams.
ghost use Rattle.std.specs.Prelude.{◌≡◌, ◌⊎◌, IfOk};
ghost use Rattle.pm_device.specs.Settled.{Still};
ghost use Rattle.dn_report.specs.Report.{bad_length_text};

use crate::streams::{StdSink, StdSource};
use denova_calls::tool::tool;
use denova_session::session;
use denova_words::{Command, command_of};
use dn_report::report::{CANNOT_OPEN, NO_MEMORY, USAGE, write_bad_length};
use dn_script::write_all;
use dn_shared::Open;
use fingerprint::Sha1Print;
use pm_device::{MemPm, Pm};
use pm_file::{FilePm, OpenFault};
use pm_layout::Geometry;
use std::alloc::{AllocError, Global};
use std::fs::File;
use std::io::{Input, Print, Write};
use std::rt::{Env, Files};
use std::sync::Wait;
use std::thread::Threads;
use std::{env, io};

// The status where the words give no command.
const WITHOUT_COMMAND: u8 = 1;

// The status where memory ran out.
const WITHOUT_MEMORY: u8 = 7;

// The status where the image wasn't opened.
const UNOPENED: u8 = 10;

// The words after the program's name.
fn words_after_name(rt: &(impl Env + AllocGlobal)) -> io::Result<Vec<String>> {
    let mut words = Vec::new(rt.alloc());
    for word in env::args(rt)?.skip(1) {
        words.push(word)?;
    }
    Ok(words)
}

// Ends where the words couldn't be had: one of them is no text, or memory ran out.
fn end_wordless<W: Write>(out: &mut StdSink<W>, error: io::Error) -> u8 {
    if error.kind() == io::ErrorKind::InvalidData {
        end_with(out, USAGE, WITHOUT_COMMAND)
    } else {
        end_with(out, NO_MEMORY, WITHOUT_MEMORY)
    }
}

// Writes a text, and answers the status, whether or not the text was written.
fn end_with<W: Write>(out: &mut StdSink<W>, text: &[u8], status: u8) -> u8
    ensures { result ≡ status }
{
    let _ = write_all(out, text);
    status
}

fn bad_length(alloc: Global, bytes: u64) -> Result<Vec<u8>, AllocError>
    ensures { IfOk result (λ text. text.items ≡ bad_length_text bytes) }
{
    let mut text = Vec::new(alloc);
    write_bad_length(&mut text, bytes)?;
    Ok(text)
}

// Ends where the image wasn't opened.
fn end_unopened<W: Write>(alloc: Global, out: &mut StdSink<W>, fault: OpenFault) -> u8
    ensures { (result ≡ UNOPENED) ⊎ (result ≡ WITHOUT_MEMORY) }
{
    match fault {
        OpenFault::Refused => end_with(out, CANNOT_OPEN, UNOPENED),
        OpenFault::NoMemory => end_with(out, NO_MEMORY, WITHOUT_MEMORY),
        OpenFault::BadLength { bytes } => match bad_length(alloc, bytes) {
            Ok(text) => end_with(out, &text, UNOPENED),
            Err(_) => end_with(out, NO_MEMORY, WITHOUT_MEMORY),
        },
    }
}

// What the words want of the image file.
#[derive(Clone, Copy)]
enum ImageFile {
    // It is opened as it is.
    Kept,
    // It is opened as it is, for threads.
    Shared,
    // It is made anew, with so many pages.
    New { pages: u64 },
    // It isn't opened.
    Unopened,
}

// What a command wants of the image file.
fn image_file_of(command: Option<Command>) -> ImageFile {
    match command {
        Some(Command::Format { pages, inodes }) => match Geometry::of(pages, inodes) {
            Ok(_) => ImageFile::New { pages },
            Err(_) => ImageFile::Unopened,
        },
        Some(Command::Run) => ImageFile::Shared,
        None => ImageFile::Unopened,
        Some(_) => ImageFile::Kept,
    }
}

// The path of the image, which the first word is.
fn path_of(words: &[String]) -> &str {
    match words {
        [path, ..] => path.as_str(),
        [] => "",
    }
}

// Opens the image, or makes it, and does what the words say.
fn serve<R: Files<File = File> + Input + AllocGlobal, W: Write>(
    rt: &R,
    wanted: Option<u64>,
    words: &[String],
    out: &mut StdSink<W>,
) -> u8 {
    match FilePm::open(rt, path_of(words), wanted) {
        Ok(device) => {
            let mut input = StdSource::of(rt.reader());
            let (status, _device) = tool(rt.alloc(), words, device, Sha1Print, &mut input, out);
            status
        }
        Err(fault) => end_unopened(rt.alloc(), out, fault),
    }
}

// Opens the image, and runs a job on it in threads.
fn serve_shared<R: Files<File = File> + Input + AllocGlobal + Threads + Wait + Sync, W: Write>(
    rt: &R,
    words: &[String],
    out: &mut StdSink<W>,
) -> u8 {
    match FilePm::open(rt, path_of(words), None) {
        Ok(device) => {
            let alloc = rt.alloc();
            let mut input = StdSource::of(rt.reader());
            let (status, _device) = session(
                rt, alloc, words, device, Sha1Print, &mut input, out, &Open,
            );
            status
        }
        Err(fault) => end_unopened(rt.alloc(), out, fault),
    }
}

// A device without words.
fn no_device(alloc: Global) -> Result<MemPm, AllocError>
    ensures { IfOk result (λ device. Still (⟦<MemPm as Pm>⟧.state device)) }
{
    let device = MemPm::of_words(alloc, Vec::new(alloc), Vec::new(alloc))?;
    Ok(device)
}

// Does what the words say without an image.
fn serve_unopened<R: Input + AllocGlobal, W: Write>(
    rt: &R,
    words: &[String],
    out: &mut StdSink<W>,
) -> u8 {
    match no_device(rt.alloc()) {
        Ok(device) => {
            let mut input = StdSource::of(rt.reader());
            let (status, _device) = tool(rt.alloc(), words, device, Sha1Print, &mut input, out);
            status
        }
        Err(_) => end_with(out, NO_MEMORY, WITHOUT_MEMORY),
    }
}

// Does what the words say.
fn obey<R: Files<File = File> + Input + AllocGlobal + Threads + Wait + Sync, W: Write>(
    rt: &R,
    words: &[String],
    out: &mut StdSink<W>,
) -> u8 {
    let Ok(command) = command_of(rt.alloc(), words) else {
        return end_with(out, NO_MEMORY, WITHOUT_MEMORY);
    };
    match image_file_of(command) {
        ImageFile::Kept => serve(rt, None, words, out),
        ImageFile::Shared => serve_shared(rt, words, out),
        ImageFile::New { pages } => serve(rt, Some(pages), words, out),
        ImageFile::Unopened => serve_unopened(rt, words, out),
    }
}

/// Does what the words after the program's name say, and answers the status that the program ends with.
///
/// The first word names the image file, which is opened as it is, or for `format` made anew with so many pages; where
/// the words give no command (one of them may be no text), or `format` has numbers that are refused, no file is opened.
/// Status 10 is that of a file that can't be opened, or whose length is none of an image. What else comes is what `tool`
/// answers, or `session` where a run in threads is asked for.
pub fn run<R: Env + Files<File = File> + Input + Print + AllocGlobal + Threads + Wait + Sync>(
    rt: &R,
) -> u8 {
    let mut out = StdSink::of(io::writer(rt));
    match words_after_name(rt) {
        Ok(words) => obey(rt, &words, &mut out),
        Err(error) => end_wordless(&mut out, error),
    }
}
