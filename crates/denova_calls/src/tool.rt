// What the program does for the words after its name.
ghost use Rattle.std.specs.Prelude.{◌≤◌, map, string_bytes};
ghost use Rattle.pm_device.specs.Settled.{Still};
ghost use Rattle.denova_words.specs.Words.{command_of};
ghost use Rattle.call_endings.specs.Call.{input_of, output_of};
ghost use Rattle.denova_calls.specs.Ends.{CommandEnds, Answers, Ended};

use crate::check::check_image;
use crate::look::{cat, list};
use crate::make::make_image;
use crate::run::{run_job, run_work};
use crate::trials::trial;
use call_endings::Ending;
use denova_words::{Command, command_of};
use dn_script::{JobForm, Sink, Source};
use fingerprint::Fingerprint;
use job_runs::Order;
use pm_device::Pm;
use std::alloc::Global;

// Obeys a command.
fn obey<D: Pm, F: Fingerprint + Drop, S: Source>(
    alloc: Global,
    command: Command,
    device: D,
    print: F,
    input: &mut S,
) -> (Ending, D)
    requires { Still (D.state device) }
    ensures ends { CommandEnds F.print command (input_of S.left S.faults input.old input.new)
        (D.state device) (D.state result.1) result.0 }
    ensures device_faults { (D.state device).faults ≤ (D.state result.1).faults }
    ensures source_faults { S.faults input.old ≤ S.faults input.new }
{
    match command {
        Command::Apply => run_job(alloc, device, print, input, JobForm::Apply, Order::Alone),
        Command::Replay => run_job(alloc, device, print, input, JobForm::Replay, Order::InTurns),
        Command::Work { operations } => run_work(alloc, device, print, operations),
        Command::List => list(alloc, device, print),
        Command::Cat { name } => cat(alloc, device, print, name.bytes()),
        Command::Trial { calls, pick } => {
            let ending = trial(alloc, &device, print, input, calls, pick);
            (ending, device)
        }
        Command::Check => {
            let ending = check_image(alloc, &device);
            (ending, device)
        }
        Command::Format { pages, inodes } => {
            let mut device = device;
            let ending = make_image(alloc, &mut device, pages, inodes);
            (ending, device)
        }
        Command::Run => (Ending::Usage, device),
    }
}

// Does what the words say.
fn answer<D: Pm, F: Fingerprint + Drop, S: Source>(
    alloc: Global,
    words: &[String],
    device: D,
    print: F,
    input: &mut S,
) -> (Ending, D)
    requires { Still (D.state device) }
    ensures answers { Answers F.print (command_of (map string_bytes words.now))
        (input_of S.left S.faults input.old input.new)
        (D.state device) (D.state result.1) result.0 }
    ensures device_faults { (D.state device).faults ≤ (D.state result.1).faults }
    ensures source_faults { S.faults input.old ≤ S.faults input.new }
{
    match command_of(alloc, words) {
        Ok(Some(command)) => obey(alloc, command, device, print, input),
        Ok(None) => (Ending::Usage, device),
        Err(_) => (Ending::NoMemory, device),
    }
}

/// Does what the words after the program's name say, and answers the status that the program ends with, and the device.
///
/// The first word names the image, and the second is the command:
/// - `format PAGES INODES` makes a file system without files on a device of that size, and writes `formatted PAGES INODES
///   FREE`. A crash leaves the words as they were, or no image, or the file system.
/// - `apply` reads a job of one script from the input and runs it on the image, each operation to its reply. It writes a
///   line for each reply, and a last line `end ENTRIES FREE`. Before it ends all equal pages are shared, and nothing waits.
/// - `replay` does so with a job of several scripts and a schedule of turns, in which the daemon that shares pages and the
///   releases of pages have turns too.
/// - `work N` runs N generated operations, and writes one line that counts what came of them.
/// - `list` writes a line for each file, its size, SHA-1 digest and name, and `cat NAME` the bytes of one.
/// - `trial CALLS PICK` replays a job on a copy in memory, lets it crash after so many calls of the device, and lists the
///   files of one image that may be left. The device is only read.
/// - `check` only reads too: it writes the first fault of the image, or `ok`, the numbers of its files and pages and a line
///   for each row of the table of fingerprints.
///
/// A crash at any moment of a run leaves an image whose files are those after the operations that were answered, or after
/// one more. What is told of runs and images holds where the image was made by this program with this fingerprint.
///
/// Status 0 is that of a whole run. At 1 the words give no command that is served, at 2 the job has a line that is no
/// command, at 3 the image has a fault, at 4 the device failed, at 5 the input, at 6 the output. At 7 memory ran out. At 8
/// the job is too long, and at 9 its schedule names no actor of it. At 11 the numbers of a file system or the device's size
/// are refused, or a name that no file has. `laws` says what each status tells, and when it comes.
pub fn tool<D: Pm, F: Fingerprint + Drop, S: Source, K: Sink>(
    alloc: Global,
    words: &[String],
    device: D,
    print: F,
    input: &mut S,
    out: &mut K,
) -> (u8, D)
    requires still { Still (D.state device) }
    ensures ended { Ended F.print (record {
      words = map string_bytes words.now;
      input = input_of S.left S.faults input.old input.new;
      before = D.state device;
      after = D.state result.1;
      output = output_of K.taken K.faults out.old out.new;
      status = result.0;
    }) }
    // the faults never fall
    ensures device_faults { (D.state device).faults ≤ (D.state result.1).faults }
    ensures source_faults { S.faults input.old ≤ S.faults input.new }
    ensures sink_faults { K.faults out.old ≤ K.faults out.new }
{
    let (ending, back) = answer(alloc, words, device, print, input);
    let status = ending.tell(out);
    (status, back)
}
