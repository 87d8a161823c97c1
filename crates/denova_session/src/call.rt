// What the program does for words that ask for a run in threads.
ghost use Rattle.std.specs.Prelude.{◌≤◌, map, string_bytes};
ghost use Rattle.pm_device.specs.Settled.{Still};
ghost use Rattle.denova_words.specs.Words.{command_of};
ghost use Rattle.call_endings.specs.Call.{input_of, output_of};
ghost use Rattle.denova_session.specs.Ends.{Answers, Ended};

use crate::run::run_job;
use call_endings::Ending;
use denova_words::{Command, command_of};
use dn_script::{Sink, Source};
use dn_shared::Gate;
use fingerprint::Fingerprint;
use pm_device::Pm;
use std::alloc::Global;
use std::sync::Wait;
use std::thread::Threads;

// Does what the words say.
fn answer<
    R: Threads + Wait + Sync,
    D: Pm + Send,
    F: Fingerprint + Drop + Send,
    S: Source,
    G: Gate + Sync,
>(
    rt: &R,
    alloc: Global,
    words: &[String],
    device: D,
    print: F,
    input: &mut S,
    gate: &G,
) -> (Ending, D)
    requires { Still (D.state device) }
    ensures answers { Answers F.print (command_of (map string_bytes words.now))
        (input_of S.left S.faults input.old input.new)
        (D.state device) (D.state result.1) result.0 }
    ensures device_faults { (D.state device).faults ≤ (D.state result.1).faults }
    ensures source_faults { S.faults input.old ≤ S.faults input.new }
{
    match command_of(alloc, words) {
        Ok(Some(Command::Run)) => run_job(rt, alloc, device, print, input, gate),
        Ok(Some(_)) => (Ending::Usage, device),
        Ok(None) => (Ending::Usage, device),
        Err(_) => (Ending::NoMemory, device),
    }
}

/// Does what the words `IMAGE run` after the program's name say, and answers the status that the program ends with, and the
/// device.
///
/// A job of clients is read from the input, and run on the image by a thread for each client, one for the daemon that
/// shares pages and one for the releases of pages. Before it ends all equal pages are shared, and nothing waits. It writes
/// the count words of the rows as the threads began, a line for each reply in the order of the history, the changes of
/// count words in order, what each `count SLOT` line read, and a last line `end ENTRIES FREE`. What a client read was the
/// count word of its slot at some point of these changes, and its reads are in order.
///
/// A crash at any moment of a run leaves an image whose files are those after the operations that were answered, or after
/// one more. What is told of runs and images holds where the image was made by this program with this fingerprint. The gate
/// is called by each thread after it gave its turn back.
///
/// The statuses are those of `denova_calls::tool`, and 1 where the words don't ask for a run in threads. `laws` says what
/// each status tells, and when it comes.
pub fn session<
    R: Threads + Wait + Sync,
    D: Pm + Send,
    F: Fingerprint + Drop + Send,
    S: Source,
    K: Sink,
    G: Gate + Sync,
>(
    rt: &R,
    alloc: Global,
    words: &[String],
    device: D,
    print: F,
    input: &mut S,
    out: &mut K,
    gate: &G,
) -> (u8, D)
    requires still { Still (D.state device) }
    ensures ended { Ended F.print (record {
      words = map string_bytes words.now;
      input = input_of S.left S.faults input.old input.new;
      before = D.state device;
      after = D.state result.1;
      output = output_of K.taken K.faults out.old out.new;
      status = result.0;
    }) }
    // the faults never fall
    ensures device_faults { (D.state device).faults ≤ (D.state result.1).faults }
    ensures source_faults { S.faults input.old ≤ S.faults input.new }
    ensures sink_faults { K.faults out.old ≤ K.faults out.new }
{
    let (ending, back) = answer(rt, alloc, words, device, print, input, gate);
    let status = ending.tell(out);
    (status, back)
}
