// What clients read, one after another.
ghost use Rattle.std.specs.Prelude.{◌≡◌, ◌++◌, IfOk, OnOk, map};
ghost use Rattle.denova_session.specs.Reads.{read_of, reads_of};

use std::alloc::{AllocError, Global};
use thread_runs::{Reading, Readings};
use thread_texts::CountRead;

// The counts that a client read, behind others.
fn push_reads(all: &mut Vec<CountRead>, who: u32, readings: &[Reading]) -> Result<(), AllocError>
    ensures { OnOk result (all.new.items ≡ all.old.items ++ map (read_of who) readings.now) }
{
    for reading in readings {
        all.push(CountRead {
            who,
            line: reading.line,
            slot: reading.slot,
            count: reading.count,
        })?;
    }
    Ok(())
}

/// The counts that clients read, by client and line.
///
/// # Errors
/// `AllocError` where there is no memory for the list.
pub(crate) fn reads_of(alloc: Global, clients: &[Readings]) -> Result<Vec<CountRead>, AllocError>
    ensures { IfOk result (λ all. all.items ≡ reads_of clients.now) }
{
    let mut all = Vec::new(alloc);
    for client in clients {
        push_reads(&mut all, client.who, &client.readings)?;
    }
    Ok(all)
}
