// What a call comes to, and how that is told.
ghost use Rattle.std.specs.Prelude.{◌≡◌, ◌≤◌};
ghost use Rattle.call_endings.specs.Call.{output_of, status_of, text_of, IsTold};

use dn_report::report::{NO_MEMORY, READ_FAULT, STOPPED, TOO_LONG, USAGE};
use dn_script::{Sink, write_all};

/// The status where a text couldn't be written.
pub const WRITE_FAULT: u8 = 6;

/// What a call comes to. A text is all that the program writes.
#[derive(Debug, Drop)]
pub enum Ending {
    /// The command was done: its text.
    Done(Vec<u8>),
    /// The words give no command.
    Usage,
    /// The job has a line that is no command: the text that tells its number.
    BadLine(Vec<u8>),
    /// The schedule has a number that is no actor of the job: the text that tells it.
    BadTurn(Vec<u8>),
    /// The image has a fault: the text that tells it.
    Faulty(Vec<u8>),
    /// The device stopped in a run: the lines of what was answered before, and the last line.
    Stopped(Vec<u8>),
    /// The device failed before anything was answered: while a file system was made, or while the image was mounted.
    Failed,
    /// The job couldn't be read.
    Unread,
    /// Memory ran out.
    NoMemory,
    /// The job is too long.
    TooLong,
    /// The numbers of a file system, the device's size, or the name of a file were refused: the text that tells the cause.
    Refused(Vec<u8>),
}

impl Ending {
    /// The status that the program ends with.
    pub fn status(&self) -> u8
        ensures { result ≡ status_of self.now }
    {
        match self {
            Ending::Done(_) => 0,
            Ending::Usage => 1,
            Ending::BadLine(_) => 2,
            Ending::Faulty(_) => 3,
            Ending::Stopped(_) | Ending::Failed => 4,
            Ending::Unread => 5,
            Ending::NoMemory => 7,
            Ending::TooLong => 8,
            Ending::BadTurn(_) => 9,
            Ending::Refused(_) => 11,
        }
    }

    /// The text that it writes.
    pub fn text(&self) -> &[u8]
        ensures { result.now ≡ text_of self.now }
    {
        match self {
            Ending::Done(text) => text,
            Ending::Usage => USAGE,
            Ending::BadLine(text) => text,
            Ending::Faulty(text) => text,
            Ending::Stopped(text) => text,
            Ending::Failed => STOPPED,
            Ending::Unread => READ_FAULT,
            Ending::NoMemory => NO_MEMORY,
            Ending::TooLong => TOO_LONG,
            Ending::BadTurn(text) => text,
            Ending::Refused(text) => text,
        }
    }

    /// Writes the text, and answers the status: that of the ending, or 6 where the write failed.
    pub fn tell<K: Sink>(&self, out: &mut K) -> u8
        ensures told { IsTold (output_of K.taken K.faults out.old out.new) result self.now }
        ensures counts { K.faults out.old ≤ K.faults out.new }
    {
        match write_all(out, self.text()) {
            Ok(()) => self.status(),
            Err(_) => WRITE_FAULT,
        }
    }
}
