// Operations of clients that are in flight.
use dn_model::Op;
use file_content::runs::Run;
use log_entry::Name;

/// A client's operation that has begun. Its log is the one that gets its items: a file's for a change of data, the
/// root's for a change of names.
#[derive(Debug, Drop)]
pub struct Flight {
    /// The operation, which enters the history once it is answered.
    pub op: Op,
    /// The inodes that it holds.
    pub held: Vec<u64>,
    /// The inode whose log gets its items.
    pub ino: u64,
    /// The slots of these items.
    pub slots: Vec<[u64; 8]>,
    /// The pages that the log grows by.
    pub fresh: Vec<u64>,
    /// A page that was taken for the log and isn't needed, until the commit gives it back.
    pub spare: Vec<u64>,
    /// The slots of the rows that lose a mapping by it: one for each place, in order.
    pub rows: Vec<u64>,
    /// How many of these rows are raised.
    pub raised: u64,
    /// What it changes.
    pub change: Change,
}

/// What an operation in flight changes.
#[derive(Debug, Drop)]
pub enum Change {
    /// Bytes or the size of a file.
    Data(DataChange),
    /// Names.
    Names(NameChange),
}

/// A write or a cut: places of a file go to new pages, and the places past a new size go.
#[derive(Debug, Drop)]
pub struct DataChange {
    /// The first place that is filled.
    pub first: u64,
    /// The size afterwards.
    pub size: u64,
    /// The new pages, one for each place from the first on.
    pub blocks: Vec<u64>,
    /// These pages as runs.
    pub runs: Vec<Run>,
    /// How many of them are filled.
    pub filled: u64,
}

/// A file is created, removed or renamed.
#[derive(Debug, Drop)]
pub struct NameChange {
    /// The inode that comes to life or is dying; of a renaming that replaces none, the one that is renamed.
    pub node: u64,
    /// What becomes of it.
    pub turn: Turn,
    /// Whether what has to stand before the commit was stored.
    pub prepared: bool,
    /// The root's tail after the commit.
    pub tail: u64,
    /// The name that the index gets at the commit, taken at the begin so that the commit needs no memory.
    pub put: Option<Name>,
}

/// What becomes of an inode.
#[derive(Clone, Copy, Debug, PartialEq, Eq)]
pub enum Turn {
    /// It stays.
    Stays,
    /// It comes to life.
    Comes,
    /// It is dying.
    Goes,
}
