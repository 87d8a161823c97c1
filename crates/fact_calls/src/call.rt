// A call of the table.

/// A call that changes the table of fingerprints.
#[derive(Clone, Copy, Debug, PartialEq, Eq)]
pub enum TableCall {
    /// A row of a page comes in, with no reference yet and one update under way.
    Insert {
        /// The fingerprint of the page.
        print: [u8; 20],
        /// The number of the page.
        page: u64,
    },
    /// An update of a row comes under way.
    Raise {
        /// The number of the row's slot.
        slot: u64,
    },
    /// An update is made, which adds a reference.
    SettleUp {
        /// The number of the row's slot.
        slot: u64,
    },
    /// An update is made, which takes a reference away.
    SettleDown {
        /// The number of the row's slot.
        slot: u64,
    },
    /// A row gets this count of references, and no update of it is under way.
    Recount {
        /// The number of the row's slot.
        slot: u64,
        /// The count of references.
        rfc: u32,
    },
    /// A row without references and updates goes.
    RemoveZero {
        /// The number of the row's slot.
        slot: u64,
    },
    /// All stale pointers are cleared.
    ClearStale,
}
