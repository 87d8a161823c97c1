//! Which words of the data area are read.
//!
//! Each function states a law of all disks; it does nothing.
ghost use Rattle.law_write.specs.Laws.{ReadPagesAreData, UnusedPagesAreUnread, PreparedWordsAreUnread, PreparedWordsAreApart};

/// The pages whose words are read, because a file maps them or a row has them, lie in the data area.
pub fn read_pages_are_data()
    ensures { ReadPagesAreData }
{}

/// A page that no log, no file and no row has is not read: a store to it changes nothing that an image says.
pub fn unused_pages_are_unread()
    ensures { UnusedPagesAreUnread }
{}

/// The words past the tail of a live inode's log, where more items are prepared on unused pages, are not read
/// before the tail moves.
pub fn prepared_words_are_unread()
    ensures { PreparedWordsAreUnread }
{}

/// What is prepared for a log stands in the inode's head and in the log's own pages alone.
pub fn prepared_words_are_apart()
    ensures { PreparedWordsAreApart }
{}
