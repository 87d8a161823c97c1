//! What one store decides, and what no change of the table touches.
//!
//! Each function states a law of all disks; it does nothing.
ghost use Rattle.law_table_on_disk.specs.OneWord.{OneWordLeavesOldOrNew, OneWordStands, OneWordInAnyOrder, OneWordMayCommit, HeldRunIsReady, StoredRunIsReady, FrontIsReady, ReadyThroughCommit, NothingIsReady, UnreadStoresStand, UnreadStoresLeaveSame};
ghost use Rattle.law_table_on_disk.specs.Keeping.{TableChangesKeepFiles};

/// Where one word decides between two valid disks, each image that a stop may leave while it is stored stands for
/// one of them, and the device stands for the new one once it is fenced. Before it is stored the word is settled.
/// Where no other word is new, images stand for one of them whatever becomes of what was flushed before.
pub fn one_word_decides()
    ensures images { OneWordLeavesOldOrNew }
    ensures any_order { OneWordInAnyOrder }
    ensures stands { OneWordStands }
    ensures may_commit { OneWordMayCommit }
{}

/// What has to be stored and flushed before such a word is a run of fresh words, or none: how it comes to be ready,
/// and that it stays so through the commit of another word.
pub fn fresh_words_are_ready()
    ensures held { HeldRunIsReady }
    ensures stored { StoredRunIsReady }
    ensures front { FrontIsReady }
    ensures through { ReadyThroughCommit }
    ensures none { NothingIsReady }
{}

/// A run of words of which a valid disk says nothing can be stored at any time: the device stands for that disk as
/// before, and so does each image that a stop may leave on the way.
pub fn unread_stores_change_nothing()
    ensures stands { UnreadStoresStand }
    ensures images { UnreadStoresLeaveSame }
{}

/// Files, mappings, log pages and free pages are what they were, whatever becomes of the chains and pointers.
pub fn table_changes_keep_files()
    ensures { TableChangesKeepFiles }
{}
