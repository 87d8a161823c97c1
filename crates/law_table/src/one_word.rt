//! What one store to a table decides.
//!
//! Each function states laws of all tables; it does nothing.
ghost use Rattle.law_table.specs.Words.{TableWordIsSettled, TableWordLeavesOldOrNew, TableWordInAnyOrder, TableWordStands, TableWordReads, UntoldStoresRead, UntoldStoresStand, UntoldStoresLeaveSame};

/// Where one word decides between two tables, each image that a stop may leave while it is stored has one of them, and
/// the new one stands once the word is fenced. Before it is stored the word is settled. Where the
/// fresh words stand already, images have one of them whatever becomes of what was flushed before. The device's words read as the new one
/// whatever is settled.
pub fn one_table_word_decides()
    ensures settled { TableWordIsSettled }
    ensures images { TableWordLeavesOldOrNew }
    ensures any_order { TableWordInAnyOrder }
    ensures stands { TableWordStands }
    ensures reads { TableWordReads }
{}

/// A run of words of which a table says nothing can be stored at any time: the table is as before, and so it is in each
/// image that a stop may leave on the way.
pub fn untold_stores_change_nothing()
    ensures reads { UntoldStoresRead }
    ensures stands { UntoldStoresStand }
    ensures images { UntoldStoresLeaveSame }
{}
