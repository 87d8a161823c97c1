//! Laws of the counts of a row, and of the pointer of a page.
//!
//! Each function states laws of all disks; it does nothing.
ghost use Rattle.law_table_on_disk.specs.CountLaws.{RecountIsOneWord, RecountMakesExact, RecountStaysOwn};
ghost use Rattle.law_table_on_disk.specs.PointerLaws.{RepointIsOneWord, RepointStaysExact, RepointStaysOwn};

/// A row gets other counts: one word of the table decides between two valid disks. Once the last count that was off
/// is right, all are exact.
pub fn row_is_recounted()
    ensures one_word { RecountIsOneWord }
    ensures exact { RecountMakesExact }
    ensures own { RecountStaysOwn }
{}

/// A page gets another pointer: one word of the table decides between two valid disks.
pub fn page_is_repointed()
    ensures one_word { RepointIsOneWord }
    ensures exact { RepointStaysExact }
    ensures own { RepointStaysOwn }
{}
