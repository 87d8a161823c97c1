//! Counts of mappings and of free pages.
ghost use Rattle.law_unique.specs.Counting.{CountsMappings, FreeIsUnused, HasOneFreeCount};

/// The count of a page's mappings is above 0 exactly where a place of a used inode is mapped to the
/// page; so a page of the data area is free exactly if no log has it and no place is mapped to it.
pub fn mappings_count()
    ensures mapped { CountsMappings }
    ensures free { FreeIsUnused }
{}

/// At most one number of pages is free.
pub fn one_free_count()
    ensures { HasOneFreeCount }
{}
