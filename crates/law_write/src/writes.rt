// Laws of a write: Write items more in the log of a live file.
ghost use Rattle.law_write.specs.WriteLaws.{WritesStayValid, WritesLeaveOldOrNew, WritesStand, StoredWordsSuffice, WritesPutText, WritesAreWrites, WritesStayOwn, WritesTakeAndFree, PlacesAreApart, RunsMakeWrites, RunsMakeWritesWithoutRows};

/// A valid image stays valid when a file gets Write items that map some of its places to unused
/// pages.
pub fn writes_stay_valid()
    ensures { WritesStayValid }
{}

/// While the tail of the file's log moves, each image that a stop may leave stands for what was or
/// for what comes, once what is new was stored and flushed.
pub fn writes_leave_old_or_new()
    ensures { WritesLeaveOldOrNew }
{}

/// Once it has moved, the device stands for what comes: now, and in each image that a stop may leave.
pub fn writes_stand()
    ensures { WritesStand }
{}

/// What has to stand before the tail moves are the words past it in the log and the words of the
/// new pages.
pub fn stored_words_suffice()
    ensures { StoredWordsSuffice }
{}

/// The file then has the text where it was written, and each other file has its bytes.
pub fn writes_put_text()
    ensures { WritesPutText }
{}

/// All names together then lead to what the operation says.
pub fn writes_are_writes()
    ensures { WritesAreWrites }
{}

/// A write leaves zeros past the end of each file, keeps the prints of shared pages, and marks its
/// places as not yet worked on (DeNova, IPDPS 2022: a new entry needs deduplication).
pub fn writes_stay_own()
    ensures { WritesStayOwn }
{}

/// The pages that the write takes are free no more, and those that it overwrites come free where
/// nobody shares them; no other page comes free or is taken.
pub fn writes_take_and_free()
    ensures { WritesTakeAndFree }
{}

/// Different places of a file are on different pages, but for shared ones.
pub fn places_are_apart()
    ensures { PlacesAreApart }
{}

/// A commit of runs, each of consecutive pages, is such a write: its premises in one record.
pub fn runs_make_writes()
    ensures with_rows { RunsMakeWrites }
    ensures without_rows { RunsMakeWritesWithoutRows }
{}
