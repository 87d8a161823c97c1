// Laws of a log that is written page by page, and of one that is replaced by its cleaned log. Each function states laws of
// all logs and disks; it does nothing.
ghost use Rattle.log_replace.specs.BodyLaws.{PagesMakeBody, NoPageStands, PageStoresChangeNothing};
ghost use Rattle.log_replace.specs.CleanedLaws.{MayCleanReplaces, CleanedStaysValid, CleanedKeepsFiles, CleanedKeepsData, CleanedSwapsPages, CleanedStaysOwn, CleanedStaysSettled, CleanedIsLeft};

/// All pages of a log say just what has to stand before it replaces another. Of the new log's pages the disk says nothing:
/// while one is stored, the disk stands, and so does each image that a stop may leave.
pub fn pages_make_the_body()
    ensures whole { PagesMakeBody }
    ensures none { NoPageStands }
    ensures still { PageStoresChangeNothing }
{}

/// The disk with the cleaned log of an inode is valid and has the same files, mappings, rows and counts.
pub fn cleaned_disks_keep_data()
    ensures replaces { MayCleanReplaces }
    ensures valid { CleanedStaysValid }
    ensures files { CleanedKeepsFiles }
    ensures data { CleanedKeepsData }
{}

/// The old log's pages come free, and those of the cleaned one are taken. What every image of this program has stays, and
/// so does what was settled.
pub fn cleaned_disks_swap_pages()
    ensures pages { CleanedSwapsPages }
    ensures own { CleanedStaysOwn }
    ensures settled { CleanedStaysSettled }
{}

/// Once the device stands for the disk with the cleaned log, each image that a stop may leave stands for it.
pub fn cleaned_disks_are_left()
    ensures { CleanedIsLeft }
{}
