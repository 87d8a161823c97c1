//! Laws of a place that comes to share a page: one Write more in its file's log maps it to the page of a row that has the
//! same bytes.
//!
//! Each function states laws of all disks; it does nothing.
#![tactic(auto)]

ghost use Rattle.law_share.specs.Sharing.{ShareStaysValid, ShareLeavesOldOrNew, ShareStands, ShareMovesPlace, ShareKeepsFiles, ShareFreesPage, ShareStaysOwn, ShareKeepsBalance, OtherRowsStayBalanced};

/// A valid disk stays valid, if an update of the row was raised before. While the tail moves, each image that a stop may
/// leave stands for what was or for what comes, once what was prepared for the log stands; once it has moved, the
/// device stands for what comes.
pub fn place_is_shared()
    ensures valid { ShareStaysValid }
    ensures images { ShareLeavesOldOrNew }
    ensures stands { ShareStands }
{}

/// The place is on the row's page, complete, and no other place moves: the mappings of the row's page rise by one, and
/// those of the page before fall by one. Names, files, and what every image of this program has stay.
pub fn sharing_keeps_files()
    ensures places { ShareMovesPlace }
    ensures files { ShareKeepsFiles }
    ensures own { ShareStaysOwn }
{}

/// The page that the place was on comes free, and only the pages of the log are taken, and the row's.
pub fn sharing_frees_page()
    ensures { ShareFreesPage }
{}

/// The update that was raised has then added a mapping, and waits to be settled; other rows stay balanced.
pub fn sharing_keeps_balance()
    ensures row { ShareKeepsBalance }
    ensures others { OtherRowsStayBalanced }
{}
