//! Laws of the operations that create, remove and rename files.
//!
//! Each function states laws of all disks; it does nothing.
ghost use Rattle.law_names.specs.NameLaws.{CreationsMayChange, RemovalsMayChange, RenamingsMayChange, NameChangesChangeParts, NameChangesStayValid, NameChangesKeepData, NameChangesStayOwn, NameChangesAreAllOrNone, NameChangesLeaveOldOrNew, NameChangesStand, FreshNamesAreReady, FreshNamesSuffice, StoredTurnIsReady, NoTurnIsReady, FreshNamesAreUnread, RootStoresChangeNothing, TurnStoresChangeNothing, CreationsName, RemovalsName, RenamingsName, CreationsCreate, RemovalsRemove, RenamingsRename};

/// The premises of each operation suffice for its change of the disk: each inode keeps to its names.
pub fn operations_change_names()
    ensures creations { CreationsMayChange }
    ensures removals { RemovalsMayChange }
    ensures renamings { RenamingsMayChange }
{}

/// A valid disk stays valid. Its parts are those of before, but for the root's log and the inode that turns.
pub fn name_changes_stay_valid()
    ensures parts { NameChangesChangeParts }
    ensures valid { NameChangesStayValid }
{}

/// Mappings, rows, counts and the bytes of files stay, and only the root's new pages are taken. What every image of
/// this program has stays too.
pub fn name_changes_keep_data()
    ensures data { NameChangesKeepData }
    ensures own { NameChangesStayOwn }
{}

/// The root's tail and the state of the inode decide together, once the fresh words stand: while one commit of the
/// journal changes them, each image that a stop may leave stands for what was or for what comes, and at its end the
/// device stands for what comes.
pub fn name_changes_are_all_or_none()
    ensures decide { NameChangesAreAllOrNone }
    ensures suffice { FreshNamesSuffice }
    ensures images { NameChangesLeaveOldOrNew }
    ensures stands { NameChangesStand }
{}

/// The fresh words are those past the root's tail, as `prepare` stores them, and those of the inode: head, tail and cut
/// of one that comes to life, the cut of one that is dying.
pub fn fresh_names_are_ready()
    ensures parts { FreshNamesAreReady }
    ensures stored { StoredTurnIsReady }
    ensures none { NoTurnIsReady }
{}

/// Of these words the disk says nothing before: while they are stored it stands, and so does each image that a stop
/// may leave.
pub fn fresh_names_are_unread()
    ensures unread { FreshNamesAreUnread }
    ensures root { RootStoresChangeNothing }
    ensures inode { TurnStoresChangeNothing }
{}

/// Which inode each name leads to afterwards.
pub fn operations_name()
    ensures creations { CreationsName }
    ensures removals { RemovalsName }
    ensures renamings { RenamingsName }
{}

/// The files are those of the map after the operation.
pub fn operations_change_files()
    ensures creations { CreationsCreate }
    ensures removals { RemovalsRemove }
    ensures renamings { RenamingsRename }
{}
