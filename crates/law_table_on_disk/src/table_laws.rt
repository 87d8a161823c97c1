//! Laws that lead from a table to a whole disk.
//!
//! The function states laws of all disks; it does nothing.
ghost use Rattle.law_table_on_disk.specs.TableLaws.{TablesInImagesAreDisks, StandingTablesAreDisks, FittingTablesAreValid, ValidDisksFit};

/// Where only words of the table are stored to, images and the device stand for the disk that has the table that they
/// have. A disk with another table is valid where its rows make sense and fit the disk, as those of a valid disk do.
pub fn tables_are_disks()
    ensures images { TablesInImagesAreDisks }
    ensures stands { StandingTablesAreDisks }
    ensures valid { FittingTablesAreValid }
    ensures fits { ValidDisksFit }
{}
