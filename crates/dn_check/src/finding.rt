// What is found of an image.
use dn_model::ImageFault;
use fact_scan::Row;
use std::marker::Model;

/// Rows of the table of fingerprints, in the order of their slots.
#[derive(Debug, Drop)]
pub struct RowList {
    rows: Vec<Row>,
}

impl Model for RowList {
    ghost use Rattle.std.specs.Prelude.{List};
    ghost use Rattle.fact_scan.specs.declared.row.Row.{Row};

    ghost Value = { List Row };

    ghost view = { λ l. l.rows.items };
}

impl RowList {
    ghost use Rattle.std.specs.Prelude.{◌≡◌};

    /// The list of these rows.
    pub fn of(rows: Vec<Row>) -> RowList
        ensures { result ≡ rows.items }
    {
        RowList { rows }
    }

    /// The rows.
    pub fn rows(&self) -> &[Row]
        ensures { result.now ≡ self.now }
    {
        &self.rows
    }
}

/// What is found of an image, all of it read as the journal is rolled back.
#[derive(Debug, Drop)]
pub enum Finding {
    /// The image has this first fault.
    Fault(ImageFault),
    /// The image has no fault.
    Sound {
        /// How many files there are.
        files: u64,
        /// How many inodes are dying: of files that were removed and still hold pages.
        dying: u64,
        /// The rows of the table of fingerprints, in the order of their slots.
        rows: RowList,
        /// How many pages are mapped by a place of a file or of a dying inode below its cut.
        mapped: u64,
        /// How many pages of the data area are in no log and not mapped.
        free: u64,
        /// Whether each row counts the mappings of its page, with no update open, and no page without a row is shared.
        exact: bool,
    },
}
