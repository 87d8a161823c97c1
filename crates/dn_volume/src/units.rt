// The units of the device that begun work is owed, by what the calls that it makes use at most.
use fact_counts::counts::COUNT_UNITS;
use fact_rows::put::INSERT_UNITS;
use fact_rows::remove::REMOVE_UNITS;
use inode_log::prepare::PREPARE_UNITS;
use inode_table::CLEAR_UNITS;
use name_journal::commit::COMMIT_ALL_UNITS;
use pm_device::set::SET_UNITS;

/// A new page is filled, flushed and fenced.
pub const FILL_UNITS: u64 = file_content::fill::FILL_UNITS;

/// The row of a page that loses a mapping is raised.
pub const RAISE_UNITS: u64 = COUNT_UNITS;

/// A slot of an item, or a link of a page, is stored behind a log's tail.
pub const SLOT_UNITS: u64 = PREPARE_UNITS;

/// A log's tail is stored once its slots stand behind it.
pub const TAIL_UNITS: u64 = file_commit::append::COMMIT_UNITS;

/// The words of an inode that comes to life or is dying are stored.
pub const TURN_UNITS: u64 = CLEAR_UNITS;

/// The changes of an operation on names are committed.
pub const NAMES_UNITS: u64 = COMMIT_ALL_UNITS;

/// The daemon puts in a row, raises one, or masks a place.
pub const LOOK_UNITS: u64 = INSERT_UNITS;

/// The daemon maps a place to the page of a row: one item, with one page more at most.
pub const REMAP_UNITS: u64 = 2 * SLOT_UNITS + TAIL_UNITS;

/// The daemon settles a row whose page got a mapping more.
pub const SETTLE_UNITS: u64 = COUNT_UNITS;

/// The daemon's events at one place.
pub const PLACE_UNITS: u64 = LOOK_UNITS + REMAP_UNITS + SETTLE_UNITS;

/// The daemon flags an item as complete.
pub const END_UNITS: u64 = SET_UNITS;

/// A dying inode's cut falls by the place whose row is raised.
pub const FALL_UNITS: u64 = SET_UNITS;

/// A page of a new log is stored, flushed and fenced.
pub const LOG_PAGE_UNITS: u64 = log_replace::page::PAGE_UNITS;

/// A new log replaces an old one.
pub const REPLACE_UNITS: u64 = log_replace::replace::REPLACE_UNITS;

/// A row whose counts are 0 goes.
pub const ZERO_CHECK_UNITS: u64 = REMOVE_UNITS;
