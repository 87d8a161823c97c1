// What is found of an image that passes the rules up to the pointers of its pages: rules 10 to 12, and its numbers.
ghost use Rattle.std.specs.Prelude.{◌<◌, ◌≤◌, All, length, IfOk, IfErr};
ghost use Rattle.pm_layout.specs.Geometry.{IsAccepted};
ghost use Rattle.fact_scan.specs.declared.row.Row.{Row as RowValue};
ghost use Rattle.dn_check.specs.Passing.{AreNumbersRead, IsWhole, TellsEachPassing, IsFreeOfEach, IsFaultOfEach};

use crate::finding::{Finding, RowList};
use crate::read::{ImageRead, TableRead};
use crate::rows::{are_exact, far_row, sorted};
use dn_model::ImageFault;
use fact_scan::Row;
use image_logs::LogsRead;
use image_uses::{double_fault, free_count, mapped_count};
use pm_layout::Geometry;

// The fewest free pages of an image.
const FEWEST_FREE: u64 = 2;

// The numbers of an image without a fault.
fn numbers(logs: &LogsRead, rows: Vec<Row>, free: u64) -> Finding
    requires few { length logs.now.mapped.items ≤ 65536 }
    requires pages { All (λ (row : RowValue). row.page < length logs.now.mapped.items) rows.items }
    ensures { AreNumbersRead logs.now rows.items free result }
{
    let exact = are_exact(&rows, &logs.mapped);
    Finding::Sound {
        files: logs.files,
        dying: logs.dying,
        rows: RowList::of(sorted(rows)),
        mapped: mapped_count(&logs.mapped),
        free,
        exact,
    }
}

/// How many pages are free of an image of which this is read, where it has no fault.
///
/// # Errors
/// The first fault of the image, by its pages, its counts or its free pages.
pub fn free_or_fault(g: &Geometry, read: &ImageRead) -> Result<u64, ImageFault>
    requires accepted { IsAccepted g.now }
    requires whole { IsWhole g.now read.now }
    ensures free { IfOk result (IsFreeOfEach g.now read.now) }
    ensures fault { IfErr result (IsFaultOfEach g.now read.now) }
{
    let logs = &read.logs;
    if let Some(page) = double_fault(&logs.in_logs, &logs.mapped, &read.table.has_row) {
        return Err(ImageFault::DoubleMapped { page });
    }
    if let Some(slot) = far_row(&read.table.rows, &logs.mapped) {
        return Err(ImageFault::BadCount { slot });
    }
    let free = free_count(g, &logs.in_logs, &logs.mapped);
    if free < FEWEST_FREE {
        return Err(ImageFault::Crowded { free });
    }
    Ok(free)
}

// The numbers of an image without a fault, of which this is read.
fn numbers_of(read: ImageRead, free: u64) -> Finding
    requires few { length read.logs.mapped.items ≤ 65536 }
    requires pages { All (λ (row : RowValue). row.page < length read.logs.mapped.items)
        read.table.rows.items }
    ensures { AreNumbersRead read.logs read.table.rows.items free result }
{
    let ImageRead { logs, table } = read;
    let TableRead { rows, .. } = table;
    numbers(&logs, rows, free)
}

// The first fault of an image by its pages, its counts and its free pages, or its numbers.
pub(crate) fn judge(g: &Geometry, read: ImageRead) -> Finding
    requires accepted { IsAccepted g.now }
    requires whole { IsWhole g.now read }
    ensures { TellsEachPassing g.now read result }
{
    match free_or_fault(g, &read) {
        Ok(free) => numbers_of(read, free),
        Err(fault) => Finding::Fault(fault),
    }
}
