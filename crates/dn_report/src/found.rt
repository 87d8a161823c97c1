// The texts of what is found of an image.
ghost use Rattle.std.specs.Prelude.{◌≡◌, ◌++◌, OnOk};
ghost use Rattle.dn_report.specs.Found.{fault_text, faulty_text, row_line, exact_text, numbers_line, found_text};

use crate::report::{end_line, write_count, write_number};
use dn_model::ImageFault;
use fact_scan::Row;
use std::alloc::AllocError;

fn write_name(text: &mut Vec<u8>, name: &[u8]) -> Result<(), AllocError>
    ensures { OnOk result (text.new.items ≡ text.old.items ++ name.now) }
{
    text.extend_from_slice(name)
}

fn write_fault(text: &mut Vec<u8>, fault: ImageFault) -> Result<(), AllocError>
    ensures { OnOk result (text.new.items ≡ text.old.items ++ fault_text fault) }
{
    match fault {
        ImageFault::NotAnImage => write_name(text, b"not-an-image"),
        ImageFault::WrongVersion { found } => {
            write_name(text, b"wrong-version")?;
            write_number(text, found)
        }
        ImageFault::BadGeometry => write_name(text, b"bad-geometry"),
        ImageFault::BadJournal => write_name(text, b"bad-journal"),
        ImageFault::BadInode { ino } => write_count(text, b"bad-inode", ino),
        ImageFault::BadLog { ino, place } => {
            write_count(text, b"bad-log", ino)?;
            write_number(text, place)
        }
        ImageFault::BadLink { ino } => write_count(text, b"bad-link", ino),
        ImageFault::BadTable { slot } => write_count(text, b"bad-table", slot),
        ImageFault::BadPointer { page } => write_count(text, b"bad-pointer", page),
        ImageFault::DoubleMapped { page } => write_count(text, b"double-mapped", page),
        ImageFault::BadCount { slot } => write_count(text, b"bad-count", slot),
        ImageFault::Crowded { free } => write_count(text, b"crowded", free),
    }
}

/// Appends what is written where an image has this fault.
pub fn write_faulty(text: &mut Vec<u8>, fault: ImageFault) -> Result<(), AllocError>
    ensures { OnOk result (text.new.items ≡ text.old.items ++ faulty_text fault) }
{
    write_name(text, b"refused ")?;
    write_fault(text, fault)?;
    end_line(text)
}

fn write_row(text: &mut Vec<u8>, row: &Row) -> Result<(), AllocError>
    ensures { OnOk result (text.new.items ≡ text.old.items ++ row_line row.now) }
{
    write_count(text, b"row", row.slot)?;
    write_number(text, row.page)?;
    write_number(text, u64::from(row.count.rfc))?;
    write_number(text, u64::from(row.count.uc))?;
    end_line(text)
}

fn write_exact(text: &mut Vec<u8>, exact: bool) -> Result<(), AllocError>
    ensures { OnOk result (text.new.items ≡ text.old.items ++ exact_text exact) }
{
    if exact {
        write_name(text, b" exact")
    } else {
        write_name(text, b" near")
    }
}

/// The numbers of an image without a fault.
#[derive(Clone, Copy, Debug, PartialEq, Eq)]
pub struct Numbers {
    pub files: u64,
    pub dying: u64,
    pub mapped: u64,
    pub free: u64,
    pub exact: bool,
}

fn write_numbers(text: &mut Vec<u8>, n: Numbers, rows: u64) -> Result<(), AllocError>
    ensures { OnOk result (text.new.items ≡ text.old.items ++ numbers_line n.files n.dying rows
        n.mapped n.free n.exact) }
{
    write_count(text, b"ok files", n.files)?;
    write_count(text, b" dying", n.dying)?;
    write_count(text, b" rows", rows)?;
    write_count(text, b" mapped", n.mapped)?;
    write_count(text, b" free", n.free)?;
    write_exact(text, n.exact)?;
    end_line(text)
}

/// Appends what is written where an image has no fault: its numbers, and a line for each row.
pub fn write_found(text: &mut Vec<u8>, n: Numbers, rows: &[Row]) -> Result<(), AllocError>
    ensures { OnOk result (text.new.items ≡ text.old.items ++ found_text n.files n.dying rows.now
        n.mapped n.free n.exact) }
{
    write_numbers(text, n, rows.len() as u64)?;
    for row in rows {
        write_row(text, row)?;
    }
    Ok(())
}
