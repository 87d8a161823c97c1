// What is read of an image up to the pointers of its pages: rules 6 to 9.
ghost use Rattle.std.specs.Prelude.{◌≡◌, ◌*◌, ℕ, ◌<◌, length, map, All, IfOk, IfErr};
ghost use Rattle.pm_layout.specs.Geometry.{IsAccepted};
ghost use Rattle.image_logs.specs.Logs.{AreRead};
ghost use Rattle.dn_check.specs.Passing.{HasGoodInodes, IsHalt, IsTableHalt, AreLinked, IsTableRead, Marks, IsWhole, IsReadOfEach};

use dn_model::ImageFault;
use fact_scan::{Row, ScanFault, scan_rows};
use fact_table::load::{pointers_of, wrong_pointer};
use image_logs::{LogsFault, LogsRead, read_logs};
use image_uses::link_fault;
use pm_device::Pm;
use pm_layout::Geometry;
use std::alloc::{AllocError, Global};

/// Why an image is read no further.
#[derive(Debug, Drop)]
pub enum Halt {
    /// It has this first fault.
    Fault(ImageFault),
    /// Memory ran out.
    NoMemory,
}

/// What is read of a table.
#[derive(Debug, Drop)]
pub struct TableRead {
    /// All its rows.
    pub rows: Vec<Row>,
    /// For each page whether a row has it.
    pub has_row: Vec<bool>,
}

/// What is read of an image.
#[derive(Debug, Drop)]
pub struct ImageRead {
    /// What its logs say.
    pub logs: LogsRead,
    /// What its table says.
    pub table: TableRead,
}

impl From<LogsFault> for Halt {
    ghost use Rattle.std.specs.Prelude.{◌≡◌};
    ghost use Rattle.dn_check.specs.Halting.{halt_of_logs};

    ghost from_gives = { λ fault halt. halt ≡ halt_of_logs fault };

    fn from(fault: LogsFault) -> Halt {
        match fault {
            LogsFault::BadLog { ino, place } => Halt::Fault(ImageFault::BadLog { ino, place }),
            LogsFault::NoMemory => Halt::NoMemory,
        }
    }
}

impl From<ScanFault> for Halt {
    ghost use Rattle.std.specs.Prelude.{◌≡◌};
    ghost use Rattle.dn_check.specs.Halting.{halt_of_scan};

    ghost from_gives = { λ fault halt. halt ≡ halt_of_scan fault };

    fn from(fault: ScanFault) -> Halt {
        match fault {
            ScanFault::BadTable { slot } => Halt::Fault(ImageFault::BadTable { slot }),
            ScanFault::NoMemory => Halt::NoMemory,
        }
    }
}

impl From<AllocError> for Halt {
    ghost use Rattle.std.specs.Prelude.{◌≡◌};
    ghost use Rattle.dn_check.specs.declared.read.Halt.TheVariants.{NoMemory};

    ghost from_gives = { λ _ halt. halt ≡ NoMemory };

    fn from(_fault: AllocError) -> Halt {
        Halt::NoMemory
    }
}

// Whether each inode is linked, by the names of logs of which none has a fault.
fn ask_links<D: Pm>(alloc: Global, device: &D, g: &Geometry, logs: &LogsRead) -> Result<(), Halt>
    requires accepted { IsAccepted g.now }
    requires size { length (D.state device.now).now ≡ 512 * g.now.pages }
    requires inodes { HasGoodInodes g.now (D.state device.now).now }
    requires read { AreRead g.now (D.state device.now).now logs.now }
    ensures linked { IfOk result (λ _. AreLinked g.now (D.state device.now).now) }
    ensures halt { IfErr result (IsHalt g.now (D.state device.now).now) }
{
    match link_fault(alloc, device, g, &logs.names)? {
        Some(ino) => Err(Halt::Fault(ImageFault::BadLink { ino })),
        None => Ok(()),
    }
}

// For each page whether it has a row: whether a pointer is wanted of it.
fn pages_with_rows(alloc: Global, wanted: &[u64]) -> Result<Vec<bool>, AllocError>
    ensures { IfOk result (λ has_row. Marks wanted.now has_row.items) }
{
    let mut has_row = vec![in alloc; false; wanted.len()]?;
    for (page, pointer) in wanted.iter().enumerate() {
        has_row[page] = *pointer != 0;
    }
    Ok(has_row)
}

// The table, where its rows have no fault and no pointer has one.
fn read_table<D: Pm>(alloc: Global, device: &D, g: &Geometry) -> Result<TableRead, Halt>
    requires accepted { IsAccepted g.now }
    requires size { length (D.state device.now).now ≡ 512 * g.now.pages }
    ensures table { IfOk result (IsTableRead g.now (D.state device.now).now) }
    ensures halt { IfErr result (IsTableHalt g.now (D.state device.now).now) }
{
    let rows = scan_rows(alloc, device, g)?;
    let wanted = pointers_of(alloc, g, &rows)?;
    if let Some(page) = wrong_pointer(device, g, &wanted) {
        return Err(Halt::Fault(ImageFault::BadPointer { page }));
    }
    let has_row = pages_with_rows(alloc, &wanted)?;
    Ok(TableRead { rows, has_row })
}

/// Reads the rest of a rolled image whose inodes and logs have no fault, up to the pointers of its pages.
///
/// # Errors
/// `Fault` where it has a fault by these rules, and which is the first. `NoMemory` where memory runs out.
pub fn read_rest<D: Pm>(
    alloc: Global,
    device: &D,
    g: &Geometry,
    logs: LogsRead,
) -> Result<ImageRead, Halt>
    requires accepted { IsAccepted g.now }
    requires size { length (D.state device.now).now ≡ 512 * g.now.pages }
    requires inodes { HasGoodInodes g.now (D.state device.now).now }
    requires read { AreRead g.now (D.state device.now).now logs }
    ensures logs { IfOk result (λ read. read.logs ≡ logs) }
    ensures whole { IfOk result (IsWhole g.now) }
    ensures read { IfOk result (IsReadOfEach g.now (D.state device.now).now) }
    ensures halt { IfErr result (IsHalt g.now (D.state device.now).now) }
{
    ask_links(alloc, device, g, &logs)?;
    let table = read_table(alloc, device, g)?;
    Ok(ImageRead { logs, table })
}

// The logs of all inodes, where none has a fault.
fn all_logs<D: Pm>(alloc: Global, device: &D, g: &Geometry) -> Result<LogsRead, Halt>
    requires accepted { IsAccepted g.now }
    requires size { length (D.state device.now).now ≡ 512 * g.now.pages }
    requires inodes { HasGoodInodes g.now (D.state device.now).now }
    ensures read { IfOk result (AreRead g.now (D.state device.now).now) }
    ensures halt { IfErr result (IsHalt g.now (D.state device.now).now) }
{
    let logs = read_logs(alloc, device, g)?;
    Ok(logs)
}

// Reads a rolled image whose inodes have no fault, up to the pointers of its pages.
pub(crate) fn read_image<D: Pm>(alloc: Global, device: &D, g: &Geometry) -> Result<ImageRead, Halt>
    requires accepted { IsAccepted g.now }
    requires size { length (D.state device.now).now ≡ 512 * g.now.pages }
    requires inodes { HasGoodInodes g.now (D.state device.now).now }
    ensures whole { IfOk result (IsWhole g.now) }
    ensures read { IfOk result (IsReadOfEach g.now (D.state device.now).now) }
    ensures halt { IfErr result (IsHalt g.now (D.state device.now).now) }
{
    let logs = all_logs(alloc, device, g)?;
    read_rest(alloc, device, g, logs)
}
