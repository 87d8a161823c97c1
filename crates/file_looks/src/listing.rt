// All files are listed.
ghost use Rattle.std.specs.Prelude.{◌≡◌, ◌++◌, false, Some, IfOk, OnOk};
ghost use Rattle.std.specs.FinMap.{get};
ghost use Rattle.dn_model.specs.Disk.{Disk};
ghost use Rattle.dn_model.specs.Files.{files};
ghost use Rattle.dn_report.specs.Listing.{file_line, ListsFiles};
ghost use Rattle.dn_volume.specs.Agrees.{Agrees, IsVolume};

use crate::reading::{digest_of, size_of};
use dn_report::listing::{write_digest, write_file_count};
use dn_volume::Volume;
use fingerprint::Fingerprint;
use log_entry::Name;
use pm_device::Pm;
use std::alloc::{AllocError, Global};

// Appends the line of a file.
fn write_entry<D: Pm, F: Fingerprint>(
    alloc: Global,
    v: &Volume<D, F>,
    name: &Name,
    ino: u64,
    text: &mut Vec<u8>,
) -> Result<(), AllocError>
    requires agrees { Agrees D.state v.now }
    requires running { v.now.parts.stopped ≡ false }
    requires leads { get v.now.parts.names.map name.now ≡ Some ino }
    ensures { OnOk result ((d : Disk) → IsVolume d v.now.parts (D.state v.now.device)
        → text.new.items ≡ text.old.items ++ file_line (files d) name.now) }
{
    let digest = digest_of(alloc, v, ino)?;
    write_digest(text, size_of(v, ino), &digest, name.bytes())
}

/// The text that lists all files, in the order of their names' bytes: a line for each, with its size in bytes, the SHA-1
/// digest of its bytes and its name, and a last one with their number. It takes memory for the text and for one piece of a
/// file.
///
/// # Errors
/// `AllocError` where there is no memory for these.
pub fn list_text<D: Pm, F: Fingerprint>(
    alloc: Global,
    v: &Volume<D, F>,
) -> Result<Vec<u8>, AllocError>
    requires agrees { Agrees D.state v.now }
    requires running { v.now.parts.stopped ≡ false }
    ensures { IfOk result (λ text. (d : Disk) → IsVolume d v.now.parts (D.state v.now.device)
        → ListsFiles (files d) text.items) }
{
    let entries = v.parts.names.entries();
    let mut text = Vec::new(alloc);
    for entry in entries {
        write_entry(alloc, v, &entry.0, entry.1, &mut text)?;
    }
    write_file_count(&mut text, entries.len() as u64)?;
    Ok(text)
}
