// The files of a volume, compared with those that are wanted.
ghost use Rattle.std.specs.Prelude.{◌≡◌, false};
ghost use Rattle.dn_volume.specs.Agrees.{Agrees};

use dn_files::{FileText, Files};
use dn_volume::Volume;
use file_looks::file_bytes;
use fingerprint::Fingerprint;
use pm_device::Pm;
use std::alloc::{AllocError, Global};

// Whether the volume has a file of this name with these bytes.
fn has_file<D: Pm, F: Fingerprint>(
    alloc: Global,
    v: &Volume<D, F>,
    file: &FileText,
) -> Result<bool, AllocError>
    requires agrees { Agrees D.state v.now }
    requires running { v.now.parts.stopped ≡ false }
{
    match file_bytes(alloc, v, file.name.bytes())? {
        Some(bytes) => Ok(bytes.as_slice() == file.bytes.bytes()),
        None => Ok(false),
    }
}

// Whether the volume has just these files.
pub fn has_files<D: Pm, F: Fingerprint>(
    alloc: Global,
    v: &Volume<D, F>,
    files: &Files,
) -> Result<bool, AllocError>
    requires agrees { Agrees D.state v.now }
    requires running { v.now.parts.stopped ≡ false }
{
    let files = files.files();
    if v.parts.names.entries().len() != files.len() {
        return Ok(false);
    }
    for file in files {
        if !has_file(alloc, v, file)? {
            return Ok(false);
        }
    }
    Ok(true)
}
