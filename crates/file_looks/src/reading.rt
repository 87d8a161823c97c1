// Whole files are read, piece by piece.
ghost use Rattle.std.specs.Prelude.{◌≡◌, ◌≤◌, false, take, drop, length, IfOk, option_map};
ghost use Rattle.sha1.specs.Sha1.{sha1};
ghost use Rattle.dn_model.specs.Disk.{Disk};
ghost use Rattle.dn_model.specs.Files.{bytes, files};
ghost use Rattle.dn_volume.specs.Agrees.{Agrees, IsVolume};
ghost use Rattle.file_looks.specs.Looking.{IsFile};

use begin_steps::find_inode;
use dn_report::listing::DIGEST_BYTES;
use dn_volume::Volume;
use file_content::{MOST_BYTES, read_bytes};
use fingerprint::Fingerprint;
use pm_device::Pm;
use sha1::Sha1;
use std::alloc::{AllocError, Global};

/// The size of the file of an inode, in bytes.
pub(crate) fn size_of<D: Pm, F: Fingerprint>(v: &Volume<D, F>, ino: u64) -> u64
    requires agrees { Agrees D.state v.now }
    requires running { v.now.parts.stopped ≡ false }
    requires file { IsFile D.state v.now ino }
    ensures size { (d : Disk) → IsVolume d v.now.parts (D.state v.now.device)
        → length (bytes d ino) ≡ result }
    ensures few { result ≤ 16777216 }
{
    v.parts.inodes[ino as usize].size
}

// The bytes of the file of an inode from a place on, as many as one read takes.
fn read_piece<D: Pm, F: Fingerprint>(
    alloc: Global,
    v: &Volume<D, F>,
    ino: u64,
    at: u64,
) -> Result<Vec<u8>, AllocError>
    requires agrees { Agrees D.state v.now }
    requires running { v.now.parts.stopped ≡ false }
    requires file { IsFile D.state v.now ino }
    ensures { IfOk result (λ piece. (d : Disk) → IsVolume d v.now.parts (D.state v.now.device)
        → piece.items ≡ take 65536 (drop at (bytes d ino))) }
{
    let node = &v.parts.inodes[ino as usize];
    read_bytes(
        alloc,
        &v.device,
        &v.parts.geometry,
        &node.map,
        node.size,
        at,
        MOST_BYTES,
    )
}

// The bytes of the file of an inode.
fn read_whole<D: Pm, F: Fingerprint>(
    alloc: Global,
    v: &Volume<D, F>,
    ino: u64,
) -> Result<Vec<u8>, AllocError>
    requires agrees { Agrees D.state v.now }
    requires running { v.now.parts.stopped ≡ false }
    requires file { IsFile D.state v.now ino }
    ensures { IfOk result (λ found. (d : Disk) → IsVolume d v.now.parts (D.state v.now.device)
        → found.items ≡ bytes d ino) }
{
    let size = size_of(v, ino);
    let mut found = Vec::with_capacity(alloc, size as usize)?;
    let mut at = 0;
    while at < size {
        let mut piece = read_piece(alloc, v, ino, at)?;
        found.append(&mut piece)?;
        at += MOST_BYTES;
    }
    Ok(found)
}

/// The SHA-1 digest of the file of an inode. It takes memory for one piece of the file.
///
/// # Errors
/// `AllocError` where there is no memory for a piece.
pub(crate) fn digest_of<D: Pm, F: Fingerprint>(
    alloc: Global,
    v: &Volume<D, F>,
    ino: u64,
) -> Result<[u8; DIGEST_BYTES], AllocError>
    requires agrees { Agrees D.state v.now }
    requires running { v.now.parts.stopped ≡ false }
    requires file { IsFile D.state v.now ino }
    ensures { IfOk result (λ digest. (d : Disk) → IsVolume d v.now.parts (D.state v.now.device)
        → digest ≡ sha1 (bytes d ino)) }
{
    let size = size_of(v, ino);
    let mut hasher = Sha1::new();
    let mut at = 0;
    while at < size {
        let piece = read_piece(alloc, v, ino, at)?;
        hasher.update(&piece);
        at += MOST_BYTES;
    }
    Ok(hasher.finalize())
}

/// The bytes of the file of this name, or None exactly where no file has it. Bytes that are no legal name are no file's.
///
/// # Errors
/// `AllocError` where there is no memory for the bytes.
pub fn file_bytes<D: Pm, F: Fingerprint>(
    alloc: Global,
    v: &Volume<D, F>,
    name: &[u8],
) -> Result<Option<Vec<u8>>, AllocError>
    requires agrees { Agrees D.state v.now }
    requires running { v.now.parts.stopped ≡ false }
    ensures { IfOk result (λ found. (d : Disk) → IsVolume d v.now.parts (D.state v.now.device)
        → option_map (λ t. t.items) found ≡ files d name.now) }
{
    match find_inode(&v.parts.names, name) {
        Some(ino) => Ok(Some(read_whole(alloc, v, ino)?)),
        None => Ok(None),
    }
}
