// Words to and from the bytes of a file, in pieces of a page.
ghost use Rattle.std.specs.Prelude.{◌≡◌, ◌+◌, ◌*◌, ◌%◌, ◌≤◌, length, vec_len};
ghost use Rattle.std.specs.List.{flat_map};
ghost use Rattle.byteorder.specs.Endian.{IsRead, little_bytes, little_number};

use byteorder::{ByteOrder, LittleEndian};
use pm_layout::PAGE_BYTES;
use std::io;
use std::io::Read;
use std::os::unix::fs::FileExt;

// The words of a page, as many as are transferred at once.
const PAGE_WORDS: usize = pm_layout::PAGE_WORDS as usize;

// The words of these bytes.
fn decode(bytes: &[u8], words: &mut [u64])
    requires { length bytes.now ≡ 8 * length words.old }
    ensures { IsRead little_number 8 bytes.now words.new }
{
    LittleEndian::read_u64_into(bytes, words);
}

// The bytes of these words.
fn encode(words: &[u64], bytes: &mut [u8])
    requires { length bytes.old ≡ 8 * length words.now }
    ensures { bytes.new ≡ flat_map (little_bytes 8) words.now }
{
    LittleEndian::write_u64_into(words, bytes);
}

// Reads all these words from where the file stands.
pub(crate) fn read_words<F: Read>(file: &mut F, words: &mut Vec<u64>) -> io::Result<()>
    requires { vec_len words.old % 512 ≡ 0 }
    ensures { vec_len words.new ≡ vec_len words.old }
{
    let mut piece = [0u8; PAGE_BYTES as usize];
    for k in 0..words.len() / PAGE_WORDS {
        file.read_exact(&mut piece)?;
        decode(&piece, &mut words[PAGE_WORDS * k..PAGE_WORDS * (k + 1)]);
    }
    Ok(())
}

// Writes these words to the file, where its word `at` stands.
pub(crate) fn write_words<F: FileExt>(file: &F, at: u64, words: &[u64]) -> io::Result<()>
    requires { at ≤ 33554432 }
{
    let mut offset = 8 * at;
    let mut piece = [0u8; PAGE_BYTES as usize];
    for page in words.chunks(PAGE_WORDS) {
        let bytes = &mut piece[..8 * page.len()];
        encode(page, bytes);
        file.write_all_at(bytes, offset)?;
        offset = offset.saturating_add(PAGE_BYTES);
    }
    Ok(())
}
