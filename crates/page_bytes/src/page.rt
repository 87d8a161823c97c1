// A page is read and written as bytes.
ghost use Rattle.std.specs.Prelude.{◌≡◌, ◌+◌, ◌*◌, ◌/◌, ◌%◌, ◌<◌, ◌≤◌, ℕ, List, length, slice_index, IfOk};
ghost use Rattle.pm_device.specs.Settled.{StoresOnly, KeepsFlushed, Anyone, FlushesAll};
ghost use Rattle.pm_device.specs.Pages.{IsInPage};
ghost use Rattle.page_bytes.specs.Bytes.{IsPageOf, HoldsBytes, AreWordsOf, IsWordOf};

use pm_device::Pm;
use pm_device::page::{PAGE_UNITS, fill_page};
use pm_layout::{PAGE_BYTES, PAGE_WORDS};
use std::alloc::{AllocError, Global};

/// The bytes of a page of the device.
pub fn read_page<D: Pm>(alloc: Global, device: &D, page: u64) -> Result<Vec<u8>, AllocError>
    requires small { page < 65536 }
    requires inside { 512 * page + 512 ≤ length (D.state device.now).now }
    ensures { IfOk result (λ bytes. IsPageOf (D.state device.now).now page bytes.items) }
{
    let mut bytes = Vec::with_capacity(alloc, PAGE_BYTES as usize)?;
    for k in 0..PAGE_WORDS {
        let word = device.load(PAGE_WORDS * page + k);
        bytes.extend_from_slice(&word.to_le_bytes())?;
    }
    Ok(bytes)
}

// The word of eight bytes.
fn word_at(bytes: &[u8], at: usize) -> u64
    requires { at + 8 ≤ length bytes.now }
    ensures { IsWordOf bytes.now at result }
{
    u64::from_le_bytes([
        bytes[at],
        bytes[at + 1],
        bytes[at + 2],
        bytes[at + 3],
        bytes[at + 4],
        bytes[at + 5],
        bytes[at + 6],
        bytes[at + 7],
    ])
}

// Puts the words of these bytes where they go.
fn put_words(bytes: &[u8], words: &mut [u64])
    requires { 8 * length words.old ≡ length bytes.now }
    ensures { AreWordsOf bytes.now words.new }
{
    for (k, word) in words.iter_mut().enumerate() {
        *word = word_at(bytes, 8 * k);
    }
}

/// Stores these bytes as a page and flushes it. It takes `PAGE_UNITS` of the device.
pub fn fill_page_bytes<D: Pm>(device: &mut D, who: u32, page: u64, bytes: &[u8])
    requires small { page < 65536 }
    requires whole { length bytes.now ≡ 4096 }
    requires inside { 512 * page + 512 ≤ length (D.state device.old).now }
    requires room { PAGE_UNITS ≤ (D.state device.old).spare }
    ensures only { StoresOnly (IsInPage page) (D.state device.old) (D.state device.new) }
    ensures holds { HoldsBytes who page bytes.now (D.state device.new) }
    ensures keeps { KeepsFlushed Anyone (IsInPage page) (D.state device.old) (D.state device.new) }
    ensures flushes { FlushesAll who (D.state device.old) (D.state device.new) }
    ensures spare { (D.state device.old).spare ≤ (D.state device.new).spare + PAGE_UNITS }
    ensures faults { (D.state device.old).faults ≤ (D.state device.new).faults }
{
    let mut words = [0; PAGE_WORDS as usize];
    put_words(bytes, &mut words);
    fill_page(device, who, page, &words);
}
