// New pages of a file are filled.
ghost use Rattle.std.specs.Prelude.{◌≡◌, ◌+◌, ◌*◌, ◌<◌, ◌≤◌, length, All};
ghost use Rattle.pm_device.specs.Settled.{StoresOnly, KeepsFlushed, Anyone, FlushesAll};
ghost use Rattle.pm_device.specs.Pages.{IsInPage};
ghost use Rattle.pm_layout.specs.Geometry.{IsAccepted};
ghost use Rattle.file_content.specs.Content.{AreBlocksIn};
ghost use Rattle.file_content.specs.Pages.{IsInPages, AreApart, FillsPlace, AreFilled};
ghost use Rattle.file_content.specs.PutLoop.{PutsText, put_byte};

use crate::place::read_place;
use file_index::PageMap;
use page_bytes::fill_page_bytes;
use pm_device::Pm;
use pm_layout::Geometry;

/// The units of the device that `fill_place` uses.
pub const FILL_UNITS: u64 = 576;

// Byte j of a file where a text is put in from byte `at` on.
fn new_byte(old: u8, j: u64, at: u64, text: &[u8]) -> u8
    ensures { result ≡ put_byte at text.now j old }
{
    if j < at || j - at >= text.len() as u64 {
        old
    } else {
        text[(j - at) as usize]
    }
}

// Puts the part of a text that falls there into bytes of a file that begin at byte `start`. The text goes in from
// byte `at` on.
fn put_text(page: &mut [u8], start: u64, at: u64, text: &[u8])
    requires { start + length page.old ≤ 16777216 }
    ensures { PutsText start at text.now page.old page.new }
{
    for (k, byte) in page.iter_mut().enumerate() {
        *byte = new_byte(*byte, start + k as u64, at, text);
    }
}

/// Fills a page with the bytes of a place of a file, as far as they lie below byte `size`, and with the part of a text
/// that falls there once it is written from byte `at` on; flushes it. This actor's next fence settles the page. It stores
/// to this page alone, takes no memory and `FILL_UNITS` of the device.
pub fn fill_place<D: Pm>(
    device: &mut D,
    g: &Geometry,
    who: u32,
    map: &PageMap,
    size: u64,
    place: u64,
    at: u64,
    text: &[u8],
    block: u64,
)
    requires accepted { IsAccepted g.now }
    requires device { length (D.state device.old).now ≡ 512 * g.now.pages }
    requires blocks { AreBlocksIn g.now map.now.map }
    requires place { place < 4096 }
    requires block { block < g.now.pages }
    requires room { FILL_UNITS ≤ (D.state device.old).spare }
    ensures filled { FillsPlace g.now who map.now.map size place at text.now block
        (D.state device.old) (D.state device.new) }
    ensures only { StoresOnly (IsInPage block) (D.state device.old) (D.state device.new) }
    ensures keeps { KeepsFlushed Anyone (IsInPage block) (D.state device.old) (D.state device.new) }
    ensures flushes { FlushesAll who (D.state device.old) (D.state device.new) }
    ensures spare { (D.state device.old).spare ≤ (D.state device.new).spare + FILL_UNITS }
    ensures faults { (D.state device.old).faults ≤ (D.state device.new).faults }
{
    let mut page = [0; 4096];
    read_place(device, g, map, size, place, &mut page);
    put_text(&mut page, 4096 * place, at, text);
    fill_page_bytes(device, who, block, &page);
}

/// Fills these pages, one after another, with the bytes of the places of a file of this size from `first` on, with a
/// text put in from byte `at` on; flushes them. The pages are different ones, and the disk doesn't use them. It takes no
/// memory, and `FILL_UNITS` of the device for each page.
pub fn fill_places<D: Pm>(
    device: &mut D,
    g: &Geometry,
    who: u32,
    map: &PageMap,
    size: u64,
    first: u64,
    at: u64,
    text: &[u8],
    blocks: &[u64],
)
    requires accepted { IsAccepted g.now }
    requires device { length (D.state device.old).now ≡ 512 * g.now.pages }
    requires mapped { AreBlocksIn g.now map.now.map }
    requires places { first + length blocks.now ≤ 4096 }
    requires blocks { All (λ block. block < g.now.pages) blocks.now }
    requires apart { AreApart blocks.now }
    requires room { FILL_UNITS * length blocks.now ≤ (D.state device.old).spare }
    ensures filled { AreFilled g.now who map.now.map size first at text.now blocks.now
        (length blocks.now) (D.state device.old) (D.state device.new) }
    ensures only { StoresOnly (IsInPages blocks.now) (D.state device.old) (D.state device.new) }
    ensures keeps { KeepsFlushed Anyone (IsInPages blocks.now) (D.state device.old)
        (D.state device.new) }
    ensures spare { (D.state device.old).spare ≤ (D.state device.new).spare + FILL_UNITS * length
        blocks.now }
    ensures faults { (D.state device.old).faults ≤ (D.state device.new).faults }
{
    for (i, block) in blocks.iter().enumerate() {
        fill_place(
            device,
            g,
            who,
            map,
            size,
            first + i as u64,
            at,
            text,
            *block,
        );
    }
}
