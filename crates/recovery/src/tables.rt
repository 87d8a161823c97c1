// The words of a file system without files, but for the magic.
ghost use Rattle.std.specs.Prelude.{◌≡◌, ◌⊎◌, ◌+◌, ◌*◌, ◌<◌, ◌≤◌, ◌↔◌, ℕ, List, length, slice_index, IsTrue};
ghost use Rattle.pm_device.specs.Settled.{StoresOnly};
ghost use Rattle.pm_device.specs.Pages.{IsInPage};
ghost use Rattle.pm_layout.specs.Geometry.{IsAccepted, first_data, gate_word};
ghost use Rattle.recovery.specs.Tables.{is_inode_part, is_direct_part, is_pointer, is_table_part, table_word, AllFlushed, TablesTo, IsBehindMagic, HasHead, HasParts};

use dn_model::RECLAIM;
use pm_device::Pm;
use pm_device::page::{PAGE_UNITS, fill_page};
use pm_device::run::store_words;
use pm_layout::{
    FACT_NEXT, FACT_PAGE, FACT_WORDS, GATE_WORD, Geometry, INODE_WORDS, INODES_AT, LIVE,
    PAGE_WORDS, STATE, TAIL, VERSION, VERSION_WORD,
};

// Whether the word is the state of an inode, or the tail of the root.
fn is_inode_part(g: &Geometry, at: u64) -> bool
    requires { IsAccepted g.now }
    ensures { result ≡ is_inode_part g.now at }
{
    at >= INODES_AT
        && at < INODES_AT + INODE_WORDS * g.inodes
        && (at % INODE_WORDS == STATE || at == INODES_AT + TAIL)
}

// Whether the word is the page or the next word of a direct slot.
fn is_direct_part(g: &Geometry, at: u64) -> bool
    requires { IsAccepted g.now }
    ensures { result ≡ is_direct_part g.now at }
{
    let first = g.slot_word(0, 0);
    at >= first
        && at < first + FACT_WORDS * g.directs()
        && (at % FACT_WORDS == FACT_PAGE || at % FACT_WORDS == FACT_NEXT)
}

// Whether the word is a delete pointer.
fn is_pointer(g: &Geometry, at: u64) -> bool
    requires { IsAccepted g.now }
    ensures { result ≡ is_pointer g.now at }
{
    let first = g.pointer_word(0);
    at >= first && at < first + g.pages
}

// Whether the fault rules read the word, which lies behind the journal, in a file system without files.
fn is_table_part(g: &Geometry, at: u64) -> bool
    requires { IsAccepted g.now }
    ensures { result ≡ is_table_part g.now at }
{
    is_inode_part(g, at) || is_direct_part(g, at) || is_pointer(g, at)
}

// What a word behind the journal is made: the root's state is 1, and what else is read there is 0.
fn table_word(g: &Geometry, at: u64, old: u64) -> u64
    requires { IsAccepted g.now }
    ensures { result ≡ table_word g.now at old }
{
    if !is_table_part(g, at) {
        return old;
    }
    if at == INODES_AT { LIVE } else { 0 }
}

// The words that a page is made of.
fn table_page<D: Pm>(device: &D, g: &Geometry, page: u64) -> [u64; 512]
    requires accepted { IsAccepted g.now }
    requires small { page < 65536 }
    requires inside { 512 * page + 512 ≤ length (D.state device.now).now }
    ensures whole { length result ≡ 512 }
    ensures words { (j : ℕ) → j < 512 → slice_index result j ≡ table_word g.now (512 * page + j)
        (slice_index (D.state device.now).now (512 * page + j)) }
{
    let mut words = [0; PAGE_WORDS as usize];
    for (j, word) in words.iter_mut().enumerate() {
        let at = PAGE_WORDS * page + j as u64;
        *word = table_word(g, at, device.load(at));
    }
    words
}

// Whether a page has these words.
fn has_page<D: Pm>(device: &D, page: u64, words: &[u64]) -> bool
    requires small { page < 65536 }
    requires whole { length words.now ≡ 512 }
    requires inside { 512 * page + 512 ≤ length (D.state device.now).now }
    ensures { IsTrue result → (j : ℕ) → j < 512 → slice_index (D.state device.now).now
        (512 * page + j) ≡ slice_index words.now j }
{
    for (j, word) in words.iter().enumerate() {
        if device.load(PAGE_WORDS * page + j as u64) != *word {
            return false;
        }
    }
    true
}

// Makes a page have these words; what has them already isn't stored. All words were flushed, and are so still.
fn put_page<D: Pm>(device: &mut D, page: u64, words: &[u64])
    requires small { page < 65536 }
    requires whole { length words.now ≡ 512 }
    requires inside { 512 * page + 512 ≤ length (D.state device.old).now }
    requires room { PAGE_UNITS ≤ (D.state device.old).spare }
    requires flushed { AllFlushed RECLAIM (D.state device.old) }
    ensures only { StoresOnly (IsInPage page) (D.state device.old) (D.state device.new) }
    ensures reads { (j : ℕ) → j < 512 → slice_index (D.state device.new).now (512 * page + j) ≡
        slice_index words.now j }
    ensures flushed { AllFlushed RECLAIM (D.state device.new) }
    ensures spare { (D.state device.old).spare ≤ (D.state device.new).spare + PAGE_UNITS }
    ensures faults { (D.state device.old).faults ≤ (D.state device.new).faults }
{
    if has_page(device, page, words) {
        return;
    }
    fill_page(device, RECLAIM, page, words);
}

// Makes the words of the tables: of all pages from the third one to the data area. Words that are so already, or that
// aren't read, stay.
fn make_tables<D: Pm>(device: &mut D, g: &Geometry)
    requires accepted { IsAccepted g.now }
    requires size { length (D.state device.old).now ≡ 512 * g.now.pages }
    requires room { PAGE_UNITS * first_data g.now ≤ (D.state device.old).spare + 1152 }
    requires flushed { AllFlushed RECLAIM (D.state device.old) }
    ensures only { StoresOnly IsBehindMagic (D.state device.old) (D.state device.new) }
    ensures made { TablesTo g.now (first_data g.now) (D.state device.old).now
        (D.state device.new).now }
    ensures flushed { AllFlushed RECLAIM (D.state device.new) }
    ensures spare { (D.state device.old).spare + 1152 ≤ (D.state device.new).spare + PAGE_UNITS
        * first_data g.now }
    ensures faults { (D.state device.old).faults ≤ (D.state device.new).faults }
{
    for page in 2..g.first_data() {
        let words = table_page(device, g, page);
        put_page(device, page, &words);
    }
}

// Stores the superblock's words behind the magic, and closes the journal's gate.
fn make_head<D: Pm>(device: &mut D, g: &Geometry)
    requires accepted { IsAccepted g.now }
    requires size { length (D.state device.old).now ≡ 512 * g.now.pages }
    requires room { 6 ≤ (D.state device.old).spare }
    requires flushed { AllFlushed RECLAIM (D.state device.old) }
    ensures only { StoresOnly IsBehindMagic (D.state device.old) (D.state device.new) }
    ensures made { HasHead g.now (D.state device.old).now (D.state device.new).now }
    ensures flushed { AllFlushed RECLAIM (D.state device.new) }
    ensures spare { (D.state device.old).spare ≤ (D.state device.new).spare + 6 }
    ensures faults { (D.state device.old).faults ≤ (D.state device.new).faults }
{
    store_words(device, RECLAIM, VERSION_WORD, &[VERSION, g.pages, g.inodes]);
    store_words(device, RECLAIM, GATE_WORD, &[0]);
}

// Makes all words behind the magic those of a file system without files, and flushes them.
pub(crate) fn make_parts<D: Pm>(device: &mut D, g: &Geometry)
    requires accepted { IsAccepted g.now }
    requires size { length (D.state device.old).now ≡ 512 * g.now.pages }
    requires room { PAGE_UNITS * first_data g.now ≤ (D.state device.old).spare + 1146 }
    requires flushed { AllFlushed RECLAIM (D.state device.old) }
    ensures only { StoresOnly IsBehindMagic (D.state device.old) (D.state device.new) }
    ensures made { HasParts g.now (D.state device.old).now (D.state device.new).now }
    ensures flushed { AllFlushed RECLAIM (D.state device.new) }
    ensures spare { (D.state device.old).spare + 1146 ≤ (D.state device.new).spare + PAGE_UNITS
        * first_data g.now }
    ensures faults { (D.state device.old).faults ≤ (D.state device.new).faults }
{
    make_head(device, g);
    make_tables(device, g);
}
