// How often pages are used.
ghost use Rattle.std.specs.Prelude.{◌≡◌, ◌+◌, ◌<◌, ◌≤◌, ◌^◌, ℕ, All, length, slice_index, None, Some, IfSome};
ghost use Rattle.std.specs.FinMap.{get};
ghost use Rattle.image_logs.specs.Usage.{listed, mapped_by, CountsPages, page_hit};

use file_index::PageMap;

// Counts one more use of a page, if there is one.
fn count_page(counts: &mut [u32], page: Option<u64>)
    requires { IfSome page (λ p. (p < length counts.old) × (slice_index counts.old p + 1 < 2 ^ 32)) }
    ensures long { length counts.new ≡ length counts.old }
    ensures each { (p : ℕ) → p < length counts.old → slice_index counts.new p ≡ slice_index
        counts.old p + page_hit p page }
{
    if let Some(page) = page {
        counts[page as usize] += 1;
    }
}

// Counts one more use of each of these pages.
pub(crate) fn count_pages(counts: &mut [u32], pages: &[u64])
    requires inside { All (λ page. page < length counts.old) pages.now }
    requires room { (p : ℕ) → p < length counts.old → slice_index counts.old p + length pages.now <
        2 ^ 32 }
    ensures { CountsPages (listed pages.now) (length pages.now) counts.old counts.new }
{
    for (i, page) in pages.iter().enumerate() {
        count_page(counts, Some(*page));
    }
}

// The page to which a place is mapped.
fn block_at(map: &PageMap, idx: u64) -> Option<u64>
    ensures { result ≡ mapped_by map.now.map idx }
{
    match map.get(idx) {
        Some(mapping) => Some(mapping.block),
        None => None,
    }
}

// A place from which on no place below the end is mapped.
fn places_below(map: &PageMap, end: u64) -> u64
    ensures within { result ≤ end }
    ensures none { (k : ℕ) → result ≤ k → k < end → get map.now.map k ≡ None }
{
    match map.last_below(end) {
        Some(last) => last + 1,
        None => 0,
    }
}

// Counts one more use of the page of each place below the end that is mapped.
pub(crate) fn count_places(counts: &mut [u32], map: &PageMap, end: u64)
    requires few { end ≤ 4096 }
    requires inside { (idx page : ℕ) → mapped_by map.now.map idx ≡ Some page
        → page < length counts.old }
    requires room { (p : ℕ) → p < length counts.old → slice_index counts.old p + end < 2 ^ 32 }
    ensures { CountsPages (mapped_by map.now.map) end counts.old counts.new }
{
    for idx in 0..places_below(map, end) {
        count_page(counts, block_at(map, idx));
    }
}
