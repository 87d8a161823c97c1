//! The free pages of an image, kept in ordinary memory.
#![tactic(auto)]

ghost use Rattle.std.specs.Prelude.{◌≡◌, ◌↔◌, ◌<◌, ◌*◌, ◌/◌, ◌^◌, ℕ, [], true, length, slice_index, IsNone, IfOk, IfSome, IfNone, IsTrue, Contains};
ghost use Rattle.std.specs.Int.{bit_at};
ghost use Rattle.page_alloc.specs.Bitmap.{is_marked, IsFirstFilled, IsFirstMarked, MarksAs};
ghost use Rattle.page_alloc.specs.Free.{IsInOrder, Takes, GivesBack};

use std::alloc::{AllocError, Global};
use std::marker::Model;

// How many bits a word has.
const WORD_BITS: u64 = 64;

/// A set of free pages, seen as the list of its pages in rising order.
///
/// A page is a bit, and so is each word of those bits, in a summary of the words. Taking the least page
/// goes over the words of the summary alone, one for each 4,096 pages; every other call takes the same
/// time whatever the set holds. Once the set is made, no call takes memory.
#[derive(Debug, Drop)]
pub struct FreeSet {
    // a bit for each page, 1 where it is free
    words: Vec<u64>,
    // a bit for each of those words, 1 where it has a bit that is 1
    summary: Vec<u64>,
    pages: u64,
    count: u64,
}

impl Model for FreeSet {
    ghost use Rattle.page_alloc.specs.Free.{FreePages};
    ghost use Rattle.page_alloc.specs.Bitmap.{marked, IsBitmap};

    ghost Value = { FreePages };

    ghost view = { λ s. record { pages = s.pages; free = marked s.words.items s.pages } };

    ghost invariant = { λ s. IsBitmap s.words.items s.summary.items s.pages s.count };
}

// The place of the lowest bit that is 1.
fn lowest_bit(word: u64) -> u64
    requires { 0 < word }
    ensures below { result < 64 }
    ensures one { bit_at word result ≡ 1 }
    ensures lowest { (k : ℕ) → k < result → bit_at word k ≡ 0 }
{
    u64::from(word.trailing_zeros())
}

// Where the first word is that isn't 0.
fn first_filled(words: &[u64]) -> Option<usize>
    ensures first { IfSome result (IsFirstFilled words.now) }
    ensures none { IfNone result ((k : ℕ) → slice_index words.now k ≡ 0) }
{
    words.iter().position(|word| *word != 0)
}

// The first place whose bit is 1.
fn first_marked(words: &[u64]) -> Option<u64>
    requires { (place : ℕ) → is_marked words.now place ≡ true → place < 2 ^ 64 }
    ensures first { IfSome result (IsFirstMarked words.now) }
    ensures none { IfNone result ((k : ℕ) → slice_index words.now k ≡ 0) }
{
    let at = first_filled(words)?;
    let bit = lowest_bit(words[at]);
    Some(WORD_BITS * at as u64 + bit)
}

// Lets the bit of a place be 1 or 0.
fn mark(words: &mut [u64], place: u64, on: bool)
    requires { place / 64 < length words.old }
    ensures { MarksAs on place words.old words.new }
{
    let at = (place / WORD_BITS) as usize;
    let bit = 1 << (place % WORD_BITS);
    if on {
        words[at] |= bit;
    } else {
        words[at] &= !bit;
    }
}

impl FreeSet {
    /// A set for the pages from 0 up to `pages`, none of which is free yet.
    pub fn none(alloc: Global, pages: u64) -> Result<FreeSet, AllocError>
        ensures { IfOk result (λ set. set ≡ record { pages = pages; free = [] }) }
    {
        let words = vec![in alloc; 0u64; pages.div_ceil(WORD_BITS) as usize]?;
        let summary = vec![in alloc; 0u64; words.len().div_ceil(WORD_BITS as usize)]?;
        Ok(FreeSet {
            words,
            summary,
            pages,
            count: 0,
        })
    }

    /// Takes the least free page, if there is one.
    pub fn take(&mut self) -> Option<u64>
        ensures none { IsNone result ↔ (self.old.free ≡ []) }
        ensures unchanged { IfNone result (self.new ≡ self.old) }
        ensures takes { IfSome result (λ page. Takes page self.old self.new) }
        ensures in_order { IsInOrder self.new }
    {
        let at = first_marked(&self.summary)?;
        let bit = lowest_bit(self.words[at as usize]);
        let page = WORD_BITS * at + bit;
        mark(&mut self.words, page, false);
        let still = self.words[at as usize] != 0;
        mark(&mut self.summary, at, still);
        self.count -= 1;
        Some(page)
    }

    /// Makes a page free that isn't.
    pub fn give_back(&mut self, page: u64)
        requires below { page < self.old.pages }
        requires taken { ¬ Contains self.old.free page }
        ensures gives_back { GivesBack page self.old self.new }
        ensures in_order { IsInOrder self.new }
    {
        mark(&mut self.words, page, true);
        mark(&mut self.summary, page / WORD_BITS, true);
        self.count += 1;
    }

    /// Whether a page is free. Past the last page none is.
    pub fn is_free(&self, page: u64) -> bool
        ensures free { IsTrue result ↔ Contains self.now.free page }
        ensures in_order { IsInOrder self.now }
    {
        page < self.pages && self.words[(page / WORD_BITS) as usize] >> (page % WORD_BITS) & 1 == 1
    }

    /// How many pages are free.
    pub fn count(&self) -> u64
        ensures count { result ≡ length self.now.free }
        ensures in_order { IsInOrder self.now }
    {
        self.count
    }
}
