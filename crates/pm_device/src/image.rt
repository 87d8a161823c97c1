// The image that a pick takes among those that a crash may leave. The record is read three times, and each word
// has two numbers meanwhile: the place of its last value, and of the first that the crash may leave.
ghost use Rattle.std.specs.Prelude.{◌≡◌, ℕ, ◌+◌, ◌-◌, ◌*◌, ◌^◌, ◌<◌, ◌≤◌, ◌&&◌, if◌then◌else◌, nat_lt, true, false, length, slice_index, vec_len, unwrap_or, IfOk, OnOk};
ghost use Rattle.std.specs.List.{list_all};
ghost use Rattle.std.specs.Ordering.{nat_cmp};
ghost use Rattle.std.specs.BTreeMap.{get};
ghost use Rattle.pm_device.specs.Past.{covers};
ghost use Rattle.pm_device.specs.MemLog.{calls_of, is_whole, is_inside};
ghost use Rattle.pm_device.specs.Picks.{picked_place, PicksOf};
ghost use Rattle.pm_device.specs.Replay.{fenced_by, is_flush_by, fenced_flushes, last_after, durable_after, is_applied, value_in, value_after, last_place, durable_place, IsReplay};

use crate::entry::Entry;
use std::alloc::{AllocError, Global};
use std::collections::BTreeMap;

// Notes a fence as its actor's next. Answers whether the entry is a flush whose actor's next fence succeeds.
fn note_fence(next: &mut BTreeMap<u32, bool>, entry: Entry) -> Result<bool, AllocError>
    ensures flush { IfOk result
        (λ b. b ≡ is_flush_by (λ who. unwrap_or (get nat_cmp next.old who) false) entry) }
    ensures next { OnOk result ((who : ℕ) → unwrap_or (get nat_cmp next.new who) false ≡ fenced_by
        who entry (unwrap_or (get nat_cmp next.old who) false)) }
{
    match entry {
        Entry::Ran { .. } => Ok(false),
        Entry::Flushed { who, .. } => Ok(next.get(&who).copied().unwrap_or(false)),
        Entry::Fenced { who, ok } => {
            next.insert(who, ok)?;
            Ok(false)
        }
    }
}

// Which entries are flushes that a later one of them makes durable.
fn fenced_flushes(alloc: Global, entries: &[Entry]) -> Result<Vec<bool>, AllocError>
    ensures { IfOk result (λ v. v.items ≡ fenced_flushes entries.now) }
{
    let mut next = BTreeMap::new(alloc);
    let mut flushes = vec![in alloc; false; entries.len()]?;
    for k in (0..entries.len()).rev() {
        flushes[k] = note_fence(&mut next, entries[k])?;
    }
    Ok(flushes)
}

#[derive(Drop)]
struct Places {
    last: Vec<u64>,
    durable: Vec<u64>,
    ghost lengths: { vec_len durable ≡ vec_len last },
}

fn add_one(counts: &mut Vec<u64>, at: usize, len: usize)
    requires inside { at + len ≤ vec_len counts.old }
    requires small { (a : ℕ) → slice_index counts.old.items a < 2 ^ 63 }
    ensures each { (a : ℕ) → a < vec_len counts.old → slice_index counts.new.items
        a ≡ (if covers at len a then slice_index counts.old.items a + 1 else slice_index
        counts.old.items a) }
    ensures len { vec_len counts.new ≡ vec_len counts.old }
{
    for a in at..at + len {
        counts[a] += 1;
    }
}

impl Places {
    // Nothing older than the last value of these words may be left in the end.
    fn settle(&mut self, at: usize, len: usize)
        requires inside { at + len ≤ vec_len self.old.last }
        ensures each { (a : ℕ) → a < vec_len self.old.last → slice_index self.new.durable.items
            a ≡ (if covers at len a then slice_index self.old.last.items a else slice_index
            self.old.durable.items a) }
        ensures last { self.new.last ≡ self.old.last }
    {
        for a in at..at + len {
            self.durable[a] = self.last[a];
        }
    }

    fn note(&mut self, entry: Entry, fenced: bool)
        requires inside { is_inside (vec_len self.old.last) entry ≡ true }
        requires small { (a : ℕ) → slice_index self.old.last.items a < 2 ^ 63 }
        ensures last { (a : ℕ) → a < vec_len self.old.last → slice_index self.new.last.items
            a ≡ last_after a (slice_index self.old.last.items a) entry }
        ensures durable { (a : ℕ) → a < vec_len self.old.last → slice_index self.new.durable.items
            a ≡ durable_after a (slice_index self.old.last.items a)
            (slice_index self.old.durable.items a) entry fenced }
        ensures len { vec_len self.new.last ≡ vec_len self.old.last }
    {
        match entry {
            Entry::Ran { at, len, .. } => add_one(&mut self.last, at as usize, len),
            Entry::Flushed { first, lines, .. } => {
                if fenced {
                    self.settle(8 * first as usize, 8 * lines as usize);
                }
            }
            Entry::Fenced { .. } => {}
        }
    }
}

// The places of all words after these entries.
fn find_places(
    alloc: Global,
    words: usize,
    entries: &[Entry],
    flushes: &[bool],
) -> Result<Places, AllocError>
    requires inside { list_all (is_inside words) entries.now ≡ true }
    requires flushes { flushes.now ≡ fenced_flushes entries.now }
    ensures { IfOk result (λ p. IsReplay words entries.now p.last.items p.durable.items) }
{
    let last = vec![in alloc; 0; words]?;
    let durable = vec![in alloc; 0; words]?;
    let mut places = Places { last, durable };
    for k in 0..entries.len() {
        places.note(entries[k], flushes[k]);
    }
    Ok(places)
}

// Which of `count` values word `a` has: the first for pick 0, the last for pick 1, else one by a number made of both.
fn picked_place(pick: u64, a: u64, count: u64) -> u64
    requires { 0 < count }
    ensures value { result ≡ picked_place pick a count }
    ensures within { result < count }
{
    match pick {
        0 => 0,
        1 => count - 1,
        _ => {
            let z = pick ^ a.wrapping_mul(11400714819323198485);
            (z ^ (z >> 32)) % count
        }
    }
}

// The place that the pick takes in each word.
fn choose(places: Places, pick: u64) -> Vec<u64>
    requires small { (a : ℕ) → slice_index places.last.items a < 2 ^ 63 }
    requires durable { (a : ℕ) → slice_index places.durable.items a ≤ slice_index places.last.items
        a }
    ensures each { (a : ℕ) → a < vec_len places.last → slice_index result.items a ≡ slice_index
        places.durable.items a + picked_place pick a (slice_index places.last.items a - slice_index
        places.durable.items a + 1) }
    ensures len { vec_len result ≡ vec_len places.last }
{
    let Places { last, durable } = places;
    let mut chosen = durable;
    for a in 0..last.len() {
        let possible = last[a] - chosen[a] + 1;
        chosen[a] += picked_place(pick, a as u64, possible);
    }
    chosen
}

// Stores a run to those of its words that have stores left to come.
fn apply_run(image: &mut Vec<u64>, left: &mut Vec<u64>, at: usize, values: &[u64])
    requires inside { at + length values.now ≤ vec_len image.old }
    requires lengths { vec_len left.old ≡ vec_len image.old }
    ensures values { (a : ℕ) → a < vec_len image.old → slice_index image.new.items
        a ≡ (if covers at (length values.now) a && nat_lt 0 (slice_index left.old.items a) then
        slice_index values.now (a - at) else slice_index image.old.items a) }
    ensures left { (a : ℕ) → a < vec_len image.old
        → slice_index left.new.items a ≡ (if covers at (length values.now) a && nat_lt 0
        (slice_index left.old.items a) then slice_index left.old.items a - 1 else slice_index
        left.old.items a) }
    ensures image_len { vec_len image.new ≡ vec_len image.old }
    ensures left_len { vec_len left.new ≡ vec_len left.old }
{
    for (k, value) in values.iter().enumerate() {
        if left[at + k] > 0 {
            left[at + k] -= 1;
            image[at + k] = *value;
        }
    }
}

fn apply_entry(image: &mut Vec<u64>, left: &mut Vec<u64>, kept: &[u64], entry: Entry)
    requires whole { is_whole (length kept.now) entry ≡ true }
    requires inside { is_inside (vec_len image.old) entry ≡ true }
    requires lengths { vec_len left.old ≡ vec_len image.old }
    ensures values { (a : ℕ) → a < vec_len image.old → slice_index image.new.items
        a ≡ (if is_applied a (slice_index left.old.items a) entry then value_in kept.now a entry
        else slice_index image.old.items a) }
    ensures left { (a : ℕ) → a < vec_len image.old
        → slice_index left.new.items a ≡ (if is_applied a (slice_index left.old.items a) entry then
        slice_index left.old.items a - 1 else slice_index left.old.items a) }
    ensures image_len { vec_len image.new ≡ vec_len image.old }
    ensures left_len { vec_len left.new ≡ vec_len left.old }
{
    if let Entry::Ran { at, from, len } = entry {
        apply_run(image, left, at as usize, &kept[from..from + len]);
    }
}

// Gives each word the value that it has after so many stores to it.
fn apply(image: &mut Vec<u64>, left: &mut Vec<u64>, kept: &[u64], entries: &[Entry])
    requires whole { list_all (is_whole (length kept.now)) entries.now ≡ true }
    requires inside { list_all (is_inside (vec_len image.old)) entries.now ≡ true }
    requires lengths { vec_len left.old ≡ vec_len image.old }
    ensures each { (a : ℕ) → a < vec_len image.old → slice_index image.new.items a ≡ value_after
        kept.now a (slice_index image.old.items a) (slice_index left.old.items a) entries.now }
    ensures len { vec_len image.new ≡ vec_len image.old }
{
    for k in 0..entries.len() {
        apply_entry(image, left, kept, entries[k]);
    }
}

/// The image that a pick takes after these entries.
pub(crate) fn picked_image(
    alloc: Global,
    first: &[u64],
    kept: &[u64],
    entries: &[Entry],
    pick: u64,
) -> Result<Vec<u64>, AllocError>
    requires whole { list_all (is_whole (length kept.now)) entries.now ≡ true }
    requires inside { list_all (is_inside (length first.now)) entries.now ≡ true }
    ensures { IfOk result (λ v. PicksOf first.now (calls_of kept.now entries.now) pick v.items) }
{
    let flushes = fenced_flushes(alloc, entries)?;
    let places = find_places(alloc, first.len(), entries, &flushes)?;
    let mut left = choose(places, pick);
    let mut image = Vec::from_slice(alloc, first)?;
    apply(&mut image, &mut left, kept, entries);
    Ok(image)
}
