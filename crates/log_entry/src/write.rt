// Items of a log become slots.
ghost use Rattle.std.specs.Prelude.{◌≡◌, ℕ, ◌+◌, ◌*◌, ◌<◌, ◌≤◌, ◌∷◌, ◌++◌, [], length, slice_index, slice_index_or, OnOk, OnErr};
ghost use Rattle.log_entry.specs.Spelling.{le_number, name_words, more_count, name_slots, spelling, IsSpelled};

use crate::item::LogItem;
use crate::name::Name;
use std::alloc::AllocError;

// The first words of the slots of each kind.
pub(crate) const WRITE: u64 = 1;

pub(crate) const SIZE: u64 = 2;

pub(crate) const ADD: u64 = 3;

pub(crate) const FORGET: u64 = 4;

const MORE: u64 = 5;

/// How many slots of eight words the item takes: 1, or for a name of more than 40 bytes 2 to 5.
#[tactic(auto, using(crate::proofs::Words::slot_counts), unfolding(crate::specs::Spelling::spelling))]
pub fn slots_of(item: &LogItem) -> u64
    ensures slots { result ≡ length (spelling item.now) }
    ensures some { 1 ≤ result }
    ensures few { result ≤ 5 }
{
    match item {
        LogItem::Write { .. } => 1,
        LogItem::Size { .. } => 1,
        LogItem::Add { name, .. } => slots_of_name(name),
        LogItem::Forget { name } => slots_of_name(name),
    }
}

fn slots_of_name(name: &Name) -> u64
    ensures slots { result ≡ 1 + more_count name.now }
    ensures few { result ≤ 5 }
{
    let more = name.bytes().len().saturating_sub(40);
    1 + more.div_ceil(56) as u64
}

/// Appends the slots of the item, whose fields are in the ranges that a log spells. Where memory is
/// short the slots stay as they were.
pub fn write_item(item: &LogItem, into: &mut Vec<[u64; 8]>) -> Result<(), AllocError>
    requires { IsSpelled item.now }
    ensures ok { OnOk result (into.new.items ≡ into.old.items ++ spelling item.now) }
    ensures err { OnErr result (into.new.items ≡ into.old.items) }
{
    let slots = slots_of(item);
    into.reserve(slots as usize)?;
    for slot in 0..slots {
        into.push_reserved(slot_of(item, slot));
    }
    Ok(())
}

// One slot of the item's spelling.
#[tactic(auto, using(crate::proofs::Words::slot_counts), unfolding(crate::specs::Spelling::spelling))]
pub(crate) fn slot_of(item: &LogItem, slot: u64) -> [u64; 8]
    requires { slot < length (spelling item.now) }
    ensures { result ≡ slice_index_or (spelling item.now) slot [] }
{
    match item {
        LogItem::Write {
            first,
            count,
            block,
            size,
            flag,
            mask,
        } => [
            WRITE,
            *first,
            *count,
            *block,
            *size,
            flag.number(),
            *mask,
            0,
        ],
        LogItem::Size { size } => [SIZE, *size, 0, 0, 0, 0, 0, 0],
        LogItem::Add { ino, name } => name_slot(ADD, *ino, name.bytes(), slot),
        LogItem::Forget { name } => name_slot(FORGET, 0, name.bytes(), slot),
    }
}

// One slot of an item of this kind that has a name.
fn name_slot(kind: u64, ino: u64, name: &[u8], slot: u64) -> [u64; 8]
    requires few { length name.now ≤ 255 }
    requires slot { slot < 1 + more_count name.now }
    ensures { result ≡ slice_index_or (name_slots kind ino name.now) slot [] }
{
    if slot == 0 {
        let mut head = [kind, ino, name.len() as u64, 0, 0, 0, 0, 0];
        put_words(name, 0, &mut head[3..]);
        head
    } else {
        let mut more = [MORE, 0, 0, 0, 0, 0, 0, 0];
        put_words(name, 7 * slot - 2, &mut more[1..]);
        more
    }
}

// Fills with the words of a name, from this one on.
fn put_words(name: &[u8], word: u64, into: &mut [u64])
    requires few { length into.old ≤ 8 }
    requires word { word < 64 }
    ensures { into.new ≡ name_words name.now word (length into.old) }
{
    for (i, to) in into.iter_mut().enumerate() {
        *to = name_word(name, word + i as u64);
    }
}

// The eight bytes of a word of a name as a number, the first the least significant. Bytes past the
// name's end are 0.
fn name_word(name: &[u8], word: u64) -> u64
    requires { word < 128 }
    ensures { result ≡ le_number name.now (8 * word) 8 }
{
    let mut number = 0;
    for i in 0..8 {
        number = 256 * number + u64::from(byte_or_zero(name, 8 * word + 7 - i));
    }
    number
}

fn byte_or_zero(name: &[u8], at: u64) -> u8
    ensures { result ≡ slice_index name.now at }
{
    name.get(at as usize).copied().unwrap_or(0)
}
