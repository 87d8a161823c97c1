// Slots become items of a log.
ghost use Rattle.std.specs.Prelude.{◌≡◌, ℕ, ◌+◌, ◌*◌, ◌<◌, ◌≤◌, ◌↔◌, [], length, slice_index, slice_index_or, map, IsTrue, IsSome, IfSome, IfNone, IfOk, Some};
ghost use Rattle.std.specs.List.{range_with_len};
ghost use Rattle.log_entry.specs.Name.{IsLegal};
ghost use Rattle.log_entry.specs.Spelling.{spelling, IsSpelled};
ghost use Rattle.log_entry.specs.Fronts.{BeginsWith, IsFrontOf};
ghost use Rattle.log_entry.specs.Reading.{Agrees, byte_of, name_byte, name_bytes, IsCandidate};
ghost use Rattle.log_entry.specs.declared.item.LogItem.{LogItem};

use crate::item::{Flag, LogItem, is_spelled};
use crate::name::{MOST_NAME, Name};
use crate::write::{ADD, FORGET, SIZE, WRITE, slot_of, slots_of};
use std::alloc::{AllocError, Global};

/// What slots of a log begin with.
#[derive(Debug, Drop)]
pub enum Front {
    /// The slots of an item.
    Whole {
        /// The item.
        item: LogItem,
        /// How many slots it takes, 1 to 5.
        slots: u64,
    },
    /// The slots are the first of an item that takes more.
    Part,
    /// Neither.
    Nothing,
}

/// What the slots begin with: an item, the first slots of an item that takes more, or neither. No
/// slots at all are the beginning of any item.
pub fn read_front(alloc: Global, slots: &[[u64; 8]]) -> Result<Front, AllocError>
    ensures { IfOk result (λ front. IsFrontOf front slots.now) }
{
    if slots.is_empty() {
        return Ok(Front::Part);
    }
    let Some(item) = candidate(alloc, slots)? else {
        return Ok(Front::Nothing);
    };
    if !agrees(slots, &item) {
        return Ok(Front::Nothing);
    }
    let taken = slots_of(&item);
    if taken <= slots.len() as u64 {
        Ok(Front::Whole { item, slots: taken })
    } else {
        Ok(Front::Part)
    }
}

/// The item that the first of the slots spell and how many slots it takes, or None where no first
/// slots spell an item.
pub fn read_item(alloc: Global, slots: &[[u64; 8]]) -> Result<Option<(LogItem, u64)>, AllocError>
    ensures item { IfOk result (λ found. IfSome found (λ read. BeginsWith read.0 slots.now)) }
    ensures slots { IfOk result (λ found. IfSome found (λ read. read.1 ≡ length (spelling read.0))) }
    ensures none { IfOk result (λ found. IfNone found ((item : LogItem) → BeginsWith item slots.now
        → ⊥)) }
{
    match read_front(alloc, slots)? {
        Front::Whole { item, slots } => Ok(Some((item, slots))),
        Front::Part => Ok(None),
        Front::Nothing => Ok(None),
    }
}

// The only item that the slots can spell or begin to spell, if any.
fn candidate(alloc: Global, slots: &[[u64; 8]]) -> Result<Option<LogItem>, AllocError>
    requires { 0 < length slots.now }
    ensures { IfOk result (λ found. IsCandidate found slots.now) }
{
    let head = &slots[0];
    match head[0] {
        WRITE => Ok(read_write(head)),
        SIZE => Ok(read_size(head)),
        ADD => read_add(alloc, slots),
        FORGET => read_forget(alloc, slots),
        _ => Ok(None),
    }
}

// The Write that a first slot spells, if any.
fn read_write(head: &[u64; 8]) -> Option<LogItem>
    requires { slice_index head.now 0 ≡ 1 }
    ensures spelled { IfSome result IsSpelled }
    ensures only { (item : LogItem) → IsSpelled item → head.now ≡ slice_index_or (spelling item) 0
        [] → result ≡ Some item }
{
    let item = LogItem::Write {
        first: head[1],
        count: head[2],
        block: head[3],
        size: head[4],
        flag: Flag::of_number(head[5])?,
        mask: head[6],
    };
    if is_spelled(&item) { Some(item) } else { None }
}

// The Size that a first slot spells, if any.
fn read_size(head: &[u64; 8]) -> Option<LogItem>
    requires { slice_index head.now 0 ≡ 2 }
    ensures spelled { IfSome result IsSpelled }
    ensures only { (item : LogItem) → IsSpelled item → head.now ≡ slice_index_or (spelling item) 0
        [] → result ≡ Some item }
{
    let item = LogItem::Size { size: head[1] };
    if is_spelled(&item) { Some(item) } else { None }
}

// The Add that the slots can spell or begin to spell, if any.
fn read_add(alloc: Global, slots: &[[u64; 8]]) -> Result<Option<LogItem>, AllocError>
    requires some { 0 < length slots.now }
    requires kind { slice_index (slice_index_or slots.now 0 []) 0 ≡ 3 }
    ensures { IfOk result (λ found. IsCandidate found slots.now) }
{
    let ino = slots[0][1];
    let Some(name) = read_name(alloc, slots)? else {
        return Ok(None);
    };
    Ok(Some(LogItem::Add { ino, name }))
}

// The Forget that the slots can spell or begin to spell, if any.
fn read_forget(alloc: Global, slots: &[[u64; 8]]) -> Result<Option<LogItem>, AllocError>
    requires some { 0 < length slots.now }
    requires kind { slice_index (slice_index_or slots.now 0 []) 0 ≡ 4 }
    ensures { IfOk result (λ found. IsCandidate found slots.now) }
{
    let Some(name) = read_name(alloc, slots)? else {
        return Ok(None);
    };
    Ok(Some(LogItem::Forget { name }))
}

// The name that begins in the slots, whose bytes past the slots are taken as `a`, or None where it
// is not legal.
#[tactic(auto, using(crate::proofs::Named::legal_length), unfolding(crate::specs::Reading::name_bytes))]
fn read_name(alloc: Global, slots: &[[u64; 8]]) -> Result<Option<Name>, AllocError>
    requires { 0 < length slots.now }
    ensures name { IfOk result (λ found. IfSome found (λ name. name ≡ name_bytes slots.now)) }
    ensures legal { IfOk result (λ found. IfSome found IsLegal) }
    ensures none { IfOk result (λ found. IfNone found (IsLegal (name_bytes slots.now) → ⊥)) }
{
    let length = slots[0][2];
    if length > MOST_NAME as u64 {
        return Ok(None);
    }
    let bytes = read_bytes(alloc, slots, length)?;
    Ok(Name::of_vec(bytes))
}

// The first bytes of the name that begins in the slots.
fn read_bytes(alloc: Global, slots: &[[u64; 8]], length: u64) -> Result<Vec<u8>, AllocError>
    requires { length ≤ 255 }
    ensures { IfOk result (λ bytes. bytes.items ≡ map (name_byte slots.now)
        (range_with_len 0 length)) }
{
    (0..length).map(|k| name_byte(slots, k)).collect(alloc)
}

fn name_byte(slots: &[[u64; 8]], k: u64) -> u8
    requires { k < 255 }
    ensures { result ≡ name_byte slots.now k }
{
    let place = k as usize + 16;
    match slots.get(place / 56) {
        Some(slot) => byte_of(slot[1 + place % 56 / 8], k % 8),
        None => b'a',
    }
}

// One byte of a word, byte 0 the least significant.
fn byte_of(word: u64, i: u64) -> u8
    requires { i < 8 }
    ensures { result ≡ byte_of word i }
{
    ((word >> (8 * i)) % 256) as u8
}

// Whether the slots and the item's own are the same as far as both go.
fn agrees(slots: &[[u64; 8]], item: &LogItem) -> bool
    ensures { IsTrue result ↔ Agrees slots.now (spelling item.now) }
{
    let both = slots.len().min(slots_of(item) as usize);
    for k in 0..both {
        if slots[k] != slot_of(item, k as u64) {
            return false;
        }
    }
    true
}
