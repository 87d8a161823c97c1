// A source and a sink in memory, whose calls fail where they are told to.
ghost use Rattle.std.specs.Prelude.{◌≡◌, ◌↔◌, ◌⊎◌, ◌+◌, ◌-◌, ◌<◌, ◌≤◌, ℕ, min, true, false, List, [], ◌∷◌, ◌++◌, length, take, vec_len, vec_capacity, Option, Some, Contains, IsErr, OnOk, OnErr, IfOk, IfSome, IsTrue};
ghost use Rattle.pm_device.specs.State.{Rose};
ghost use Rattle.dn_script.specs.Streams.{with_front, with_back, IsNext};

use crate::stream::{Sink, Source};
use pm_device::Failed;
use std::alloc::{AllocError, Global};
use std::marker::Model;

// Calls that are numbered from 1, some of which fail.
#[derive(Drop)]
struct Failures {
    fail_at: Vec<u64>,
    next: u64,
    faults: u64,
}

impl Model for Failures {
    ghost use Rattle.dn_script.specs.Streams.{Calls};

    ghost Value = { Calls };

    ghost view = { λ f. record { fail_at = f.fail_at.items; next = f.next; faults = f.faults } };
}

impl Failures {
    fn of(fail_at: Vec<u64>) -> Failures
        ensures { result ≡ record { fail_at = fail_at.items; next = 1; faults = 0 } }
    {
        Failures {
            fail_at,
            next: 1,
            faults: 0,
        }
    }

    // One fault more, but at the end of the type.
    fn raise(&mut self)
        ensures counts { self.old.faults ≤ self.new.faults }
        ensures rose { Rose self.old.faults self.new.faults }
        ensures same { self.new ≡ record self.old { faults = self.new.faults } }
    {
        self.faults = self.faults.saturating_add(1);
    }

    // Whether this call fails.
    fn next_fails(&mut self) -> bool
        ensures fails { IsTrue result ↔ Contains self.old.fail_at self.old.next }
        ensures next { IsNext self.old self.new }
        ensures rose { IsTrue result → Rose self.old.faults self.new.faults }
    {
        let fails = self.fail_at.contains(&self.next);
        self.next = self.next.saturating_add(1);
        if fails {
            self.raise();
        }
        fails
    }
}

// Copies so many bytes.
fn copy_front(into: &mut [u8], bytes: &[u8], count: usize)
    requires room { count ≤ length into.old }
    requires some { count ≤ length bytes.now }
    ensures { take count into.new ≡ take count bytes.now }
{
    into[..count].copy_from_slice(&bytes[..count]);
}

/// Bytes in memory as a source.
#[derive(Drop)]
pub struct MemSource {
    bytes: Vec<u8>,
    at: usize,
    piece: usize,
    calls: Failures,
}

impl Model for MemSource {
    ghost use Rattle.std.specs.Prelude.{◌≤◌, ◌<◌, drop, vec_len};
    ghost use Rattle.dn_script.specs.Streams.{SourceState};

    ghost Value = { SourceState };

    ghost view = { λ s. record { left = drop s.at s.bytes.items; calls = s.calls } };

    ghost invariant = { λ s. (s.at ≤ vec_len s.bytes) × (0 < s.piece) };
}

impl MemSource {
    /// A source of these bytes. The takes with these numbers, counted from 1, fail.
    pub fn of(bytes: Vec<u8>, fail_at: Vec<u64>) -> MemSource
        ensures left { result.left ≡ bytes.items }
        ensures calls { result.calls ≡ record { fail_at = fail_at.items; next = 1; faults = 0 } }
    {
        MemSource::in_pieces(bytes, fail_at, usize::MAX)
    }

    /// The same, where no take gives more bytes than `piece`.
    pub fn in_pieces(bytes: Vec<u8>, fail_at: Vec<u64>, piece: usize) -> MemSource
        requires { 0 < piece }
        ensures left { result.left ≡ bytes.items }
        ensures calls { result.calls ≡ record { fail_at = fail_at.items; next = 1; faults = 0 } }
    {
        MemSource {
            bytes,
            at: 0,
            piece,
            calls: Failures::of(fail_at),
        }
    }
}

impl Source for MemSource {
    ghost use Rattle.std.specs.Prelude.{Some};

    ghost left = { λ s. Some s.left };

    ghost faults = { λ s. s.calls.faults };

    fn take(&mut self, into: &mut [u8]) -> Result<usize, Failed>
        ensures bound { IfOk result (λ n. n ≤ length into.old) }
        ensures moves { IfOk result (λ n. Some self.old.left ≡ with_front (take n into.new)
            (Some self.new.left)) }
        ensures end { IfOk result (λ n. n ≡ 0 → 0 < length into.old → self.new.left ≡ []) }
        ensures err { OnErr result (Some self.new.left ≡ Some self.old.left) }
        ensures counts { self.old.calls.faults ≤ self.new.calls.faults }
        ensures cause { OnErr result (Rose self.old.calls.faults self.new.calls.faults) }
        ensures fails { IsErr result ↔ Contains self.old.calls.fail_at self.old.calls.next }
        ensures next { IsNext self.old.calls self.new.calls }
    {
        if self.calls.next_fails() {
            return Err(Failed);
        }
        let count = into.len().min(self.piece).min(self.bytes.len() - self.at);
        copy_front(into, &self.bytes[self.at..], count);
        self.at += count;
        Ok(count)
    }
}

/// A sink in memory, with room for so many bytes.
#[derive(Drop)]
pub struct MemSink {
    bytes: Vec<u8>,
    room: usize,
    calls: Failures,
}

impl Model for MemSink {
    ghost use Rattle.std.specs.Prelude.{◌≤◌, vec_len, vec_capacity};
    ghost use Rattle.dn_script.specs.Streams.{SinkState};

    ghost Value = { SinkState };

    ghost view = { λ s. record { taken = s.bytes.items; room = s.room; calls = s.calls } };

    ghost invariant = { λ s. (vec_len s.bytes ≤ s.room) × (s.room ≤ vec_capacity s.bytes) };
}

impl MemSink {
    /// An empty sink with room for so many bytes, which takes its memory now. The puts with these numbers,
    /// counted from 1, fail, and so does a put of some bytes where no room is left.
    pub fn of(alloc: Global, room: u64, fail_at: Vec<u64>) -> Result<MemSink, AllocError>
        ensures taken { IfOk result (λ s. s.taken ≡ []) }
        ensures room { IfOk result (λ s. s.room ≡ room) }
        ensures calls { IfOk result
            (λ s. s.calls ≡ record { fail_at = fail_at.items; next = 1; faults = 0 }) }
    {
        Ok(MemSink {
            bytes: Vec::with_capacity(alloc, room as usize)?,
            room: room as usize,
            calls: Failures::of(fail_at),
        })
    }

    /// The bytes that were taken.
    pub fn bytes(&self) -> &[u8]
        ensures { result.now ≡ self.now.taken }
    {
        &self.bytes
    }
}

// Appends so many bytes, for which there is room.
fn append_front(to: &mut Vec<u8>, bytes: &[u8], count: usize)
    requires some { count ≤ length bytes.now }
    requires room { vec_len to.old + count ≤ vec_capacity to.old }
    ensures items { to.new.items ≡ to.old.items ++ take count bytes.now }
    ensures len { vec_len to.new ≡ vec_len to.old + count }
    ensures capacity { vec_capacity to.old ≤ vec_capacity to.new }
{
    let _ = to.extend_from_slice(&bytes[..count]);
}

impl Sink for MemSink {
    ghost use Rattle.std.specs.Prelude.{Some};

    ghost taken = { λ s. Some s.taken };

    ghost faults = { λ s. s.calls.faults };

    fn put(&mut self, bytes: &[u8]) -> Result<usize, Failed>
        ensures bound { IfOk result (λ n. n ≤ length bytes.now) }
        ensures appends { IfOk result (λ n. Some self.new.taken ≡ with_back (Some self.old.taken)
            (take n bytes.now)) }
        ensures some { IfOk result (λ n. 0 < length bytes.now → 0 < n) }
        ensures err { OnErr result (Some self.new.taken ≡ Some self.old.taken) }
        ensures counts { self.old.calls.faults ≤ self.new.calls.faults }
        ensures cause { OnErr result (Rose self.old.calls.faults self.new.calls.faults) }
        ensures fits { IfOk result
            (λ n. n ≡ min (length bytes.now) (self.old.room - length self.old.taken)) }
        ensures fails { Contains self.old.calls.fail_at self.old.calls.next → IsErr result }
        ensures full { IsErr result → Contains self.old.calls.fail_at self.old.calls.next
            ⊎ ((0 < length bytes.now) × (self.old.room ≡ length self.old.taken)) }
        ensures room { self.new.room ≡ self.old.room }
        ensures next { IsNext self.old.calls self.new.calls }
    {
        if self.calls.next_fails() {
            return Err(Failed);
        }
        let count = bytes.len().min(self.room - self.bytes.len());
        if count == 0 && !bytes.is_empty() {
            self.calls.raise();
            return Err(Failed);
        }
        append_front(&mut self.bytes, bytes, count);
        Ok(count)
    }
}
