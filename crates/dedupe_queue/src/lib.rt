//! The work of the daemon that shares equal pages: written items that wait to be looked at.
#![tactic(auto)]

ghost use Rattle.std.specs.Prelude.{◌≡◌, ◌↔◌, ◌<◌, ◌≤◌, [], ◌∷◌, length, OnOk, OnErr, IsNone, IfSome, IfNone, IsTrue, slice_get};
ghost use Rattle.dedupe_queue.specs.Queue.{Pushes, Pops};

use std::alloc::{AllocError, Global};
use std::collections::VecDeque;
use std::marker::Model;

/// A written item of a file's log that waits for the daemon.
#[derive(Clone, Copy, Debug, PartialEq, Eq)]
pub struct Work {
    /// The inode of the file.
    pub ino: u64,
    /// The round of the inode at which the item was written. Each cleaning of its log begins a new one.
    pub round: u64,
    /// Where the item begins: the number of the log page times 64, plus the slot in that page.
    pub slot: u64,
}

/// The work that waits, first in first out.
#[derive(Debug, Drop)]
pub struct WorkQueue {
    items: VecDeque<Work>,
}

impl Model for WorkQueue {
    ghost use Rattle.std.specs.Prelude.{◌-◌};
    ghost use Rattle.std.specs.VecDeque.{deque_len, deque_capacity};
    ghost use Rattle.dedupe_queue.specs.Queue.{Waiting};

    ghost Value = { Waiting };

    ghost view = { λ q. record { items = q.items.items; room = deque_capacity q.items - deque_len q.items } };
}

impl WorkQueue {
    /// An empty queue, which takes no memory.
    pub fn new(alloc: Global) -> WorkQueue
        ensures { result.items ≡ [] }
    {
        WorkQueue {
            items: VecDeque::new(alloc),
        }
    }

    /// Makes room for so much more work. Without memory the work stays and no room is lost.
    pub fn reserve(&mut self, more: u64) -> Result<(), AllocError>
        ensures items { self.new.items ≡ self.old.items }
        ensures ok { OnOk result (more ≤ self.new.room) }
        ensures no_less { self.old.room ≤ self.new.room }
        ensures err { OnErr result (self.old.room < more) }
    {
        self.items.reserve(more as usize)
    }

    /// Puts work behind all that waits, into room that there is.
    pub fn push(&mut self, work: Work)
        requires { 0 < self.old.room }
        ensures { Pushes work self.old self.new }
    {
        self.items.push_back_reserved(work);
    }

    /// The work that waits longest.
    pub fn front(&self) -> Option<Work>
        ensures { result ≡ slice_get self.now.items 0 }
    {
        self.items.front().copied()
    }

    /// The work that waits at a place, from 0 for the work that waits longest.
    pub fn get(&self, place: u64) -> Option<Work>
        ensures { result ≡ slice_get self.now.items place }
    {
        self.items.get(place as usize).copied()
    }

    /// Takes out the work that waits longest. The rest stays where it is.
    pub fn pop(&mut self) -> Option<Work>
        ensures none { IsNone result ↔ (self.old.items ≡ []) }
        ensures unchanged { IfNone result (self.new ≡ self.old) }
        ensures pops { IfSome result (λ work. Pops work self.old self.new) }
    {
        self.items.pop_front()
    }

    /// How much work waits.
    pub fn len(&self) -> u64
        ensures { result ≡ length self.now.items }
    {
        self.items.len() as u64
    }

    /// Whether no work waits.
    pub fn is_empty(&self) -> bool
        ensures { IsTrue result ↔ (self.now.items ≡ []) }
    {
        self.items.is_empty()
    }
}
