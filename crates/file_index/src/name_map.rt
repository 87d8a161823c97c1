// Which inode each name leads to.
ghost use Rattle.std.specs.Prelude.{◌≡◌, ◌-◌, ◌/◌, ◌^◌, ◌<◌, ◌≤◌, None, OnOk, OnErr, IfOk, IfErr};
ghost use Rattle.std.specs.Ordering.{nat_cmp};
ghost use Rattle.std.specs.Cmp.Lexicographic.{slice_cmp};
ghost use Rattle.std.specs.FinMap.{get, empty};
ghost use Rattle.file_index.specs.Entries.{IsRising, HasKey, IsGap};
ghost use Rattle.file_index.specs.Index.{Puts, Drops, ListsNames, ListsEntries};
ghost use Rattle.file_index.specs.Slots.{slots_of_add, add_slots_of};

use crate::room::insert_reserved;
use dn_model::NameList;
use log_entry::Name;
use std::alloc::{AllocError, Global};
use std::marker::Model;

/// Which inode each name of a directory leads to.
///
/// A contract sees a finite map from names, as their bytes, to numbers of inodes, and the room: how
/// many more names can be put without memory. A look-up takes time that grows with the logarithm of
/// the number of names. It also tells in constant time how many slots a log takes that has an Add of
/// each name.
#[derive(Debug, Drop)]
pub struct NameMap {
    // in the order of the names' bytes
    entries: Vec<(Name, u64)>,
    // how many slots an Add of each name takes, in all
    slots: u64,
}

impl Model for NameMap {
    ghost use Rattle.std.specs.Prelude.{ℕ, vec_len, vec_capacity};
    ghost use Rattle.std.specs.Ordering.{nat_cmp};
    ghost use Rattle.std.specs.Cmp.Lexicographic.{slice_cmp};
    ghost use Rattle.std.specs.Coded.{coded_ℕ, coded_list};
    ghost use Rattle.std.specs.FinMap.{code, from_entries};
    ghost use Rattle.file_index.specs.Index.{Index, index_code};
    ghost use Rattle.file_index.specs.Slots.{AreCounted, names_room};

    ghost Value = { Index (slice_cmp nat_cmp) ℕ };

    ghost coded = { index_code (code (coded_list coded_ℕ) coded_ℕ) };

    ghost view = { λ m. record {
      map = from_entries m.entries.items;
      room = names_room (vec_capacity m.entries) (vec_len m.entries) m.slots;
    } };

    ghost invariant = { λ m. AreCounted m.entries.items m.slots };
}

// The most slots that an Add takes.
const MOST_ADD: u64 = 5;

// How many slots an Add of the name takes: 1, and 1 more for each 56 bytes after the first 40.
fn slots_of_add(name: &Name) -> u64
    ensures slots { result ≡ slots_of_add name.now }
    ensures few { result ≤ 5 }
{
    let more = name.bytes().len().saturating_sub(40);
    1 + more.div_ceil(56) as u64
}

// How many more names have fewer than 2^64 slots, beside those that are taken.
fn names_left(slots: u64) -> u64
    ensures { result ≡ (2 ^ 64 - 1 - slots) / 5 }
{
    (u64::MAX - slots) / MOST_ADD
}

// Where the entry of these bytes as a name is, or where it would go.
fn search_bytes(entries: &[(Name, u64)], name: &[u8]) -> Result<usize, usize>
    requires { IsRising (slice_cmp nat_cmp) entries.now }
    ensures found { IfOk result (HasKey entries.now name.now) }
    ensures absent { IfErr result (IsGap (slice_cmp nat_cmp) entries.now name.now) }
{
    entries.binary_search_by(|entry| entry.0.bytes().cmp(name))
}

// Where the entry of the name is, or where it would go.
fn search(entries: &[(Name, u64)], name: &Name) -> Result<usize, usize>
    requires { IsRising (slice_cmp nat_cmp) entries.now }
    ensures found { IfOk result (HasKey entries.now name.now) }
    ensures absent { IfErr result (IsGap (slice_cmp nat_cmp) entries.now name.now) }
{
    search_bytes(entries, name.bytes())
}

impl NameMap {
    /// An index with no names. It takes no memory.
    pub fn new(alloc: Global) -> NameMap
        ensures { result.map ≡ empty }
    {
        NameMap {
            entries: Vec::new(alloc),
            slots: 0,
        }
    }

    /// Makes room for so many more names.
    ///
    /// # Errors
    /// `AllocError` where the room was too small and there is no memory for more, or where so many names
    /// might take 2^64 slots. Nothing has changed then.
    pub fn reserve(&mut self, more: u64) -> Result<(), AllocError>
        ensures map { self.new.map ≡ self.old.map }
        ensures ok { OnOk result (more ≤ self.new.room) }
        ensures no_less { self.old.room ≤ self.new.room }
        ensures err { OnErr result (self.new ≡ self.old) }
        ensures short { OnErr result (self.old.room < more) }
    {
        if names_left(self.slots) < more {
            return Err(AllocError);
        }
        self.entries.reserve(more as usize)
    }

    /// The inode that a name leads to, or None exactly where it leads to none.
    pub fn get(&self, name: &Name) -> Option<u64>
        ensures { result ≡ get self.now.map name.now }
    {
        match search(&self.entries, name) {
            Ok(at) => Some(self.entries[at].1),
            Err(_) => None,
        }
    }

    /// Lets a name lead to an inode. A name that is there leads to the new inode from now on. One that
    /// isn't needs room. It takes no memory.
    pub fn put(&mut self, name: Name, ino: u64)
        requires { get self.old.map name ≡ None → 0 < self.old.room }
        ensures { Puts name ino self.old self.new }
    {
        match search(&self.entries, &name) {
            Ok(at) => self.entries[at].1 = ino,
            Err(at) => {
                self.slots += slots_of_add(&name);
                insert_reserved(&mut self.entries, at, (name, ino));
            }
        }
    }

    /// Lets a name lead to nothing. A name that isn't there changes nothing.
    pub fn drop_name(&mut self, name: &Name)
        ensures { Drops name.now self.old self.new }
    {
        if let Ok(at) = search(&self.entries, name) {
            let (gone, _) = self.entries.remove(at);
            self.slots -= slots_of_add(&gone);
        }
    }

    /// Lets these bytes lead to nothing, as a name. Bytes that are no name that is there change nothing.
    /// It takes no memory.
    pub fn drop_bytes(&mut self, name: &[u8])
        ensures { Drops name.now self.old self.new }
    {
        if let Ok(place) = search_bytes(&self.entries, name) {
            let (gone, _) = self.entries.remove(place);
            self.slots -= slots_of_add(&gone);
        }
    }

    /// All names with the inodes that they lead to, in the order of the names' bytes, each name once.
    pub fn entries(&self) -> &[(Name, u64)]
        ensures { ListsEntries self.now.map result.now }
    {
        &self.entries
    }

    /// Copies of all names, in the order of their bytes, each once. The time is that of copying them.
    ///
    /// # Errors
    /// `AllocError` where there is no memory for the copies.
    pub fn names(&self, alloc: Global) -> Result<NameList, AllocError>
        ensures { IfOk result (ListsNames self.now.map) }
    {
        let mut names = Vec::with_capacity(alloc, self.entries.len())?;
        for entry in &self.entries {
            names.push(entry.0.clone()?)?;
        }
        Ok(NameList::of(names))
    }

    /// How many slots a log takes that has an Add of each name, and nothing else.
    pub fn add_slots(&self) -> u64
        ensures { result ≡ add_slots_of self.now.map }
    {
        self.slots
    }
}
