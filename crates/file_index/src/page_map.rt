// Where the pages of a file are.
ghost use Rattle.std.specs.Prelude.{◌≡◌, ℕ, ◌<◌, ◌≤◌, None, OnOk, OnErr, IfSome, IfNone};
ghost use Rattle.std.specs.FinMap.{get, empty};
ghost use Rattle.file_index.specs.Index.{Puts, CutsOff, IsLastBelow};
ghost use Rattle.file_index.specs.Runs.{runs_of};

use crate::node::{
    Node, PLACES, clear_from, last_cell, made_nodes, missing, open_node, open_root, read_cell,
    write_cell,
};
use crate::run_count::{begins_near, count_runs};
use std::alloc::{AllocError, Global};
use std::marker::Model;

/// The most pages that a file has.
pub const MOST_PLACES: u64 = 4096;

/// Where a page of a file is, and which item of the file's log says so.
#[derive(Clone, Copy, Debug, PartialEq, Eq)]
pub struct Mapping {
    /// The page of the image that holds the page of the file.
    pub block: u64,
    /// Where the item begins: the number of the log page times 64, plus the slot in that page.
    pub slot: u64,
    /// Which of the item's pages this is, counted from 0. That bit of the item's mask is this page's.
    pub bit: u64,
}

/// Where the pages of a file are, by their places in the file, from 0 up.
///
/// A contract sees a finite map from places to mappings, and the room: how many more places can be
/// mapped without memory. Each file has such an index in ordinary memory, which is made anew from its
/// log, as in NOVA (FAST 2016). It is a radix tree of two levels: a root of 64 nodes, each of 64
/// places. To look a place up and to map it take the same time however many are mapped. It also tells
/// in constant time how many runs of places there are that one item maps: as many Writes has a log that
/// says no more than this map.
#[derive(Debug, Drop)]
pub struct PageMap {
    // 64, or none before the first reserve; a node is empty until one of its places is mapped
    nodes: Vec<Node>,
    // nodes of 64 places without mappings, for those that are empty
    spare: Vec<Node>,
    // how many runs of places of one item there are
    runs: u64,
}

impl Model for PageMap {
    ghost use Rattle.std.specs.Prelude.{length};
    ghost use Rattle.std.specs.Ordering.{nat_cmp};
    ghost use Rattle.std.specs.Coded.{coded_ℕ};
    ghost use Rattle.std.specs.FinMap.{code};
    ghost use Rattle.file_index.specs.declared.page_map.Mapping.{Mapping};
    ghost use Rattle.file_index.specs.contracts.page_map.Mapping as page;
    ghost use Rattle.file_index.specs.Index.{Index, index_code};
    ghost use Rattle.file_index.specs.Radix.{cells, filled, radix_map, radix_room};
    ghost use Rattle.file_index.specs.Runs.{IsCounted};

    ghost Value = { Index nat_cmp Mapping };

    ghost coded = { index_code (code coded_ℕ page.the_row.coded) };

    ghost view = { λ m. record {
      map = radix_map (cells m.nodes.items);
      room = radix_room (filled (cells m.nodes.items)) (length (cells m.spare.items));
    } };

    ghost invariant = { λ m. IsCounted (cells m.nodes.items) (cells m.spare.items) m.runs };
}

impl PageMap {
    /// An index in which no place is mapped. It takes no memory.
    pub fn new(alloc: Global) -> PageMap
        ensures { result.map ≡ empty }
    {
        PageMap {
            nodes: Vec::new(alloc),
            spare: Vec::new(alloc),
            runs: 0,
        }
    }

    /// Makes room for so many more places.
    ///
    /// # Errors
    /// `AllocError` where the room was too small and there is no memory for more. Nothing has changed then.
    pub fn reserve(&mut self, more: u64) -> Result<(), AllocError>
        ensures map { self.new.map ≡ self.old.map }
        ensures ok { OnOk result (more ≤ self.new.room) }
        ensures no_less { self.old.room ≤ self.new.room }
        ensures err { OnErr result (self.new ≡ self.old) }
        ensures short { OnErr result (self.old.room < more) }
    {
        let wanted = missing(&self.nodes).min(more as usize);
        let spare = self.spare.len();
        if wanted <= spare {
            return Ok(());
        }
        let alloc = *self.nodes.allocator();
        let mut made = made_nodes(alloc, wanted - spare)?;
        open_root(&mut self.nodes, alloc)?;
        self.spare.append(&mut made)?;
        Ok(())
    }

    /// The mapping of a place, or None exactly where it has none.
    pub fn get(&self, idx: u64) -> Option<Mapping>
        ensures { result ≡ get self.now.map idx }
    {
        read_cell(&self.nodes, idx as usize)
    }

    /// Maps a place, whatever its mapping was. A place that had none needs room. It takes no memory.
    pub fn set(&mut self, idx: u64, mapping: Mapping)
        requires below { idx < MOST_PLACES }
        requires room { get self.old.map idx ≡ None → 0 < self.old.room }
        ensures { Puts idx mapping self.old self.new }
    {
        let place = idx as usize;
        open_node(&mut self.nodes, &mut self.spare, place / PLACES);
        let before = begins_near(&self.nodes, place);
        write_cell(&mut self.nodes, place, Some(mapping));
        let after = begins_near(&self.nodes, place);
        self.runs = self.runs + after - before;
    }

    /// Drops the mappings of all places from this one on.
    pub fn cut(&mut self, idx: u64)
        ensures { CutsOff idx self.old self.new }
    {
        let from = idx as usize;
        self.runs -= count_runs(&self.nodes, from);
        clear_from(&mut self.nodes, from);
    }

    /// The greatest place below this one that is mapped, or None where there is none.
    pub fn last_below(&self, idx: u64) -> Option<u64>
        ensures last { IfSome result (IsLastBelow idx self.now.map) }
        ensures none { IfNone result ((k : ℕ) → k < idx → get self.now.map k ≡ None) }
    {
        last_cell(&self.nodes, idx as usize)
    }

    /// How many maximal runs of consecutive places there are, each of places that the same item maps. An
    /// item that is mapped over in the middle has two.
    pub fn runs(&self) -> u64
        ensures { result ≡ runs_of self.now.map }
    {
        self.runs
    }
}
