// The two levels of a page map: a root of nodes, each empty or of 64 cells.
ghost use Rattle.std.specs.Prelude.{◌≡◌, ℕ, None, ◌-◌, ◌/◌, ◌%◌, ◌<◌, ◌≤◌, [], length, slice_index_or, All, IfSome, IfNone, IfOk, OnOk, OnErr, vec_len};
ghost use Rattle.file_index.specs.Radix.{IsRadix, IsFresh, OpensNode, OpensRoot, Clears, ClearsFrom, IsLastCell, IsNode, cells, filled, look, occupied, written};

use crate::page_map::Mapping;
use std::alloc::{AllocError, Global};

// The cells of a node, and the nodes of a root.
pub(crate) const PLACES: usize = 64;

// The cells of 64 places that lie together, or none.
pub(crate) type Node = Vec<Option<Mapping>>;

// How many nodes of the root have no cells.
pub(crate) fn missing(nodes: &[Node]) -> usize
    requires { length nodes.now ≤ 64 }
    ensures { result ≡ 64 - filled (cells nodes.now) }
{
    let mut missing = PLACES;
    for node in nodes {
        missing -= occupied(node);
    }
    missing
}

// 1 for a node that has cells.
fn occupied(node: &Node) -> usize
    ensures { result ≡ occupied node.now.items }
{
    if node.is_empty() { 0 } else { 1 }
}

// Nodes whose cells hold nothing.
pub(crate) fn made_nodes(alloc: Global, count: usize) -> Result<Vec<Node>, AllocError>
    ensures fresh { IfOk result (λ made. All IsFresh (cells made.items)) }
    ensures len { IfOk result (λ made. vec_len made ≡ count) }
{
    let mut made: Vec<Node> = Vec::with_capacity(alloc, count)?;
    while made.len() < count {
        made.push(vec![in alloc; None; PLACES]?)?;
    }
    Ok(made)
}

// Gives the root its nodes, which are empty, where it has none.
pub(crate) fn open_root(nodes: &mut Vec<Node>, alloc: Global) -> Result<(), AllocError>
    requires { 0 < vec_len nodes.old → vec_len nodes.old ≡ 64 }
    ensures ok { OnOk result (OpensRoot (cells nodes.old.items) (cells nodes.new.items)) }
    ensures err { OnErr result (nodes.new.items ≡ nodes.old.items) }
{
    if nodes.is_empty() {
        *nodes = empty_nodes(alloc)?;
    }
    Ok(())
}

// So many nodes as a root has, without cells.
fn empty_nodes(alloc: Global) -> Result<Vec<Node>, AllocError>
    ensures { IfOk result (λ made. OpensRoot [] (cells made.items)) }
{
    let mut nodes: Vec<Node> = Vec::with_capacity(alloc, PLACES)?;
    while nodes.len() < PLACES {
        nodes.push(Vec::new(alloc))?;
    }
    Ok(nodes)
}

// Gives a node its cells, where it has none: those of a spare node.
pub(crate) fn open_node(nodes: &mut Vec<Node>, spare: &mut Vec<Node>, at: usize)
    requires valid { IsRadix (cells nodes.old.items) (cells spare.old.items) }
    requires at { at < vec_len nodes.old }
    requires room { slice_index_or (cells nodes.old.items) at [] ≡ [] → 0 < vec_len spare.old }
    ensures { OpensNode at (cells nodes.old.items) (cells nodes.new.items)
        (cells spare.old.items) (cells spare.new.items) }
{
    if nodes[at].is_empty()
        && let Some(node) = spare.pop()
    {
        nodes[at] = node;
    }
}

// Writes the cell of a place.
pub(crate) fn write_cell(nodes: &mut Vec<Node>, place: usize, cell: Option<Mapping>)
    requires in_root { place / 64 < vec_len nodes.old }
    requires in_node { place % 64 < length (slice_index_or (cells nodes.old.items) (place / 64) []) }
    ensures { cells nodes.new.items ≡ written (cells nodes.old.items) place cell }
{
    nodes[place / PLACES][place % PLACES] = cell;
}

// What the cell of a place holds.
pub(crate) fn read_cell(nodes: &[Node], place: usize) -> Option<Mapping>
    ensures { result ≡ look (cells nodes.now) place }
{
    let node = nodes.get(place / PLACES)?;
    *node.get(place % PLACES)?
}

// Clears the cell of a place, or passes a node without cells.
// Returns the place after what was cleared.
pub(crate) fn clear_next(nodes: &mut Vec<Node>, place: usize) -> usize
    requires whole { All IsNode (cells nodes.old.items) }
    requires in_root { place / 64 < vec_len nodes.old }
    requires few { vec_len nodes.old ≤ 64 }
    ensures more { place < result }
    ensures cells { Clears place result (cells nodes.old.items) (cells nodes.new.items) }
{
    if nodes[place / PLACES].is_empty() {
        return (place / PLACES + 1) * PLACES;
    }
    write_cell(nodes, place, None);
    place + 1
}

// The place itself, or its node's first where the node has no cells.
pub(crate) fn skip_back(nodes: &[Node], place: usize) -> usize
    requires { place / 64 < length nodes.now }
    ensures low { result ≤ place }
    ensures none { (k : ℕ) → result ≤ k → k < place → look (cells nodes.now) k ≡ None }
{
    if nodes[place / PLACES].is_empty() {
        place - place % PLACES
    } else {
        place
    }
}

// Clears the cells of all places from this one on.
pub(crate) fn clear_from(nodes: &mut Vec<Node>, from: usize)
    requires whole { All IsNode (cells nodes.old.items) }
    requires few { vec_len nodes.old ≤ 64 }
    ensures { ClearsFrom from (cells nodes.old.items) (cells nodes.new.items) }
{
    let end = nodes.len() * PLACES;
    let mut place = from;
    while place < end {
        place = clear_next(nodes, place);
    }
}

// The greatest place below one whose cell holds anything.
pub(crate) fn last_cell(nodes: &[Node], from: usize) -> Option<u64>
    requires { length nodes.now ≤ 64 }
    ensures last { IfSome result (IsLastCell from (cells nodes.now)) }
    ensures none { IfNone result ((k : ℕ) → k < from → look (cells nodes.now) k ≡ None) }
{
    let mut end = from.min(nodes.len() * PLACES);
    while end > 0 {
        let place = end - 1;
        if read_cell(nodes, place).is_some() {
            return Some(place as u64);
        }
        end = skip_back(nodes, place);
    }
    None
}
