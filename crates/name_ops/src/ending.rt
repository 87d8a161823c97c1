// An operation on names ends, in what is kept in memory.
ghost use Rattle.std.specs.Prelude.{◌≡◌, ◌≢◌, ◌↔◌, ◌*◌, ◌-◌, ◌+◌, ◌^◌, ◌<◌, ◌≤◌, ℕ, List, length, slice_get, Some, None, IsSome, IfSome, All, Contains, is_some, if◌then◌else◌};
ghost use Rattle.std.specs.FinMap.{get};
ghost use Rattle.page_alloc.specs.Free.{IsInOrder};
ghost use Rattle.file_content.specs.Pages.{AreApart};
ghost use Rattle.dn_volume.specs.declared.flight.NameChange.{NameChange as KeptChange};
ghost use Rattle.dn_volume.specs.PlannedNames.{name_put};
ghost use Rattle.dn_volume.specs.Parties.{flight_at};
ghost use Rattle.dn_volume.specs.Begins.{IsNamesOp};
ghost use Rattle.file_index.specs.Index.{Puts};
ghost use Rattle.name_ops.specs.Ending.{Gives, LetsGoOf, GrowsRoot, KeepsPlaces, MovesSome, MovesName, CanLand, FinishesNames};
ghost use Rattle.name_ops.specs.Landing.{names_after, Turned, places_in, places_kept, turn_units};

use begin_steps::find_inode;
use dn_model::{Entry, Op, Reply};
use dn_volume::units::NAMES_UNITS;
use dn_volume::{Change, Flight, InodeState, InodeUse, Parts, Turn};
use file_index::{MOST_PLACES, NameMap, PageMap};
use log_entry::Name;
use page_alloc::FreeSet;
use pm_layout::PAGE_BYTES;

/// Takes out the flight of a client, who has one.
pub fn take_flight(flights: &mut Vec<Option<Flight>>, who: u32) -> Flight
    requires client { 1 ≤ who }
    requires there { IsSome (flight_at flights.old.items (who - 1)) }
    ensures was { flight_at flights.old.items (who - 1) ≡ Some result }
    ensures clients { length flights.new.items ≡ length flights.old.items }
    ensures landed { flight_at flights.new.items (who - 1) ≡ None }
    ensures others { (k : ℕ) → k ≢ who - 1 → flight_at flights.new.items k ≡ flight_at
        flights.old.items k }
{
    flights[who as usize - 1].take().unwrap()
}

/// Puts the flight of a client back.
pub fn put_back(flights: &mut Vec<Option<Flight>>, who: u32, flight: Flight)
    requires client { 1 ≤ who }
    requires there { who - 1 < length flights.old.items }
    ensures clients { length flights.new.items ≡ length flights.old.items }
    ensures here { flight_at flights.new.items (who - 1) ≡ Some flight }
    ensures others { (k : ℕ) → k ≢ who - 1 → flight_at flights.new.items k ≡ flight_at
        flights.old.items k }
{
    flights[who as usize - 1] = Some(flight);
}

/// Gives back pages, which are different ones and not free.
pub fn give_back_pages(free: &mut FreeSet, pages: &[u64])
    requires below { (page : ℕ) → Contains pages.now page → page < free.old.pages }
    requires taken { (page : ℕ) → Contains pages.now page → ¬ Contains free.old.free page }
    requires apart { AreApart pages.now }
    requires in_order { IsInOrder free.old }
    ensures { Gives (Contains pages.now) free.old free.new }
{
    for i in 0..pages.len() {
        free.give_back(pages[i]);
    }
}

/// These inodes are held by nobody.
pub fn let_go(inodes: &mut Vec<InodeState>, held: &[u64])
    requires { All (λ ino. ino < length inodes.old.items) held.now }
    ensures { LetsGoOf (Contains held.now) inodes.old.items inodes.new.items }
{
    for i in 0..held.len() {
        inodes[held[i] as usize].holder = None;
    }
}

// The log of an inode has so many pages more.
fn grow_log(node: &mut InodeState, pages: u64)
    requires { node.old.log_pages + pages < 2 ^ 64 }
    ensures { node.new ≡ record node.old { log_pages = node.old.log_pages + pages } }
{
    node.log_pages += pages;
}

/// The root's log has so many pages more.
pub fn grow_root(inodes: &mut Vec<InodeState>, pages: u64)
    requires there { 0 < length inodes.old.items }
    requires room { IfSome (slice_get inodes.old.items 0)
        (λ root. root.log_pages + pages < 2 ^ 64) }
    ensures { GrowsRoot pages inodes.old.items inodes.new.items }
{
    grow_log(&mut inodes[0], pages);
}

// One where a place is mapped.
fn place_at(map: &PageMap, idx: u64) -> u64
    ensures { result ≡ (if is_some (get map.now.map idx) then 1 else 0) }
{
    match map.get(idx) {
        Some(_) => 1,
        None => 0,
    }
}

// How many places of a file are mapped.
fn count_places(map: &PageMap) -> u64
    ensures { result ≡ places_in map.now.map }
{
    let mut places = 0;
    for idx in 0..MOST_PLACES {
        places += place_at(map, idx);
    }
    places
}

/// The units of reclaim's work that an inode is for once it has turned: one for a dying inode, and four for each of its
/// places.
pub fn units_of_turn(node: &InodeState, turn: Turn) -> u64
    ensures { result ≡ turn_units turn (places_kept node.now) }
{
    match turn {
        Turn::Stays | Turn::Comes => 0,
        Turn::Goes => 1 + 4 * count_places(&node.map),
    }
}

/// An inode comes to life as a file of no bytes whose log has no page, or is dying, or stays.
pub fn turn_inode(node: &mut InodeState, turn: Turn)
    requires { node.old.size ≤ 16777216 }
    ensures turned { Turned turn node.old node.new }
    ensures keeps { KeepsPlaces node.old node.new }
{
    match turn {
        Turn::Stays => {}
        Turn::Comes => {
            node.used = InodeUse::Live;
            node.size = 0;
            node.log_pages = 0;
        }
        Turn::Goes => {
            node.used = InodeUse::Dying {
                cut: node.size.div_ceil(PAGE_BYTES),
            };
        }
    }
}

// A name leads to an inode.
fn put_name(names: &mut NameMap, node: u64, put: Option<Name>)
    requires some { IsSome put }
    requires room { 0 < names.old.room }
    ensures { IfSome put (λ name. Puts name node names.old names.new) }
{
    if let Some(name) = put {
        names.put(name, node);
    }
}

// A name leads nowhere, and another to the inode to which it led.
fn move_name(names: &mut NameMap, from: &[u8], put: Option<Name>)
    requires some { IsSome put }
    requires leads { IsSome (get names.old.map from.now) }
    requires room { 0 < names.old.room }
    ensures { IfSome put (λ to. MovesName from.now to names.old names.new) }
{
    let Some(node) = find_inode(names, from) else {
        unreachable!()
    };
    names.drop_bytes(from);
    put_name(names, node, put);
}

// The names lead where they lead after an operation.
fn change_names(names: &mut NameMap, op: &Op, node: u64, put: Option<Name>)
    requires kind { IsNamesOp op.now }
    requires moves { MovesSome op.now (get names.old.map) }
    requires put_is { put ≡ name_put op.now }
    requires room { 0 < names.old.room }
    ensures names { (other : List ℕ) → get names.new.map other ≡ names_after op.now
        (get names.old.map) node other }
    ensures room { names.old.room ≤ names.new.room + 1 }
{
    match op {
        Op::Create { .. } => put_name(names, node, put),
        Op::Remove { name } => names.drop_bytes(name.bytes()),
        Op::Rename { from, .. } => move_name(names, from.bytes(), put),
        _ => unreachable!(),
    }
}

/// Ends an operation on names in what is kept in memory, but for its flight: the names, the inode that turns and the
/// pages of the root's log are those of after, what it held is let go, what it was owed is owed no more, and it enters the
/// history.
pub fn land_names(parts: &mut Parts, who: u32, mut flight: Flight)
    requires can { (c : KeptChange) × CanLand flight c parts.old }
    ensures { (c : KeptChange) → CanLand flight c parts.old
        → FinishesNames who flight c parts.old parts.new }
{
    let Change::Names(change) = &mut flight.change else {
        unreachable!()
    };
    let put = change.put.take();
    let node = change.node as usize;
    parts.reclaiming.waiting += units_of_turn(&parts.inodes[node], change.turn);
    turn_inode(&mut parts.inodes[node], change.turn);
    let_go(&mut parts.inodes, &flight.held);
    grow_root(&mut parts.inodes, flight.fresh.len() as u64);
    give_back_pages(&mut parts.free, &flight.spare);
    change_names(&mut parts.names, &flight.op, change.node, put);
    parts.owed.units -= NAMES_UNITS;
    parts.owed.history -= 1;
    parts.history.push_reserved(Entry {
        who,
        op: flight.op,
        reply: Reply::Done,
    });
}
