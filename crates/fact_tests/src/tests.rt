// Calls of the table on images of 64 pages and 8 inodes, of which nothing but the table is there. The row of page 7 + n
// has the print of sum n.
ghost use Rattle.std.specs.Prelude.{◌≡◌, ◌*◌, ◌≤◌, ◌<◌, IsTrue, IsOk, IfOk, IfSome, IfNone, length};
ghost use Rattle.pm_layout.specs.Geometry.{slots};
ghost use Rattle.dn_model.specs.Disk.{Disk, rows};
ghost use Rattle.fact_scan.specs.Seen.{as_row};
ghost use Rattle.fact_table.specs.Chained.{HasNoRow};
ghost use Rattle.fact_table.specs.Table.{IsTable, HasTable, IsAtSlot};
ghost use Rattle.fact_calls.specs.Made.{CanCall};
ghost use Rattle.fact_tests.specs.Trial.{MayBy};

use fact_calls::{TableCall, make};
use fact_slot::Steps;
use fact_table::{Fact, Row};
use fingerprint::{CountWord, FactSlot};
use pm_device::{MemPm, Pm};
use pm_layout::Geometry;
use std::alloc::{AllocError, Global};
use std::marker::Brand;
use std::process::Abort;
use std::sync::ledger::{Blank, Ledger};
use std::test::Fail;

// The actor that makes the calls.
const WHO: u32 = 1;

// The slot, the sum, the references and the updates of a row. Rows are listed by their slots, and each indirect one
// leads to the one listed before it.
type Held = (u8, u8, u8, u8);

// The rows, a call that may be made of them, and the rows after it.
type Case = (&'static [Held], TableCall, &'static [Held]);

// The first slot, its next word, and the first pointer.
const SLOTS: usize = 1536;

const NEXT_OF_0: usize = 1541;

const POINTERS: usize = 2560;

// The pointer of page 20.
const STALE: usize = 2580;

fn print_of(sum: u8) -> [u8; 20] {
    let mut print = [0; 20];
    print[3] = sum;
    print
}

fn row_of(held: Held) -> Row {
    let (slot, sum, rfc, uc) = held;
    Row {
        slot: u64::from(slot),
        print: print_of(sum),
        page: u64::from(sum) + 7,
        count: CountWord {
            rfc: u32::from(rfc),
            uc: u32::from(uc),
        },
    }
}

fn rows_like(alloc: Global, held: &[Held]) -> Result<Vec<Row>, AllocError> {
    let mut rows = Vec::new(alloc);
    for one in held {
        rows.push(row_of(*one))?;
    }
    Ok(rows)
}

fn put(words: &mut Vec<u64>, at: usize, value: u64) {
    if at < words.len() {
        words[at] = value;
    }
}

// Writes a row down, with the pointer of its page.
fn put_row(words: &mut Vec<u64>, one: Held, next: u64) {
    let (slot, sum, _, _) = one;
    let row = row_of(one);
    let print = row.print;
    let at = SLOTS + 8 * usize::from(slot);
    let held = FactSlot {
        page: row.page,
        print,
        count: row.count,
        next,
    };
    for (k, word) in held.words().iter().enumerate() {
        put(words, at + k, *word);
    }
    put(words, POINTERS + 7 + usize::from(sum), u64::from(slot) + 1);
}

fn put_rows(words: &mut Vec<u64>, rows: &[Held]) {
    let mut last = 0;
    for held in rows {
        put_row(words, *held, last);
        if held.0 >= 64 {
            last = u64::from(held.0);
        }
    }
    put(words, NEXT_OF_0, last);
}

// An image with these rows and a pointer of page 20, which is stale.
fn image(alloc: Global, rows: &[Held], stale: u64) -> Result<Vec<u64>, AllocError> {
    let mut words = vec![in alloc; 0; 32768]?;
    put_rows(&mut words, rows);
    put(&mut words, STALE, stale);
    Ok(words)
}

// A device of these words, and its table.
fn load(rt: &impl Abort, alloc: Global, words: Vec<u64>) -> Result<(MemPm, Fact), Fail>
    ensures { IfOk result (λ r. HasTable (⟦<MemPm as Pm>⟧.state r.0).now r.1) }
{
    assert!(rt; words.len() == 32768);
    let device = MemPm::of_words(alloc, words, Vec::new(alloc))?;
    let g = Geometry::of(64, 8)?;
    assert!(rt; device.words() == 512 * g.pages);
    let fact = Fact::load(alloc, &device, &g).map_err(|_| "a fault")?;
    Ok((device, fact))
}

// The row in a slot, if there is one.
fn row_at<D: Pm>(fact: &Fact, device: &D, slot: u64) -> Option<Row>
    requires { HasTable (D.state device.now).now fact.now }
    ensures { IfSome result (λ r. (d : Disk) → IsTable d (D.state device.now).now fact.now
        → IsAtSlot d slot (as_row r)) }
{
    if slot >= fact.geometry().slots() {
        return None;
    }
    fact.row_at(device, slot)
}

// The row of a print, found over this ledger.
fn find_over<D: Pm, L: Ledger>(
    fact: &Fact,
    device: &D,
    print: &[u8; 20],
    blank: Blank,
) -> Option<Row>
    requires name { blank.name ≡ L.name }
    requires parts { blank.parts ≡ L.parts }
    requires part { 0 < blank.parts }
    requires table { HasTable (D.state device.now).now fact.now }
    ensures { IfNone result ((d : Disk) → IsTable d (D.state device.now).now fact.now
        → HasNoRow (rows d) print.now) }
{
    let mut steps = Steps::<L>::new(blank);
    fact.find(device, print, &mut steps)
}

fn find<D: Pm>(fact: &Fact, device: &D, print: &[u8; 20]) -> Option<Row>
    requires { HasTable (D.state device.now).now fact.now }
    ensures { IfNone result ((d : Disk) → IsTable d (D.state device.now).now fact.now
        → HasNoRow (rows d) print.now) }
{
    find_over::<D, Brand>(fact, device, print, Blank::new(1))
}

// Whether a call may be made of a row.
fn may_by(row: &Row, call: &TableCall) -> bool
    ensures { IsTrue result → MayBy (as_row row.now) call.now }
{
    let CountWord { rfc, uc } = row.count;
    match call {
        TableCall::Raise { slot } => row.slot == *slot && uc < u32::MAX,
        TableCall::SettleUp { slot } => row.slot == *slot && uc >= 1 && rfc < u32::MAX,
        TableCall::SettleDown { slot } => row.slot == *slot && uc >= 1 && rfc >= 1,
        TableCall::Recount { slot, .. } => row.slot == *slot,
        TableCall::RemoveZero { slot } => row.slot == *slot && rfc == 0 && uc == 0,
        _ => false,
    }
}

// Whether a call may be made of the row in a slot.
fn may_at<D: Pm>(fact: &Fact, device: &D, slot: u64, call: &TableCall) -> bool
    requires { HasTable (D.state device.now).now fact.now }
    ensures { IsTrue result → CanCall (D.state device.now).now fact.now call.now }
{
    match row_at(fact, device, slot) {
        Some(row) => may_by(&row, call),
        None => false,
    }
}

// Whether a row of a print and page may come in.
fn may_insert<D: Pm>(fact: &Fact, device: &D, print: &[u8; 20], page: u64) -> bool
    requires { HasTable (D.state device.now).now fact.now }
    ensures { IsTrue result → CanCall (D.state device.now).now fact.now
        (TableCall.Insert print.now page) }
{
    let g = fact.geometry();
    if page < g.first_data() || page >= g.pages || find(fact, device, print).is_some() {
        return false;
    }
    fact.by_page(device, page).is_none()
}

// Whether a call may be made.
fn may_make<D: Pm>(fact: &Fact, device: &D, call: &TableCall) -> bool
    requires { HasTable (D.state device.now).now fact.now }
    ensures { IsTrue result → CanCall (D.state device.now).now fact.now call.now }
{
    match call {
        TableCall::Insert { print, page } => may_insert(fact, device, print, *page),
        TableCall::Raise { slot }
        | TableCall::SettleUp { slot }
        | TableCall::SettleDown { slot }
        | TableCall::Recount { slot, .. }
        | TableCall::RemoveZero { slot } => may_at(fact, device, *slot, call),
        TableCall::ClearStale => true,
    }
}

// Makes a call that may be made.
fn try_call<D: Pm>(
    rt: &impl Abort,
    fact: &mut Fact,
    device: &mut D,
    call: &TableCall,
) -> Result<(), Fail>
    requires { HasTable (D.state device.old).now fact.old }
    ensures { IsOk result → HasTable (D.state device.new).now fact.new }
{
    device.ready(192)?;
    assert!(rt; fact.geometry().pages == 64);
    assert!(rt; may_make(fact, device, call), "{call:?}");
    Ok(make(fact, device, WHO, call)?)
}

// Makes calls, each of which succeeds.
fn try_all<D: Pm>(
    rt: &impl Abort,
    fact: &mut Fact,
    device: &mut D,
    calls: &[TableCall],
) -> Result<(), Fail>
    requires { HasTable (D.state device.old).now fact.old }
    ensures { IsOk result → HasTable (D.state device.new).now fact.new }
{
    for call in calls {
        try_call(rt, fact, device, call)?;
    }
    Ok(())
}

// All rows, in the order of their slots.
fn rows_of<D: Pm>(alloc: Global, fact: &Fact, device: &D) -> Result<Vec<Row>, AllocError>
    requires { HasTable (D.state device.now).now fact.now }
{
    let mut rows = Vec::new(alloc);
    for slot in 0..fact.geometry().slots() {
        if let Some(row) = fact.row_at(device, slot) {
            rows.push(row)?;
        }
    }
    Ok(rows)
}

// The rows of an image.
fn rows_in(rt: &impl Abort, alloc: Global, words: Vec<u64>) -> Result<Vec<Row>, Fail> {
    let (device, fact) = load(rt, alloc, words)?;
    Ok(rows_of(alloc, &fact, &device)?)
}

fn insert_of(sum: u8) -> TableCall {
    TableCall::Insert {
        print: print_of(sum),
        page: u64::from(sum) + 7,
    }
}

// Looks at images of a moment, each of which has the rows of before or of after.
fn look_at(
    rt: &impl Abort,
    alloc: Global,
    device: &MemPm,
    moment: u64,
    before: &[Row],
    after: &[Row],
) -> Result<(), Fail> {
    for pick in 0..8 {
        assert!(rt; moment <= device.moment());
        let words = device.image_at(alloc, moment, pick)?;
        let rows = rows_in(rt, alloc, words)?;
        assert!(rt;
            &rows[..] == before || &rows[..] == after,
            "{moment}, {pick}: {rows:?}"
        );
    }
    Ok(())
}

// Makes a change of these rows, and looks at each moment of it.
fn at_every_moment(rt: &impl Abort, alloc: Global, case: &Case) -> Result<(), Fail> {
    let (rows, call, after) = *case;
    let before = rows_like(alloc, rows)?;
    let after = rows_like(alloc, after)?;
    let (mut device, mut fact) = load(rt, alloc, image(alloc, rows, 65)?)?;
    try_call(rt, &mut fact, &mut device, &call)?;
    let end = device.moment();
    for moment in 0..end {
        look_at(rt, alloc, &device, moment, &before, &after)?;
    }
    look_at(rt, alloc, &device, end, &after, &after)
}

// A chain of three rows that just came in, and one of rows without references and updates.
const ROW_1: Held = (0, 1, 0, 1);

const ROW_2: Held = (64, 2, 0, 1);

const ROW_3: Held = (65, 3, 0, 1);

const CHAIN: [Held; 3] = [ROW_1, ROW_2, ROW_3];

const ZERO_1: Held = (0, 1, 0, 0);

const ZERO_2: Held = (64, 2, 0, 0);

const ZERO_3: Held = (65, 3, 0, 0);

const ZEROS: [Held; 3] = [ZERO_1, ZERO_2, ZERO_3];

fn try_cases(rt: &impl Abort, alloc: Global, cases: &[Case]) -> Result<(), Fail> {
    for case in cases {
        at_every_moment(rt, alloc, case)?;
    }
    Ok(())
}

#[test]
fn rows_come_at_every_moment(rt: HostRuntime) -> Result<(), Fail> {
    let cases: [Case; 2] = [
        (&CHAIN[1..], insert_of(1), &CHAIN),
        (&CHAIN, insert_of(4), &[ROW_1, ROW_2, ROW_3, (66, 4, 0, 1)]),
    ];
    try_cases(&rt, rt.alloc(), &cases)
}

#[test]
fn counts_change_at_every_moment(rt: HostRuntime) -> Result<(), Fail> {
    let cases: [Case; 4] = [
        (
            &CHAIN,
            TableCall::Raise { slot: 64 },
            &[ROW_1, (64, 2, 0, 2), ROW_3],
        ),
        (
            &CHAIN,
            TableCall::SettleUp { slot: 65 },
            &[ROW_1, ROW_2, (65, 3, 1, 0)],
        ),
        (
            &[(0, 1, 1, 1), ROW_2, ROW_3],
            TableCall::SettleDown { slot: 0 },
            &[ZERO_1, ROW_2, ROW_3],
        ),
        (
            &CHAIN,
            TableCall::Recount { slot: 64, rfc: 1 },
            &[ROW_1, (64, 2, 1, 0), ROW_3],
        ),
    ];
    try_cases(&rt, rt.alloc(), &cases)
}

#[test]
fn rows_go_at_every_moment(rt: HostRuntime) -> Result<(), Fail> {
    let cases: [Case; 4] = [
        (&ZEROS, TableCall::RemoveZero { slot: 0 }, &[ZERO_2, ZERO_3]),
        (
            &ZEROS,
            TableCall::RemoveZero { slot: 65 },
            &[ZERO_1, ZERO_2],
        ),
        (
            &ZEROS,
            TableCall::RemoveZero { slot: 64 },
            &[ZERO_1, ZERO_3],
        ),
        (&CHAIN, TableCall::ClearStale, &CHAIN),
    ];
    try_cases(&rt, rt.alloc(), &cases)
}

// Each of these rows is found by its print and by its page.
fn look_up(rt: &impl Abort, fact: &Fact, device: &MemPm, held: &[Held]) -> Result<(), Fail>
    requires { HasTable (⟦<MemPm as Pm>⟧.state device.now).now fact.now }
{
    for one in held {
        let row = row_of(*one);
        assert!(rt; row.page < fact.geometry().pages);
        assert_eq!(rt; find(fact, device, &row.print), Some(row));
        assert_eq!(rt; fact.by_page(device, row.page), Some(row));
    }
    Ok(())
}

#[test]
fn rows_come_and_go(rt: HostRuntime) -> Result<(), Fail> {
    let alloc = rt.alloc();
    let (mut device, mut fact) = load(&rt, alloc, image(alloc, &[], 65)?)?;
    let calls = [
        insert_of(1),
        insert_of(2),
        insert_of(3),
        TableCall::ClearStale,
    ];
    try_all(&rt, &mut fact, &mut device, &calls)?;
    assert_eq!(rt; rows_of(alloc, &fact, &device)?, rows_like(alloc, &CHAIN)?);
    assert_eq!(rt; device.words(), 32768);
    // the direct slot leads to slot 65, that to slot 64, and that to none
    let next = [device.load(1541), device.load(2061), device.load(2053)];
    assert_eq!(rt; next, [65, 64, 0]);
    // the pointers of page 8, whose row is in slot 0, and of page 20, which was stale
    assert_eq!(rt; [device.load(2568), device.load(2580)], [1, 0]);
    look_up(&rt, &fact, &device, &CHAIN)?;
    assert!(rt; fact.geometry().pages == 64 && fact.geometry().slots() == 128);
    assert_eq!(rt; fact.by_page(&device, 11), None);
    assert_eq!(rt; fact.row_at(&device, 66), None);
    Ok(())
}

#[test]
fn slots_are_used_again(rt: HostRuntime) -> Result<(), Fail> {
    let alloc = rt.alloc();
    let (mut device, mut fact) = load(&rt, alloc, image(alloc, &CHAIN, 0)?)?;
    // the row of the direct slot gets a reference, loses it and goes
    let calls = [
        TableCall::SettleUp { slot: 0 },
        TableCall::Raise { slot: 0 },
        TableCall::SettleDown { slot: 0 },
        TableCall::RemoveZero { slot: 0 },
    ];
    try_all(&rt, &mut fact, &mut device, &calls)?;
    assert_eq!(rt;
        rows_of(alloc, &fact, &device)?,
        rows_like(alloc, &CHAIN[1..])?
    );
    assert_eq!(rt; find(&fact, &device, &print_of(1)), None);
    look_up(&rt, &fact, &device, &CHAIN[1..])?;
    // the direct slot is opened again
    try_all(&rt, &mut fact, &mut device, &[insert_of(4)])?;
    look_up(&rt, &fact, &device, &[(0, 4, 0, 1), ROW_2, ROW_3])
}
