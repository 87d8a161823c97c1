// A row comes into the table.
ghost use Rattle.std.specs.Prelude.{◌≡◌, ◌+◌, ◌*◌, ◌<◌, ◌≤◌, ◌++◌, [], ◌∷◌, length, OnOk, IsErr};
ghost use Rattle.pm_device.specs.State.{Rose};
ghost use Rattle.pm_device.specs.Settled.{StoresOnly, KeepsFlushed, Others, FlushesAll, SettlesAll};
ghost use Rattle.pm_device.specs.Lines.{StoresRun};
ghost use Rattle.pm_layout.specs.Geometry.{IsAccepted, slot_word, directs, slots};
ghost use Rattle.law_table.specs.Rows.{opened_words, linked_words};
ghost use Rattle.fact_rows.specs.Put.{new_row, CanPutAt, IsPutWord, MakesOpened, SettlesOpened, LeavesOpened, MakesLinked, SettlesLinked, LeavesLinked};

use delete_pointer::{POINTER_UNITS, store_pointer};
use fact_chain::link;
use fact_direct::open_direct;
use fact_slot::slot::{FIELD_UNITS, STORE_UNITS};
use fact_slot::{load_field, store_fields};
use fingerprint::{CountWord, FactSlot};
use pm_device::{Failed, Pm};
use pm_layout::{FACT_NEXT, FACT_PAGE, FACT_PRINT, Geometry};

/// The units of the device that `insert_direct` and `insert_chained` use, each: a slot is filled, a pointer is stored, and
/// a word of the table decides.
pub const INSERT_UNITS: u64 = STORE_UNITS + POINTER_UNITS + FIELD_UNITS;

// Stores words 1 to 4 of a new row's direct slot, and flushes them.
fn fill_closed<D: Pm>(
    device: &mut D,
    g: &Geometry,
    who: u32,
    slot: u64,
    print: &[u8; 20],
    page: u64,
)
    requires accepted { IsAccepted g.now }
    requires size { length (D.state device.old).now ≡ 512 * g.now.pages }
    requires slot { slot < slots g.now }
    requires room { STORE_UNITS ≤ (D.state device.old).spare }
    ensures stores { StoresRun who (slot_word g.now slot 1)
        (opened_words (new_row slot print.now page)) (D.state device.old) (D.state device.new) }
    ensures flushes { FlushesAll who (D.state device.old) (D.state device.new) }
    ensures spare { (D.state device.old).spare ≤ (D.state device.new).spare + STORE_UNITS }
    ensures faults { (D.state device.old).faults ≤ (D.state device.new).faults }
{
    let row = FactSlot {
        page,
        print: *print,
        count: CountWord { rfc: 0, uc: 1 },
        next: 0,
    };
    store_fields(device, g, who, slot, FACT_PRINT, &row.words()[1..5]);
}

// Stores the words of a new row's indirect slot, which leads on to the slot `next`, and flushes them.
fn fill_linked<D: Pm>(
    device: &mut D,
    g: &Geometry,
    who: u32,
    slot: u64,
    print: &[u8; 20],
    page: u64,
    next: u64,
)
    requires accepted { IsAccepted g.now }
    requires size { length (D.state device.old).now ≡ 512 * g.now.pages }
    requires slot { slot < slots g.now }
    requires room { STORE_UNITS ≤ (D.state device.old).spare }
    ensures stores { StoresRun who (slot_word g.now slot 0)
        (linked_words (new_row slot print.now page) next ++ 0 ∷ 0 ∷ []) (D.state device.old)
        (D.state device.new) }
    ensures flushes { FlushesAll who (D.state device.old) (D.state device.new) }
    ensures spare { (D.state device.old).spare ≤ (D.state device.new).spare + STORE_UNITS }
    ensures faults { (D.state device.old).faults ≤ (D.state device.new).faults }
{
    let row = FactSlot {
        page,
        print: *print,
        count: CountWord { rfc: 0, uc: 1 },
        next,
    };
    store_fields(device, g, who, slot, FACT_PAGE, &row.words());
}

/// Puts a new row into a direct slot that has none: fills the slot, makes the page's pointer lead to it, flushes and
/// fences; then opens the slot by its page word. The row has no reference yet, and one update under way.
///
/// Where the table is settled before, at each moment a crash leaves the rows of before, with or without the new pointer,
/// or the new row too.
///
/// # Errors
/// `Failed` where a fence failed. The row is stored or it isn't, and a crash may leave either.
pub fn insert_direct<D: Pm>(
    device: &mut D,
    g: &Geometry,
    who: u32,
    direct: u64,
    print: &[u8; 20],
    page: u64,
) -> Result<(), Failed>
    requires accepted { IsAccepted g.now }
    requires size { length (D.state device.old).now ≡ 512 * g.now.pages }
    requires can { CanPutAt (D.state device.old).now g.now direct direct print.now page }
    requires room { INSERT_UNITS ≤ (D.state device.old).spare }
    ensures images { LeavesOpened g.now direct print.now page (D.state device.old)
        (D.state device.new) }
    ensures done { OnOk result (MakesOpened g.now direct print.now page (D.state device.old)
        (D.state device.new)) }
    ensures settled { OnOk result (SettlesOpened g.now direct print.now page (D.state device.old)
        (D.state device.new)) }
    ensures settles { OnOk result (SettlesAll who (D.state device.old) (D.state device.new)) }
    ensures only { StoresOnly (IsPutWord g.now direct page (slot_word g.now direct 0))
        (D.state device.old) (D.state device.new) }
    ensures others { KeepsFlushed (Others who)
        (IsPutWord g.now direct page (slot_word g.now direct 0))
        (D.state device.old) (D.state device.new) }
    ensures spare { (D.state device.old).spare ≤ (D.state device.new).spare + INSERT_UNITS }
    ensures faults { (D.state device.old).faults ≤ (D.state device.new).faults }
    ensures failed { IsErr result → Rose (D.state device.old).faults (D.state device.new).faults }
{
    fill_closed(device, g, who, direct, print, page);
    store_pointer(device, g, who, page, direct + 1)?;
    open_direct(device, g, who, direct, page)
}

/// Puts a new row into an indirect slot that has none, directly behind the direct slot of its prefix: fills the slot,
/// makes the page's pointer lead to it, flushes and fences; then links it by the direct slot's next word. The row has
/// no reference yet, and one update under way.
///
/// Where the table is settled before, at each moment a crash leaves the rows of before, with or without the new pointer,
/// or the new row too.
///
/// # Errors
/// `Failed` where a fence failed. The row is stored or it isn't, and a crash may leave either.
pub fn insert_chained<D: Pm>(
    device: &mut D,
    g: &Geometry,
    who: u32,
    direct: u64,
    slot: u64,
    print: &[u8; 20],
    page: u64,
) -> Result<(), Failed>
    requires accepted { IsAccepted g.now }
    requires size { length (D.state device.old).now ≡ 512 * g.now.pages }
    requires indirect { directs g.now ≤ slot }
    requires slot { slot < slots g.now }
    requires can { CanPutAt (D.state device.old).now g.now direct slot print.now page }
    requires room { INSERT_UNITS ≤ (D.state device.old).spare }
    ensures images { LeavesLinked g.now direct slot print.now page (D.state device.old)
        (D.state device.new) }
    ensures done { OnOk result (MakesLinked g.now direct slot print.now page (D.state device.old)
        (D.state device.new)) }
    ensures settled { OnOk result (SettlesLinked g.now direct slot print.now page
        (D.state device.old) (D.state device.new)) }
    ensures settles { OnOk result (SettlesAll who (D.state device.old) (D.state device.new)) }
    ensures only { StoresOnly (IsPutWord g.now slot page (slot_word g.now direct 5))
        (D.state device.old) (D.state device.new) }
    ensures others { KeepsFlushed (Others who)
        (IsPutWord g.now slot page (slot_word g.now direct 5))
        (D.state device.old) (D.state device.new) }
    ensures spare { (D.state device.old).spare ≤ (D.state device.new).spare + INSERT_UNITS }
    ensures faults { (D.state device.old).faults ≤ (D.state device.new).faults }
    ensures failed { IsErr result → Rose (D.state device.old).faults (D.state device.new).faults }
{
    let next = load_field(device, g, direct, FACT_NEXT);
    fill_linked(device, g, who, slot, print, page, next);
    store_pointer(device, g, who, page, slot + 1)?;
    link(device, g, who, direct, slot)
}
