// Rows are put behind a direct slot one after another, and what a stop may leave of each link is looked at.
ghost use Rattle.std.specs.Prelude.{◌≡◌, ◌+◌, ◌*◌, ◌<◌, ◌≤◌, length, OnOk};
ghost use Rattle.pm_layout.specs.Geometry.{IsAccepted, slot_word, directs, slots};

use fact_chain::{fill_chain, link, read_chain, unlink};
use fact_direct::{fill_direct, open_direct};
use fact_slot::{Steps, peek_slot};
use fingerprint::{CountWord, FactSlot};
use pm_device::{Failed, MemPm, Pm};
use pm_layout::Geometry;
use std::marker::Brand;
use std::process::Abort;
use std::sync::ledger::{Blank, Ledger};
use std::test::Fail;

const DIRECT: u64 = 5;

#[derive(Clone, Copy, Debug)]
struct Put {
    slot: u64,
    page: u64,
    // the slot that was the first of the chain before, or 0
    old: u64,
    // the device's moment once the slot is filled, before the fill is fenced and the slot linked
    first: u8,
}

const PUTS: [Put; 2] = [
    Put {
        slot: 67,
        page: 9,
        old: 0,
        first: 8,
    },
    Put {
        slot: 66,
        page: 10,
        old: 67,
        first: 14,
    },
];

fn make_row(page: u64, next: u64) -> FactSlot {
    FactSlot {
        page,
        print: [7; 20],
        count: CountWord { rfc: 1, uc: 0 },
        next,
    }
}

// Fills the direct slot, fences that and opens it.
fn open_first<D: Pm>(device: &mut D, g: &Geometry, page: u64) -> Result<(), Failed>
    requires accepted { IsAccepted g.now }
    requires size { length (D.state device.old).now ≡ 512 * g.now.pages }
    requires direct { DIRECT < directs g.now }
    requires page { page < g.now.pages }
    requires room { 13 ≤ (D.state device.old).spare }
    ensures size { length (D.state device.new).now ≡ 512 * g.now.pages }
    ensures spare { (D.state device.old).spare ≤ (D.state device.new).spare + 13 }
{
    fill_direct(device, g, 1, DIRECT, &make_row(page, 0));
    device.fence(1)?;
    open_direct(device, g, 1, DIRECT, page)
}

// Fills an indirect slot, fences that and links it.
fn put_in<D: Pm>(device: &mut D, g: &Geometry, put: &Put) -> Result<(), Failed>
    requires accepted { IsAccepted g.now }
    requires size { length (D.state device.old).now ≡ 512 * g.now.pages }
    requires direct { DIRECT < directs g.now }
    requires indirect { directs g.now ≤ put.now.slot }
    requires slot { put.now.slot < slots g.now }
    requires room { 13 ≤ (D.state device.old).spare }
    ensures size { length (D.state device.new).now ≡ 512 * g.now.pages }
    ensures spare { (D.state device.old).spare ≤ (D.state device.new).spare + 13 }
{
    fill_chain(device, g, 1, put.slot, &make_row(put.page, put.old));
    device.fence(1)?;
    link(device, g, 1, DIRECT, put.slot)
}

// Puts all rows in.
fn put_all<D: Pm>(rt: &impl Abort, device: &mut D, g: &Geometry) -> Result<(), Failed>
    requires accepted { IsAccepted g.now }
    requires size { length (D.state device.old).now ≡ 512 * g.now.pages }
    requires room { 39 ≤ (D.state device.old).spare }
    ensures size { length (D.state device.new).now ≡ 512 * g.now.pages }
    ensures spare { (D.state device.old).spare ≤ (D.state device.new).spare + 39 }
{
    assert_eq!(rt; g.directs(), 64);
    assert_eq!(rt; g.pages, 64);
    open_first(device, g, 8)?;
    put_in(device, g, &PUTS[0])?;
    put_in(device, g, &PUTS[1])
}

fn read_over<D: Pm, L: Ledger>(device: &D, g: &Geometry, slot: u64, blank: Blank) -> FactSlot
    requires name { blank.name ≡ L.name }
    requires parts { blank.parts ≡ L.parts }
    requires part { 0 < blank.parts }
    requires accepted { IsAccepted g.now }
    requires size { length (D.state device.now).now ≡ 512 * g.now.pages }
    requires indirect { directs g.now ≤ slot }
    requires slot { slot < slots g.now }
{
    let mut steps = Steps::<L>::new(blank);
    read_chain(device, g, slot, &mut steps)
}

fn read_chained<D: Pm>(device: &D, g: &Geometry, slot: u64) -> FactSlot
    requires accepted { IsAccepted g.now }
    requires size { length (D.state device.now).now ≡ 512 * g.now.pages }
    requires indirect { directs g.now ≤ slot }
    requires slot { slot < slots g.now }
{
    read_over::<D, Brand>(device, g, slot, Blank::new(1))
}

// Reads what stands in the slots, and takes the last row out again.
fn take_out<D: Pm>(rt: &impl Abort, device: &mut D, g: &Geometry) -> Result<(), Failed>
    requires accepted { IsAccepted g.now }
    requires size { length (D.state device.old).now ≡ 512 * g.now.pages }
    requires room { 4 ≤ (D.state device.old).spare }
{
    assert_eq!(rt; g.directs(), 64);
    assert_eq!(rt; g.pages, 64);
    assert_eq!(rt; peek_slot(device, g, DIRECT), make_row(8, 66));
    assert_eq!(rt; read_chained(device, g, 66), make_row(10, 67));
    unlink(device, g, 1, DIRECT, 66)?;
    assert_eq!(rt; peek_slot(device, g, DIRECT), make_row(8, 67));
    assert_eq!(rt; read_chained(device, g, 67), make_row(9, 0));
    Ok(())
}

// In each image the next word of the direct slot is old, or it is new and the row's words are there.
fn check_image(rt: &impl Abort, image: &[u64], put: &Put) {
    assert_eq!(rt; image.len(), 32768);
    let next = image[1536 + 45];
    if next != put.old {
        assert_eq!(rt; next, put.slot);
        assert!(rt; put.slot < 128);
        let at = 1536 + 8 * put.slot as usize;
        let row = make_row(put.page, put.old).words();
        assert_eq!(rt; &image[at..at + 8], row.as_slice());
    }
}

#[test]
fn rows_are_chained(rt: HostRuntime) -> Result<(), Fail> {
    let g = Geometry::of(64, 8)?;
    let words = vec![in rt.alloc(); 0; 32768]?;
    let mut device = MemPm::of_words(rt.alloc(), words, Vec::new(rt.alloc()))?;
    device.ready(60)?;
    assert_eq!(rt; device.words(), 32768);
    put_all(&rt, &mut device, &g)?;
    for put in PUTS {
        for moment in u64::from(put.first)..u64::from(put.first) + 5 {
            for pick in 0..8 {
                assert!(rt; moment <= device.moment());
                let image = device.image_at(rt.alloc(), moment, pick)?;
                check_image(&rt, &image, &put);
            }
        }
    }
    take_out(&rt, &mut device, &g)?;
    Ok(())
}
