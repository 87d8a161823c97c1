// Small runs of calls, with what a crash may leave of one word written down by hand.
use pm_device::commit::commit;
use pm_device::page::fill_page;
use pm_device::run::store_words;
use pm_device::settle::settle;
use pm_device::{MemPm, Pm};
use std::alloc::{AllocError, Global};
use std::process::Abort;
use std::test::Fail;

#[derive(Clone, Copy, Debug)]
enum Do {
    Store(u64, u64),
    Run(u64, &'static [u64]),
    Flush(u32, u64, u64),
    Fence(u32, bool),
}

use Do::{Fence, Flush, Run, Store};

#[derive(Clone, Copy)]
struct Row {
    calls: &'static [Do],
    // the fences that fail
    fail_at: &'static [u64],
    moment: u64,
    word: u64,
    // what the picks from 0 to 7 take; 0 is the first value that may be left, 1 the last
    picked: [u64; 8],
}

fn make_row(
    calls: &'static [Do],
    fail_at: &'static [u64],
    moment: u64,
    word: u64,
    picked: [u64; 8],
) -> Row {
    Row {
        calls,
        fail_at,
        moment,
        word,
        picked,
    }
}

fn make(rt: &impl Abort, device: &mut MemPm, call: &Do) -> Result<(), AllocError> {
    device.ready(8)?;
    match *call {
        Store(at, value) => {
            assert!(rt; at < 512 && device.words() == 512);
            device.store(at, value);
        }
        Run(at, values) => {
            assert!(rt;
                values.len() >= 1 && values.len() <= 8 && at < 504 && device.words() == 512
            );
            device.store_run(at, values);
        }
        Flush(who, first, lines) => {
            assert!(rt; lines >= 1 && lines <= 8 && first <= 56 && device.words() == 512);
            device.flush(who, first, lines);
        }
        Fence(who, ok) => assert_eq!(rt; device.fence(who).is_ok(), ok),
    }
    Ok(())
}

// A device of 512 words that are all 9.
fn nines(alloc: Global, fail_at: &[u64]) -> Result<MemPm, AllocError> {
    let words = vec![in alloc; 9; 512]?;
    MemPm::of_words(alloc, words, Vec::from_slice(alloc, fail_at)?)
}

#[test]
fn leaves_what_the_rule_says(rt: HostRuntime) -> Result<(), Fail> {
    let both = [9, 5, 5, 9, 5, 9, 5, 9];
    let later = [5, 6, 6, 5, 6, 5, 6, 5];
    let store = &[Store(3, 5), Flush(1, 0, 1), Fence(1, true)];
    let of_another = &[Store(3, 5), Flush(1, 0, 1), Fence(2, true)];
    let too_early = &[Flush(1, 0, 1), Store(3, 5), Fence(1, true)];
    let two = &[Store(3, 5), Flush(1, 0, 1), Store(3, 6), Fence(1, true)];
    let two_actors = &[
        Store(3, 5),
        Flush(1, 0, 1),
        Store(3, 6),
        Flush(2, 0, 1),
        Fence(2, true),
        Fence(1, true),
    ];
    let first_actor = &[
        Store(3, 5),
        Flush(1, 0, 1),
        Store(3, 6),
        Flush(2, 0, 1),
        Fence(1, true),
    ];
    let cleared = &[
        Store(3, 5),
        Flush(1, 0, 1),
        Fence(1, true),
        Store(3, 6),
        Fence(1, true),
    ];
    let failed = &[
        Store(3, 5),
        Flush(1, 0, 1),
        Fence(1, false),
        Fence(1, true),
        Flush(1, 0, 1),
        Fence(1, true),
    ];
    let one_failed = &[
        Store(3, 5),
        Flush(1, 0, 1),
        Flush(2, 0, 1),
        Fence(1, false),
        Fence(2, true),
    ];
    let run = &[
        Run(7, &[1, 2, 3]),
        Flush(1, 0, 1),
        Fence(1, true),
        Flush(1, 0, 2),
        Fence(1, true),
    ];
    let many = &[Store(3, 5), Store(3, 6), Store(3, 7)];
    let rows = [
        make_row(&[], &[], 0, 3, [9; 8]),
        make_row(store, &[], 0, 3, [9; 8]),
        make_row(store, &[], 1, 3, both),
        make_row(store, &[], 2, 3, both),
        make_row(store, &[], 3, 3, [5; 8]),
        make_row(store, &[], 3, 4, [9; 8]),
        make_row(of_another, &[], 3, 3, both),
        make_row(too_early, &[], 3, 3, both),
        make_row(two, &[], 3, 3, [9, 6, 9, 6, 9, 6, 5, 9]),
        make_row(two, &[], 4, 3, later),
        make_row(two_actors, &[], 5, 3, [6; 8]),
        make_row(two_actors, &[], 6, 3, [6; 8]),
        make_row(first_actor, &[], 5, 3, later),
        make_row(cleared, &[], 5, 3, later),
        make_row(failed, &[1], 3, 3, both),
        make_row(failed, &[1], 4, 3, both),
        make_row(failed, &[1, 7], 6, 3, [5; 8]),
        make_row(one_failed, &[1], 4, 3, both),
        make_row(one_failed, &[1], 5, 3, [5; 8]),
        make_row(run, &[], 3, 6, [9; 8]),
        make_row(run, &[], 3, 7, [1; 8]),
        make_row(run, &[], 3, 8, [9, 2, 2, 9, 2, 9, 2, 9]),
        make_row(run, &[], 3, 9, [9, 3, 9, 3, 9, 3, 9, 3]),
        make_row(run, &[], 5, 9, [3; 8]),
        make_row(many, &[], 3, 3, [9, 7, 5, 9, 7, 6, 5, 9]),
    ];
    for row in &rows {
        let mut device = nines(rt.alloc(), row.fail_at)?;
        for call in row.calls {
            make(&rt, &mut device, call)?;
        }
        assert!(rt; row.moment <= device.moment());
        for pick in 0..8 {
            let image = device.image_at(rt.alloc(), row.moment, pick)?;
            let value = image.get(row.word as usize).copied();
            assert_eq!(rt;
                value,
                row.picked.get(pick as usize).copied(),
                "{:?} pick {pick}",
                row.calls
            );
        }
    }
    Ok(())
}

#[test]
fn writes_runs_and_commits(rt: HostRuntime) -> Result<(), Fail> {
    let mut device = MemPm::of_words(
        rt.alloc(),
        vec![in rt.alloc(); 9; 1024]?,
        Vec::new(rt.alloc()),
    )?;
    device.ready(600)?;
    commit(&mut device, 1, 20, 7)?;
    store_words(&mut device, 1, 5, &[1, 2, 3, 4]);
    fill_page(&mut device, 2, 1, &[6; 512]);
    settle(&mut device, 1)?;
    assert_eq!(rt; device.moment(), 9);
    let durable = device.image_at(rt.alloc(), 9, 0)?;
    assert_eq!(rt; durable.get(4..10), Some([9, 1, 2, 3, 4, 9].as_slice()));
    assert_eq!(rt; durable.get(20).copied(), Some(7));
    assert_eq!(rt;
        durable.get(600).copied(),
        Some(9),
        "the page's fence is still to come"
    );
    let newest = device.image_at(rt.alloc(), 9, 1)?;
    assert_eq!(rt; newest.get(600).copied(), Some(6));
    assert!(rt; device.words() == 1024);
    assert_eq!(rt; device.load(1023), 6);
    Ok(())
}
