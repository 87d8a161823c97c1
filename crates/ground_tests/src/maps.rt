ghost use Rattle.std.specs.Prelude.{◌<◌};

use file_index::{MOST_PLACES, Mapping, NameMap, PageMap};
use log_entry::Name;
use std::alloc::{AllocError, Global};
use std::test::Fail;

fn map_to(map: &mut PageMap, place: u64, block: u64) -> Result<(), AllocError>
    requires { place < MOST_PLACES }
{
    map.reserve(1)?;
    map.set(
        place,
        Mapping {
            block,
            slot: 65,
            bit: 0,
        },
    );
    Ok(())
}

fn block_at(map: &PageMap, place: u64) -> Option<u64> {
    map.get(place).map(|mapping| mapping.block)
}

#[test]
fn maps_places(rt: HostRuntime) -> Result<(), Fail> {
    let mut map = PageMap::new(rt.alloc());
    map_to(&mut map, 4095, 9)?;
    map_to(&mut map, 0, 6)?;
    map_to(&mut map, 64, 8)?;
    map_to(&mut map, 63, 7)?;
    map_to(&mut map, 0, 10)?;
    for (place, block, last) in [
        (0, Some(10), None),
        (1, None, Some(0)),
        (63, Some(7), Some(0)),
        (64, Some(8), Some(63)),
        (65, None, Some(64)),
        (4095, Some(9), Some(64)),
        (4096, None, Some(4095)),
    ] {
        assert_eq!(rt; block_at(&map, place), block);
        assert_eq!(rt; map.last_below(place), last);
    }
    map.cut(64);
    for (place, block) in [(0, Some(10)), (63, Some(7)), (64, None), (4095, None)] {
        assert_eq!(rt; block_at(&map, place), block);
    }
    Ok(())
}

// A map of the places at the edges of nodes.
fn mapped_edges(alloc: Global) -> Result<PageMap, AllocError> {
    let mut map = PageMap::new(alloc);
    map_to(&mut map, 64, 8)?;
    map_to(&mut map, 4095, 9)?;
    map_to(&mut map, 0, 6)?;
    map_to(&mut map, 63, 7)?;
    Ok(map)
}

#[test]
fn cuts_at_edges_of_nodes(rt: HostRuntime) -> Result<(), Fail> {
    for (cut, last, blocks) in [
        (0, None, [None, None, None, None]),
        (1, Some(0), [Some(6), None, None, None]),
        (63, Some(0), [Some(6), None, None, None]),
        (64, Some(63), [Some(6), Some(7), None, None]),
        (65, Some(64), [Some(6), Some(7), Some(8), None]),
        (4095, Some(64), [Some(6), Some(7), Some(8), None]),
        (4096, Some(4095), [Some(6), Some(7), Some(8), Some(9)]),
    ] {
        let mut map = mapped_edges(rt.alloc())?;
        map.cut(cut);
        assert_eq!(rt; map.last_below(MOST_PLACES), last);
        for (place, block) in [0, 63, 64, 4095].iter().zip(&blocks) {
            assert_eq!(rt; block_at(&map, *place), *block);
        }
        map_to(&mut map, 63, 10)?;
        assert_eq!(rt; block_at(&map, 63), Some(10));
    }
    Ok(())
}

fn put(alloc: Global, map: &mut NameMap, name: &[u8], ino: u64) -> Result<(), Fail> {
    let name = Name::of(alloc, name)?;
    map.reserve(1)?;
    map.put(name, ino);
    Ok(())
}

#[test]
fn keeps_names_in_order(rt: HostRuntime) -> Result<(), Fail> {
    let alloc = rt.alloc();
    let mut map = NameMap::new(alloc);
    put(alloc, &mut map, b"b", 1)?;
    put(alloc, &mut map, b"a0", 2)?;
    put(alloc, &mut map, b"c", 3)?;
    put(alloc, &mut map, b"a", 4)?;
    put(alloc, &mut map, b"a0", 5)?;
    map.drop_name(&Name::of(alloc, b"c")?);
    map.drop_name(&Name::of(alloc, b"a00")?);
    assert_eq!(rt; map.get(&Name::of(alloc, b"c")?), None);
    let list = map.names(alloc)?;
    assert_eq!(rt; list.names().len(), 3);
    let found = [
        (b"a".as_slice(), 4),
        (b"a0".as_slice(), 5),
        (b"b".as_slice(), 1),
    ];
    for ((bytes, ino), name) in found.iter().zip(list.names()) {
        assert!(rt; name.is(bytes));
        assert_eq!(rt; map.get(name), Some(*ino));
    }
    Ok(())
}
