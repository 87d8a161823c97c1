// Geometries of the numbers at the edges, and words of regions.
use pm_layout::{Geometry, GeometryFault};
use std::test::Fail;

// pages, inodes, the first page of data, the slots
const ACCEPTED: [(u64, u64, u64, u64); 4] = [
    (64, 8, 6, 128),
    (64, 864, 32, 128),
    (1024, 64, 38, 2048),
    (65536, 4096, 2306, 131072),
];

const REFUSED: [(u64, u64, GeometryFault); 6] = [
    (63, 8, GeometryFault::TooFewPages),
    (0, 0, GeometryFault::TooFewPages),
    (65537, 8, GeometryFault::TooManyPages),
    (64, 865, GeometryFault::BadInodes),
    (64, 7, GeometryFault::BadInodes),
    (65536, 4097, GeometryFault::BadInodes),
];

#[test]
fn regions(rt: HostRuntime) -> Result<(), Fail> {
    for (pages, inodes, first_data, slots) in ACCEPTED {
        let g = Geometry::of(pages, inodes)?;
        assert_eq!(rt; g.first_data(), first_data);
        assert_eq!(rt; g.slots(), slots);
    }
    for (pages, inodes, fault) in REFUSED {
        assert_eq!(rt; Geometry::of(pages, inodes), Err(fault));
    }
    let g = Geometry::of(64, 8)?;
    assert_eq!(rt; (g.prefix_bits(), g.directs()), (6, 64));
    assert_eq!(rt; g.inode_word(1, 2), 1042);
    assert_eq!(rt; (g.slot_word(0, 0), g.slot_word(64, 5)), (1536, 2053));
    assert_eq!(rt; g.pointer_word(8), 2568);
    assert_eq!(rt; Geometry::of(65536, 8)?.prefix_bits(), 16);
    Ok(())
}
