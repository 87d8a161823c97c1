//! Laws of the number of mappings of a page.
//!
//! Each function states laws of all disks; it does nothing.
ghost use Rattle.law_table_on_disk.specs.MappingLaws.{MappedPagesCount, OneMappingIsOnePlace, InodeMovesMappings, PlaceMovesMappings, PlaceIsMapped, PlaceIsUnmapped, PlaceIsMappedOver, BlocksTellMappings, NearStays, RowCountsTell, UnmappedRowPageIsFree, PageWithoutRowIsMappedOnce, WritesRemapTheirInode, OnePlaceWritesRemapIt, LoweredCutsUnmap};

/// A page is mapped exactly if it has a mapping; where it has one alone, one place is on it. Where each place stays
/// on its page no number moves.
pub fn mappings_are_places()
    ensures counted { MappedPagesCount }
    ensures one { OneMappingIsOnePlace }
    ensures blocks { BlocksTellMappings }
{}

/// How the mappings of pages move, when the places of one inode, or one place, are mapped otherwise.
pub fn places_move_mappings()
    ensures inode { InodeMovesMappings }
    ensures place { PlaceMovesMappings }
    ensures mapped { PlaceIsMapped }
    ensures unmapped { PlaceIsUnmapped }
    ensures mapped_over { PlaceIsMappedOver }
    ensures near { NearStays }
{}

/// What a valid disk's rows tell of the mappings of pages: the counts are off by at most what is under way, a row's
/// page is free once nothing maps it, and a mapped page without a row has one mapping.
pub fn rows_tell_mappings()
    ensures counts { RowCountsTell }
    ensures freed { UnmappedRowPageIsFree }
    ensures unshared { PageWithoutRowIsMappedOnce }
{}

/// Which places change: those of its inode at a write, the one place at a write of one, and the greatest that is
/// mapped where the cut of a dying inode falls to it.
pub fn changes_remap_places()
    ensures written { WritesRemapTheirInode }
    ensures one_place { OnePlaceWritesRemapIt }
    ensures cut { LoweredCutsUnmap }
{}
