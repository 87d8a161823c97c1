// Counts of pages, compared with the places of files that map them.
use crate::opening::words_of;
use dn_check::{Finding, check_words};
use dn_volume::{InodeState, InodeUse, Volume};
use fact_scan::Row;
use fingerprint::Fingerprint;
use pm_device::Pm;
use std::alloc::{AllocError, Global};
use std::process::Abort;
use std::test::Fail;

// Adds each place of a file to the count of the page that it maps.
fn count_places(counts: &mut Vec<u32>, state: &InodeState) {
    for place in 0..state.size.div_ceil(4096) {
        if let Some(mapping) = state.map.get(place) {
            if let Some(count) = counts.get_mut(mapping.block as usize) {
                *count = count.saturating_add(1);
            }
        }
    }
}

// How many places of files map each page.
fn counts_of(alloc: Global, pages: usize, inodes: &[InodeState]) -> Result<Vec<u32>, AllocError> {
    let mut counts = vec![in alloc; 0; pages]?;
    for state in inodes {
        if state.used != InodeUse::Free {
            count_places(&mut counts, state);
        }
    }
    Ok(counts)
}

// Takes the count of a row's page away, if it is the row's and no update is open.
fn take_row(counts: &mut Vec<u32>, row: &Row) -> bool {
    let Some(count) = counts.get_mut(row.page as usize) else {
        return false;
    };
    let right = *count == row.count.rfc && row.count.uc == 0 && *count > 0;
    *count = 0;
    right
}

// Whether each row has the count of its page, with no update open, and each page without a row is mapped once at most.
fn are_right(counts: Vec<u32>, rows: &[Row]) -> bool {
    let mut counts = counts;
    for row in rows {
        if !take_row(&mut counts, row) {
            return false;
        }
    }
    counts.iter().all(|&count| count <= 1)
}

// The words of a volume that was just mounted are at rest: no file is dying, each count is that of the places that map its
// page, and the free pages are those that are left.
pub fn is_at_rest<D: Pm, F: Fingerprint>(
    rt: &impl Abort,
    alloc: Global,
    v: &Volume<D, F>,
) -> Result<(), Fail> {
    let counts = counts_of(alloc, 64, &v.parts.inodes)?;
    match check_words(alloc, words_of(alloc, v.device())?)? {
        Finding::Fault(fault) => assert!(rt; false, "{fault:?}"),
        Finding::Sound {
            dying,
            rows,
            free,
            exact,
            ..
        } => {
            assert!(rt; dying == 0 && exact, "dying {dying}, exact {exact}");
            assert!(rt; are_right(counts, rows.rows()), "{rows:?}");
            assert_eq!(rt; v.free_pages(), free);
        }
    }
    Ok(())
}
