// What the counts of rows tell, and rows in the order of their slots.
ghost use Rattle.std.specs.Prelude.{◌≡◌, ◌<◌, ◌↔◌, length, All, IsTrue, IfSome, IfNone};
ghost use Rattle.std.specs.List.Sorted.{IsPermutation, IsNonDecreasingBy};
ghost use Rattle.fact_scan.specs.declared.row.Row.{Row as RowValue};
ghost use Rattle.dn_check.specs.RowCounts.{IsNearBy, IsFirstFar, IsExactBy};

use fact_scan::Row;

// Whether the count of a row is near enough to the mappings of its page.
fn is_near(row: &Row, mapped: &[u32]) -> bool
    requires { row.now.page < length mapped.now }
    ensures { IsTrue result ↔ IsNearBy mapped.now row.now }
{
    let mappings = u64::from(mapped[row.page as usize]);
    let rfc = u64::from(row.count.rfc);
    let uc = u64::from(row.count.uc);
    mappings <= rfc + uc && rfc <= mappings + uc
}

// The slot of the first row whose count isn't near enough.
pub(crate) fn far_row(rows: &[Row], mapped: &[u32]) -> Option<u64>
    requires { All (λ row. row.page < length mapped.now) rows.now }
    ensures some { IfSome result (IsFirstFar mapped.now rows.now) }
    ensures none { IfNone result (All (IsNearBy mapped.now) rows.now) }
{
    for row in rows {
        if !is_near(row, mapped) {
            return Some(row.slot);
        }
    }
    None
}

// Whether a row counts its page's mappings, with none of them missing and no update under way.
fn is_exact(row: &Row, mapped: &[u32]) -> bool
    requires { row.now.page < length mapped.now }
    ensures { IsTrue result ↔ IsExactBy mapped.now row.now }
{
    row.count.uc == 0 && row.count.rfc == mapped[row.page as usize] && row.count.rfc != 0
}

// Whether all rows do.
pub(crate) fn are_exact(rows: &[Row], mapped: &[u32]) -> bool
    requires { All (λ row. row.page < length mapped.now) rows.now }
    ensures { IsTrue result ↔ All (IsExactBy mapped.now) rows.now }
{
    for row in rows {
        if !is_exact(row, mapped) {
            return false;
        }
    }
    true
}

// The rows in the order of their slots.
pub(crate) fn sorted(rows: Vec<Row>) -> Vec<Row>
    ensures same { IsPermutation rows.items result.items }
    ensures order { IsNonDecreasingBy (λ (row : RowValue). row.slot) result.items }
{
    let mut rows = rows;
    rows.sort_unstable_by_key(|row| row.slot);
    rows
}
