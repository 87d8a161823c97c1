// The rows of a prefix that don't stand in its direct slot.
ghost use Rattle.std.specs.Prelude.{◌≡◌, ◌+◌, ◌*◌, ◌≤◌, ℕ, List, length, IfSome, IfNone};
ghost use Rattle.pm_layout.specs.Geometry.{IsAccepted};
ghost use Rattle.dn_model.specs.Table.{Row as TableRow};
ghost use Rattle.fact_table.specs.Seen.{as_row};
ghost use Rattle.fact_table.specs.Chained.{IsChainFrom, HasChain, IsFound, HasNoRow};

use crate::row::has_print;
use fact_chain::read_chain;
use fact_scan::Row;
use fact_slot::Steps;
use pm_device::Pm;
use pm_layout::Geometry;
use std::sync::ledger::Ledger;

/// The row of a chain that has a fingerprint, or None where none has it. The chain begins with the slot `first`, or
/// has no row where that is 0. It makes at most one step for each row.
pub fn find_chained<D: Pm, L: Ledger>(
    device: &D,
    g: &Geometry,
    print: &[u8; 20],
    first: u64,
    steps: &mut Steps<L>,
) -> Option<Row>
    requires accepted { IsAccepted g.now }
    requires size { length (D.state device.now).now ≡ 512 * g.now.pages }
    requires chain { HasChain g.now (D.state device.now).now first }
    ensures found { IfSome result (λ r. (rows : List TableRow)
        → IsChainFrom g.now (D.state device.now).now first rows → IsFound rows print.now (as_row r)) }
    ensures none { IfNone result ((rows : List TableRow)
        → IsChainFrom g.now (D.state device.now).now first rows → HasNoRow rows print.now) }
    ensures cost { (rows : List TableRow) → IsChainFrom g.now (D.state device.now).now first rows
        → steps.new ≤ steps.old + length rows }
{
    let mut slot = first;
    for _i in 0..g.pages {
        if slot == 0 {
            return None;
        }
        let held = read_chain(device, g, slot, steps);
        if has_print(&held, print) {
            return Some(Row::of_slot(slot, &held));
        }
        slot = held.next;
    }
    None
}
