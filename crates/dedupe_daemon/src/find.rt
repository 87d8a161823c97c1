// The row with a fingerprint is looked up.
ghost use Rattle.std.specs.Prelude.{◌≡◌, ◌<◌, IfSome, IfNone};
ghost use Rattle.dn_model.specs.Disk.{Disk, rows};
ghost use Rattle.fact_table.specs.Seen.{as_row};
ghost use Rattle.fact_table.specs.Chained.{IsFound, HasNoRow};
ghost use Rattle.fact_table.specs.Table.{IsTable, HasTable};

use fact_scan::Row;
use fact_slot::Steps;
use fact_table::Fact;
use pm_device::Pm;
use std::marker::Brand;
use std::sync::ledger::{Blank, Ledger};

// The row with a fingerprint, over a ledger that counts the steps.
fn find_over<D: Pm, L: Ledger>(
    fact: &Fact,
    device: &D,
    print: &[u8; 20],
    blank: Blank,
) -> Option<Row>
    requires name { blank.name ≡ L.name }
    requires parts { blank.parts ≡ L.parts }
    requires part { 0 < blank.parts }
    requires table { HasTable (D.state device.now).now fact.now }
    ensures found { IfSome result (λ r. (d : Disk) → IsTable d (D.state device.now).now fact.now
        → IsFound (rows d) print.now (as_row r)) }
    ensures none { IfNone result ((d : Disk) → IsTable d (D.state device.now).now fact.now
        → HasNoRow (rows d) print.now) }
{
    let mut steps = Steps::<L>::new(blank);
    fact.find(device, print, &mut steps)
}

// The row with a fingerprint, or None where no row has it.
pub(crate) fn find_row<D: Pm>(fact: &Fact, device: &D, print: &[u8; 20]) -> Option<Row>
    requires table { HasTable (D.state device.now).now fact.now }
    ensures found { IfSome result (λ r. (d : Disk) → IsTable d (D.state device.now).now fact.now
        → IsFound (rows d) print.now (as_row r)) }
    ensures none { IfNone result ((d : Disk) → IsTable d (D.state device.now).now fact.now
        → HasNoRow (rows d) print.now) }
{
    find_over::<D, Brand>(fact, device, print, Blank::new(1))
}
