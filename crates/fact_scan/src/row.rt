// A row of the table, and the direct slot of its fingerprint.
ghost use Rattle.std.specs.Prelude.{◌≡◌, ◌<◌};
ghost use Rattle.pm_layout.specs.Geometry.{IsAccepted, directs};
ghost use Rattle.dn_model.specs.Table.{prefix_of};

use fingerprint::{CountWord, FactSlot};
use pm_layout::Geometry;

/// A row of the table of fingerprints.
#[derive(Clone, Copy, Debug, PartialEq, Eq)]
pub struct Row {
    /// The number of the slot that it stands in.
    pub slot: u64,
    /// The fingerprint of its page.
    pub print: [u8; 20],
    /// The number of the page that it stands for.
    pub page: u64,
    /// How often the page is used.
    pub count: CountWord,
}

impl Row {
    ghost use Rattle.std.specs.Prelude.{◌≡◌};

    /// The row that a slot holds.
    pub fn of_slot(slot: u64, held: &FactSlot) -> Row
        ensures { result ≡ record {
          slot = slot;
          print = held.now.print;
          page = held.now.page;
          count = held.now.count;
        } }
    {
        Row {
            slot,
            print: held.print,
            page: held.page,
            count: held.count,
        }
    }
}

/// The direct slot of a fingerprint's prefix.
pub fn direct_of(g: &Geometry, print: &[u8; 20]) -> u64
    requires { IsAccepted g.now }
    ensures slot { result ≡ prefix_of g.now print.now }
    ensures direct { result < directs g.now }
{
    let first = u64::from(print[0]) * 256 + u64::from(print[1]);
    first >> (16 - g.prefix_bits())
}
