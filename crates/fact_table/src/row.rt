// Whether a slot holds a fingerprint.
ghost use Rattle.std.specs.Prelude.{◌≡◌, ◌≢◌, ◌↔◌, IsTrue};

use fingerprint::FactSlot;

// Whether a slot holds this fingerprint.
pub(crate) fn has_print(held: &FactSlot, print: &[u8; 20]) -> bool
    ensures { IsTrue result ↔ (held.now.print ≡ print.now) }
{
    held.print == *print
}

// Whether a direct slot has a row, with this fingerprint.
pub(crate) fn has_row(held: &FactSlot, print: &[u8; 20]) -> bool
    ensures { IsTrue result ↔ ((held.now.page ≢ 0) × (held.now.print ≡ print.now)) }
{
    held.page != 0 && has_print(held, print)
}
