// The table as the volume holds it.
ghost use Rattle.std.specs.Prelude.{◌≡◌, ◌+◌, ◌-◌, ◌*◌, ◌<◌, ◌≤◌, ◌↔◌, ℕ, [], length, IfSome, IfNone, IsNone, IsTrue, Contains};
ghost use Rattle.pm_layout.specs.Geometry.{IsAccepted, directs, slots};
ghost use Rattle.dn_model.specs.Disk.{Disk, rows};
ghost use Rattle.fact_table.specs.Seen.{as_row};
ghost use Rattle.fact_table.specs.Chained.{behind_direct, IsFound, HasNoRow};
ghost use Rattle.fact_table.specs.Table.{IsTable, HasTable, IsAtSlot, IsOfPage, IsUnused, HasNoneAt, HasNoneOf, TakesSlot, GivesBackSlot};

use crate::chain::find_chained;
use crate::row::has_row;
use delete_pointer::entry_of;
use fact_direct::read_direct;
use fact_scan::{Row, direct_of};
use fact_slot::{Steps, peek_slot};
use page_alloc::FreeSet;
use pm_device::Pm;
use pm_layout::Geometry;
use std::marker::Model;
use std::sync::ledger::Ledger;

/// The table of fingerprints of a device, which each call is passed.
#[derive(Debug, Drop)]
pub struct Fact {
    geometry: Geometry,
    // number k stands for the k-th indirect slot
    free: FreeSet,
}

impl Model for Fact {
    ghost use Rattle.fact_table.specs.Table.{Table};

    ghost Value = { Table };

    ghost view = { λ f. record { geometry = f.geometry; free = f.free } };
}

impl Fact {
    // The table of a device of this geometry, with the indirect slots that have no row.
    pub(crate) fn of_parts(geometry: Geometry, free: FreeSet) -> Fact
        ensures { result ≡ record { geometry = geometry; free = free } }
    {
        Fact { geometry, free }
    }

    /// The geometry of the device that the table stands on.
    pub fn geometry(&self) -> Geometry
        ensures { result ≡ self.now.geometry }
    {
        self.geometry
    }

    /// Takes the least indirect slot from those that are kept as having no row, or None where there is none.
    pub fn take_slot(&mut self) -> Option<u64>
        requires accepted { IsAccepted self.old.geometry }
        requires set { self.old.free.pages ≡ self.old.geometry.pages }
        ensures none { IsNone result → self.old.free.free ≡ [] }
        ensures takes { IfSome result (λ slot. TakesSlot slot self.old self.new) }
    {
        if self.free.count() == 0 {
            return None;
        }
        let place = self.free.take()?;
        Some(self.geometry.directs() + place)
    }

    /// Gives an indirect slot back to those that are kept as having no row. It isn't one of them.
    pub fn give_back_slot(&mut self, slot: u64)
        requires accepted { IsAccepted self.old.geometry }
        requires set { self.old.free.pages ≡ self.old.geometry.pages }
        requires indirect { directs self.old.geometry ≤ slot }
        requires slot { slot < slots self.old.geometry }
        requires taken { ¬ Contains self.old.free.free (slot - directs self.old.geometry) }
        ensures gives_back { GivesBackSlot slot self.old self.new }
    {
        let place = slot - self.geometry.directs();
        self.free.give_back(place);
    }

    // Whether it is an indirect slot without a row.
    fn is_unused(&self, slot: u64) -> bool
        requires { IsAccepted self.now.geometry }
        ensures { IsTrue result ↔ IsUnused self.now slot }
    {
        let directs = self.geometry.directs();
        slot >= directs && self.free.is_free(slot - directs)
    }

    /// The row that stands in a slot, or None where none does.
    pub fn row_at<D: Pm>(&self, device: &D, slot: u64) -> Option<Row>
        requires table { HasTable (D.state device.now).now self.now }
        requires slot { slot < slots self.now.geometry }
        ensures found { IfSome result (λ r. (d : Disk) → IsTable d (D.state device.now).now self.now
            → IsAtSlot d slot (as_row r)) }
        ensures none { IfNone result ((d : Disk) → IsTable d (D.state device.now).now self.now
            → HasNoneAt d slot) }
    {
        if self.is_unused(slot) {
            return None;
        }
        let held = peek_slot(device, &self.geometry, slot);
        if held.page == 0 {
            return None;
        }
        Some(Row::of_slot(slot, &held))
    }

    /// The row of a page, or None where no row has the page.
    pub fn by_page<D: Pm>(&self, device: &D, page: u64) -> Option<Row>
        requires table { HasTable (D.state device.now).now self.now }
        requires page { page < self.now.geometry.pages }
        ensures found { IfSome result (λ r. (d : Disk) → IsTable d (D.state device.now).now self.now
            → IsOfPage d page (as_row r)) }
        ensures none { IfNone result ((d : Disk) → IsTable d (D.state device.now).now self.now
            → HasNoneOf d page) }
    {
        let slot = entry_of(device, &self.geometry, page)?;
        let row = self.row_at(device, slot)?;
        if row.page == page { Some(row) } else { None }
    }

    /// The row with a fingerprint, or None where no row has it. It makes at most one step more than rows are chained
    /// behind the direct slot of the fingerprint's prefix.
    pub fn find<D: Pm, L: Ledger>(
        &self,
        device: &D,
        print: &[u8; 20],
        steps: &mut Steps<L>,
    ) -> Option<Row>
        requires table { HasTable (D.state device.now).now self.now }
        ensures found { IfSome result (λ r. (d : Disk) → IsTable d (D.state device.now).now self.now
            → IsFound (rows d) print.now (as_row r)) }
        ensures none { IfNone result ((d : Disk) → IsTable d (D.state device.now).now self.now
            → HasNoRow (rows d) print.now) }
        ensures cost { (d : Disk) → IsTable d (D.state device.now).now self.now
            → steps.new ≤ steps.old + behind_direct self.now.geometry d.chain print.now + 1 }
    {
        let direct = direct_of(&self.geometry, print);
        let held = read_direct(device, &self.geometry, direct, steps);
        if has_row(&held, print) {
            return Some(Row::of_slot(direct, &held));
        }
        find_chained(device, &self.geometry, print, held.next, steps)
    }
}
