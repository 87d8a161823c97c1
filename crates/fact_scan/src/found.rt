// The rows that were read so far, with marks of what they have.
ghost use Rattle.std.specs.Prelude.{◌≡◌, ◌+◌, ◌-◌, ◌*◌, ◌^◌, ◌<◌, ◌≤◌, ◌↔◌, [], length, slice_index, IfOk, IfErr, OnOk, IsTrue, Contains};
ghost use Rattle.pm_layout.specs.Geometry.{IsAccepted, InData, directs, slots, slot_word};
ghost use Rattle.page_alloc.specs.Free.{GivesBack};
ghost use Rattle.dn_model.specs.Table.{prefix_of};
ghost use Rattle.fact_scan.specs.Seen.{as_row};
ghost use Rattle.fact_scan.specs.Scan.{IsFaultOf};
ghost use Rattle.fact_scan.specs.Found.{IsMarked, IsFoundTo, IsNew, Adds, TakesRow, IsRefusal, IsOnChain};

use crate::row::{Row, direct_of};
use crate::scan::ScanFault;
use fact_slot::{load_field, peek_slot};
use fingerprint::FactSlot;
use page_alloc::FreeSet;
use pm_device::Pm;
use pm_layout::{FACT_NEXT, FACT_PAGE, FACT_PRINT, Geometry};
use std::alloc::{AllocError, Global};
use std::collections::BTreeSet;

/// The rows that were read so far, prefix by prefix.
#[derive(Drop)]
pub(crate) struct Found {
    pub rows: Vec<Row>,
    // the indirect slots of the rows: number k stands for the k-th indirect slot
    pub slots: FreeSet,
    // the pages of the rows
    pub pages: FreeSet,
    // the fingerprints of the rows of the chain that is read; rows of different chains have different prefixes
    pub prints: BTreeSet<[u8; 20]>,
}

// Whether what a slot holds, with this third word of its fingerprint, is a row of the data area and of this prefix.
fn is_row(g: &Geometry, prefix: u64, third: u64, held: &FactSlot) -> bool
    requires { IsAccepted g.now }
    ensures { IsTrue result ↔
        (InData g.now held.now.page × (third < 2 ^ 32) × (prefix_of g.now held.now.print ≡ prefix)) }
{
    g.first_data() <= held.page
        && held.page < g.pages
        && third <= u64::from(u32::MAX)
        && direct_of(g, &held.print) == prefix
}

// Whether the slot is an indirect one.
fn is_indirect(g: &Geometry, slot: u64) -> bool
    requires { IsAccepted g.now }
    ensures { IsTrue result ↔ ((directs g.now ≤ slot) × (slot < slots g.now)) }
{
    g.directs() <= slot && slot < g.slots()
}

impl Found {
    /// No rows, for a table of an image with so many pages.
    pub fn none(alloc: Global, pages: u64) -> Result<Found, AllocError>
        ensures rows { IfOk result (λ f. f.rows.items ≡ []) }
        ensures slots { IfOk result (λ f. f.slots ≡ record { pages = pages; free = [] }) }
        ensures pages { IfOk result (λ f. f.pages ≡ record { pages = pages; free = [] }) }
    {
        Ok(Found {
            rows: Vec::new(alloc),
            slots: FreeSet::none(alloc, pages)?,
            pages: FreeSet::none(alloc, pages)?,
            prints: BTreeSet::new(alloc),
        })
    }

    /// The rows alone.
    pub fn into_rows(self) -> Vec<Row>
        ensures { result.items ≡ self.rows.items }
    {
        let Found { rows, .. } = self;
        rows
    }

    // Whether no row has this slot or this page, and no row of the chain has this fingerprint.
    fn is_new(&self, g: &Geometry, slot: u64, held: &FactSlot) -> bool
        ensures { IsTrue result ↔ IsNew g.now self.now slot held.now.page held.now.print }
    {
        let directs = g.directs();
        let met = slot >= directs && self.slots.is_free(slot - directs);
        !met && !self.pages.is_free(held.page) && !self.prints.contains(&held.print)
    }

    // Marks the slot of a row, where it is indirect.
    fn mark_slot(&mut self, g: &Geometry, slot: u64)
        requires accepted { IsAccepted g.now }
        requires set { self.old.slots.pages ≡ g.now.pages }
        requires slot { slot < slots g.now }
        requires new { directs g.now ≤ slot → ¬ Contains self.old.slots.free (slot - directs g.now) }
        ensures marks { directs g.now ≤ slot → GivesBack (slot - directs g.now) self.old.slots
            self.new.slots }
        ensures direct { slot < directs g.now → self.new.slots ≡ self.old.slots }
        ensures fewer { directs g.now ≤ slot → g.now.pages - length self.new.slots.free <
            g.now.pages - length self.old.slots.free }
        ensures rows { self.new.rows ≡ self.old.rows }
        ensures pages { self.new.pages ≡ self.old.pages }
        ensures prints { self.new.prints ≡ self.old.prints }
    {
        let directs = g.directs();
        if slot >= directs {
            self.slots.give_back(slot - directs);
        }
    }

    // Adds a row that is new.
    fn add(&mut self, g: &Geometry, row: Row) -> Result<(), AllocError>
        requires accepted { IsAccepted g.now }
        requires marked { IsMarked g.now self.old }
        requires slot { row.slot < slots g.now }
        requires page { row.page < g.now.pages }
        requires new { IsNew g.now self.old row.slot row.page row.print }
        ensures { OnOk result (Adds g.now (as_row row) self.old self.new) }
    {
        self.prints.insert(row.print)?;
        self.rows.push(row)?;
        self.pages.give_back(row.page);
        self.mark_slot(g, row.slot);
        Ok(())
    }

    // Takes the row that stands in a slot, and answers the next word of the slot.
    fn take_row<D: Pm>(
        &mut self,
        device: &D,
        g: &Geometry,
        prefix: u64,
        slot: u64,
    ) -> Result<u64, ScanFault>
        requires accepted { IsAccepted g.now }
        requires size { length (D.state device.now).now ≡ 512 * g.now.pages }
        requires marked { IsMarked g.now self.old }
        requires slot { slot < slots g.now }
        ensures taken { OnOk result (TakesRow g.now (D.state device.now).now prefix slot self.old
            self.new) }
        ensures next { IfOk result (λ next. next ≡ slice_index (D.state device.now).now
            (slot_word g.now slot 5)) }
        ensures refused { IfErr result (λ fault. IsRefusal g.now (D.state device.now).now prefix
            slot self.old fault) }
    {
        let held = peek_slot(device, g, slot);
        let third = load_field(device, g, slot, FACT_PRINT + 2);
        if !is_row(g, prefix, third, &held) || !self.is_new(g, slot, &held) {
            return Err(ScanFault::BadTable { slot });
        }
        match self.add(g, Row::of_slot(slot, &held)) {
            Ok(()) => Ok(held.next),
            Err(_) => Err(ScanFault::NoMemory),
        }
    }

    // Begins the chain of a prefix: takes the row of the direct slot, if it has one, and answers the slot's next word.
    fn begin_chain<D: Pm>(
        &mut self,
        device: &D,
        g: &Geometry,
        prefix: u64,
    ) -> Result<u64, ScanFault>
        requires accepted { IsAccepted g.now }
        requires size { length (D.state device.now).now ≡ 512 * g.now.pages }
        requires prefix { prefix < directs g.now }
        requires found { IsFoundTo g.now (D.state device.now).now prefix self.old }
        ensures begun { IfOk result (λ next. IsOnChain g.now (D.state device.now).now prefix
            self.new prefix next) }
        ensures fault { IfErr result (λ fault. IsFaultOf g.now (D.state device.now).now fault) }
    {
        self.prints.clear();
        if load_field(device, g, prefix, FACT_PAGE) == 0 {
            return Ok(load_field(device, g, prefix, FACT_NEXT));
        }
        self.take_row(device, g, prefix, prefix)
    }

    /// Reads the chain of a prefix, behind those of all prefixes before.
    ///
    /// # Errors
    /// `BadTable` where the table has its first fault there, and `NoMemory`. Then the rows are of no use any more.
    pub fn read_chain<D: Pm>(
        &mut self,
        device: &D,
        g: &Geometry,
        prefix: u64,
    ) -> Result<(), ScanFault>
        requires accepted { IsAccepted g.now }
        requires size { length (D.state device.now).now ≡ 512 * g.now.pages }
        requires prefix { prefix < directs g.now }
        requires found { IsFoundTo g.now (D.state device.now).now prefix self.old }
        ensures read { OnOk result (IsFoundTo g.now (D.state device.now).now (prefix + 1) self.new) }
        ensures fault { IfErr result (λ fault. IsFaultOf g.now (D.state device.now).now fault) }
    {
        let mut holder = prefix;
        let mut next = self.begin_chain(device, g, prefix)?;
        while next != 0 {
            if !is_indirect(g, next) {
                return Err(ScanFault::BadTable { slot: holder });
            }
            let behind = self.take_row(device, g, prefix, next)?;
            holder = next;
            next = behind;
        }
        Ok(())
    }
}
