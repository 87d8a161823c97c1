// A cut takes its pages.
ghost use Rattle.std.specs.Prelude.{◌≡◌, ◌+◌, ◌/◌, ◌≤◌, ◌++◌, ◌∷◌, [], length, All, IfOk, IsErr};
ghost use Rattle.page_alloc.specs.Free.{IsInOrder};
ghost use Rattle.log_entry.specs.Spelling.{IsSpelled, spelled};
ghost use Rattle.log_entry.specs.declared.item.LogItem.TheVariants.{Size as SizeItem};
ghost use Rattle.law_write.specs.Runs.{run_items};
ghost use Rattle.file_content.specs.Runs.{all_seen};
ghost use Rattle.size_ops.specs.Taking.{run_on, IsSound, IsMadeOf, TakesPlan};

use crate::plan::CutPlan;
use dn_model::NoMemory;
use file_content::runs::{Run, run_slots};
use file_write::plan::WritePlan;
use file_write::take::{take_pages, untake_pages};
use log_entry::{LogItem, write_item};
use page_alloc::FreeSet;
use std::alloc::Global;

// The run of the place that is filled anew, if there is one.
fn run_of(alloc: Global, first: u64, blocks: &[u64]) -> Result<Vec<Run>, NoMemory>
    ensures { IfOk result (λ runs. all_seen runs.items ≡ run_on first blocks.now) }
{
    let mut runs = Vec::new(alloc);
    match blocks.first() {
        None => Ok(runs),
        Some(block) => {
            runs.push(Run {
                first,
                count: 1,
                block: *block,
            })?;
            Ok(runs)
        }
    }
}

// The slots of the items of a cut: a Write for each run, and the size.
fn slots_of(alloc: Global, runs: &[Run], size: u64) -> Result<Vec<[u64; 8]>, NoMemory>
    requires runs { All IsSpelled (run_items (all_seen runs.now) size) }
    requires small { size ≤ 16777216 }
    ensures { IfOk result (λ slots. spelled
        (run_items (all_seen runs.now) size ++ SizeItem size ∷ []) ≡ slots.items) }
{
    let mut slots = run_slots(alloc, runs, size)?;
    write_item(&LogItem::Size { size }, &mut slots)?;
    Ok(slots)
}

// What a cut stores in these pages, of which the first are for its log.
fn plan_pages(alloc: Global, pages: &[u64], cut: &CutPlan) -> Result<WritePlan, NoMemory>
    requires sound { IsSound cut.now }
    requires count { length pages.now ≡ cut.now.log_pages + cut.now.pages }
    ensures { IfOk result (IsMadeOf cut.now pages.now) }
{
    let (log, places) = pages.split_at(cut.log_pages as usize);
    let blocks = Vec::from_slice(alloc, places)?;
    let fresh = Vec::from_slice(alloc, log)?;
    let first = cut.size / 4096;
    let runs = run_of(alloc, first, &blocks)?;
    let slots = slots_of(alloc, &runs, cut.size)?;
    Ok(WritePlan {
        first,
        size: cut.size,
        blocks,
        fresh,
        spare: Vec::new(alloc),
        runs,
        slots,
    })
}

/// Takes the pages of a cut: first the page for the log, then the one that is filled anew, each the least free one. A
/// page that is taken for the log is always needed: a cut has as many items as places, and its size.
///
/// # Errors
/// `NoMemory` where memory is wanting. The free pages are as they were then.
pub fn take_for_cut(alloc: Global, free: &mut FreeSet, cut: &CutPlan) -> Result<WritePlan, NoMemory>
    requires sound { IsSound cut.now }
    requires in_order { IsInOrder free.old }
    requires enough { cut.now.log_pages + cut.now.pages ≤ length free.old.free }
    ensures plan { IfOk result (TakesPlan cut.now free.old free.new) }
    ensures no_memory { IsErr result → free.new ≡ free.old }
{
    let pages = take_pages(alloc, free, cut.log_pages + cut.pages)?;
    match plan_pages(alloc, &pages, cut) {
        Ok(plan) => Ok(plan),
        Err(fault) => {
            untake_pages(free, pages);
            Err(fault)
        }
    }
}
