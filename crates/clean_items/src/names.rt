// Of the root's log the last Add of each name stays, if no Forget of the name follows.
ghost use Rattle.std.specs.Prelude.{◌≡◌, ◌++◌, ◌∷◌, [], if◌then◌else◌, map, IfOk, OnOk};
ghost use Rattle.log_entry.specs.declared.item.LogItem.TheVariants.{Add};
ghost use Rattle.log_walk.specs.Items.{item_of};
ghost use Rattle.law_clean.specs.Cleaned.{last_adds};
ghost use Rattle.clean_items.specs.NamesLoop.{is_met, Meets, GoesBack};

use crate::NoMemory;
use file_index::NameMap;
use log_entry::{LogItem, Name};
use log_walk::Placed;
use std::alloc::Global;

// Whether a name was met.
fn is_met(met: &NameMap, name: &Name) -> bool
    ensures { result ≡ is_met met.now.map name.now }
{
    met.get(name).is_some()
}

// Meets a name.
fn meet(met: &mut NameMap, name: &Name) -> Result<(), NoMemory>
    ensures { OnOk result (Meets name.now met.old.map met.new.map) }
{
    let name = name.clone()?;
    met.reserve(1)?;
    met.put(name, 0);
    Ok(())
}

// Adds an Add of a name that wasn't met.
fn push_add(adds: &mut Vec<LogItem>, met: &NameMap, ino: u64, name: &Name) -> Result<(), NoMemory>
    ensures { OnOk result (adds.new.items ≡ adds.old.items ++
        (if is_met met.now.map name.now then [] else (Add ino name.now ∷ []))) }
{
    if is_met(met, name) {
        return Ok(());
    }
    let name = name.clone()?;
    adds.push(LogItem::Add { ino, name })?;
    Ok(())
}

// Adds an item, if it is an Add of a name that wasn't met, and meets its name.
fn go_back(adds: &mut Vec<LogItem>, met: &mut NameMap, item: &LogItem) -> Result<(), NoMemory>
    ensures { OnOk result
        (GoesBack item.now adds.old.items adds.new.items met.old.map met.new.map) }
{
    match item {
        LogItem::Add { ino, name } => {
            push_add(adds, met, *ino, name)?;
            meet(met, name)
        }
        LogItem::Forget { name } => meet(met, name),
        LogItem::Write { .. } | LogItem::Size { .. } => Ok(()),
    }
}

/// The items of the cleaned log of the root, from the items of its log. They are gone through from the last to the
/// first, and each is looked up among the names of those after it.
///
/// # Errors
/// `NoMemory` where there is no memory for the items or for the names.
pub fn cleaned_names(alloc: Global, items: &[Placed]) -> Result<Vec<LogItem>, NoMemory>
    ensures { IfOk result (λ adds. adds.items ≡ last_adds (map item_of items.now)) }
{
    let mut adds = Vec::new(alloc);
    let mut met = NameMap::new(alloc);
    for k in 0..items.len() {
        go_back(&mut adds, &mut met, &items[items.len() - 1 - k].item)?;
    }
    adds.reverse();
    Ok(adds)
}
