// The plan of an operation on names.
ghost use Rattle.std.specs.Prelude.{◌≡◌, ◌+◌, ◌≤◌, ◌∷◌, [], All, None, IfOk, length};
ghost use Rattle.log_entry.specs.Name.{IsLegal};
ghost use Rattle.log_entry.specs.Spelling.{spelled};
ghost use Rattle.log_entry.specs.declared.item.LogItem.TheVariants.{Add, Forget};
ghost use Rattle.dn_model.specs.declared.op.Op.TheVariants.{Create, Remove, Rename};
ghost use Rattle.dn_model.specs.Apply.{names_of};
ghost use Rattle.dn_model.specs.History.{name_slots};
ghost use Rattle.dn_volume.specs.Begins.{IsNamesOp};
ghost use Rattle.dn_volume.specs.PlannedNames.{inode_list};
ghost use Rattle.name_ops.specs.Finding.{IsAlone, IsPlanOf, Turns, op_slots};

use dn_model::{NoMemory, Op};
use dn_volume::Turn;
use log_entry::{LogItem, Name, write_item};
use std::alloc::{AllocError, Global};

/// What an operation on names will do, before it has its pages.
#[derive(Debug, Drop)]
pub struct NamesPlan {
    /// The inode that comes to life or is dying, or the one that is renamed where none is replaced.
    pub node: u64,
    /// What becomes of it.
    pub turn: Turn,
    /// The inodes that it holds.
    pub held: Vec<u64>,
    /// The slots of its items in the root's log.
    pub slots: Vec<[u64; 8]>,
    /// The name that the index gets at the commit.
    pub put: Option<Name>,
}

// The slots of a name's item in a log: 40 bytes stand in the first, 56 in each other.
fn slots_of_name(name: &[u8]) -> u64
    ensures { result ≡ name_slots name.now }
{
    let more = name.len().saturating_sub(40);
    1 + more.div_ceil(56) as u64
}

/// The slots of the items of an operation on names.
pub fn slots_of_op(op: &Op) -> u64
    ensures { result ≡ op_slots op.now }
{
    match op {
        Op::Create { name } => slots_of_name(name.bytes()),
        Op::Remove { name } => slots_of_name(name.bytes()),
        Op::Rename { from, to } => slots_of_name(from.bytes()) + slots_of_name(to.bytes()),
        _ => 0,
    }
}

// A legal name, as the log and the index keep it.
fn name_of(alloc: Global, name: &[u8]) -> Result<Name, NoMemory>
    requires { IsLegal name.now }
    ensures { IfOk result (λ n. n ≡ name.now) }
{
    match Name::of(alloc, name) {
        Ok(name) => Ok(name),
        Err(_) => Err(AllocError),
    }
}

// The slots of the items of a creation, a removal or a renaming.
fn slots_to_add(alloc: Global, name: Name, ino: u64) -> Result<Vec<[u64; 8]>, NoMemory>
    requires { IsLegal name }
    ensures { IfOk result (λ slots. spelled (Add ino name ∷ []) ≡ slots.items) }
{
    let mut slots = Vec::new(alloc);
    write_item(&LogItem::Add { ino, name }, &mut slots)?;
    Ok(slots)
}

fn slots_to_forget(alloc: Global, name: Name) -> Result<Vec<[u64; 8]>, NoMemory>
    requires { IsLegal name }
    ensures { IfOk result (λ slots. spelled (Forget name ∷ []) ≡ slots.items) }
{
    let mut slots = Vec::new(alloc);
    write_item(&LogItem::Forget { name }, &mut slots)?;
    Ok(slots)
}

fn slots_to_move(alloc: Global, from: Name, to: Name, ino: u64) -> Result<Vec<[u64; 8]>, NoMemory>
    requires from { IsLegal from }
    requires to { IsLegal to }
    ensures { IfOk result (λ slots. spelled (Forget from ∷ Add ino to ∷ []) ≡ slots.items) }
{
    let mut slots = slots_to_forget(alloc, from)?;
    write_item(&LogItem::Add { ino, name: to }, &mut slots)?;
    Ok(slots)
}

// The inodes that it holds: the root, and then the files in the order in which it names them.
fn held_by(alloc: Global, ino: u64, other: Option<u64>) -> Result<Vec<u64>, NoMemory>
    ensures { IfOk result (λ held. held.items ≡ 0 ∷ ino ∷ inode_list other) }
{
    let mut held = Vec::with_capacity(alloc, 3)?;
    held.push_reserved(0);
    held.push_reserved(ino);
    if let Some(replaced) = other {
        held.push_reserved(replaced);
    }
    Ok(held)
}

fn plan_create(alloc: Global, name: &[u8], ino: u64) -> Result<NamesPlan, NoMemory>
    requires { IsLegal name.now }
    ensures { IfOk result (IsPlanOf (Create name.now) ino None) }
{
    Ok(NamesPlan {
        node: ino,
        turn: Turn::Comes,
        held: held_by(alloc, ino, None)?,
        slots: slots_to_add(alloc, name_of(alloc, name)?, ino)?,
        put: Some(name_of(alloc, name)?),
    })
}

fn plan_remove(alloc: Global, name: &[u8], ino: u64) -> Result<NamesPlan, NoMemory>
    requires { IsLegal name.now }
    ensures { IfOk result (IsPlanOf (Remove name.now) ino None) }
{
    Ok(NamesPlan {
        node: ino,
        turn: Turn::Goes,
        held: held_by(alloc, ino, None)?,
        slots: slots_to_forget(alloc, name_of(alloc, name)?)?,
        put: None,
    })
}

// The inode that turns in a renaming, and what becomes of it.
fn turn_of(ino: u64, other: Option<u64>) -> (u64, Turn)
    ensures { Turns ino other result.0 result.1 }
{
    match other {
        Some(replaced) => (replaced, Turn::Goes),
        None => (ino, Turn::Stays),
    }
}

fn plan_rename(
    alloc: Global,
    from: &[u8],
    to: &[u8],
    ino: u64,
    other: Option<u64>,
) -> Result<NamesPlan, NoMemory>
    requires from { IsLegal from.now }
    requires to { IsLegal to.now }
    ensures { IfOk result (IsPlanOf (Rename from.now to.now) ino other) }
{
    let (node, turn) = turn_of(ino, other);
    Ok(NamesPlan {
        node,
        turn,
        held: held_by(alloc, ino, other)?,
        slots: slots_to_move(alloc, name_of(alloc, from)?, name_of(alloc, to)?, ino)?,
        put: Some(name_of(alloc, to)?),
    })
}

/// The plan of an operation on names that makes, removes or renames this file, and replaces another.
///
/// # Errors
/// `NoMemory` where there is no memory for its lists.
pub fn plan_names(
    alloc: Global,
    op: &Op,
    ino: u64,
    other: Option<u64>,
) -> Result<NamesPlan, NoMemory>
    requires kind { IsNamesOp op.now }
    requires legal { All IsLegal (names_of op.now) }
    requires alone { IsAlone op.now other }
    ensures { IfOk result (IsPlanOf op.now ino other) }
{
    match op {
        Op::Create { name } => plan_create(alloc, name.bytes(), ino),
        Op::Remove { name } => plan_remove(alloc, name.bytes(), ino),
        Op::Rename { from, to } => plan_rename(alloc, from.bytes(), to.bytes(), ino, other),
        _ => unreachable!(),
    }
}
