// The free pages of an image.
ghost use Rattle.std.specs.Prelude.{◌≡◌, ◌↔◌, ◌<◌, Contains, length, IfOk, IsTrue, IsFalse};
ghost use Rattle.pm_layout.specs.Geometry.{IsAccepted};
ghost use Rattle.page_alloc.specs.Free.{GivesBack, IsInOrder};
ghost use Rattle.dn_model.specs.Disk.{Disk};
ghost use Rattle.image_uses.specs.Uses.{IsCounted};
ghost use Rattle.image_keep.specs.Free.{AreFreePages};

use page_alloc::FreeSet;
use pm_layout::Geometry;
use std::alloc::{AllocError, Global};

// Whether no log has a page and no place is mapped to it.
fn is_unused(in_logs: u32, mapped: u32) -> bool
    ensures { IsTrue result ↔ ((in_logs ≡ 0) × (mapped ≡ 0)) }
{
    in_logs == 0 && mapped == 0
}

// Gives the page back, if the test holds.
fn give_if(set: &mut FreeSet, page: u64, test: bool)
    requires below { page < set.old.pages }
    requires taken { ¬ Contains set.old.free page }
    requires in_order { IsInOrder set.old }
    ensures yes { IsTrue test → GivesBack page set.old set.new }
    ensures no { IsFalse test → set.new ≡ set.old }
    ensures in_order { IsInOrder set.new }
{
    if test {
        set.give_back(page);
    }
}

/// The pages of the data area that no log has and no place is mapped to, from how many logs have each page and how many
/// places are mapped to it.
pub fn free_pages(
    alloc: Global,
    g: &Geometry,
    in_logs: &[u32],
    mapped: &[u32],
) -> Result<FreeSet, AllocError>
    requires accepted { IsAccepted g.now }
    requires logs { length in_logs.now ≡ g.now.pages }
    requires mapped { length mapped.now ≡ g.now.pages }
    ensures { IfOk result (λ set. (d : Disk) → d.geometry ≡ g.now
        → IsCounted d in_logs.now mapped.now → AreFreePages d set) }
{
    let mut set = FreeSet::none(alloc, g.pages)?;
    for page in g.first_data()..g.pages {
        give_if(
            &mut set,
            page,
            is_unused(in_logs[page as usize], mapped[page as usize]),
        );
    }
    Ok(set)
}
