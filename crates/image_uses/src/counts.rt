// How many pages are free, and how many are mapped.
ghost use Rattle.std.specs.Prelude.{◌≡◌, ◌↔◌, ◌+◌, ◌<◌, ◌≤◌, ℕ, List, length, IsTrue, IsFalse};
ghost use Rattle.pm_layout.specs.Geometry.{IsAccepted};
ghost use Rattle.dn_model.specs.Disk.{Disk, IsMapped};
ghost use Rattle.dn_model.specs.Faults.{HasFree};
ghost use Rattle.image_uses.specs.Uses.{IsCounted, HasReadLogs, HasSo};

use pm_layout::Geometry;

// Whether no log has a page and no place is mapped to it.
fn is_unused(in_logs: u32, mapped: u32) -> bool
    ensures { IsTrue result ↔ ((in_logs ≡ 0) × (mapped ≡ 0)) }
{
    in_logs == 0 && mapped == 0
}

// One more, if the test holds.
fn count_if(count: u64, test: bool) -> u64
    requires { count < 65536 }
    ensures yes { IsTrue test → result ≡ count + 1 }
    ensures no { IsFalse test → result ≡ count }
{
    if test { count + 1 } else { count }
}

/// How many pages of the data area no log has and no place is mapped to, from how many logs have each page and how
/// many places are mapped to it.
pub fn free_count(g: &Geometry, in_logs: &[u32], mapped: &[u32]) -> u64
    requires accepted { IsAccepted g.now }
    requires logs { length in_logs.now ≡ g.now.pages }
    requires mapped { length mapped.now ≡ g.now.pages }
    ensures { (d : Disk) → d.geometry ≡ g.now → IsCounted d in_logs.now mapped.now
        → HasFree d result }
{
    let mut free = 0;
    for page in g.first_data()..g.pages {
        free = count_if(
            free,
            is_unused(in_logs[page as usize], mapped[page as usize]),
        );
    }
    free
}

/// How many pages have a place that is mapped to them, from how many places are mapped to each page.
pub fn mapped_count(mapped: &[u32]) -> u64
    requires { length mapped.now ≤ 65536 }
    ensures { (d : Disk) (in_logs : List ℕ) → IsCounted d in_logs mapped.now → HasReadLogs d
        → HasSo (IsMapped d) result }
{
    let mut count = 0;
    for (page, places) in mapped.iter().enumerate() {
        count = count_if(count, *places > 0);
    }
    count
}
