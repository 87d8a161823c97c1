// The first page that is used twice.
ghost use Rattle.std.specs.Prelude.{◌≡◌, ◌↔◌, ◌<◌, ◌≤◌, ℕ, Bool, length, IfSome, IfNone, IsTrue};
ghost use Rattle.dn_model.specs.Disk.{Disk};
ghost use Rattle.dn_model.specs.Faults.{IsLeast, IsDouble};
ghost use Rattle.image_uses.specs.Uses.{IsUsedTwice, IsCounted, MarksRows, HasReadLogs};

// Whether a page is in two logs, or in one and mapped or in a row, or mapped twice without a row.
fn is_used_twice(in_logs: u32, mapped: u32, has_row: bool) -> bool
    ensures { IsTrue result ↔ IsUsedTwice in_logs mapped has_row }
{
    in_logs > 1 || (in_logs == 1 && (mapped > 0 || has_row)) || (!has_row && mapped > 1)
}

/// The first page that is in two logs, or in a log and mapped or in a row, or mapped twice without a row; from how many
/// logs have each page, how many places are mapped to it, and whether it has a row.
pub fn double_fault(in_logs: &[u32], mapped: &[u32], has_row: &[bool]) -> Option<u64>
    requires mapped { length mapped.now ≡ length in_logs.now }
    requires rows { length has_row.now ≡ length in_logs.now }
    ensures some { IfSome result (λ page. (d : Disk) → IsCounted d in_logs.now mapped.now
        → MarksRows d has_row.now → IsLeast d.geometry.pages (IsDouble d) page) }
    ensures none { IfNone result ((d : Disk) → IsCounted d in_logs.now mapped.now
        → MarksRows d has_row.now → HasReadLogs d → (page : ℕ) → IsDouble d page → ⊥) }
{
    for page in 0..in_logs.len() {
        if is_used_twice(in_logs[page], mapped[page], has_row[page]) {
            return Some(page as u64);
        }
    }
    None
}
