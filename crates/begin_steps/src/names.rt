// The inode that a name leads to.
ghost use Rattle.std.specs.Prelude.{◌≡◌, IfOk, IfErr, List, ℕ};
ghost use Rattle.std.specs.Ordering.{nat_cmp};
ghost use Rattle.std.specs.Cmp.Lexicographic.{slice_cmp};
ghost use Rattle.std.specs.FinMap.{get};
ghost use Rattle.file_index.specs.Entries.{IsRising, HasKey, IsGap};

use file_index::NameMap;
use log_entry::Name;

// Where the entry of the name is, or where it would go.
fn search(entries: &[(Name, u64)], name: &[u8]) -> Result<usize, usize>
    requires { IsRising (slice_cmp nat_cmp) entries.now }
    ensures found { IfOk result (HasKey entries.now name.now) }
    ensures absent { IfErr result (IsGap (slice_cmp nat_cmp) entries.now name.now) }
{
    entries.binary_search_by(|entry| entry.0.bytes().cmp(name))
}

/// The inode that these bytes lead to as a name, if they lead to one. It takes no memory, and time that grows with the
/// logarithm of the number of names. Bytes that are no legal name lead to none.
pub fn find_inode(names: &NameMap, name: &[u8]) -> Option<u64>
    ensures { result ≡ get names.now.map name.now }
{
    let entries = names.entries();
    match search(entries, name) {
        Ok(at) => Some(entries[at].1),
        Err(_) => None,
    }
}
