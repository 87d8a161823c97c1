// The file of a name.
ghost use Rattle.std.specs.Prelude.{◌≡◌, IfOk, IfErr};
ghost use Rattle.data_begins.specs.Lookup.{IsFound, IsLookupRefusal};

use begin_steps::find_inode;
use dn_model::Refusal;
use file_index::NameMap;
use log_entry::is_legal;

/// The inode of the file with these bytes as its name. It takes no memory.
///
/// # Errors
/// `BadName` where the bytes are no legal name, and `NotFound` where no file has it.
pub fn find_file(names: &NameMap, name: &[u8]) -> Result<u64, Refusal>
    ensures found { IfOk result (IsFound names.now.map name.now) }
    ensures refused { IfErr result (IsLookupRefusal names.now.map name.now) }
{
    if !is_legal(name) {
        return Err(Refusal::BadName);
    }
    match find_inode(names, name) {
        Some(ino) => Ok(ino),
        None => Err(Refusal::NotFound),
    }
}
