//! A worked use of the laws of single changes: the life of one file on an empty disk.
#![tactic(auto)]

ghost use Rattle.law_example.specs.Life.{FilesLive};

use law_names::names;
use law_table_on_disk::counted;
use law_write::writes;
use recovery::laws;

/// On an empty disk a file is created, a text is written to it, another is written over it, and the file is removed:
/// after each step the disk is valid and this program's, and its files are those after the operation. In the end there
/// are none. The function does nothing; its calls name the laws from which that follows.
pub fn file_lives_and_goes()
    ensures { FilesLive }
{
    laws::empty_disks();
    counted::mappings_are_places();
    names::operations_change_names();
    names::name_changes_stay_valid();
    names::name_changes_keep_data();
    names::operations_name();
    names::operations_change_files();
    writes::runs_make_writes();
    writes::writes_stay_valid();
    writes::writes_put_text();
    writes::writes_are_writes();
    writes::writes_stay_own();
    writes::writes_take_and_free();
}
