//! What the begins of operations have in common: a name is looked up, the holder of an inode is found, an operation is
//! answered at once, and room is made for one that begins.
#![tactic(auto)]

pub mod answers;
pub mod holders;
pub mod names;
pub mod room;
pub mod starts;

pub use answers::answer;
pub use holders::first_holder;
pub use names::find_inode;
pub use room::{make_place_room, make_room};
pub use starts::{left_of, room_of, start};
