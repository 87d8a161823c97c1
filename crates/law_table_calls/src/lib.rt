//! Laws of calls of the table where the device stands for a valid disk.
//!
//! Each function states laws of all disks; it does nothing.
#![tactic(auto)]

ghost use Rattle.law_table_calls.specs.Calls.{CallLeavesDisks, CallMakesDisk, CallsLeaveDisks, CallsLeaveEach, CallsMakeDisk};

/// A call whose counts stay near the mappings, and whose new page is mapped: each image that a crash may leave on the way
/// stands for a valid disk that differs in its table alone, with the rows of before or those of after. In the end the
/// device stands for one with those of after.
pub fn one_call_is_made()
    ensures images { CallLeavesDisks }
    ensures made { CallMakesDisk }
{}

/// Such calls, one after another, each of which has a moment, in order: at each moment each image that a crash may leave
/// stands for a valid disk that differs in its table alone, with the rows after the calls that were made by then, or after
/// one more. In the end the device stands for one with the rows after all of them.
pub fn calls_are_made()
    ensures images { CallsLeaveDisks }
    ensures each { CallsLeaveEach }
    ensures made { CallsMakeDisk }
{}
