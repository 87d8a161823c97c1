//! Laws of what a run leaves at each of its moments.
//!
//! Each function states a law of all runs; it does nothing.
#![tactic(auto)]

ghost use Rattle.law_course.specs.Laws.{CoursesBegin, CoursesGoOn, CoursesStay, CoursesStop, CoursesAreTold};

/// Where each image that a stop may leave has the same files, a run may begin.
pub fn courses_begin()
    ensures { CoursesBegin }
{}

/// An operation adds its entry, if on the way each image has the files of before or of after it, and of after it
/// alone in the end.
pub fn courses_go_on()
    ensures { CoursesGoOn }
{}

/// Calls of the device that leave the files alone leave the run where it is.
pub fn courses_stay()
    ensures { CoursesStay }
{}

/// An operation that the device stopped may have happened or not.
pub fn courses_stop()
    ensures { CoursesStop }
{}

/// What stands so far is a course with the operations so far, and the history is legal.
pub fn courses_are_told()
    ensures { CoursesAreTold }
{}
