// What the words of an image say of a log. The function does nothing: its contract is the law.
ghost use Rattle.log_walk.specs.Laws.{HasOneLog, HasOneFault, HasLogOrFault};

/// Words have one log of an inode at most, and one fault of it at most, and not both. So `walk` has one answer but
/// for want of memory: the items of the log that reads in the words, or the place of its fault.
pub fn one_answer()
    ensures log { HasOneLog }
    ensures fault { HasOneFault }
    ensures either { HasLogOrFault }
{}
