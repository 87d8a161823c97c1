// What a change of a flag or a mask keeps of a log. The function does nothing: its contract is the law.
ghost use Rattle.inode_log.specs.Reflags.{FlagKeepsLog, MaskKeepsLog};

/// A log without a fault has none after a flag of it was set, or a mask that has bits of the Write's pages alone.
pub fn no_new_fault()
    ensures flag { FlagKeepsLog }
    ensures mask { MaskKeepsLog }
{}
