// The laws by which an operation on names is proved: a creation, a removal or a renaming. Each function states some; it
// does nothing.
ghost use Rattle.name_ops.specs.Landing.{NamesAnswer, NamesBreak};
ghost use Rattle.name_ops.specs.Preparing.{NamesPrepare};

use fingerprint::Fingerprint;
use pm_device::Pm;

/// Its first advance, which stores and flushes what has to stand before, goes on.
pub fn names_prepare<D: Pm, F: Fingerprint>()
    ensures { NamesPrepare D F D.state }
{}

/// Once its words have changed together, its last advance answers it; where a fence failed, it is in flight still.
pub fn names_commit<D: Pm, F: Fingerprint>()
    ensures answers { NamesAnswer D F D.state }
    ensures breaks { NamesBreak D F D.state }
{}
