// The laws of runs. Each function states some; it does nothing.
ghost use Rattle.job_runs.specs.Answering.{EventsMayAnswer};
ghost use Rattle.job_runs.specs.Laws.{PlaysAreFronts, WholePlaysAreScripted, NextOpsFollow, EntriesAreOfClients};

use fingerprint::Fingerprint;
use pm_device::Pm;

/// The next event of a run may answer what it answers, and the run goes on from there.
pub fn events_may_answer<D: Pm, F: Fingerprint>()
    ensures { EventsMayAnswer D F D.state }
{}

/// The entries of a run are the first operations of each client's script, in order, and all of them once nothing is next.
pub fn runs_follow_scripts()
    ensures fronts { PlaysAreFronts }
    ensures whole { WholePlaysAreScripted }
    ensures next { NextOpsFollow }
    ensures clients { EntriesAreOfClients }
{}
