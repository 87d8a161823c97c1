// What each status of a call tells, and when it comes. Each function states laws of `session`'s promise; it does nothing.
ghost use Rattle.std.specs.Prelude.{◌≡◌, ◌⊎◌, ℕ, ◌≤◌};
ghost use Rattle.dn_model.specs.Faults.{FaultOf};
ghost use Rattle.dn_model.specs.Image.{HasNoFault};
ghost use Rattle.dn_model.specs.Own.{Print};
ghost use Rattle.dn_model.specs.declared.fault.ImageFault.{ImageFault};
ghost use Rattle.dn_script.specs.declared.job.JobFault.TheVariants.{BadLine, TooLong};
ghost use Rattle.denova_words.specs.declared.words.Command.TheVariants.{Run};
ghost use Rattle.call_endings.specs.Call.{Call};
ghost use Rattle.denova_calls.specs.Statuses.{Asks, SinkIsWell};
ghost use Rattle.denova_session.specs.Ends.{Ended};
ghost use Rattle.denova_session.specs.Statuses.{At, EndsAt, IsDone, IsUsage, IsBadJob, IsFaulty, IsStopped, IsUnread, IsUnwritten, IsWithoutMemory, IsTooLong, TellsFault, IsReady};

/// What each status tells.
pub fn statuses_tell()
    ensures done { At 0 IsDone }
    ensures usage { At 1 IsUsage }
    ensures bad_job { At 2 IsBadJob }
    ensures faulty { At 3 IsFaulty }
    ensures stopped { At 4 IsStopped }
    ensures unread { At 5 IsUnread }
    ensures unwritten { At 6 IsUnwritten }
    ensures no_memory { At 7 IsWithoutMemory }
    ensures too_long { At 8 IsTooLong }
    ensures known { (print : Print) (c : Call) → Ended print c → c.status ≤ 9 }
{}

/// Words that don't ask for a run in threads end with 1, unless a write fails or memory runs out.
pub fn other_words_are_told()
    ensures { EndsAt 1 7 (λ c. (Asks c Run → ⊥) × SinkIsWell c) }
{}

/// A job with a fault is told so, unless memory runs out.
pub fn faults_of_jobs_are_told()
    ensures bad_line { EndsAt 2 7 (λ c. (line : ℕ) × TellsFault (BadLine line) c) }
    ensures too_long { EndsAt 8 7 (TellsFault TooLong) }
{}

/// An image with a fault is told so, unless memory runs out.
pub fn faults_of_images_are_told()
    ensures { EndsAt 3 7 (λ c. IsReady c × ((fault : ImageFault) × FaultOf c.before.now fault)) }
{}

/// A job without a fault is run on an image without one, unless something fails or memory runs out.
pub fn runs_are_completed()
    ensures { EndsAt 0 7 (λ c. IsReady c × HasNoFault c.before.now) }
{}
