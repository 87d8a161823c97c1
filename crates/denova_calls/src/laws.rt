// What each status of a call tells, and when it comes. Each function states laws of `tool`'s promise; it does nothing.
ghost use Rattle.std.specs.Prelude.{◌≡◌, ◌⊎◌, ℕ, ◌≤◌, None};
ghost use Rattle.dn_model.specs.Faults.{FaultOf};
ghost use Rattle.dn_model.specs.Own.{Print};
ghost use Rattle.dn_model.specs.declared.fault.ImageFault.{ImageFault};
ghost use Rattle.dn_script.specs.declared.job.JobFault.TheVariants.{BadLine, BadTurn, TooLong};
ghost use Rattle.denova_words.specs.Words.{command_of};
ghost use Rattle.denova_words.specs.declared.words.Command.TheVariants.{Run};
ghost use Rattle.call_endings.specs.Call.{Call};
ghost use Rattle.denova_calls.specs.Ends.{Ended};
ghost use Rattle.denova_calls.specs.Statuses.{At, EndsAt, Asks, IsDone, IsUsage, IsBadJob, IsFaulty, IsStopped, IsUnread, IsUnwritten, IsWithoutMemory, IsTooLong, IsBadTurn, IsRefused, HasJobFault, IsReady, ServesReady, IsWell, AsksForFile, AsksForNoFile, IsMakable, IsRefusable, SinkIsWell};

/// What each status tells. There is no other.
pub fn statuses_tell()
    ensures done { At 0 IsDone }
    ensures usage { At 1 IsUsage }
    ensures bad_job { At 2 IsBadJob }
    ensures faulty { At 3 IsFaulty }
    ensures stopped { At 4 IsStopped }
    ensures unread { At 5 IsUnread }
    ensures unwritten { At 6 IsUnwritten }
    ensures no_memory { At 7 IsWithoutMemory }
    ensures too_long { At 8 IsTooLong }
    ensures bad_turn { At 9 IsBadTurn }
    ensures refused { At 11 IsRefused }
    ensures known { (print : Print) (c : Call) → Ended print c → (c.status ≤ 9) ⊎ (c.status ≡ 11) }
{}

/// Without a command that is served a call ends with 1, unless a write fails or memory runs out.
pub fn words_without_a_command_are_told()
    ensures { EndsAt 1 7 (λ c. ((command_of c.words ≡ None) ⊎ Asks c Run) × SinkIsWell c) }
{}

/// A job with a fault is told so, unless memory runs out.
pub fn faults_of_jobs_are_told()
    ensures bad_line { EndsAt 2 7 (λ c. (line : ℕ) × HasJobFault (BadLine line) c) }
    ensures too_long { EndsAt 8 7 (HasJobFault TooLong) }
    ensures bad_turn { EndsAt 9 7 (λ c. (number : ℕ) × HasJobFault (BadTurn number) c) }
{}

/// An image with a fault is told so, unless memory runs out.
pub fn faults_of_images_are_told()
    ensures { EndsAt 3 7 (λ c. IsReady c × ((fault : ImageFault) × FaultOf c.before.now fault)) }
{}

/// What can be done is done, and what is to be refused is refused, unless memory runs out.
pub fn calls_are_completed()
    ensures serves { ServesReady }
    ensures shows { EndsAt 0 7 (λ c. AsksForFile c × IsWell c) }
    ensures lacks { EndsAt 11 7 (λ c. AsksForNoFile c × IsWell c) }
    ensures makes { EndsAt 0 7 IsMakable }
    ensures refuses { EndsAt 11 7 IsRefusable }
{}
