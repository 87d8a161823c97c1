// What is known of the scripts of a job. Each function states a law; it does nothing.
ghost use Rattle.job_texts.specs.PlanLaws.{JobsRise, JobsAreAlone};

/// The clients of a job are numbered from 1 to 14, in rising order, and a job of one client has no other than client 1.
pub fn jobs_are_scripts()
    ensures rise { JobsRise }
    ensures alone { JobsAreAlone }
{}
