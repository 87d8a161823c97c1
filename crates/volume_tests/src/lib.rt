//! Trials of whole runs on devices in memory: jobs and events, what is told of them, and what they leave.
#![tactic(auto)]

#[cfg(test)]
mod clients;
#[cfg(test)]
mod events;
#[cfg(test)]
mod harness;
#[cfg(test)]
mod jobs;
#[cfg(test)]
mod looks;
