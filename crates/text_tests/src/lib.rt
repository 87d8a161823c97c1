//! Trials of the texts that are read and written: words, jobs, work, reports, and files that are only texts.
#![tactic(auto)]

#[cfg(test)]
mod files;
#[cfg(test)]
mod jobs;
#[cfg(test)]
mod listing;
#[cfg(test)]
mod report;
#[cfg(test)]
mod words;
#[cfg(test)]
mod work;
