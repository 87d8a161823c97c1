//! Trials of the table of fingerprints: calls at every moment.
#![tactic(auto)]

#[cfg(test)]
mod tests;
