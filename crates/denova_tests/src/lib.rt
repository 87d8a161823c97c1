//! Calls of the program over devices, sources and sinks in memory, and the standard streams.
#![tactic(auto)]

#[cfg(test)]
mod calls;
#[cfg(test)]
mod faults;
#[cfg(test)]
mod images;
#[cfg(test)]
mod jobs;
#[cfg(test)]
mod shares;
#[cfg(test)]
mod streams;
