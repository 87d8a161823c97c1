//! Trials of the device, the spellings of an image, and what is kept in plain memory.
#![tactic(auto)]

#[cfg(test)]
mod device;
#[cfg(test)]
mod free_pages;
#[cfg(test)]
mod geometry;
#[cfg(test)]
mod items;
#[cfg(test)]
mod maps;
#[cfg(test)]
mod prints;
#[cfg(test)]
mod queue;
