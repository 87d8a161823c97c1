//! Crashes that are run: operations are made event by event on a device in memory, and each image that a crash may leave
//! at any moment is mounted and looked at.
#![tactic(auto)]

#[cfg(test)]
mod asks;
#[cfg(test)]
mod cleaning;
#[cfg(test)]
mod contents;
#[cfg(test)]
mod courses;
#[cfg(test)]
mod fences;
#[cfg(test)]
mod generated;
#[cfg(test)]
mod images;
#[cfg(test)]
mod long;
#[cfg(test)]
mod opening;
#[cfg(test)]
mod operations;
#[cfg(test)]
mod shares;
#[cfg(test)]
mod worked;
