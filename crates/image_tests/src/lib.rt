//! Trials of the stores of an image, and of images that are read, judged and made.
#![tactic(auto)]

#[cfg(test)]
mod chains;
#[cfg(test)]
mod checks;
#[cfg(test)]
mod cleaning;
#[cfg(test)]
mod content;
#[cfg(test)]
mod formatting;
#[cfg(test)]
mod growth;
#[cfg(test)]
mod heads;
#[cfg(test)]
mod image;
#[cfg(test)]
mod journal;
#[cfg(test)]
mod logs;
#[cfg(test)]
mod tables;
#[cfg(test)]
mod walks;
