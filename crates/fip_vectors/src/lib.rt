//! The tool over files and streams that fail or want memory and over files of the system, and worked tables of packages and
//! capsules. The expected values come from the layouts and from other programs.
#![tactic(auto)]

#[cfg(test)]
mod capsules;
#[cfg(test)]
mod faults;
#[cfg(test)]
mod fixtures;
#[cfg(test)]
mod memory;
#[cfg(test)]
mod real_files;
#[cfg(test)]
mod sizes;
#[cfg(test)]
mod tables;
#[cfg(test)]
mod unread;
