//! Runs of the program in memory that rows can't say. They have a loss of power at each erase and program, a failure of each
//! call, want of memory, what is noted, and files of the system. The expected values come from the standards and from other
//! programs.
#![tactic(auto)]

#[cfg(test)]
mod boots;
#[cfg(test)]
mod cuts;
#[cfg(test)]
mod faults;
#[cfg(test)]
mod packages;
#[cfg(test)]
mod partitioned;
#[cfg(test)]
mod real_files;
#[cfg(test)]
mod runs;
#[cfg(test)]
mod sendings;
#[cfg(test)]
mod servings;
#[cfg(test)]
mod soaks;
#[cfg(test)]
mod statuses;
#[cfg(test)]
mod tables;
#[cfg(test)]
mod texts;
#[cfg(test)]
mod values;
