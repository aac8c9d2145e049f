//! Worked values of the crates below that no row says, each by its public functions, as tests.
#![tactic(auto)]

#[cfg(test)]
mod boots_in_buffers;
#[cfg(test)]
mod file_flash;
#[cfg(test)]
mod fixtures;
#[cfg(test)]
mod hashes;
#[cfg(test)]
mod host_files;
#[cfg(test)]
mod journal_lines;
#[cfg(test)]
mod lists;
#[cfg(test)]
mod lists_of_files;
#[cfg(test)]
mod lying_reads;
#[cfg(test)]
mod made_files;
#[cfg(test)]
mod manifests;
#[cfg(test)]
mod memory_flash;
#[cfg(test)]
mod soak_rounds;
