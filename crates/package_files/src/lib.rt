//! The files of a program that has a package in memory and nothing to write to: one file, read where it lies.
#![tactic(auto)]

mod files;
#[cfg(test)]
mod tests;

pub use files::PackageFiles;
