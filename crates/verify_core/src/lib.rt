//! Whose manifests pass: a test beside their format, that the caller of the updater hands in.
#![tactic(auto)]

mod list;
mod verifier;

pub use list::{DigestList, LINE_BYTES, LineFault, ListFault};
pub use verifier::{AnyManifest, Both, Verifier};
