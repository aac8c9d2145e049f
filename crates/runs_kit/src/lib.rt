//! What runs of the programs in tests begin with: the bytes of flashes, words, files, and what stops a run.
#![tactic(auto)]

mod flashes;
mod harness;
mod stops;

pub use flashes::{
    LAYOUT, LIST, MANIFEST, MANIFEST_2, MANIFEST_5, METADATA, ON_TRIAL, VERSION_1, blank,
    formatted, on_trial, put, put_bank, put_metadata, two_banks, with_manifest,
};
pub use harness::{
    NO_TROUBLE, Named, Trouble, add_file, files_of, flash_of, one_file, only, words_of,
};
pub use stops::NotMade;
