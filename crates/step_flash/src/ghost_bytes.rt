//! Bytes that contracts and proofs alone read.
ghost use Rattle.std.specs.Prelude.{◌≡◌, ℕ, List};
ghost use Rattle.std.specs.Coded.{coded_list, coded_ℕ};
ghost use base.Fml.{ftrue};

use std::marker::Model;

/// Bytes that are kept nowhere: they take no memory, and nothing is done for them at run time.
#[derive(Drop)]
pub(crate) struct GhostBytes {
    ghost bytes: { List ℕ } by { coded_list coded_ℕ },
}

impl Model for GhostBytes {
    ghost also_owns = { λ _. ftrue };
}

impl GhostBytes {
    /// These bytes.
    pub(crate) fn of(_bytes: &[u8]) -> GhostBytes
        ensures { result.bytes ≡ _bytes.now }
    {
        GhostBytes {}
    }
}
