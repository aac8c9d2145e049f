//! The test of a manifest, and the tests made of others.
ghost use Rattle.std.specs.Prelude.{◌≡◌, ◌&&◌, ℕ, Bool, List};
ghost use Rattle.fwu_formats.specs.Digests.{passes_any};

/// A test of manifests beside their format.
pub trait Verifier {
    /// Whether it passes these bytes.
    ghost passes: { Self → List ℕ → Bool };

    /// Whether it passes the manifest, which is given whole and without what follows it.
    fn accepts(&self, manifest: &[u8]) -> bool
        ensures { result ≡ passes self.now manifest.now };
}

/// Each manifest passes.
#[derive(Clone, Copy)]
pub struct AnyManifest;

impl Verifier for AnyManifest {
    ghost passes = { λ any manifest. passes_any manifest };

    fn accepts(&self, _manifest: &[u8]) -> bool {
        true
    }
}

/// The manifests pass that pass both.
#[derive(Drop)]
pub struct Both<A, B> {
    pub first: A,
    pub second: B,
}

impl<A: Verifier, B: Verifier> Verifier for Both<A, B> {
    ghost passes = { λ both manifest. A.passes both.first manifest && B.passes both.second manifest };

    fn accepts(&self, manifest: &[u8]) -> bool {
        self.first.accepts(manifest) && self.second.accepts(manifest)
    }
}
