// The digests of four messages that lie in memory.

ghost use Rattle.std.specs.Prelude.{◌≡◌, ℕ, ◌<◌, [], slice_index_or};
ghost use Rattle.sha2.specs.Sha256.{sha256};
ghost use Rattle.sha256_lanes.specs.Lanes.{of_four};

use crate::lanes::Lanes;

/// The digest of each of four messages. What they all have is hashed side by side, and the rest of each alone.
pub fn digests(a: &[u8], b: &[u8], c: &[u8], d: &[u8]) -> [[u8; 32]; 4]
    ensures { (j : ℕ) → j < 4 → slice_index_or result j [] ≡ sha256 (of_four a.now b.now c.now d.now j) }
{
    let least = a.len().min(b.len()).min(c.len().min(d.len()));
    let common = least - least % 64;
    let mut lanes = Lanes::new();
    lanes.absorb(&a[..common], &b[..common], &c[..common], &d[..common]);
    let first = lanes.finish(0, &a[common..], a.len() as u64);
    let second = lanes.finish(1, &b[common..], b.len() as u64);
    let third = lanes.finish(2, &c[common..], c.len() as u64);
    let fourth = lanes.finish(3, &d[common..], d.len() as u64);
    [first, second, third, fourth]
}
