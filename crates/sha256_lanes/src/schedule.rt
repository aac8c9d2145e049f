// The message schedule of a block of each of four messages (FIPS 180-4, 6.2.2, step 1).

ghost use Rattle.std.specs.Prelude.{◌≡◌, ℕ, ◌+◌, ◌*◌, ◌<◌, ◌≤◌, length, slice_index};
ghost use Rattle.sha2.specs.Sha256.{next_word, schedule, word_at};
ghost use Rattle.sha256_lanes.specs.Lanes.{AreBlocks, lane, of_four};

use crate::words::{add, small_sigma0, small_sigma1};
use std::simd::u32x4;

// The word at this byte of a block, high byte first.
#[inline(always)]
pub(crate) fn word_at(block: &[u8], at: usize) -> u32
    requires { at + 4 ≤ length block.now }
    ensures { result ≡ word_at block.now at }
{
    u32::from_be_bytes([block[at], block[at + 1], block[at + 2], block[at + 3]])
}

// The words that the blocks begin with; the others are zero.
#[inline(always)]
fn first_words(a: &[u8], b: &[u8], c: &[u8], d: &[u8]) -> [u32x4; 64]
    requires { AreBlocks a.now b.now c.now d.now }
    ensures { (j : ℕ) → j < 4 → (t : ℕ) → t < 16
        → slice_index (lane j result) t ≡ word_at (of_four a.now b.now c.now d.now j) (4 * t) }
{
    let mut w = [u32x4::splat(0); 64];
    for t in 0..16 {
        let at = 4 * t;
        w[t] = u32x4::from_array([
            word_at(a, at),
            word_at(b, at),
            word_at(c, at),
            word_at(d, at),
        ]);
    }
    w
}

// W t of each message from the words before it.
#[inline(always)]
fn next_word(w: &[u32x4; 64], t: usize) -> u32x4
    requires { (16 ≤ t) × (t < 64) }
    ensures { (j : ℕ) → j < 4 → slice_index result j ≡ next_word (lane j w.now) t }
{
    let near = add(small_sigma1(w[t - 2]), w[t - 7]);
    add(add(near, small_sigma0(w[t - 15])), w[t - 16])
}

// W 0, …, W 63 of each message's block.
#[inline(always)]
pub(crate) fn words_of_block(a: &[u8], b: &[u8], c: &[u8], d: &[u8]) -> [u32x4; 64]
    requires { AreBlocks a.now b.now c.now d.now }
    ensures { (j : ℕ) → j < 4 → lane j result ≡ schedule (of_four a.now b.now c.now d.now j) 48 }
{
    let mut w = first_words(a, b, c, d);
    for t in 16..64 {
        let word = next_word(&w, t);
        w[t] = word;
    }
    w
}
