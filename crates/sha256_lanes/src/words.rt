// The functions of FIPS 180-4, 4.1.2, on a word of each of four messages.

ghost use Rattle.std.specs.Prelude.{◌≡◌, ℕ, ◌<◌, ◌/◌, ◌^◌, bit_xor, slice_index};
ghost use Rattle.std.specs.Int.{w32, rotate_right};
ghost use Rattle.sha2.specs.Sha256.{add32, big_sigma0, big_sigma1, ch, maj, small_sigma0, small_sigma1};

use std::simd::u32x4;

#[inline(always)]
pub(crate) fn add(x: u32x4, y: u32x4) -> u32x4
    ensures { (j : ℕ) → j < 4 → slice_index result j ≡ add32 (slice_index x j) (slice_index y j) }
{
    x + y
}

#[inline(always)]
fn xor_three(x: u32x4, y: u32x4, z: u32x4) -> u32x4
    ensures { (j : ℕ) → j < 4 → slice_index result j ≡ bit_xor (bit_xor (slice_index x j) (slice_index y j)) (slice_index z j) }
{
    x ^ y ^ z
}

#[inline(always)]
fn shift_right(x: u32x4, by: u32) -> u32x4
    requires { by < 32 }
    ensures { (j : ℕ) → j < 4 → slice_index result j ≡ slice_index x j / 2 ^ by }
{
    x >> u32x4::splat(by)
}

#[inline(always)]
fn rotate_right(x: u32x4, by: u32) -> u32x4
    requires { (0 < by) × (by < 32) }
    ensures { (j : ℕ) → j < 4 → slice_index result j ≡ rotate_right w32 (slice_index x j) by }
{
    (x >> u32x4::splat(by)) | (x << u32x4::splat(32 - by))
}

#[inline(always)]
pub(crate) fn ch(x: u32x4, y: u32x4, z: u32x4) -> u32x4
    ensures { (j : ℕ) → j < 4 → slice_index result j ≡ ch (slice_index x j) (slice_index y j) (slice_index z j) }
{
    (x & y) ^ (!x & z)
}

#[inline(always)]
pub(crate) fn maj(x: u32x4, y: u32x4, z: u32x4) -> u32x4
    ensures { (j : ℕ) → j < 4 → slice_index result j ≡ maj (slice_index x j) (slice_index y j) (slice_index z j) }
{
    (x & y) ^ (x & z) ^ (y & z)
}

#[inline(always)]
pub(crate) fn big_sigma0(x: u32x4) -> u32x4
    ensures { (j : ℕ) → j < 4 → slice_index result j ≡ big_sigma0 (slice_index x j) }
{
    xor_three(rotate_right(x, 2), rotate_right(x, 13), rotate_right(x, 22))
}

#[inline(always)]
pub(crate) fn big_sigma1(x: u32x4) -> u32x4
    ensures { (j : ℕ) → j < 4 → slice_index result j ≡ big_sigma1 (slice_index x j) }
{
    xor_three(rotate_right(x, 6), rotate_right(x, 11), rotate_right(x, 25))
}

#[inline(always)]
pub(crate) fn small_sigma0(x: u32x4) -> u32x4
    ensures { (j : ℕ) → j < 4 → slice_index result j ≡ small_sigma0 (slice_index x j) }
{
    xor_three(rotate_right(x, 7), rotate_right(x, 18), shift_right(x, 3))
}

#[inline(always)]
pub(crate) fn small_sigma1(x: u32x4) -> u32x4
    ensures { (j : ℕ) → j < 4 → slice_index result j ≡ small_sigma1 (slice_index x j) }
{
    xor_three(rotate_right(x, 17), rotate_right(x, 19), shift_right(x, 10))
}
