//! Bytes put one after another into a buffer: each call gives the place behind what it puts.
ghost use Rattle.std.specs.Prelude.{◌+◌, ◌≤◌, length};
ghost use Rattle.base_core.specs.Bytes.{le};
ghost use Rattle.base_core.specs.Puts.{PutsBytes};

use crate::numbers::put_at;

/// Puts bytes at a place, and gives the place behind them.
pub fn put(out: &mut [u8], at: usize, bytes: &[u8]) -> usize
    requires { at + length bytes.now ≤ length out.old }
    ensures { PutsBytes at (length bytes.now) bytes.now out.old out.new result }
{
    put_at(out, at, bytes);
    at + bytes.len()
}

/// Puts a byte at a place, and gives the place behind it.
pub fn put1(out: &mut [u8], at: usize, value: u8) -> usize
    requires { at + 1 ≤ length out.old }
    ensures { PutsBytes at 1 (le 1 value) out.old out.new result }
{
    put(out, at, &[value])
}

/// Puts a number at a place, as two bytes with the lowest first, and gives the place behind them.
pub fn put2(out: &mut [u8], at: usize, value: u16) -> usize
    requires { at + 2 ≤ length out.old }
    ensures { PutsBytes at 2 (le 2 value) out.old out.new result }
{
    put(out, at, &value.to_le_bytes())
}

/// Puts a number at a place, as four bytes with the lowest first, and gives the place behind them.
#[tactic(auto, using(crate::proofs::Spelled::four_spelled))]
pub fn put4(out: &mut [u8], at: usize, value: u32) -> usize
    requires { at + 4 ≤ length out.old }
    ensures { PutsBytes at 4 (le 4 value) out.old out.new result }
{
    put(out, at, &value.to_le_bytes())
}

/// Puts a number at a place, as eight bytes with the lowest first, and gives the place behind them.
#[tactic(auto, using(crate::proofs::Spelled::eight_spelled))]
pub fn put8(out: &mut [u8], at: usize, value: u64) -> usize
    requires { at + 8 ≤ length out.old }
    ensures { PutsBytes at 8 (le 8 value) out.old out.new result }
{
    put(out, at, &value.to_le_bytes())
}
