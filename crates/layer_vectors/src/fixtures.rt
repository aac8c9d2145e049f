//! What several of these tests are made of: bytes, flashes, and what is asked of them.

ghost use Rattle.std.specs.Prelude.{◌≡◌, IsTrue};

use flash_core::{Flash, FlashStop, replace};
use flash_devices::{Cut, MemoryFlash};
use std::alloc::Global;
use std::fmt::Debug;
use std::fs;
use std::process::Abort;
use std::rt::Files;

/// So many times this byte. A literal length would be computed element by element in each goal.
pub fn image(rt: &impl Abort, alloc: Global, byte: u8, len: usize) -> Vec<u8> {
    holds(rt, len <= 8_388_608, "a length");
    vec![in alloc; byte; len].expect(rt, "memory")
}

/// Puts these bytes at a place.
pub fn put(rt: &impl Abort, bytes: &mut [u8], at: usize, piece: &[u8]) {
    holds(rt, at <= bytes.len(), "a place");
    holds(rt, piece.len() <= bytes.len() - at, "room");
    bytes[at..at + piece.len()].copy_from_slice(piece);
}

/// Stops the test where other bytes stand at this place.
pub fn stands(rt: &impl Abort, bytes: &[u8], at: usize, wanted: &[u8]) {
    let end = at.saturating_add(wanted.len());
    same(rt, (at, bytes.get(at..end)), (at, Some(wanted)));
}

/// Stops the test where the two differ, and prints both. A call costs its test's proof less than the macro in its place.
pub fn same<T: Copy + PartialEq + Debug>(rt: &impl Abort, left: T, right: T) {
    assert_eq!(rt; left, right);
}

/// As `same`, of bytes. What `same` needs of its type is proved here alone.
pub fn are_bytes(rt: &impl Abort, bytes: &[u8], wanted: &[u8]) {
    same(rt, bytes, wanted);
}

/// As `same`, of three counts.
pub fn are_numbers(rt: &impl Abort, numbers: (u64, u64, u64), wanted: (u64, u64, u64)) {
    same(rt, numbers, wanted);
}

/// As `same`, of the ends of calls of a flash.
pub fn ends(rt: &impl Abort, end: Result<(), FlashStop>, wanted: Result<(), FlashStop>) {
    same(rt, end, wanted);
}

// What a call requires of a flash is asserted before it, and what it promises is left out, so that the tests' own proofs are short.

/// Power comes back.
pub fn power_on<D: Flash>(rt: &impl Abort, flash: &mut D) {
    holds(rt, !flash.is_on(), "power is off");
    flash.power_on();
}

/// The flash is on, and has eight blocks.
pub fn ready<D: Flash>(rt: &impl Abort, flash: &D)
    ensures power { IsTrue (D.on flash.now) }
    ensures size { D.blocks flash.now ≡ 8 }
{
    holds(rt, flash.is_on(), "power is on");
    holds(rt, flash.blocks() == 8, "eight blocks");
}

/// Reads up to a block from a flash of eight blocks.
pub fn read<D: Flash>(
    rt: &impl Abort,
    flash: &mut D,
    at: u32,
    out: &mut [u8],
) -> Result<(), FlashStop> {
    ready(rt, flash);
    holds(rt, at <= 28_672 && out.len() <= 4096, "a range");
    flash.read(at, out)
}

/// A read of a flash of eight blocks gives these bytes, 32 or fewer.
pub fn gives<D: Flash>(rt: &impl Abort, flash: &mut D, at: u32, wanted: &[u8]) {
    let mut out = [1; 32];
    holds(rt, wanted.len() <= 32, "few bytes");
    let out = &mut out[..wanted.len()];
    same(rt, read(rt, flash, at, out), Ok(()));
    stands(rt, out, 0, wanted);
}

/// Erases a block of a flash of eight blocks.
pub fn erase<D: Flash>(rt: &impl Abort, flash: &mut D, block: u32) -> Result<(), FlashStop> {
    ready(rt, flash);
    holds(rt, block < 8, "a block");
    flash.erase(block)
}

/// Arms a loss of power.
pub fn arm<D: Flash>(rt: &impl Abort, flash: &mut D, n: u32, k: u32) {
    holds(rt, n >= 1, "an operation");
    flash.arm(n, k);
}

/// Writes over a block of a flash of eight blocks.
pub fn replaced<D: Flash>(
    rt: &impl Abort,
    flash: &mut D,
    block: u32,
    bytes: &[u8],
) -> Result<(), FlashStop> {
    ready(rt, flash);
    holds(rt, block < 8, "a block");
    holds(rt, bytes.len() % 16 == 0, "granules");
    holds(
        rt,
        bytes.len() > 0 && bytes.len() <= 4096,
        "a block's bytes",
    );
    replace(flash, block, bytes)
}

/// A flash in memory with these bytes, on.
pub fn flash_of(rt: &impl Abort, alloc: Global, bytes: Vec<u8>, cuts: Vec<Cut>) -> MemoryFlash {
    let made = MemoryFlash::from_bytes(alloc, bytes, cuts, Vec::new(alloc));
    let mut flash = made.expect(rt, "a flash");
    power_on(rt, &mut flash);
    flash
}

/// Removes a file of the system.
pub fn removed(rt: &(impl Files + Abort), name: &str) {
    fs::remove_file(rt, name).expect(rt, "removed");
}

/// Stops the test where this does not hold, and prints what it is of. A call costs its test's proof less than the macro in its
/// place.
pub fn holds(rt: &impl Abort, is_so: bool, of: &str)
    ensures { IsTrue is_so }
{
    assert!(rt; is_so, "{of}");
}
