//! What a loss leaves, and chances, over blocks of a memory device. Block 3 begins at byte 12288.

use crate::fixtures::{ends, flash_of, holds, image, power_on, replaced, same, stands};
use base_core::put_le32;
use flash_core::{Flash, FlashStop, read_block};
use flash_devices::{Cut, MemoryFlash};
use runs_kit::only;
use std::alloc::Global;
use std::process::Abort;

fn one_cut(rt: &impl Abort, alloc: Global, landed: u32, back: bool) -> Vec<Cut> {
    let op = 2;
    only(alloc, Cut { op, landed, back }).expect(rt, "memory")
}

// Power is lost as block 3 is written over.
fn loses(rt: &impl Abort, flash: &mut MemoryFlash, bytes: &[u8]) {
    let end = replaced(rt, flash, 3, bytes);
    ends(rt, end, Err(FlashStop::Lost));
}

// The bytes of block 3.
fn block_three(rt: &impl Abort, alloc: Global, flash: &mut MemoryFlash) -> Vec<u8> {
    let mut block = image(rt, alloc, 1, 4096);
    holds(rt, flash.is_on() && flash.blocks() == 8, "it is ready");
    holds(rt, block.len() == 4096, "a block");
    let end = read_block(flash, 3, block.as_mut_slice());
    ends(rt, end, Ok(()));
    block
}

// A block is written over, cut in its program, and what was erased goes back or stays erased.
fn goes_back(rt: &impl Abort, alloc: Global, back: bool, rest: u8) {
    let cuts = one_cut(rt, alloc, 16, back);
    let mut flash = flash_of(rt, alloc, image(rt, alloc, 0x5A, 32768), cuts);
    loses(rt, &mut flash, &[0; 32]);
    power_on(rt, &mut flash);
    let block = block_three(rt, alloc, &mut flash);
    is_cut(rt, block.as_slice(), rest);
}

// A block has its first granule, and then this byte.
fn is_cut(rt: &impl Abort, block: &[u8], rest: u8) {
    stands(rt, block, 0, &[0; 16]);
    for at in [16, 32, 4095] {
        stands(rt, block, at, &[rest]);
    }
}

#[test]
fn erased_bytes_go_back_or_stay(rt: HostRuntime) {
    for (back, rest) in [(false, 0xFF), (true, 0x5A)] {
        goes_back(&rt, rt.alloc(), back, rest);
    }
}

// 32 bytes with the checksum of bytes 4 to 32 in front, and 16 bytes behind them.
fn sealed_and_more() -> [u8; 48] {
    let mut bytes = [0; 48];
    put_le32(&mut bytes, 0, 0x974F_0C94);
    put_le32(&mut bytes, 16, 32);
    bytes
}

// A device of eight blocks that are erased, with one of them guarded, on.
fn guarding(rt: &impl Abort, alloc: Global, guarded: u32, cuts: Vec<Cut>) -> MemoryFlash {
    let made = MemoryFlash::new(alloc, 8, cuts, Vec::new(alloc)).expect(rt, "a flash");
    let mut flash = made.guard(only(alloc, guarded).expect(rt, "memory"));
    power_on(rt, &mut flash);
    flash
}

// What a cut leaves is sealed, and neither the old block, nor the new one.
#[test]
fn a_seal_by_chance_counts_in_guarded_blocks(rt: HostRuntime) {
    let alloc = rt.alloc();
    has_chances(&rt, alloc, 3, 1);
    has_chances(&rt, alloc, 9, 0);
}

// With this block guarded, so many chances are counted.
fn has_chances(rt: &impl Abort, alloc: Global, guarded: u32, chances: u64) {
    let cuts = one_cut(rt, alloc, 32, false);
    let mut flash = guarding(rt, alloc, guarded, cuts);
    loses(rt, &mut flash, &sealed_and_more());
    power_on(rt, &mut flash);
    same(rt, flash.counts().chances, chances);
}
