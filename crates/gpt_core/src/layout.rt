//! Where the blocks of a flash stand in a device.

ghost use Rattle.std.specs.Prelude.{◌≡◌, ◌+◌, ◌*◌, ◌<◌, ◌≤◌};
ghost use Rattle.base_core.specs.Block.{block_bytes, most_blocks};
ghost use Rattle.gpt_core.specs.Places.{Fit, behind, byte_behind};

use base_core::BLOCK_BYTES;
use thiserror::Error;

/// Where the blocks of a flash stand in a device: the store's first block and how many it has, and the first blocks of both
/// metadata partitions.
#[derive(Clone, Copy, Debug, PartialEq, Eq)]
pub struct Places {
    pub store_first: u32,
    pub store_blocks: u32,
    pub replicas: [u32; 2],
}

impl Places {
    /// The block of the device that is this block of the flash.
    pub fn block(&self, b: u32) -> u32
        requires small { self.now.store_first + b < 4294967296 }
        ensures { result ≡ behind self.now b }
    {
        match b {
            1 => self.replicas[0],
            2 => self.replicas[1],
            _ => self.store_first + b,
        }
    }

    /// The byte of the device that is this byte of the flash.
    #[tactic(auto, unfolding(crate::specs::Places::byte_behind))]
    pub fn byte(&self, at: u32) -> u32
        requires fit { Fit most_blocks self.now }
        requires inside { at < block_bytes * self.now.store_blocks }
        ensures { result ≡ byte_behind self.now at }
    {
        BLOCK_BYTES * self.block(at / BLOCK_BYTES) + at % BLOCK_BYTES
    }
}

/// A table gives no places. NoStore: not exactly one partition is a store. Replicas: so many partitions are for metadata, and not
/// two. TooSmall: the store has fewer than 8 or more than 65,536 blocks, or one of the three isn't in the usable blocks, or two
/// share a block.
#[derive(Clone, Copy, Debug, PartialEq, Eq, Error)]
pub enum PlaceFault {
    #[error("not exactly one partition is a store")]
    NoStore,
    #[error("{0} partitions are for metadata, and not two")]
    Replicas(u32),
    #[error("the store has too few or too many blocks, or partitions lie outside the usable blocks or share one")]
    TooSmall,
    #[error("no memory")]
    NoMemory,
}
