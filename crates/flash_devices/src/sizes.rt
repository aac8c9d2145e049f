ghost use Rattle.std.specs.Prelude.{◌≡◌, ℕ, ◌*◌, ◌≤◌, IfSome, IfNone};
ghost use Rattle.base_core.specs.Block.{block_bytes, fewest_blocks, most_blocks};

use base_core::{BLOCK_BYTES, FEWEST_BLOCKS, MOST_BLOCKS};

/// How many blocks make this many bytes, from 8 to 65,536.
pub fn blocks_of(len: u64) -> Option<u32>
    ensures some { IfSome result (λ b. (fewest_blocks ≤ b) × (b ≤ most_blocks) × (len ≡ block_bytes * b)) }
    ensures none { IfNone result ((b : ℕ) → fewest_blocks ≤ b → b ≤ most_blocks → len ≡ block_bytes * b → ⊥) }
{
    if len % u64::from(BLOCK_BYTES) != 0 {
        return None;
    }
    let blocks = len / u64::from(BLOCK_BYTES);
    if blocks < u64::from(FEWEST_BLOCKS) {
        return None;
    }
    if blocks > u64::from(MOST_BLOCKS) {
        return None;
    }
    Some(blocks as u32)
}
