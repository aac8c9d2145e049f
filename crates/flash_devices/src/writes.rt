ghost use Rattle.std.specs.Prelude.{◌≡◌, ◌+◌, ◌*◌, ◌<◌, ◌≤◌, length};
ghost use Rattle.base_core.specs.Block.{block_bytes};
ghost use Rattle.flash_core.specs.Touches.{TouchesOnly};
ghost use Rattle.flash_devices.specs.Meters.{CountsMet, counts_in};

use crate::meters::raised;
use base_core::BLOCK_BYTES;

/// Raises the count of each block of 4096 bytes that has one of so many bytes from a place on.
pub fn count_met(counts: &mut Vec<u64>, at: usize, len: usize)
    requires inside { at + len ≤ block_bytes * length counts.old.items }
    requires fits { at + len ≤ 18446744073709551615 }
    ensures size { length counts.new.items ≡ length counts.old.items }
    ensures met { CountsMet at len (counts_in counts.old.items) (counts_in counts.new.items) }
    ensures touches { TouchesOnly at (at + len) (counts_in counts.old.items) (counts_in counts.new.items) }
{
    let block = BLOCK_BYTES as usize;
    let first = at / block;
    let end = (at + len).div_ceil(block);
    let all = counts.as_mut_slice();
    for b in first..end {
        all[b] = raised(all[b]);
    }
}
