// A message that goes on alone.

ghost use Rattle.std.specs.Prelude.{◌≡◌, ℕ, ◌++◌, ◌%◌, ◌^◌, List, length};
ghost use Rattle.sha2.specs.Sha256.{sha256};
ghost use Rattle.sha256_lanes.specs.Holding.{GoesOnAs, IsOfBlocks};

use crate::last::{digest_bytes, last_blocks};
use crate::one_block::compress;

/// One message, of whole blocks of 64 bytes so far.
#[derive(Clone, Copy, Drop)]
pub struct Message {
    // the hash value
    pub(crate) words: [u32; 8],
}

impl Message {
    /// Adds a piece of whole blocks.
    pub fn absorb(&mut self, piece: &[u8])
        requires { length piece.now % 64 ≡ 0 }
        ensures { (m : List ℕ) → GoesOnAs self.old m → GoesOnAs self.new (m ++ piece.now) }
    {
        let mut words = self.words;
        absorb_blocks(&mut words, piece);
        self.words = words;
    }

    /// The digest of the message with this rest behind it, which have so many bytes together, modulo 2^64.
    pub fn finish(&self, rest: &[u8], total: u64) -> [u8; 32]
        ensures { (m : List ℕ) → total ≡ length (m ++ rest.now) % 2 ^ 64 → GoesOnAs self.now m → result ≡ sha256 (m ++ rest.now) }
    {
        let mut words = self.words;
        let whole = rest.len() - rest.len() % 64;
        absorb_blocks(&mut words, &rest[..whole]);
        let (end, size) = last_blocks(&rest[whole..], total);
        absorb_blocks(&mut words, &end[..size]);
        digest_bytes(&words)
    }
}

// Takes in the blocks of a piece.
fn absorb_blocks(words: &mut [u32; 8], piece: &[u8])
    requires { length piece.now % 64 ≡ 0 }
    ensures { (m : List ℕ) → IsOfBlocks words.old m → IsOfBlocks words.new (m ++ piece.now) }
{
    'pieces: for i in 0..piece.len() / 64 {
        let at = 64 * i;
        compress(words, &piece[at..at + 64]);
    }
}
