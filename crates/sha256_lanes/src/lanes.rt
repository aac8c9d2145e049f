// Four messages, hashed side by side.

ghost use Rattle.std.specs.Prelude.{◌≡◌, ◌≢◌, ℕ, ◌++◌, ◌%◌, ◌^◌, ◌<◌, List, [], length, slice_index};
ghost use Rattle.sha2.specs.Sha256.{sha256};
ghost use Rattle.sha256_lanes.specs.Holding.{GoesOnAs, HoldsInLane, IsOfBlocks, hash_values_of};
ghost use Rattle.sha256_lanes.specs.Lanes.{ArePieces, lane, of_four};

use crate::alone::Message;
use crate::consts::INITIAL_HASH;
use crate::rounds::compress;
use std::simd::u32x4;

/// Four messages side by side, each of whole blocks of 64 bytes.
#[derive(Clone, Copy, Drop)]
pub struct Lanes {
    // the words of the four hash values, a lane for each message
    h0: u32x4,
    h1: u32x4,
    h2: u32x4,
    h3: u32x4,
    h4: u32x4,
    h5: u32x4,
    h6: u32x4,
    h7: u32x4,
}

impl Lanes {
    /// Four empty messages.
    pub fn new() -> Lanes
        ensures { (j : ℕ) → j < 4 → HoldsInLane j result [] }
    {
        Lanes {
            h0: u32x4::splat(INITIAL_HASH[0]),
            h1: u32x4::splat(INITIAL_HASH[1]),
            h2: u32x4::splat(INITIAL_HASH[2]),
            h3: u32x4::splat(INITIAL_HASH[3]),
            h4: u32x4::splat(INITIAL_HASH[4]),
            h5: u32x4::splat(INITIAL_HASH[5]),
            h6: u32x4::splat(INITIAL_HASH[6]),
            h7: u32x4::splat(INITIAL_HASH[7]),
        }
    }

    fn state(&self) -> [u32x4; 8]
        ensures { result ≡ hash_values_of self.now }
    {
        [
            self.h0, self.h1, self.h2, self.h3, self.h4, self.h5, self.h6, self.h7,
        ]
    }

    /// Adds a piece to each message. The pieces are of one length, of whole blocks.
    pub fn absorb(&mut self, a: &[u8], b: &[u8], c: &[u8], d: &[u8])
        requires { ArePieces a.now b.now c.now d.now }
        ensures { (j : ℕ) → j < 4 → (m : List ℕ) → HoldsInLane j self.old m
            → HoldsInLane j self.new (m ++ of_four a.now b.now c.now d.now j) }
    {
        let mut state = self.state();
        absorb_blocks(&mut state, a, b, c, d);
        self.h0 = state[0];
        self.h1 = state[1];
        self.h2 = state[2];
        self.h3 = state[3];
        self.h4 = state[4];
        self.h5 = state[5];
        self.h6 = state[6];
        self.h7 = state[7];
    }

    /// Lane j begins a new message, and the others stay.
    pub fn restart(&mut self, j: usize)
        requires { j < 4 }
        ensures begun { HoldsInLane j self.new [] }
        ensures others { (i : ℕ) → i < 4 → i ≢ j → (m : List ℕ) → HoldsInLane i self.old m → HoldsInLane i self.new m }
    {
        self.h0 = with_word(self.h0, j, INITIAL_HASH[0]);
        self.h1 = with_word(self.h1, j, INITIAL_HASH[1]);
        self.h2 = with_word(self.h2, j, INITIAL_HASH[2]);
        self.h3 = with_word(self.h3, j, INITIAL_HASH[3]);
        self.h4 = with_word(self.h4, j, INITIAL_HASH[4]);
        self.h5 = with_word(self.h5, j, INITIAL_HASH[5]);
        self.h6 = with_word(self.h6, j, INITIAL_HASH[6]);
        self.h7 = with_word(self.h7, j, INITIAL_HASH[7]);
    }

    /// The message of lane j, to go on alone.
    pub fn message(&self, j: usize) -> Message
        requires { j < 4 }
        ensures { (m : List ℕ) → HoldsInLane j self.now m → GoesOnAs result m }
    {
        Message {
            words: words_of(&self.state(), j),
        }
    }

    /// The digest of the message of lane j with this rest behind it, which have so many bytes together, modulo 2^64.
    pub fn finish(&self, j: usize, rest: &[u8], total: u64) -> [u8; 32]
        requires { j < 4 }
        ensures { (m : List ℕ) → total ≡ length (m ++ rest.now) % 2 ^ 64 → HoldsInLane j self.now m
            → result ≡ sha256 (m ++ rest.now) }
    {
        self.message(j).finish(rest, total)
    }
}

// Takes in the blocks of a piece of each message.
fn absorb_blocks(state: &mut [u32x4; 8], a: &[u8], b: &[u8], c: &[u8], d: &[u8])
    requires { ArePieces a.now b.now c.now d.now }
    ensures { (j : ℕ) → j < 4 → (m : List ℕ) → IsOfBlocks (lane j state.old) m
        → IsOfBlocks (lane j state.new) (m ++ of_four a.now b.now c.now d.now j) }
{
    'pieces: for i in 0..a.len() / 64 {
        let at = 64 * i;
        let end = at + 64;
        compress(state, &a[at..end], &b[at..end], &c[at..end], &d[at..end]);
    }
}

// The hash value in lane j.
fn words_of(state: &[u32x4; 8], j: usize) -> [u32; 8]
    requires { j < 4 }
    ensures { result ≡ lane j state.now }
{
    let mut words = [0u32; 8];
    'words: for k in 0..8 {
        words[k] = state[k].to_array()[j];
    }
    words
}

// The vector with this word in lane j.
fn with_word(v: u32x4, j: usize, word: u32) -> u32x4
    requires { j < 4 }
    ensures here { slice_index result j ≡ word }
    ensures others { (i : ℕ) → i ≢ j → slice_index result i ≡ slice_index v i }
{
    let mut words = v.to_array();
    words[j] = word;
    u32x4::from_array(words)
}
