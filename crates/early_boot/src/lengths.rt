//! The lengths of a package's images.
ghost use Rattle.std.specs.Prelude.{◌≡◌, ◌+◌, ◌<◌, ◌≤◌, ◌++◌, [], ◌∷◌, length, take, slice_index_or};

use std::marker::Model;

/// A list of at most 16 lengths in bytes, one for each image. A contract sees the list.
#[derive(Drop)]
pub struct Lengths {
    count: usize,
    lengths: [u32; 16],
}

impl Model for Lengths {
    ghost use Rattle.std.specs.Prelude.{◌≤◌, ℕ, List, take};

    ghost Value = { List ℕ };

    ghost view = { λ l. take l.count l.lengths };

    ghost invariant = { λ l. l.count ≤ 16 };
}

impl Lengths {
    /// No lengths.
    pub fn new() -> Lengths
        ensures { result ≡ [] }
    {
        Lengths {
            count: 0,
            lengths: [0; 16],
        }
    }

    pub fn push(&mut self, bytes: u32)
        requires { length self.old < 16 }
        ensures { self.new ≡ self.old ++ bytes ∷ [] }
    {
        self.lengths[self.count] = bytes;
        self.count += 1;
    }

    /// The lengths, at the front of 16 numbers.
    pub fn all(&self) -> [u32; 16]
        ensures front { take (length self.now) result ≡ self.now }
        ensures all { length result ≡ 16 }
    {
        let _count = self.count;
        self.lengths
    }

    pub fn get(&self, image: usize) -> u32
        requires { image < length self.now }
        ensures { result ≡ slice_index_or self.now image 0 }
    {
        let _count = self.count;
        self.lengths[image]
    }
}
