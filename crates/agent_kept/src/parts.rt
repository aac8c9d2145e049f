//! What is kept of one staged image, and of one handle.
ghost use Rattle.std.specs.Prelude.{◌≡◌};

use sha2::{Digest, Sha256};

/// A staged image: how many bytes were written, and their SHA-256 so far, or, once it is committed,
/// their digest.
#[derive(Drop)]
pub enum Part {
    Nothing,
    Open {
        size: u32,
        hasher: Sha256,
    },
    Committed {
        size: u32,
        digest: [u8; 32],
        bit: bool,
    },
}

/// A handle. What is read, an image or the directory, has this total.
#[derive(Clone, Copy, Debug, PartialEq, Eq)]
pub enum Handle {
    Free,
    Reads {
        image: Option<u32>,
        at: u32,
        total: u32,
    },
    Writes {
        image: u32,
    },
}

impl Handle {
    ghost use Rattle.agent_kept.specs.Sound.{is_free_kept, is_writer_kept};

    pub fn is_free(&self) -> bool
        ensures { result ≡ is_free_kept self.now }
    {
        match self {
            Handle::Free => true,
            Handle::Reads { .. } | Handle::Writes { .. } => false,
        }
    }

    pub fn is_writer(&self) -> bool
        ensures { result ≡ is_writer_kept self.now }
    {
        match self {
            Handle::Writes { .. } => true,
            Handle::Reads { .. } | Handle::Free => false,
        }
    }
}

impl Part {
    ghost use Rattle.agent_kept.specs.Judged.{is_part_committed};
    ghost use Rattle.agent_kept.specs.Sound.{size_of, CommitsTo};

    pub fn is_committed(&self) -> bool
        ensures { result ≡ is_part_committed self.now }
    {
        match self {
            Part::Committed { .. } => true,
            Part::Nothing | Part::Open { .. } => false,
        }
    }

    /// How many bytes were written.
    pub fn size(&self) -> u32
        ensures { result ≡ size_of self.now }
    {
        match self {
            Part::Nothing => 0,
            Part::Open { size, .. } => *size,
            Part::Committed { size, .. } => *size,
        }
    }

    /// The open image committed with this bit, its digest in place of the hash. Another one stays.
    pub fn committed(self, bit: bool) -> Part
        ensures { CommitsTo self result bit }
    {
        match self {
            Part::Open { size, hasher } => Part::Committed {
                size,
                digest: hasher.finalize(),
                bit,
            },
            other => other,
        }
    }
}
