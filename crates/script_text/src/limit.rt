//! The limits of a script's text: 4,194,304 bytes, and 65,536 lines.
ghost use Rattle.std.specs.Prelude.{◌≡◌, ◌+◌, ◌<◌, ◌≤◌, ◌==◌, ◌++◌, ◌∷◌, [], IsTrue, List, ℕ, count_by, length, take, false, true};
ghost use Rattle.std.specs.Bool.{OnTrue, OnFalse};
ghost use Rattle.fwu_model.specs.Script.{is_too_long};
ghost use Rattle.script_text.specs.Limit.{Extent, IsExtentOf};

use std::marker::Model;

const MOST_BYTES: u32 = 4_194_304;

const MOST_LINES: u32 = 65_536;

/// How far a text that is read piece by piece is within the limits. A contract sees the number of its bytes and of its
/// line ends.
#[derive(Clone, Copy, Debug)]
pub struct TextLimit {
    bytes: u32,
    ends: u32,
}

impl Model for TextLimit {
    ghost use Rattle.std.specs.Prelude.{◌≤◌};
    ghost use Rattle.script_text.specs.Limit.{Extent};

    ghost Value = { Extent };

    ghost view = { λ t. record { bytes = t.bytes; ends = t.ends } };

    ghost invariant = { λ t. (t.bytes ≤ 4194304) × (t.ends ≤ 65536) };

    ghost inverse = { λ e. record { bytes = e.bytes; ends = e.ends } };
}

impl TextLimit {
    /// The extent of no text.
    pub fn new() -> Self
        ensures { IsExtentOf result [] }
    {
        TextLimit { bytes: 0, ends: 0 }
    }

    /// Takes one byte more, or leaves it where the text would be too long with it.
    pub fn take(&mut self, byte: u8) -> bool
        ensures taken { OnTrue result ((text : List ℕ) → IsExtentOf self.old text →
            IsExtentOf self.new (text ++ byte ∷ [])) }
        ensures left { OnFalse result (self.new ≡ self.old) }
        ensures full { OnFalse result ((text : List ℕ) → IsExtentOf self.old text →
            is_too_long (text ++ byte ∷ []) ≡ true) }
    {
        if self.bytes == MOST_BYTES || self.ends == MOST_LINES {
            return false;
        }
        self.bytes += 1;
        if byte == b'\n' {
            self.ends += 1;
        }
        true
    }

    /// Takes a whole piece, or leaves it where it has too many bytes, or as many line ends as the text may have more.
    fn take_whole(&mut self, piece: &[u8]) -> bool
        ensures taken { OnTrue result ((text : List ℕ) → IsExtentOf self.old text →
            IsExtentOf self.new (text ++ piece.now)) }
        ensures left { OnFalse result (self.new ≡ self.old) }
    {
        if piece.len() > (MOST_BYTES - self.bytes) as usize {
            return false;
        }
        let ends = line_ends(piece);
        if ends >= MOST_LINES - self.ends {
            return false;
        }
        self.bytes += piece.len() as u32;
        self.ends += ends;
        true
    }

    /// Takes the bytes of a piece up to the first with which the text would be too long, and tells how many these are.
    pub fn feed(&mut self, piece: &[u8]) -> usize
        ensures some { result ≤ length piece.now }
        ensures taken { (text : List ℕ) → IsExtentOf self.old text →
            IsExtentOf self.new (text ++ take result piece.now) }
        ensures full { result < length piece.now → (text : List ℕ) → IsExtentOf self.old text →
            is_too_long (text ++ take (result + 1) piece.now) ≡ true }
    {
        if self.take_whole(piece) {
            return piece.len();
        }
        for (place, byte) in piece.iter().enumerate() {
            if !self.take(*byte) {
                return place;
            }
        }
        piece.len()
    }
}

/// The number of line ends in a piece.
fn line_ends(piece: &[u8]) -> u32
    requires { length piece.now ≤ 4194304 }
    ensures { result ≡ count_by (λ b. b == 10) piece.now }
{
    let mut ends = 0;
    for byte in piece {
        ends += u32::from(*byte == b'\n');
    }
    ends
}

/// Whether a text has more than 4,194,304 bytes, or a byte behind its line end 65,536.
pub fn is_too_long(bytes: &[u8]) -> bool
    ensures long { result ≡ is_too_long bytes.now }
    // So that it can be read.
    ensures short { OnFalse result (length bytes.now ≤ 4194304) }
{
    let mut limit = TextLimit::new();
    limit.feed(bytes) < bytes.len()
}
