//! UUIDs: sixteen bytes, and their hyphenated text.
ghost use Rattle.std.specs.Prelude.{◌≡◌, ◌+◌, ◌<◌, ◌≤◌, ℕ, List, Some, All, IsTrue, length, take, drop};
ghost use Rattle.base_core.specs.Bytes.{are_bytes, same_bytes};
ghost use Rattle.base_core.specs.Guid.{guid_of, guid_text, in_lower_case, nil_guid};

use std::marker::Model;
use uuid::Uuid;

/// A UUID: sixteen bytes in the order of its text, which a contract sees as their list.
#[derive(Clone, Copy, Debug, PartialEq, Eq)]
pub struct Guid {
    bytes: [u8; 16],
}

impl Model for Guid {
    ghost use Rattle.std.specs.Prelude.{List, ℕ, IsTrue};
    ghost use Rattle.base_core.specs.Bytes.{are_bytes};

    ghost Value = { List ℕ };

    ghost view = { λ g. g.bytes };

    ghost invariant = { λ g. IsTrue (are_bytes g.bytes) };

    ghost inverse = { λ bytes. record { bytes = bytes } };
}

impl Guid {
    /// The UUID of sixteen bytes.
    pub fn of(bytes: [u8; 16]) -> Guid
        ensures { result ≡ bytes }
    {
        Guid::at(&bytes, 0)
    }

    /// The nil UUID, of sixteen zero bytes.
    pub fn nil() -> Guid
        ensures { result ≡ nil_guid }
    {
        Guid { bytes: [0; 16] }
    }

    /// The UUID whose bytes begin at a place.
    pub fn at(bytes: &[u8], at: usize) -> Guid
        requires { at + 16 ≤ length bytes.now }
        ensures { result ≡ take 16 (drop at bytes.now) }
    {
        let mut own = [0; 16];
        own.copy_from_slice(&bytes[at..at + 16]);
        Guid { bytes: own }
    }

    /// The sixteen bytes.
    pub fn bytes(&self) -> &[u8]
        ensures value { result.now ≡ self.now }
        ensures sixteen { length self.now ≡ 16 }
        ensures fit { IsTrue (are_bytes self.now) }
    {
        &self.bytes
    }

    /// Whether two UUIDs are one.
    pub fn is(&self, other: &Guid) -> bool
        ensures { result ≡ same_bytes self.now other.now }
    {
        self.bytes() == other.bytes()
    }

    /// The UUID of a hyphenated text of 36 characters, letters of either case (RFC 9562), and of no other text.
    pub fn read(text: &str) -> Option<Guid>
        ensures { result ≡ guid_of text.now }
    {
        if text.len() != 36 {
            return None;
        }
        match Uuid::parse_str(text) {
            Ok(id) => Some(Guid::of(id.into_bytes())),
            Err(_) => None,
        }
    }

    /// Writes the hyphenated text, in lower case.
    pub fn text(&self, out: &mut [u8; 36])
        ensures spelled { out.new ≡ guid_text self.now }
        ensures read_again { guid_of out.new ≡ Some self.now }
    {
        let mut buffer = [0u8; 36];
        let text = Uuid::from_bytes(self.bytes)
            .hyphenated()
            .encode_lower(&mut buffer);
        out.copy_from_slice(text.as_bytes());
    }
}

/// A UUID's text reads back as the UUID, and a text that is read spells the UUID, save for the case of its letters.
pub fn reading_and_writing_are_inverse()
    ensures reads { (bytes : List ℕ) → length bytes ≡ 16 → All (λ b. b < 256) bytes
        → guid_of (guid_text bytes) ≡ Some bytes }
    ensures writes { (text bytes : List ℕ) → guid_of text ≡ Some bytes
        → guid_text bytes ≡ in_lower_case text }
{}
