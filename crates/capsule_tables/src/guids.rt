//! UUIDs as they stand in capsules.

ghost use Rattle.std.specs.Prelude.{◌≡◌};
ghost use Rattle.fwu_formats.specs.Capsule.{swapped};

use base_core::Guid;

/// The UUID of these capsules, 6dcbd5ed-e82d-4c44-bda1-7194199ad92a, as it stands in a file.
pub const FMP_GUID: [u8; 16] = [
    0xED, 0xD5, 0xCB, 0x6D, 0x2D, 0xE8, 0x44, 0x4C, 0xBD, 0xA1, 0x71, 0x94, 0x19, 0x9A, 0xD9, 0x2A,
];

/// A UUID with its first three fields turned round: from a capsule's bytes to those of its text, and
/// back (UEFI: of four, two and two bytes, each little-endian).
pub fn swapped(guid: &Guid) -> Guid
    ensures { result ≡ swapped guid.now }
{
    let mut own = [0; 16];
    own.copy_from_slice(guid.bytes());
    own[0..4].reverse();
    own[4..6].reverse();
    own[6..8].reverse();
    Guid::of(own)
}
