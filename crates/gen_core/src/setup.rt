//! The images of a soak.
ghost use Rattle.std.specs.Prelude.{◌≡◌, IsTrue};
ghost use Rattle.gen_core.specs.Generated.{are_images};
ghost use Rattle.gen_core.specs.Setup.{is_too_small, soak_layout};

use base_core::{Guid, ImageRow};

const MANIFEST: [u8; 16] = [
    0x46, 0x57, 0x55, 0x4D, 0x41, 0x4E, 0x49, 0x46, 0x45, 0x53, 0x54, 0x00, 0x00, 0x00, 0x00, 0x01,
];

const TB_FW: [u8; 16] = [
    0x5F, 0xF9, 0xEC, 0x0B, 0x4D, 0x22, 0x3E, 0x4D, 0xA5, 0x44, 0xC3, 0x9D, 0x81, 0xC7, 0x3F, 0x0A,
];

const NT_FW: [u8; 16] = [
    0xD6, 0xD0, 0xEE, 0xA7, 0xFC, 0xEA, 0xD5, 0x4B, 0x97, 0x82, 0x99, 0x34, 0xF2, 0x34, 0xB6, 0xE4,
];

/// The image rows that a soak formats a flash with, for two banks: the manifest in one block, tb-fw
/// in two, and nt-fw in four. They need a flash of 22 blocks.
pub fn soak_rows() -> [ImageRow; 3]
    ensures rows { result ≡ soak_layout.rows }
    ensures images { IsTrue (are_images result) }
{
    [
        ImageRow {
            guid: Guid::of(MANIFEST),
            slots: 1,
        },
        ImageRow {
            guid: Guid::of(TB_FW),
            slots: 2,
        },
        ImageRow {
            guid: Guid::of(NT_FW),
            slots: 4,
        },
    ]
}

/// Whether a flash of so many blocks has no room for two banks of `soak_rows`: whether it has fewer
/// than 22.
pub fn is_too_small(blocks: u32) -> bool
    ensures { result ≡ is_too_small blocks }
{
    blocks < 22
}
