//! What a manifest says of one image.
ghost use Rattle.std.specs.Prelude.{◌≡◌, ◌+◌, ◌≤◌, length, take, drop};
ghost use Rattle.sha2.specs.Sha256.{sha256};
ghost use Rattle.base_core.specs.Limits.{most_images};
ghost use Rattle.fwu_formats.specs.Manifest as model;
ghost use Rattle.manifest_core.specs.Shown.{row};

use crate::sizes::{DIGEST_BYTES, row_place};
use base_core::{Guid, le32_at};
use sha2::{Digest, Sha256};

/// What a manifest says of an image: its type, its length in bytes, its version, and its SHA-256.
#[derive(Clone, Copy, Debug, PartialEq, Eq)]
pub struct Row {
    pub guid: Guid,
    pub size: u32,
    pub version: u32,
    pub digest: [u8; DIGEST_BYTES],
}

impl Row {
    /// What a manifest says of this image.
    pub fn of(guid: Guid, version: u32, image: &[u8]) -> Row
        requires { length image.now ≤ 1048576 }
        ensures { row result ≡ record { guid = guid; size = length image.now; version = version; digest = sha256 image.now } }
    {
        Row {
            guid,
            size: image.len() as u32,
            version,
            digest: Sha256::digest(image),
        }
    }
}

fn digest_at(bytes: &[u8], at: usize) -> [u8; DIGEST_BYTES]
    requires { at + model.digest_size ≤ length bytes.now }
    ensures { result ≡ take model.digest_size (drop at bytes.now) }
{
    let mut digest = [0; DIGEST_BYTES];
    digest.copy_from_slice(&bytes[at..at + DIGEST_BYTES]);
    digest
}

/// Row j of a manifest, from 0: the row of image j + 1.
pub fn row_at(bytes: &[u8], j: u32) -> Row
    requires few { j ≤ most_images }
    requires room { model.field_place model.row_size j ≤ length bytes.now }
    ensures { row result ≡ model.row_at bytes.now j }
{
    let at = row_place(j as usize);
    Row {
        guid: Guid::at(bytes, at),
        size: le32_at(bytes, at + 16),
        version: le32_at(bytes, at + 20),
        digest: digest_at(bytes, at + 24),
    }
}
