//! The sizes of a manifest's parts, and where its rows stand.
ghost use Rattle.std.specs.Prelude.{◌≡◌, ◌-◌, ◌≤◌, length};
ghost use Rattle.base_core.specs.Limits.{most_images};
ghost use Rattle.fwu_formats.specs.Manifest as model;

use base_core::{ImageRow, MOST_IMAGES};

/// The bytes of a manifest before its rows.
pub const MANIFEST_HEAD: usize = 16;

/// The bytes of a row.
pub const ROW_BYTES: usize = 56;

/// The bytes of a digest.
pub const DIGEST_BYTES: usize = 32;

/// A manifest has so many rows at most: one for each image but the first.
pub const MOST_ROWS: usize = MOST_IMAGES - 1;

/// The bytes of the largest manifest, which has 15 rows.
pub const MOST_MANIFEST_BYTES: usize = MANIFEST_HEAD + DIGEST_BYTES + ROW_BYTES * MOST_ROWS;

/// Where row j begins, from 0. The digest begins where one more row would.
pub fn row_place(j: usize) -> usize
    requires { j ≤ most_images }
    ensures { result ≡ model.row_place j }
{
    MANIFEST_HEAD + ROW_BYTES * j
}

/// The bytes of a manifest of these images, which has a row for each but the first.
pub fn manifest_size(images: &[ImageRow]) -> usize
    requires some { 1 ≤ length images.now }
    requires few { length images.now ≤ most_images }
    ensures { result ≡ model.manifest_size (length images.now - 1) }
{
    row_place(images.len() - 1) + DIGEST_BYTES
}
