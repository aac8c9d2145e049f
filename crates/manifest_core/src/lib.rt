//! Manifests, an own format: what each image of a package is, with its SHA-256 (FIPS 180-4), and the package's security version.
//!
//! A manifest of n rows has 48 + 56 n bytes, its numbers little-endian. First come the magic number, the form, the
//! security version and n, of four bytes each. Then comes each row: the image's type of 16 bytes, its length in bytes
//! and its version, of four bytes each, and its digest. Last comes the digest of all before. Form 1 is for security
//! versions up to 223, and form 2 for those above.
#![tactic(auto)]

mod reading;
mod rows;
mod sizes;
mod value;

pub use reading::test;
pub use rows::{Row, row_at};
pub use sizes::{
    DIGEST_BYTES, MANIFEST_HEAD, MOST_MANIFEST_BYTES, MOST_ROWS, ROW_BYTES, manifest_size,
    row_place,
};
pub use value::{Manifest, ManifestStop};
