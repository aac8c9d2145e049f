//! A block that metadata is read from.
ghost use Rattle.std.specs.Prelude.{◌≤◌, length};
ghost use Rattle.fwu_formats.specs.Metadata.{meta_size};

use crate::layout::Layout;

/// A layout, and bytes with room for its metadata in version 2.
#[derive(Drop)]
pub struct MetaBlock<'a> {
    pub layout: &'a Layout,
    pub bytes: &'a [u8],
    ghost room: { meta_size layout.now ≤ length bytes.now },
}
