//! The entries of images in a metadata block: their places, and whether they are as they must be.
ghost use Rattle.std.specs.Prelude.{◌≡◌, ◌+◌, ◌*◌, ◌^◌, ◌<◌, ◌≤◌, length};
ghost use Rattle.fwu_formats.specs.Metadata.{entry_size, entry_place, has_bank_entry, has_entries};
ghost use Rattle.meta_layout.specs.Entries.{has_bank_entries, has_entry_at};

use crate::block::MetaBlock;
use crate::layout::Layout;
use base_core::{Guid, le32_at};

/// Where an image's entry begins, if the first begins at a place.
pub fn entry_at(layout: &Layout, from: usize, image: usize) -> usize
    requires near { from < 2 ^ 63 }
    requires below { image < length layout.now.rows }
    ensures place { result ≡ entry_place layout.now from image }
    ensures room { result + entry_size layout.now ≤ from + length layout.now.rows * entry_size layout.now }
{
    layout.fits();
    let size = 32 + 24 * layout.banks() as usize;
    let before = image * size;
    from + before
}

/// Whether an entry says of a bank what it must.
fn is_bank_entry(guid: &Guid, block: &[u8], at: usize) -> bool
    requires { at + 24 ≤ length block.now }
    ensures { result ≡ has_bank_entry guid.now block.now at }
{
    let same = Guid::at(block, at).is(guid);
    let bit = le32_at(block, at + 16);
    let rest = le32_at(block, at + 20);
    same && bit < 2 && rest == 0
}

fn are_bank_entries(guid: &Guid, block: &[u8], at: usize, banks: usize) -> bool
    requires { at + 32 + 24 * banks ≤ length block.now }
    ensures { result ≡ has_bank_entries guid.now block.now at banks }
{
    for bank in 0..banks {
        if !is_bank_entry(guid, block, at + 32 + 24 * bank) {
            return false;
        }
    }
    true
}

fn is_entry(guid: &Guid, block: &[u8], at: usize, banks: usize) -> bool
    requires { at + 32 + 24 * banks ≤ length block.now }
    ensures { result ≡ has_entry_at guid.now block.now at banks }
{
    let typed = Guid::at(block, at).is(guid);
    let nowhere = Guid::at(block, at + 16).is(&Guid::nil());
    let banked = are_bank_entries(guid, block, at, banks);
    typed && nowhere && banked
}

/// Whether each image has the entry that it must have.
pub fn are_entries(block: &MetaBlock, from: usize) -> bool
    requires { from ≤ 40 }
    ensures { result ≡ has_entries block.now.layout.now from block.now.bytes.now }
{
    let layout = block.layout;
    let rows = layout.rows();
    for image in 0..rows.len() {
        let row = &rows[image];
        let at = entry_at(layout, from, image);
        if !is_entry(&row.guid, block.bytes, at, layout.banks() as usize) {
            return false;
        }
    }
    true
}
