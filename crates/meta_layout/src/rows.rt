//! The image rows of a layout: their limits, and their bytes in the layout block.
ghost use Rattle.std.specs.Prelude.{◌≡◌, ◌+◌, ◌*◌, ◌≤◌, length, map, flat_map, IsTrue};
ghost use Rattle.std.specs.List.{list_all, list_any};
ghost use Rattle.base_core.specs.Bytes.{same_bytes, listed};
ghost use Rattle.base_core.specs.Limits.{most_images, most_slots};
ghost use Rattle.base_core.specs.Puts.{PutsBytes};
ghost use Rattle.fwu_formats.specs.Layout.{dir_guid, is_row, find_image, slot_total, are_distinct, row_bytes};
ghost use Rattle.meta_layout.specs.Rows.{layout_row_at, has_row_zeros};

use crate::lists::Rows;
use base_core::{Guid, ImageRow, MOST_SLOTS, le32_at, put, put4};

/// The type of the image directory, 46575544-4952-4543-544f-525900000001 (own format). No image of a layout has it.
pub fn directory_guid() -> Guid
    ensures { result ≡ dir_guid }
{
    Guid::of([
        0x46, 0x57, 0x55, 0x44, 0x49, 0x52, 0x45, 0x43, 0x54, 0x4f, 0x52, 0x59, 0, 0, 0, 1,
    ])
}

/// The row that a layout block has at an index.
fn row_in(block: &[u8], index: usize) -> ImageRow
    requires { 56 + 24 * index ≤ length block.now }
    ensures { result ≡ layout_row_at block.now index }
{
    ImageRow {
        guid: Guid::at(block, 32 + 24 * index),
        slots: le32_at(block, 48 + 24 * index),
    }
}

/// The first rows of a layout block.
pub fn rows_in(block: &[u8], count: usize) -> Rows
    requires small { count ≤ most_images }
    requires room { 32 + 24 * count ≤ length block.now }
    ensures { result ≡ listed count (layout_row_at block.now) }
{
    let mut rows = Rows::new();
    for index in 0..count {
        rows.push(row_in(block, index));
    }
    rows
}

/// Whether the last field of each of the first rows is zero.
pub fn has_zero_rows(block: &[u8], count: usize) -> bool
    requires { 32 + 24 * count ≤ length block.now }
    ensures { result ≡ has_row_zeros block.now count }
{
    for index in 0..count {
        if le32_at(block, 52 + 24 * index) != 0 {
            return false;
        }
    }
    true
}

/// The same rows in a list.
pub fn rows_of(given: &[ImageRow]) -> Rows
    requires { length given.now ≤ most_images }
    ensures { result ≡ given.now }
{
    let mut rows = Rows::new();
    for index in 0..given.len() {
        rows.push(given[index]);
    }
    rows
}

/// Whether a row is within the limits of a layout.
fn row_fits(row: &ImageRow) -> bool
    ensures { result ≡ is_row row.now }
{
    let _bytes = row.guid.bytes();
    let nil = row.guid.is(&Guid::nil());
    let directory = row.guid.is(&directory_guid());
    !nil && !directory && 1 <= row.slots && row.slots <= MOST_SLOTS
}

/// Whether each row is within the limits.
pub fn are_rows(rows: &[ImageRow]) -> bool
    ensures { result ≡ list_all is_row rows.now }
{
    rows.iter().all(|row| row_fits(row))
}

fn has_type(rows: &[ImageRow], guid: &Guid) -> bool
    ensures { result ≡ list_any (λ r. same_bytes guid.now r.guid) rows.now }
{
    rows.iter().any(|row| guid.is(&row.guid))
}

/// Whether no two rows have the same type.
pub fn are_apart(rows: &[ImageRow]) -> bool
    ensures { result ≡ are_distinct (map (λ r. r.guid) rows.now) }
{
    for index in 0..rows.len() {
        let row = rows[index];
        if has_type(&rows[index + 1..], &row.guid) {
            return false;
        }
    }
    true
}

/// The blocks of all rows' slots.
pub fn slot_sum(rows: &[ImageRow]) -> u32
    requires few { length rows.now ≤ most_images }
    requires fit { IsTrue (list_all is_row rows.now) }
    ensures sum { result ≡ slot_total rows.now }
    ensures bound { result ≤ most_slots * length rows.now }
{
    let mut total = 0;
    for row in rows {
        total += row.slots;
    }
    total
}

/// The place of the first row of a type.
pub fn find_row(rows: &[ImageRow], guid: &Guid) -> Option<usize>
    ensures { result ≡ find_image rows.now guid.now }
{
    rows.iter().position(|row| row.guid.is(guid))
}

fn put_row(out: &mut [u8], at: usize, row: &ImageRow) -> usize
    requires { at + 24 ≤ length out.old }
    ensures { PutsBytes at 24 (row_bytes row.now) out.old out.new result }
{
    let guid = put(out, at, row.guid.bytes());
    let slots = put4(out, guid, row.slots);
    put4(out, slots, 0)
}

/// Writes the rows' bytes at a place, and gives the place behind them.
pub fn put_rows(out: &mut [u8], at: usize, rows: &[ImageRow]) -> usize
    requires { at + 24 * length rows.now ≤ length out.old }
    ensures { PutsBytes at (24 * length rows.now) (flat_map row_bytes rows.now) out.old out.new result }
{
    let mut end = at;
    for index in 0..rows.len() {
        end = put_row(out, end, &rows[index]);
    }
    end
}
