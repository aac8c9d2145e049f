//! Headers of a table: whether a block is one, and where a copy stands.

ghost use Rattle.std.specs.Prelude.{◌≡◌, ◌+◌, ◌≤◌, length};
ghost use Rattle.gpt_core.specs.Table.{blocks_of, header_at, entries_at, other, has_start, has_places, header_has_fields, is_roomy, is_header, SpeaksOfBlocks};

use crate::table::TableCopy;
use base_core::{BLOCK_BYTES, is_table_sealed, le32_at, le64_at};

/// The revision of a header, 1.0.
pub const REVISION: u32 = 0x0001_0000;

/// How many bytes a header has.
pub const HEADER_SIZE: u32 = 92;

/// How many bytes an entry has.
pub const ENTRY_SIZE: u32 = 128;

/// The greatest number of entries.
pub const MOST_ENTRIES: u32 = 128;

/// The block of a copy's header.
pub fn header_place(copy: TableCopy, blocks: u32) -> u32
    requires { 1 ≤ blocks }
    ensures { result ≡ header_at copy blocks }
{
    match copy {
        TableCopy::Primary => 1,
        TableCopy::Backup => blocks - 1,
    }
}

/// The other copy.
pub fn other_copy(copy: TableCopy) -> TableCopy
    ensures { result ≡ other copy }
{
    match copy {
        TableCopy::Primary => TableCopy::Backup,
        TableCopy::Backup => TableCopy::Primary,
    }
}

/// How many whole blocks so many entries take.
pub fn blocks_for(number: u32) -> u32
    requires { number ≤ 128 }
    ensures value { result ≡ blocks_of number }
    ensures few { result ≤ 4 }
{
    (number * ENTRY_SIZE + BLOCK_BYTES - 1) / BLOCK_BYTES
}

/// The first block of a copy's entries, which take so many blocks.
pub fn entries_place(copy: TableCopy, blocks: u32, entry_blocks: u32) -> u32
    requires { 1 + entry_blocks ≤ blocks }
    ensures { result ≡ entries_at copy blocks entry_blocks }
{
    match copy {
        TableCopy::Primary => 2,
        TableCopy::Backup => blocks - 1 - entry_blocks,
    }
}

/// Whether its revision and size are those of the format, and the field that is zero.
fn is_start(header: &[u8]) -> bool
    requires { 92 ≤ length header.now }
    ensures { result ≡ has_start header.now }
{
    let revision = le32_at(header, 8);
    let size = le32_at(header, 12);
    let zero = le32_at(header, 20);
    revision == REVISION && size == HEADER_SIZE && zero == 0
}

/// Whether its own place, that of the other header and that of the entries are this copy's.
fn are_places(copy: TableCopy, blocks: u32, entry_blocks: u32, header: &[u8]) -> bool
    requires { SpeaksOfBlocks blocks entry_blocks header.now }
    ensures { result ≡ has_places copy blocks header.now }
{
    let own = le64_at(header, 24);
    let other = le64_at(header, 32);
    let entries = le64_at(header, 72);
    let own_place = header_place(copy, blocks) as u64;
    let other_place = header_place(other_copy(copy), blocks) as u64;
    let entries_place = entries_place(copy, blocks, entry_blocks) as u64;
    own == own_place && other == other_place && entries == entries_place
}

/// Whether the fields of a header are those of this copy.
#[tactic(auto, unfolding(crate::specs::Table::header_has_fields))]
fn are_fields(copy: TableCopy, blocks: u32, entry_blocks: u32, header: &[u8]) -> bool
    requires { SpeaksOfBlocks blocks entry_blocks header.now }
    ensures { result ≡ header_has_fields copy blocks header.now }
{
    let start = is_start(header);
    let places = are_places(copy, blocks, entry_blocks, header);
    let entry = le32_at(header, 84);
    start && places && entry == ENTRY_SIZE
}

/// Whether with so many entries the blocks of both copies are apart.
fn fits_both(blocks: u32, number: u32) -> bool
    ensures { result ≡ is_roomy blocks number }
{
    if number < 1 {
        return false;
    }
    if number > MOST_ENTRIES {
        return false;
    }
    3 + 2 * blocks_for(number) <= blocks
}

/// Whether a block is the header of this copy in a device of so many blocks.
pub fn is_header_of(copy: TableCopy, blocks: u32, header: &[u8]) -> bool
    requires { 92 ≤ length header.now }
    ensures { result ≡ is_header copy blocks header.now }
{
    let number = le32_at(header, 80);
    if !fits_both(blocks, number) {
        return false;
    }
    let fields = are_fields(copy, blocks, blocks_for(number), header);
    is_table_sealed(header) && fields
}
