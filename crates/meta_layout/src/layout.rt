//! The layout block (own format), and where it puts each image of each bank.
ghost use Rattle.std.specs.Prelude.{◌≡◌, ℕ, ◌+◌, ◌-◌, ◌*◌, ◌<◌, ◌≤◌, ◌++◌, ◌&&◌, ◌==◌, nat_le, length, take, drop, replicate, Ok, IsTrue};
ghost use Rattle.base_core.specs.Block.{block_bytes};
ghost use Rattle.base_core.specs.Bytes.{num_at};
ghost use Rattle.base_core.specs.Limits.{fewest_banks, fewest_images, most_banks, most_images};
ghost use Rattle.fwu_formats.specs.Layout.{are_zero, fits_layout, blocks_needed, find_image, start, layout_of, layout_size, layout_body, layout_bytes};
ghost use Rattle.fwu_formats.specs.Places.{first_bank_block};
ghost use Rattle.meta_layout.specs.Rows.{has_row_zeros, fitted};

use crate::bytes::{is_checked, seal};
use crate::lists::Rows;
use crate::rows::{
    are_apart, are_rows, find_row, has_zero_rows, put_rows, rows_in, rows_of, slot_sum,
};
use base_core::{
    FEWEST_BANKS, FEWEST_IMAGES, Guid, ImageRow, MOST_BANKS, MOST_IMAGES, le32_at, put, put4,
};
use fwu_formats::{FIRST_BANK_BLOCK, LayoutFault};
use std::marker::Model;

const MAGIC: u32 = 0x4C55_5746;

/// Whether the block says as many bytes as its number of images asks for.
fn has_size(block: &[u8]) -> bool
    requires { 32 ≤ length block.now }
    ensures { let images = num_at 4 block.now 12 in result ≡
        (nat_le fewest_images images && nat_le images most_images && (num_at 4 block.now 16 == 32 + 24 * images)) }
{
    let images = le32_at(block, 12) as usize;
    FEWEST_IMAGES <= images
        && images <= MOST_IMAGES
        && le32_at(block, 16) as usize == 32 + 24 * images
}

/// Whether the bytes from 20 to 32 are zero.
fn has_zero_gap(block: &[u8]) -> bool
    requires { 32 ≤ length block.now }
    ensures { result ≡ are_zero (take 12 (drop 20 block.now)) }
{
    block[20..32].iter().all(|byte| *byte == 0)
}

/// Whether the fields of the block that have to be zero are zero.
fn are_rest_zero(block: &[u8], count: usize) -> bool
    requires { 32 + 24 * count ≤ length block.now }
    ensures { result ≡ (are_zero (take 12 (drop 20 block.now)) && has_row_zeros block.now count) }
{
    has_zero_gap(block) && has_zero_rows(block, count)
}

/// Whether these are the banks and the rows of a layout.
#[tactic(auto, unfolding(fwu_formats::specs::Layout::fits_layout))]
fn is_layout(banks: u32, rows: &[ImageRow]) -> bool
    ensures { result ≡ fits_layout (record { banks = banks; rows = rows.now }) }
{
    let few_banks = FEWEST_BANKS <= banks && banks <= MOST_BANKS;
    let few_images = FEWEST_IMAGES <= rows.len() && rows.len() <= MOST_IMAGES;
    few_banks && few_images && are_rows(rows) && are_apart(rows)
}

/// The blocks at the front, and those of so many banks.
fn blocks_for(banks: u32, total: u32) -> u32
    requires few { banks ≤ most_banks }
    requires small { total ≤ 4096 }
    ensures value { result ≡ first_bank_block + banks * total }
    ensures bound { result ≤ 16392 }
{
    FIRST_BANK_BLOCK + banks * total
}

/// What the flash is divided into: 2 to 4 banks, and in each a slot for each of 2 to 16 images of different types.
/// Blocks have 4096 bytes. Block 0 holds the layout, blocks 1 and 2 the metadata, 3 to 7 marks and records, and the
/// banks begin at block 8, one after another. Image 0 is the manifest.
#[derive(Clone, Copy)]
pub struct Layout {
    banks: u32,
    rows: Rows,
}

impl Model for Layout {
    ghost use Rattle.std.specs.Prelude.{IsTrue};
    ghost use Rattle.fwu_formats.specs.Layout.{Layout as LayoutValue, fits_layout};

    ghost Value = { LayoutValue };

    ghost view = { λ l. record { banks = l.banks; rows = l.rows } };

    ghost invariant = { λ l. IsTrue (fits_layout (record { banks = l.banks; rows = l.rows })) };

    ghost inverse = { λ l. record { banks = l.banks; rows = l.rows } };
}

impl Layout {
    /// The layout that a block holds, of a flash of so many blocks, or the first fault. The block has, little-endian, at 0 the
    /// CRC-32 of the bytes from 4 to its size, and at 4 the magic number 0x4C555746. At 8 it has the number of banks, at 12
    /// that of the images, and at 16 the size `32 + 24 * images`. From 20 on it has 12 zero bytes, and from 32 on for each
    /// image its type, the blocks of its slot (1 to 256) and a zero number. Bytes behind the size are not looked at.
    ///
    /// `Short`: fewer than 32 bytes, or, once the size is right, fewer than that. `BadMagic`, `BadSize` (2 to 16 images),
    /// `BadCrc`: by these fields. `BadField`: any other field, a nil type, the directory's type or two equal types.
    /// `BeyondFlash`: the last bank ends behind the flash.
    pub fn read(block: &[u8], blocks: u32) -> Result<Layout, LayoutFault>
        ensures { result ≡ layout_of block.now blocks }
    {
        if block.len() < 32 {
            return Err(LayoutFault::Short);
        }
        if le32_at(block, 4) != MAGIC {
            return Err(LayoutFault::BadMagic);
        }
        if !has_size(block) {
            return Err(LayoutFault::BadSize);
        }
        let size = le32_at(block, 16) as usize;
        if block.len() < size {
            return Err(LayoutFault::Short);
        }
        if !is_checked(block, size) {
            return Err(LayoutFault::BadCrc);
        }
        let images = le32_at(block, 12) as usize;
        if !are_rest_zero(block, images) {
            return Err(LayoutFault::BadField);
        }
        Layout::of_rows(le32_at(block, 8), rows_in(block, images), blocks)
    }

    /// The layout of these rows and banks on a flash of so many blocks. `BadField`: the banks, the rows, or their number
    /// are not within the limits. `BeyondFlash`: the last bank ends behind the flash.
    pub fn make(rows: &[ImageRow], banks: u32, blocks: u32) -> Result<Layout, LayoutFault>
        ensures { result ≡ fitted (record { banks = banks; rows = rows.now }) blocks }
    {
        if rows.len() > MOST_IMAGES {
            return Err(LayoutFault::BadField);
        }
        Layout::of_rows(banks, rows_of(rows), blocks)
    }

    fn of_rows(banks: u32, rows: Rows, blocks: u32) -> Result<Layout, LayoutFault>
        ensures { result ≡ fitted (record { banks = banks; rows = rows }) blocks }
    {
        let listed = rows.as_slice();
        if !is_layout(banks, listed) {
            return Err(LayoutFault::BadField);
        }
        if blocks < blocks_for(banks, slot_sum(listed)) {
            return Err(LayoutFault::BeyondFlash);
        }
        Ok(Layout { banks, rows })
    }

    /// How many banks there are.
    pub fn banks(&self) -> u32
        ensures value { result ≡ self.now.banks }
        ensures low { fewest_banks ≤ result }
        ensures high { result ≤ most_banks }
    {
        self.banks
    }

    /// The images, in the order of their slots.
    pub fn rows(&self) -> &[ImageRow]
        ensures value { result.now ≡ self.now.rows }
        ensures low { fewest_images ≤ length self.now.rows }
        ensures high { length self.now.rows ≤ most_images }
        ensures fit { IsTrue (fits_layout self.now) }
    {
        self.rows.as_slice()
    }

    /// For proofs: a layout is within its limits.
    pub fn fits(&self)
        ensures fit { IsTrue (fits_layout self.now) }
        ensures some_banks { fewest_banks ≤ self.now.banks }
        ensures few_banks { self.now.banks ≤ most_banks }
        ensures some_images { fewest_images ≤ length self.now.rows }
        ensures few_images { length self.now.rows ≤ most_images }
    {
        let _banks = self.banks();
        let _rows = self.rows();
    }

    /// The block at which an image of a bank begins.
    pub fn start(&self, bank: u32, image: u32) -> u32
        requires below { bank < self.now.banks }
        requires within { image < length self.now.rows }
        ensures { result ≡ start self.now bank image }
    {
        self.fits();
        let rows = self.rows();
        let total = slot_sum(rows);
        let before = slot_sum(&rows[..image as usize]);
        blocks_for(bank, total) + before
    }

    /// The blocks that the flash must have: those at the front, and all banks.
    pub fn blocks(&self) -> u32
        ensures { result ≡ blocks_needed self.now }
    {
        blocks_for(self.banks(), slot_sum(self.rows()))
    }

    /// The number of the image of a type.
    pub fn find(&self, guid: &Guid) -> Option<u32>
        ensures { result ≡ find_image self.now.rows guid.now }
    {
        match find_row(self.rows(), guid) {
            Some(image) => Some(image as u32),
            None => None,
        }
    }

    /// Writes a whole block: the one spelling of the layout, and 0xFF behind it.
    pub fn write(&self, out: &mut [u8])
        requires { block_bytes ≤ length out.old }
        ensures spelled { out.new ≡ layout_bytes self.now ++ replicate (length out.old - layout_size self.now) 0xFF }
        ensures read_again { (blocks : ℕ) → blocks_needed self.now ≤ blocks → layout_of out.new blocks ≡ Ok self.now }
    {
        let size = 32 + 24 * self.rows().len();
        self.put_body(&mut out[4..]);
        seal(out, size);
    }

    /// Writes the bytes that stand from place 4 on.
    fn put_body(&self, out: &mut [u8])
        requires { 412 ≤ length out.old }
        ensures { take (layout_size self.now - 4) out.new ≡ layout_body self.now }
    {
        let rows = self.rows();
        let images = rows.len() as u32;
        let at = put4(out, 0, MAGIC);
        let at = put4(out, at, self.banks());
        let at = put4(out, at, images);
        let at = put4(out, at, 32 + 24 * images);
        let at = put(out, at, &[0; 12]);
        let _end = put_rows(out, at, rows);
    }
}
