//! The entries of a package that are the images of a layout.

ghost use Rattle.std.specs.Prelude.{◌≡◌, ◌≤◌, ◌<◌, ◌++◌, ◌∷◌, [], length};
ghost use Rattle.fip_tables.specs.Images.{ChoosesImages, ChoosesPresent, FindsImage, FindsPresent};

use crate::entries::Entry;
use crate::toc::Toc;
use base_core::{BLOCK_BYTES, Guid, ImageRow};
use std::marker::Model;
use thiserror::Error;

/// Why a package's entries are not taken for the images of a layout.
#[derive(Clone, Copy, Debug, PartialEq, Eq, Error)]
pub enum ImageFault {
    /// The package lacks the image of this type.
    #[error("the package lacks the image {0:?}")]
    Missing(Guid),
    /// The image of this type is larger than its slot.
    #[error("the image {0:?} is larger than its slot")]
    TooLarge(Guid),
}

/// At most 16 entries, which contracts see as their list: a layout has no more images.
#[derive(Drop)]
pub struct ImageEntries {
    items: [Entry; 16],
    count: usize,
}

impl Model for ImageEntries {
    ghost use Rattle.std.specs.Prelude.{◌≤◌, List, take};
    ghost use Rattle.fwu_formats.specs.Package.{Entry as Payload};

    ghost Value = { List Payload };

    ghost view = { λ e. take e.count e.items };

    ghost invariant = { λ e. e.count ≤ 16 };
}

impl ImageEntries {
    fn new() -> ImageEntries
        ensures { result ≡ [] }
    {
        let none = Entry {
            guid: Guid::nil(),
            offset: 0,
            size: 0,
            flags: 0,
        };
        ImageEntries {
            items: [none; 16],
            count: 0,
        }
    }

    pub fn len(&self) -> usize
        ensures length { result ≡ length self.now }
        ensures few { length self.now ≤ 16 }
    {
        let _open = &self.count;
        self.as_slice().len()
    }

    pub fn as_slice(&self) -> &[Entry]
        ensures { result.now ≡ self.now }
    {
        &self.items[..self.count]
    }

    /// Adds an entry at the end.
    fn push(&mut self, entry: Entry)
        requires { length self.old < 16 }
        ensures { self.new ≡ self.old ++ entry ∷ [] }
    {
        self.items[self.count] = entry;
        self.count += 1;
    }
}

// The entry of an image, where the table has one. Its payload fits the slot.
fn find_present(row: &ImageRow, toc: &Toc) -> Result<Option<Entry>, ImageFault>
    ensures { FindsPresent row.now toc.now result }
{
    let Some(entry) = toc.entries.find(&row.guid) else {
        return Ok(None);
    };
    if entry.size > u64::from(BLOCK_BYTES) * u64::from(row.slots) {
        return Err(ImageFault::TooLarge(row.guid));
    }
    Ok(Some(entry))
}

// The entry of an image. Its payload fits the slot.
fn find_image(row: &ImageRow, toc: &Toc) -> Result<Entry, ImageFault>
    ensures { FindsImage row.now toc.now result }
{
    match find_present(row, toc)? {
        Some(entry) => Ok(entry),
        None => Err(ImageFault::Missing(row.guid)),
    }
}

/// The entries of the images, in their order, or the fault of the lowest image that has one. Slots are
/// in blocks of 4096 bytes.
pub fn images_of(rows: &[ImageRow], toc: &Toc) -> Result<ImageEntries, ImageFault>
    requires { length rows.now ≤ 16 }
    ensures { ChoosesImages rows.now toc.now result }
{
    let mut entries = ImageEntries::new();
    for k in 0..rows.len() {
        entries.push(find_image(&rows[k], toc)?);
    }
    Ok(entries)
}

/// The entries of those images that the table has, in their order. Where it has none of them the first
/// image is missing; else the fault is that of the lowest that is there and too large.
pub fn present_images_of(rows: &[ImageRow], toc: &Toc) -> Result<ImageEntries, ImageFault>
    requires some { 0 < length rows.now }
    requires few { length rows.now ≤ 16 }
    ensures { ChoosesPresent rows.now toc.now result }
{
    let mut entries = ImageEntries::new();
    for k in 0..rows.len() {
        if let Some(entry) = find_present(&rows[k], toc)? {
            entries.push(entry);
        }
    }
    if entries.len() == 0 {
        return Err(ImageFault::Missing(rows[0].guid));
    }
    Ok(entries)
}
