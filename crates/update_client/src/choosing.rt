//! The entries of a package that are the images of a layout.
ghost use Rattle.std.specs.Prelude.{◌≡◌, ◌<◌, ◌≤◌, length};
ghost use Rattle.fwu_formats.specs.Layout.{find_image};
ghost use Rattle.fwu_model.specs.Answer.{skipped as others_in};
ghost use Rattle.update_client.specs.Sends.{Chooses, refused_as};
ghost use Rattle.update_client.specs.Partial.{SendsPresent};

use crate::stops::SendStop;
use base_core::{Guid, ImageRow};
use fip_tables::{ImageEntries, ImageFault, Toc, images_of, present_images_of};

/// The fault of an image, as a stop of a sending.
fn refused(fault: ImageFault) -> SendStop
    ensures { result ≡ refused_as fault }
{
    match fault {
        ImageFault::Missing(guid) => SendStop::MissingImage(guid),
        ImageFault::TooLarge(guid) => SendStop::ImageTooLarge(guid),
    }
}

/// The entries of the images, in their order, or the fault of the lowest image that has one.
pub fn choose(rows: &[ImageRow], toc: &Toc) -> Result<ImageEntries, SendStop>
    requires { length rows.now ≤ 16 }
    ensures { Chooses rows.now toc.now result }
{
    match images_of(rows, toc) {
        Ok(entries) => Ok(entries),
        Err(fault) => Err(refused(fault)),
    }
}

/// The entries of the images that the table has, in their order. Where it has none of them, the first
/// image is missing; else the fault is the lowest that is too large.
pub fn choose_present(rows: &[ImageRow], toc: &Toc) -> Result<ImageEntries, SendStop>
    requires some { 0 < length rows.now }
    requires few { length rows.now ≤ 16 }
    ensures { SendsPresent rows.now toc.now result }
{
    match present_images_of(rows, toc) {
        Ok(entries) => Ok(entries),
        Err(fault) => Err(refused(fault)),
    }
}

fn find_row(rows: &[ImageRow], guid: &Guid) -> Option<usize>
    ensures { result ≡ find_image rows.now guid.now }
{
    rows.iter().position(|row| row.guid.is(guid))
}

/// How many entries are no image of the layout.
pub fn skipped(rows: &[ImageRow], toc: &Toc) -> u32
    ensures { result ≡ others_in rows.now toc.now }
{
    let _count = toc.entries.len();
    toc.entries
        .as_slice()
        .iter()
        .filter(|entry| find_row(rows, &entry.guid).is_none())
        .count() as u32
}
