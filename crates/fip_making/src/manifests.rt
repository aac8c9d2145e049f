//! Manifests of images in files.
ghost use Rattle.std.specs.Prelude.{◌≡◌, All, ◌≢◌, ◌==◌, ◌||◌, ◌++◌, ◌∷◌, [], Some, Ok, Err, IfOk, IfSome, if◌then◌else◌, length, map, nat_lt, option_and_then, option_map};
ghost use Rattle.fwu_formats.specs.declared.kinds.ManifestFault.TheVariants as fault;
ghost use Rattle.fip_words.specs.Order.{image_view};
ghost use Rattle.fip_words.specs.Values.{each};
ghost use Rattle.host_io.specs.Access.{Asks};
ghost use Rattle.manifest_core.specs.Shown.{row};
ghost use Rattle.fip_making.specs.Stops.{IsManifestStop, IsLate};
ghost use Rattle.fip_making.specs.Answers.{AsTold, ReadsFilesAlone, ReadsOne, AsksNothing, Gives};
ghost use Rattle.fip_making.specs.Values.{and_then, image_in, image_row, is_long, manifest_value, of_rows, sizes_value, there, unless_long};
ghost use Rattle.fip_making.specs.declared.stops.Stop.TheVariants as stop;

use crate::reading::read_file;
use crate::stops::Stop;
use crate::table::size_of;
use base_core::Guid;
use fip_words::ImageWord;
use fwu_formats::ManifestFault;
use host_io::Files;
use manifest_core::{Manifest, ManifestStop, Row};
use std::alloc::{AllocError, Global};

// The longest image that a manifest may have, in bytes.
const IMAGE_LIMIT: usize = 1_048_576;

// What a manifest says of an image, which is nothing where it is too long.
#[tactic(auto, unfolding(crate::specs::Values::image_row))]
fn row_of(guid: Guid, version: u32, image: &[u8]) -> Option<Row>
    ensures { option_map row result ≡ image_row (record { guid = guid; version = version; bytes = image.now }) }
{
    if image.len() > IMAGE_LIMIT {
        None
    } else {
        Some(Row::of(guid, version, image))
    }
}

// The same of a named image.
fn row_of_file<H: Files>(
    alloc: Global,
    files: &mut H,
    named: &ImageWord,
) -> Result<Option<Row>, Stop>
    ensures told { AsTold H.Files (λ told. option_map row)
        (λ told. and_then (there (image_in told (image_view named.now))) (λ i. Ok (image_row i))) files.old files.new result }
    ensures reads { ReadsOne H.Files named.now.file.now IsLate files.old files.new result }
{
    let image = read_file(alloc, files, named.file)?;
    Ok(row_of(named.guid, named.version, image.as_slice()))
}

// The rows with one more, or nothing where one is wanting.
fn with_row(rows: Option<Vec<Row>>, more: Option<Row>) -> Result<Option<Vec<Row>>, AllocError>
    ensures { IfOk result (λ now. option_map (λ v. v.items) now ≡ option_and_then
        (λ rs. option_map (λ r. rs ++ (r ∷ [])) more) (option_map (λ v. v.items) rows)) }
{
    match (rows, more) {
        (Some(mut rows), Some(more)) => {
            rows.push(more)?;
            Ok(Some(rows))
        }
        _ => Ok(None),
    }
}

// The rows of named images, or nothing where one is too long by now.
fn rows_of_files<H: Files>(
    alloc: Global,
    files: &mut H,
    named: &[ImageWord],
) -> Result<Option<Vec<Row>>, Stop>
    ensures told { AsTold H.Files (λ told. option_map (λ v. map row v.items))
        (λ told. and_then (there (each (image_in told) (map image_view named.now))) (λ images. Ok (each image_row images)))
        files.old files.new result }
    ensures reads { ReadsFilesAlone H.Files (λ access. All (λ w. access ≢ Asks w.file.now) named.now) IsLate
        files.old files.new result }
    ensures count { IfOk result (λ rows. IfSome rows (λ v. length v.items ≡ length named.now)) }
{
    let mut rows = Some(Vec::new(alloc));
    for one in named {
        let more = row_of_file(alloc, files, one)?;
        rows = with_row(rows, more)?;
    }
    Ok(rows)
}

// The manifest of these rows: how many, and its bytes.
fn manifest_of_rows(alloc: Global, security: u32, rows: Vec<Row>) -> Result<(u64, Vec<u8>), Stop>
    ensures value { Gives (λ m. (m.0, m.1.items)) ⊥
        (if (length rows.items == 0) || nat_lt 15 (length rows.items) then Err (stop.NoManifest fault.BadCount)
        else of_rows security (Some (map row rows.items))) result }
    ensures count { IfOk result (λ m. m.0 ≡ length rows.items) }
    ensures asks { AsksNothing IsManifestStop result }
{
    let count = rows.len() as u64;
    let manifest = match Manifest::of_rows(alloc, security, rows) {
        Ok(manifest) => manifest,
        Err(ManifestStop::Fault(fault)) => return Err(Stop::NoManifest(fault)),
        Err(ManifestStop::NoMemory) => return Err(Stop::NoMemory),
    };
    Ok((count, manifest.write(alloc)?))
}

// Why there is no manifest of so many images, of which one is too long.
fn refusal(count: usize) -> ManifestFault
    ensures { stop.NoManifest result ≡ (if (count == 0) || nat_lt 15 count then stop.NoManifest fault.BadCount
        else stop.NoManifest fault.TooLarge) }
{
    if count == 0 || count > 15 {
        ManifestFault::BadCount
    } else {
        ManifestFault::TooLarge
    }
}

// Whether there is a manifest of so many images, where one of them may be too long.
fn check_count(count: usize, is_long: bool) -> Result<(), Stop>
    ensures value { Gives (λ done. done) ⊥ (unless_long count is_long) result }
    ensures asks { AsksNothing IsManifestStop result }
{
    if count == 0 || count > 15 || is_long {
        return Err(Stop::NoManifest(refusal(count)));
    }
    Ok(())
}

// Whether the image of a file is too long, by its size.
fn is_long_file<H: Files>(files: &mut H, named: &ImageWord<'_>) -> Result<bool, Stop>
    ensures told { AsTold H.Files (λ told long. long)
        (λ told. and_then (there (image_in told (image_view named.now))) (λ i. Ok (is_long i))) files.old files.new result }
    ensures reads { ReadsOne H.Files named.now.file.now IsLate files.old files.new result }
{
    Ok(size_of(files, named.file)? > IMAGE_LIMIT as u64)
}

// Whether there is a manifest of named images, by how many they are and how long.
fn check_sizes<H: Files>(files: &mut H, named: &[ImageWord<'_>]) -> Result<(), Stop>
    ensures told { AsTold H.Files (λ told done. done) (λ told. sizes_value told (map image_view named.now))
        files.old files.new result }
    ensures reads { ReadsFilesAlone H.Files (λ access. All (λ w. access ≢ Asks w.file.now) named.now) IsManifestStop
        files.old files.new result }
{
    let mut is_long = false;
    for one in named {
        let more = is_long_file(files, one)?;
        is_long = is_long || more;
    }
    check_count(named.len(), is_long)
}

/// A manifest of named images: how many rows, and its bytes. A file that is missing is a fault first; then `BadCount` comes where
/// there are not 1 to 15 images, and else `TooLarge` where one has more than 1,048,576 bytes.
pub fn manifest<H: Files>(
    alloc: Global,
    files: &mut H,
    security: u32,
    named: &[ImageWord<'_>],
) -> Result<(u64, Vec<u8>), Stop>
    ensures told { AsTold H.Files (λ told m. (m.0, m.1.items))
        (λ told. manifest_value told security (map image_view named.now)) files.old files.new result }
    ensures count { IfOk result (λ m. m.0 ≡ length named.now) }
    ensures reads { ReadsFilesAlone H.Files (λ access. All (λ w. access ≢ Asks w.file.now) named.now) IsManifestStop
        files.old files.new result }
{
    check_sizes(files, named)?;
    match rows_of_files(alloc, files, named)? {
        Some(rows) => manifest_of_rows(alloc, security, rows),
        None => Err(Stop::NoManifest(refusal(named.len()))),
    }
}
