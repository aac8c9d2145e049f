//! The values of the words: parts, rows and names.
ghost use Rattle.std.specs.Prelude.{◌≡◌, IfOk, map, option_map};
ghost use Rattle.std.specs.List.{list_any};
ghost use Rattle.base_core.specs.Bytes.{same_bytes};
ghost use Rattle.fwu_formats.specs.Layout.{are_distinct};
ghost use Rattle.clap_words.specs.Answers.{GivesAsked};
ghost use Rattle.clap_words.specs.Values.{each, name_of, split_of};
ghost use Rattle.fip_words.specs.Order.{image_view, part_view};
ghost use Rattle.fip_words.specs.Values.{align_of, is_lower_guid, is_unpacked, names_of, part_of, named_parts_of, named_row_of, named_rows_of, version_word_of};

use base_core::Guid;
use clap_words::{UsageStop, file_value, read_name, read_number};
use std::alloc::{AllocError, Global};
use words_core::{guid_spelled, is_word};

/// A payload's type, and the file that it comes from.
#[derive(Clone, Copy, Debug, PartialEq, Eq)]
pub struct FileWord<'a> {
    pub guid: Guid,
    pub file: &'a str,
}

/// An image's type and version, and the file that it comes from.
#[derive(Clone, Copy, Debug, PartialEq, Eq)]
pub struct ImageWord<'a> {
    pub guid: Guid,
    pub version: u32,
    pub file: &'a str,
}

#[tactic(auto, unfolding(clap_words::specs::Values::split_of))]
fn split_at_equals<'a>(text: &'a str) -> Option<(&'a str, &'a str)>
    ensures { option_map (λ p. (p.0.now, p.1.now)) result ≡ split_of 61 text.entry.now }
{
    text.split_once('=')
}

#[tactic(auto, unfolding(clap_words::specs::Values::split_of))]
fn split_at_comma<'a>(text: &'a str) -> Option<(&'a str, &'a str)>
    ensures { option_map (λ p. (p.0.now, p.1.now)) result ≡ split_of 44 text.entry.now }
{
    text.split_once(',')
}

#[tactic(auto, unfolding(crate::specs::Values::part_of))]
fn read_part<'a>(text: &'a str) -> Option<FileWord<'a>>
    ensures { option_map part_view result ≡ part_of text.entry.now }
{
    let (name, file) = split_at_equals(text)?;
    let guid = read_name(name)?;
    let file = file_value(file)?;
    Some(FileWord { guid, file })
}

#[tactic(auto, unfolding(crate::specs::Values::version_word_of))]
fn version_and_file<'a>(text: &'a str) -> Option<(u32, &'a str)>
    ensures { option_map (λ v. (v.0, v.1.now)) result ≡ version_word_of text.entry.now }
{
    let (version, file) = split_at_comma(text)?;
    let version = read_number(version)?;
    let file = file_value(file)?;
    Some((version, file))
}

#[tactic(auto, unfolding(crate::specs::Values::named_row_of))]
fn read_row<'a>(text: &'a str) -> Option<ImageWord<'a>>
    ensures { option_map image_view result ≡ named_row_of text.entry.now }
{
    let (name, rest) = split_at_comma(text)?;
    let guid = read_name(name)?;
    let (version, file) = version_and_file(rest)?;
    Some(ImageWord {
        guid,
        version,
        file,
    })
}

fn each_part<'a>(alloc: Global, texts: &[&'a str]) -> Result<Vec<FileWord<'a>>, UsageStop>
    ensures { GivesAsked (λ v. map part_view v.items) result (each part_of (map (λ s. s.now) texts.now)) }
{
    let mut parts = Vec::new(alloc);
    for text in texts {
        let Some(part) = read_part(text) else {
            return Err(UsageStop::Usage);
        };
        if parts.push(part).is_err() {
            return Err(UsageStop::NoMemory);
        }
    }
    Ok(parts)
}

fn each_image<'a>(alloc: Global, texts: &[&'a str]) -> Result<Vec<ImageWord<'a>>, UsageStop>
    ensures { GivesAsked (λ v. map image_view v.items) result (each named_row_of (map (λ s. s.now) texts.now)) }
{
    let mut rows = Vec::new(alloc);
    for text in texts {
        let Some(row) = read_row(text) else {
            return Err(UsageStop::Usage);
        };
        if rows.push(row).is_err() {
            return Err(UsageStop::NoMemory);
        }
    }
    Ok(rows)
}

fn each_name(alloc: Global, texts: &[&str]) -> Result<Vec<Guid>, UsageStop>
    ensures { GivesAsked (λ v. v.items) result (each name_of (map (λ s. s.now) texts.now)) }
{
    let mut guids = Vec::new(alloc);
    for text in texts {
        let Some(guid) = read_name(text) else {
            return Err(UsageStop::Usage);
        };
        if guids.push(guid).is_err() {
            return Err(UsageStop::NoMemory);
        }
    }
    Ok(guids)
}

fn is_among(guids: &[Guid], guid: &Guid) -> bool
    ensures { result ≡ list_any (same_bytes guid.now) guids.now }
{
    guids.iter().any(|other| guid.is(other))
}

fn differ(guids: &[Guid]) -> bool
    ensures { result ≡ are_distinct guids.now }
{
    for (i, guid) in guids.iter().enumerate() {
        if is_among(&guids[i + 1..], guid) {
            return false;
        }
    }
    true
}

fn types_of_parts(alloc: Global, parts: &[FileWord]) -> Result<Vec<Guid>, AllocError>
    ensures { IfOk result (λ v. v.items ≡ map (λ p. p.guid) parts.now) }
{
    parts.iter().map(|part| part.guid).collect(alloc)
}

fn types_of_rows(alloc: Global, rows: &[ImageWord]) -> Result<Vec<Guid>, AllocError>
    ensures { IfOk result (λ v. v.items ≡ map (λ r. r.guid) rows.now) }
{
    rows.iter().map(|row| row.guid).collect(alloc)
}

/// The parts that the words are. `Usage` comes exactly where one is no part, or a type is named twice.
#[tactic(auto, unfolding(crate::specs::Values::named_parts_of))]
pub fn parts<'a>(alloc: Global, texts: &[&'a str]) -> Result<Vec<FileWord<'a>>, UsageStop>
    ensures { GivesAsked (λ v. map part_view v.items) result (named_parts_of (map (λ s. s.now) texts.now)) }
{
    let parts = each_part(alloc, texts)?;
    let Ok(guids) = types_of_parts(alloc, parts.as_slice()) else {
        return Err(UsageStop::NoMemory);
    };
    if differ(guids.as_slice()) {
        Ok(parts)
    } else {
        Err(UsageStop::Usage)
    }
}

/// The rows that the words are. `Usage` comes exactly where one is no row, or a type is named twice.
#[tactic(auto, unfolding(crate::specs::Values::named_rows_of))]
pub fn rows<'a>(alloc: Global, texts: &[&'a str]) -> Result<Vec<ImageWord<'a>>, UsageStop>
    ensures { GivesAsked (λ v. map image_view v.items) result (named_rows_of (map (λ s. s.now) texts.now)) }
{
    let rows = each_image(alloc, texts)?;
    let Ok(guids) = types_of_rows(alloc, rows.as_slice()) else {
        return Err(UsageStop::NoMemory);
    };
    if differ(guids.as_slice()) {
        Ok(rows)
    } else {
        Err(UsageStop::Usage)
    }
}

/// The types that the words name. `Usage` comes exactly where one is no name, or a type is named twice.
#[tactic(auto, unfolding(crate::specs::Values::names_of))]
pub fn names(alloc: Global, texts: &[&str]) -> Result<Vec<Guid>, UsageStop>
    ensures { GivesAsked (λ v. v.items) result (names_of (map (λ s. s.now) texts.now)) }
{
    let guids = each_name(alloc, texts)?;
    if differ(guids.as_slice()) {
        Ok(guids)
    } else {
        Err(UsageStop::Usage)
    }
}

/// The alignment, 1 where none is given.
pub fn align_value(text: Option<&str>) -> Option<u32>
    ensures { result ≡ align_of (option_map (λ s. s.now) text.entry) }
{
    match text {
        Some(text) => read_number(text),
        None => Some(1),
    }
}

#[tactic(auto, unfolding(crate::specs::Values::is_lower_guid))]
fn is_lower_guid_text(text: &[u8]) -> bool
    ensures { result ≡ is_lower_guid text.now }
{
    match guid_spelled(text) {
        Some(guid) => {
            let mut lower = [0; 36];
            guid.text(&mut lower);
            is_word(&lower, text)
        }
        None => false,
    }
}

/// Whether the file is one that `unpack` may write: the prefix, the lower-case text of a UUID, and `.bin`.
#[tactic(auto, unfolding(crate::specs::Values::is_unpacked))]
pub fn is_unpacked_file(prefix: &[u8], file: &[u8]) -> bool
    ensures { result ≡ is_unpacked prefix.now file.now }
{
    let end = prefix.len();
    file.len() >= 40
        && file.len() - 40 == end
        && is_word(&file[..end], prefix)
        && is_lower_guid_text(&file[end..end + 36])
        && is_word(&file[end + 36..], b".bin")
}
