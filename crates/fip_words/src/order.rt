//! What the words ask for.
ghost use Rattle.std.specs.Prelude.{codes, map, option_and_then, option_map, string_bytes};
ghost use Rattle.clap.specs.Words.{first_of, found_of, rows_of, subcommand_rows_of};
ghost use Rattle.clap_words.specs.Answers.{GivesAsked, file_in, values_of};
ghost use Rattle.fip_words.specs.Order.{align_in, asked, capsule_order_of, create_of, info_of, manifest_order_of, order_of, image_view, repackage_of, part_view, remove_of, unpack_of, update_of, view};
ghost use Rattle.fip_words.specs.Values as value;

use crate::commands::fip_command;
use crate::values::{FileWord, ImageWord, align_value, is_unpacked_file, names, parts, rows};
use base_core::Guid;
use clap::ArgMatches;
use clap_words::{UsageStop, given, given_all, given_file, matches, read_number};
use std::alloc::Global;
use words_core::is_word;

/// What the words of `fip` ask for. Files are named as they stand in the words.
#[derive(Drop)]
pub enum FipOrder<'a> {
    /// Lists a package.
    Info {
        file: &'a str,
    },
    /// Lists the package that comes from the source.
    InfoOfSource,
    /// Packs payloads, each at a multiple of `align` bytes.
    Create {
        align: u32,
        out: &'a str,
        parts: Vec<FileWord<'a>>,
    },
    /// Replaces payloads in place.
    Update {
        align: u32,
        from: &'a str,
        out: &'a str,
        parts: Vec<FileWord<'a>>,
    },
    /// Drops entries.
    Remove {
        align: u32,
        from: &'a str,
        out: &'a str,
        names: Vec<Guid>,
    },
    /// Writes each payload, or the named ones where some are named, to a file of its own.
    Unpack {
        from: &'a str,
        prefix: &'a str,
        names: Vec<Guid>,
    },
    /// Makes a manifest.
    Manifest {
        out: &'a str,
        security: u32,
        rows: Vec<ImageWord<'a>>,
    },
    /// Makes a capsule of a package.
    Capsule {
        from: &'a str,
        out: &'a str,
    },
    /// Makes a package of a capsule, each payload at a multiple of `align` bytes.
    Package {
        align: u32,
        from: &'a str,
        out: &'a str,
    },
}

fn given_align<'a>(found: &ArgMatches<'a>) -> Result<u32, UsageStop>
    ensures { GivesAsked (λ n. n) result (align_in (rows_of (found_of found.now))) }
{
    match align_value(given(found, "align")) {
        Some(align) => Ok(align),
        None => Err(UsageStop::Usage),
    }
}

fn given_number<'a>(found: &ArgMatches<'a>, id: &str) -> Result<u32, UsageStop>
    ensures { GivesAsked (λ n. n) result (option_and_then value.number_read (first_of id.now (rows_of (found_of found.now)))) }
{
    let Some(text) = given(found, id) else {
        return Err(UsageStop::Usage);
    };
    match read_number(text) {
        Some(value) => Ok(value),
        None => Err(UsageStop::Usage),
    }
}

fn given_parts<'a>(alloc: Global, found: &ArgMatches<'a>) -> Result<Vec<FileWord<'a>>, UsageStop>
    ensures { GivesAsked (λ v. map part_view v.items) result
        (value.named_parts_of (values_of (codes "parts") (rows_of (found_of found.now)))) }
{
    match given_all(alloc, found, "parts") {
        Ok(texts) => parts(alloc, texts.as_slice()),
        Err(_) => Err(UsageStop::NoMemory),
    }
}

fn given_names<'a>(alloc: Global, found: &ArgMatches<'a>, id: &str) -> Result<Vec<Guid>, UsageStop>
    ensures { GivesAsked (λ v. v.items) result (value.names_of (values_of id.now (rows_of (found_of found.now)))) }
{
    match given_all(alloc, found, id) {
        Ok(texts) => names(alloc, texts.as_slice()),
        Err(_) => Err(UsageStop::NoMemory),
    }
}

fn given_rows<'a>(alloc: Global, found: &ArgMatches<'a>) -> Result<Vec<ImageWord<'a>>, UsageStop>
    ensures { GivesAsked (λ v. map image_view v.items) result
        (value.named_rows_of (values_of (codes "rows") (rows_of (found_of found.now)))) }
{
    match given_all(alloc, found, "rows") {
        Ok(texts) => rows(alloc, texts.as_slice()),
        Err(_) => Err(UsageStop::NoMemory),
    }
}

fn info_order<'a>(found: &ArgMatches<'a>) -> Result<FipOrder<'a>, UsageStop>
    ensures { GivesAsked view result (info_of (rows_of (found_of found.now))) }
{
    let file = given_file(found, "file")?;
    if is_word(file.as_bytes(), b"-") {
        Ok(FipOrder::InfoOfSource)
    } else {
        Ok(FipOrder::Info { file })
    }
}

fn create_order<'a>(alloc: Global, found: &ArgMatches<'a>) -> Result<FipOrder<'a>, UsageStop>
    ensures { GivesAsked view result (create_of (rows_of (found_of found.now))) }
{
    let align = given_align(found)?;
    let out = given_file(found, "out")?;
    let parts = given_parts(alloc, found)?;
    Ok(FipOrder::Create { align, out, parts })
}

fn update_order<'a>(alloc: Global, found: &ArgMatches<'a>) -> Result<FipOrder<'a>, UsageStop>
    ensures { GivesAsked view result (update_of (rows_of (found_of found.now))) }
{
    let align = given_align(found)?;
    let from = given_file(found, "in")?;
    let out = given_file(found, "out")?;
    let parts = given_parts(alloc, found)?;
    Ok(FipOrder::Update {
        align,
        from,
        out,
        parts,
    })
}

fn remove_order<'a>(alloc: Global, found: &ArgMatches<'a>) -> Result<FipOrder<'a>, UsageStop>
    ensures { GivesAsked view result (remove_of (rows_of (found_of found.now))) }
{
    let align = given_align(found)?;
    let from = given_file(found, "in")?;
    let out = given_file(found, "out")?;
    let names = given_names(alloc, found, "parts")?;
    Ok(FipOrder::Remove {
        align,
        from,
        out,
        names,
    })
}

fn unpack_order<'a>(alloc: Global, found: &ArgMatches<'a>) -> Result<FipOrder<'a>, UsageStop>
    ensures { GivesAsked view result (unpack_of (rows_of (found_of found.now))) }
{
    let from = given_file(found, "in")?;
    let prefix = given_file(found, "prefix")?;
    let names = given_names(alloc, found, "names")?;
    if is_unpacked_file(prefix.as_bytes(), from.as_bytes()) {
        return Err(UsageStop::Usage);
    }
    Ok(FipOrder::Unpack {
        from,
        prefix,
        names,
    })
}

fn manifest_order<'a>(alloc: Global, found: &ArgMatches<'a>) -> Result<FipOrder<'a>, UsageStop>
    ensures { GivesAsked view result (manifest_order_of (rows_of (found_of found.now))) }
{
    let out = given_file(found, "out")?;
    let security = given_number(found, "security")?;
    let rows = given_rows(alloc, found)?;
    Ok(FipOrder::Manifest {
        out,
        security,
        rows,
    })
}

fn capsule_order<'a>(found: &ArgMatches<'a>) -> Result<FipOrder<'a>, UsageStop>
    ensures { GivesAsked view result (capsule_order_of (rows_of (found_of found.now))) }
{
    let from = given_file(found, "in")?;
    let out = given_file(found, "out")?;
    Ok(FipOrder::Capsule { from, out })
}

fn package_order<'a>(found: &ArgMatches<'a>) -> Result<FipOrder<'a>, UsageStop>
    ensures { GivesAsked view result (repackage_of (rows_of (found_of found.now))) }
{
    let align = given_align(found)?;
    let from = given_file(found, "in")?;
    let out = given_file(found, "out")?;
    Ok(FipOrder::Package { align, from, out })
}

fn named_order<'a>(
    alloc: Global,
    name: &str,
    found: &ArgMatches<'a>,
) -> Result<FipOrder<'a>, UsageStop>
    ensures { GivesAsked view result (order_of name.now (rows_of (found_of found.now))) }
{
    let name = name.as_bytes();
    if is_word(name, b"info") {
        info_order(found)
    } else if is_word(name, b"create") {
        create_order(alloc, found)
    } else if is_word(name, b"update") {
        update_order(alloc, found)
    } else if is_word(name, b"remove") {
        remove_order(alloc, found)
    } else if is_word(name, b"unpack") {
        unpack_order(alloc, found)
    } else if is_word(name, b"manifest") {
        manifest_order(alloc, found)
    } else if is_word(name, b"capsule") {
        capsule_order(found)
    } else if is_word(name, b"package") {
        package_order(found)
    } else {
        Err(UsageStop::Usage)
    }
}

// The order of the matches.
fn found_order<'a>(alloc: Global, found: &ArgMatches<'a>) -> Result<FipOrder<'a>, UsageStop>
    ensures { GivesAsked view result
        (option_and_then (λ p. order_of p.0 p.1) (subcommand_rows_of found.now)) }
{
    match found.subcommand() {
        Some((name, below)) => named_order(alloc, name, below),
        None => Err(UsageStop::Usage),
    }
}

/// What the words, without the program's name, ask for. `Usage` comes exactly where they ask for nothing. That is where `clap`
/// refuses them, a value is not in its grammar, or a type is named twice. For `unpack` it is also where IN is a file that may
/// be written.
pub fn fip_order<'a>(alloc: Global, words: &'a [String]) -> Result<FipOrder<'a>, UsageStop>
    ensures { GivesAsked view result (asked (map string_bytes words.entry.now)) }
{
    let command = match fip_command(alloc) {
        Ok(command) => command,
        Err(_) => return Err(UsageStop::NoMemory),
    };
    match matches(command, words) {
        Ok(found) => found_order(alloc, &found),
        Err(stop) => Err(stop),
    }
}
