//! What the words ask for.
ghost use Rattle.std.specs.Prelude.{◌≡◌, if◌then◌else◌, map, option_and_then, string_bytes};
ghost use Rattle.clap.specs.Words.{found_of, rows_of, subcommand_rows_of};
ghost use Rattle.clap_words.specs.Answers.{GivesAsked};
ghost use Rattle.fwu_words.specs.Order.{asked, banks_in, format_of, is_partitioned, layout_in, number_given, order_of, soak_of, turns_of, view};

use crate::commands::fwu_command;
use crate::values::{banks_value, layout_rows};
use base_core::ImageRow;
use clap::ArgMatches;
use clap_words::{UsageStop, given, given_file, matches, read_number};
use std::alloc::Global;
use words_core::is_word;

/// Where the calls of a run are from.
#[derive(Clone, Copy, Debug, PartialEq, Eq)]
pub enum ScriptFrom {
    /// The source, as the text of a script: `run`.
    Source,
    /// One boot, and no source: `boot`.
    Boot,
}

/// Where the turns of a run take place.
#[derive(Clone, Copy, Debug, PartialEq, Eq)]
pub enum Place {
    /// On the device, which is the flash.
    Flash,
    /// On the flash that the device has behind a GUID partition table: `--gpt`.
    Partitions,
}

/// The turns of a script that are asked for.
#[derive(Clone, Copy, Debug, PartialEq, Eq)]
pub struct Turns {
    pub from: ScriptFrom,
    pub place: Place,
}

/// A flash that is to be made: of `banks` banks, 2 to 4, each with these images in this order, and with the package of this name.
#[derive(Drop)]
pub struct NewFlash<'a> {
    pub banks: u32,
    pub rows: Vec<ImageRow>,
    pub package: &'a str,
}

/// What the words of `fwu` ask for. Files are named as they stand in the words.
#[derive(Drop)]
pub enum Order<'a> {
    /// Carries out the calls of a script, one turn for each.
    Turns(Turns),
    /// Tells what the flash holds.
    Show,
    /// Makes a flash, and stores its package.
    Format(NewFlash<'a>),
    /// Carries out this many rounds of updates, 0 or more, drawn from the seed.
    Soak { seed: u32, rounds: u32 },
    /// Boots once, and serves the requests of a byte stream.
    Serve,
}

fn given_banks<'a>(found: &ArgMatches<'a>) -> Result<u32, UsageStop>
    ensures { GivesAsked (λ n. n) result (banks_in (rows_of (found_of found.now))) }
{
    match banks_value(given(found, "banks")) {
        Some(banks) => Ok(banks),
        None => Err(UsageStop::Usage),
    }
}

fn given_layout<'a>(alloc: Global, found: &ArgMatches<'a>) -> Result<Vec<ImageRow>, UsageStop>
    ensures { GivesAsked (λ v. v.items) result (layout_in (rows_of (found_of found.now))) }
{
    match given(found, "layout") {
        Some(text) => layout_rows(alloc, text),
        None => Err(UsageStop::Usage),
    }
}

fn format_order<'a>(alloc: Global, found: &ArgMatches<'a>) -> Result<Order<'a>, UsageStop>
    ensures { GivesAsked view result (format_of (rows_of (found_of found.now))) }
{
    let banks = given_banks(found)?;
    let rows = given_layout(alloc, found)?;
    let package = given_file(found, "package")?;
    Ok(Order::Format(NewFlash {
        banks,
        rows,
        package,
    }))
}

fn given_number<'a>(found: &ArgMatches<'a>, id: &str) -> Result<u32, UsageStop>
    ensures { GivesAsked (λ n. n) result (number_given id.now (rows_of (found_of found.now))) }
{
    let Some(text) = given(found, id) else {
        return Err(UsageStop::Usage);
    };
    match read_number(text) {
        Some(number) => Ok(number),
        None => Err(UsageStop::Usage),
    }
}

fn soak_order<'a>(found: &ArgMatches<'a>) -> Result<Order<'a>, UsageStop>
    ensures { GivesAsked view result (soak_of (rows_of (found_of found.now))) }
{
    let seed = given_number(found, "seed")?;
    let rounds = given_number(found, "rounds")?;
    Ok(Order::Soak { seed, rounds })
}

/// Whether `--gpt` is given.
fn is_over_table<'a>(found: &ArgMatches<'a>) -> bool
    ensures { result ≡ is_partitioned (rows_of (found_of found.now)) }
{
    match given(found, "gpt") {
        Some(text) => is_word(text.as_bytes(), b"true"),
        None => false,
    }
}

/// The turns of a script from there, at the place that `--gpt` gives.
fn turns_order<'a>(from: ScriptFrom, found: &ArgMatches<'a>) -> Order<'a>
    ensures { view result ≡ (if is_partitioned (rows_of (found_of found.now))
        then turns_of from Place.Partitions else turns_of from Place.Flash) }
{
    let place = if is_over_table(found) {
        Place::Partitions
    } else {
        Place::Flash
    };
    Order::Turns(Turns { from, place })
}

fn named_order<'a>(
    alloc: Global,
    name: &str,
    found: &ArgMatches<'a>,
) -> Result<Order<'a>, UsageStop>
    ensures { GivesAsked view result (order_of name.now (rows_of (found_of found.now))) }
{
    let name = name.as_bytes();
    if is_word(name, b"run") {
        Ok(turns_order(ScriptFrom::Source, found))
    } else if is_word(name, b"boot") {
        Ok(turns_order(ScriptFrom::Boot, found))
    } else if is_word(name, b"show") {
        Ok(Order::Show)
    } else if is_word(name, b"format") {
        format_order(alloc, found)
    } else if is_word(name, b"soak") {
        soak_order(found)
    } else if is_word(name, b"serve") {
        Ok(Order::Serve)
    } else {
        Err(UsageStop::Usage)
    }
}

// The order of the matches.
fn found_order<'a>(alloc: Global, found: &ArgMatches<'a>) -> Result<Order<'a>, UsageStop>
    ensures { GivesAsked view result
        (option_and_then (λ p. order_of p.0 p.1) (subcommand_rows_of found.now)) }
{
    match found.subcommand() {
        Some((name, below)) => named_order(alloc, name, below),
        None => Err(UsageStop::Usage),
    }
}

/// What the words, without the program's name, the flash and a list, ask for. `Usage` comes exactly where they ask for nothing:
/// where `clap` refuses them, and where a value is not in its grammar.
pub fn fwu_order<'a>(alloc: Global, words: &'a [String]) -> Result<Order<'a>, UsageStop>
    ensures { GivesAsked view result (asked (map string_bytes words.entry.now)) }
{
    let command = match fwu_command(alloc) {
        Ok(command) => command,
        Err(_) => return Err(UsageStop::NoMemory),
    };
    match matches(command, words) {
        Ok(found) => found_order(alloc, &found),
        Err(stop) => Err(stop),
    }
}
