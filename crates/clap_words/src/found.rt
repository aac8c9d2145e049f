//! What `clap` finds in the words.
ghost use Rattle.std.specs.Prelude.{◌≡◌, Err, None, IfOk, map, option_map, string_bytes, true};
ghost use Rattle.clap.specs.Faults.{is_simple_and_free};
ghost use Rattle.clap.specs.Words.{app_of, first_of, found_of, rows_of, subcommand_rows_of};
ghost use Rattle.clap_words.specs.Answers.{GivesAsked, file_in, values_of};
ghost use Rattle.clap_words.specs.Words.{reads};

use crate::UsageStop;
use crate::values::file_value;
use clap::error::ErrorKind;
use clap::{ArgMatches, Command};
use std::alloc::{AllocError, Global};

/// The command's matches on the words. `Usage` comes exactly where `clap` refuses the words for another cause than memory.
pub fn matches<'a>(command: Command<'a>, words: &'a [String]) -> Result<ArgMatches<'a>, UsageStop>
    requires { is_simple_and_free (app_of command) ≡ true }
    ensures ok { IfOk result (λ m. subcommand_rows_of m
        ≡ reads (app_of command.entry) (map string_bytes words.entry.now)) }
    ensures usage { result ≡ Err UsageStop.Usage
        → reads (app_of command.entry) (map string_bytes words.entry.now) ≡ None }
{
    match command.try_get_matches_from(words) {
        Ok(found) => Ok(found),
        Err(error) => match error.kind() {
            ErrorKind::OutOfMemory => Err(UsageStop::NoMemory),
            _ => Err(UsageStop::Usage),
        },
    }
}

/// The first value of an argument.
pub fn given<'a>(found: &ArgMatches<'a>, id: &str) -> Option<&'a str>
    ensures { option_map (λ s. s.now) result ≡ first_of id.now (rows_of (found_of found.now)) }
{
    found.get_str(id)
}

/// The values of a repeated argument.
pub fn given_all<'a>(
    alloc: Global,
    found: &ArgMatches<'a>,
    id: &str,
) -> Result<Vec<&'a str>, AllocError>
    ensures { IfOk result (λ v. map (λ s. s.now) v.items ≡
        values_of id.now (rows_of (found_of found.now))) }
{
    match found.get_strs(id) {
        Some(values) => Vec::from_slice(alloc, values),
        None => Ok(Vec::new(alloc)),
    }
}

/// The value of an argument that is a file's name. `Usage` comes exactly where there is none, or no file can have that name.
pub fn given_file<'a>(found: &ArgMatches<'a>, id: &str) -> Result<&'a str, UsageStop>
    ensures { GivesAsked (λ s. s.now) result (file_in id.now (rows_of (found_of found.now))) }
{
    let Some(text) = given(found, id) else {
        return Err(UsageStop::Usage);
    };
    match file_value(text) {
        Some(file) => Ok(file),
        None => Err(UsageStop::Usage),
    }
}
