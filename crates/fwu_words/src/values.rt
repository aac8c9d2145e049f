//! The values of the words: numbers of banks and layouts.
ghost use Rattle.std.specs.Prelude.{◌≡◌, ◌==◌, IfOk, map, option_map};
ghost use Rattle.std.specs.List.{slice_split};
ghost use Rattle.clap_words.specs.Answers.{GivesAsked};
ghost use Rattle.clap_words.specs.Values.{each, split_of};
ghost use Rattle.fwu_words.specs.Values.{banks_of, slots_row_of, rows_of};

use base_core::{FEWEST_BANKS, ImageRow, MOST_BANKS};
use clap_words::{UsageStop, read_name, read_number};
use std::alloc::{AllocError, Global};

/// The number of banks, 2 to 4, and 2 where none is given.
pub fn banks_value(text: Option<&str>) -> Option<u32>
    ensures { result ≡ banks_of (option_map (λ s. s.now) text.entry) }
{
    let Some(text) = text else {
        return Some(FEWEST_BANKS);
    };
    let banks = read_number(text)?;
    if FEWEST_BANKS <= banks && banks <= MOST_BANKS {
        Some(banks)
    } else {
        None
    }
}

#[tactic(auto, unfolding(clap_words::specs::Values::split_of))]
fn split_at_colon<'a>(text: &'a str) -> Option<(&'a str, &'a str)>
    ensures { option_map (λ p. (p.0.now, p.1.now)) result ≡ split_of 58 text.entry.now }
{
    text.split_once(':')
}

#[tactic(auto, unfolding(crate::specs::Values::slots_row_of))]
fn read_row(text: &str) -> Option<ImageRow>
    ensures { result ≡ slots_row_of text.now }
{
    let (name, slots) = split_at_colon(text)?;
    let guid = read_name(name)?;
    let slots = read_number(slots)?;
    Some(ImageRow { guid, slots })
}

fn pieces<'a>(alloc: Global, text: &'a str) -> Result<Vec<&'a str>, AllocError>
    ensures { IfOk result (λ v. map (λ s. s.now) v.items ≡ slice_split (λ b. b == 44) text.entry.now) }
{
    text.split(',').collect(alloc)
}

fn each_row(alloc: Global, texts: &[&str]) -> Result<Vec<ImageRow>, UsageStop>
    ensures { GivesAsked (λ v. v.items) result (each slots_row_of (map (λ s. s.now) texts.now)) }
{
    let mut rows = Vec::new(alloc);
    for text in texts {
        let Some(row) = read_row(text) else {
            return Err(UsageStop::Usage);
        };
        if rows.push(row).is_err() {
            return Err(UsageStop::NoMemory);
        }
    }
    Ok(rows)
}

/// The images of a layout. `Usage` comes exactly where a part is no `NAME:SLOTS`.
#[tactic(auto, unfolding(crate::specs::Values::rows_of))]
pub fn layout_rows(alloc: Global, text: &str) -> Result<Vec<ImageRow>, UsageStop>
    ensures { GivesAsked (λ v. v.items) result (rows_of text.now) }
{
    match pieces(alloc, text) {
        Ok(texts) => each_row(alloc, texts.as_slice()),
        Err(_) => Err(UsageStop::NoMemory),
    }
}
