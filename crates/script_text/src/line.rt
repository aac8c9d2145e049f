//! The lines of a script, one at a time.
ghost use Rattle.std.specs.Prelude.{◌≡◌, ◌==◌, ◌∷◌, [], IfOk, IfSome, option_map};
ghost use Rattle.std.specs.List.{slice_split};
ghost use Rattle.fwu_model.specs.Script.{call_of_four, call_of_others, call_of_three, call_of_words, line_of, simple_call};
ghost use Rattle.script_text.specs.Shown.{HasBuffer, LineHasBuffer, is_nothing, line_shown, shown};

use crate::call::Call;
use crate::split::split;
use crate::words::{
    accept_of, begin_of, commit_of, cut_of, open_of, read_of, send_of, send_partial_of, write_of,
};
use base_core::NoMemory;
use std::alloc::Global;
use words_core::is_word;

/// What a line has: nothing, or a call; or it is no line of a script.
#[derive(Drop)]
pub enum Line {
    Nothing,
    Call(Call),
    Bad,
}

/// The call of one word.
fn call_of_word(word: &[u8]) -> Option<Call>
    ensures call { option_map shown result ≡ simple_call word.now }
    ensures buffer { IfSome result HasBuffer }
{
    if is_word(word, b"discover") {
        Some(Call::Discover)
    } else if is_word(word, b"begin") {
        Some(Call::Begin { partial_count: 0 })
    } else if is_word(word, b"end") {
        Some(Call::End)
    } else if is_word(word, b"cancel") {
        Some(Call::Cancel)
    } else if is_word(word, b"previous") {
        Some(Call::Previous)
    } else if is_word(word, b"boot") {
        Some(Call::Boot)
    } else if is_word(word, b"show") {
        Some(Call::Show)
    } else {
        None
    }
}

/// The call of two words.
fn call_of_two(word: &[u8], name: &[u8]) -> Option<Call>
    ensures call { option_map shown result ≡ call_of_others (word.now ∷ name.now ∷ []) }
    ensures buffer { IfSome result HasBuffer }
{
    if is_word(word, b"accept") {
        accept_of(name)
    } else {
        None
    }
}

/// The call of three words.
fn call_of_three(
    alloc: Global,
    word: &[u8],
    first: &[u8],
    second: &[u8],
) -> Result<Option<Call>, NoMemory>
    ensures call { IfOk result (λ found. option_map shown found
        ≡ call_of_three word.now first.now second.now) }
    ensures buffer { IfOk result (λ found. IfSome found HasBuffer) }
{
    if is_word(word, b"open") {
        Ok(open_of(first, second))
    } else if is_word(word, b"write") {
        write_of(alloc, first, second)
    } else if is_word(word, b"read") {
        read_of(alloc, first, second)
    } else if is_word(word, b"commit") {
        Ok(commit_of(first, second))
    } else if is_word(word, b"send") {
        send_of(alloc, first, second)
    } else if is_word(word, b"cut") {
        Ok(cut_of(first, second))
    } else {
        Ok(None)
    }
}

/// The call of four words.
fn call_of_four(
    alloc: Global,
    word: &[u8],
    first: &[u8],
    second: &[u8],
    third: &[u8],
) -> Result<Option<Call>, NoMemory>
    ensures call { IfOk result (λ found. option_map shown found
        ≡ call_of_four word.now first.now second.now third.now) }
    ensures buffer { IfOk result (λ found. IfSome found HasBuffer) }
{
    if is_word(word, b"send") && is_word(third, b"partial") {
        send_partial_of(alloc, first, second)
    } else {
        Ok(None)
    }
}

/// The call of two words, and what stands behind them.
fn call_of_more(
    alloc: Global,
    word: &[u8],
    first: &[u8],
    others: &[u8],
) -> Result<Option<Call>, NoMemory>
    ensures call { IfOk result (λ found. option_map shown found
        ≡ call_of_others (word.now ∷ first.now ∷ slice_split (λ b. b == 32) others.now)) }
    ensures buffer { IfOk result (λ found. IfSome found HasBuffer) }
{
    match split(others, b' ') {
        Some((second, third)) => match split(third, b' ') {
            Some(_) => Ok(None),
            None => call_of_four(alloc, word, first, second, third),
        },
        None => call_of_three(alloc, word, first, others),
    }
}

/// The call of a word and those behind it.
fn call_of_words(alloc: Global, word: &[u8], others: &[u8]) -> Result<Option<Call>, NoMemory>
    ensures call { IfOk result (λ found. option_map shown found
        ≡ call_of_words (word.now ∷ slice_split (λ b. b == 32) others.now)) }
    ensures buffer { IfOk result (λ found. IfSome found HasBuffer) }
{
    if is_word(word, b"begin") {
        return begin_of(alloc, others);
    }
    match split(others, b' ') {
        Some((first, second)) => call_of_more(alloc, word, first, second),
        None => Ok(call_of_two(word, others)),
    }
}

/// The call of a line that isn't empty and no comment.
fn call_in(alloc: Global, line: &[u8]) -> Result<Option<Call>, NoMemory>
    ensures call { IfOk result (λ found. option_map shown found
        ≡ call_of_words (slice_split (λ b. b == 32) line.now)) }
    ensures buffer { IfOk result (λ found. IfSome found HasBuffer) }
{
    match split(line, b' ') {
        Some((word, others)) => call_of_words(alloc, word, others),
        None => Ok(call_of_word(line)),
    }
}

fn is_nothing(line: &[u8]) -> bool
    ensures { result ≡ is_nothing line.now }
{
    match line.first() {
        Some(byte) => *byte == b'#',
        None => true,
    }
}

/// What a line of a script has.
pub fn read_line(alloc: Global, line: &[u8]) -> Result<Line, NoMemory>
    ensures line { IfOk result (λ found. line_shown found ≡ line_of line.now) }
    ensures buffer { IfOk result LineHasBuffer }
{
    if is_nothing(line) {
        return Ok(Line::Nothing);
    }
    match call_in(alloc, line)? {
        Some(call) => Ok(Line::Call(call)),
        None => Ok(Line::Bad),
    }
}
