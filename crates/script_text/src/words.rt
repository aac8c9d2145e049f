//! The calls whose words have values.
ghost use Rattle.std.specs.Prelude.{◌≡◌, ◌==◌, ◌++◌, [], IfOk, IfSome, is_some, option_map, option_and_then, string_bytes};
ghost use Rattle.std.specs.List.{cons_option, slice_split};
ghost use Rattle.base_core.specs.Block.{block_bytes};
ghost use Rattle.fwu_model.specs.Call as call;
ghost use Rattle.fwu_formats.specs.Words.{at_least_one, bytes_of, file_word_of, named, number_of, number_up_to, request_of};
ghost use Rattle.fwu_model.specs.Script.{begin_call, both, open_in_mode, room_limit};
ghost use Rattle.script_text.specs.Shown.{HasBuffer, shown};

use crate::call::Call;
use crate::split::split;
use base_core::{BLOCK_BYTES, Guid, NoMemory};
use fwu_model::Op;
use std::alloc::Global;
use std::str;
use words_core::{guid_named, hex_bytes, is_file_name, is_word, number};

/// The most bytes that a read asks for.
const ROOM_LIMIT: u32 = 4096;

/// The most types that a `begin` names.
const NAMES_LIMIT: usize = 16;

/// A number that isn't above a limit.
fn number_up_to(limit: u32, word: &[u8]) -> Option<u32>
    ensures { result ≡ number_up_to limit word.now }
{
    let value = number(word)?;
    if value <= limit { Some(value) } else { None }
}

/// The request of `now` or `trial`.
fn request_of(word: &[u8]) -> Option<u32>
    ensures { result ≡ request_of word.now }
{
    if is_word(word, b"now") {
        Some(0)
    } else if is_word(word, b"trial") {
        Some(1)
    } else {
        None
    }
}

/// `open` with a type and `r` or `w`.
pub fn open_of(name: &[u8], mode: &[u8]) -> Option<Call>
    ensures call { option_map shown result
        ≡ option_and_then (λ guid. open_in_mode guid mode.now) (named name.now) }
    ensures buffer { IfSome result HasBuffer }
{
    let guid = guid_named(name)?;
    if is_word(mode, b"r") {
        Some(Call::Open { guid, op: Op::Read })
    } else if is_word(mode, b"w") {
        Some(Call::Open {
            guid,
            op: Op::Write,
        })
    } else {
        None
    }
}

/// `write` with a handle and hexadecimal digits.
pub fn write_of(alloc: Global, handle: &[u8], digits: &[u8]) -> Result<Option<Call>, NoMemory>
    ensures call { IfOk result (λ found. option_map shown found
        ≡ both call.Write (number_of handle.now) (bytes_of digits.now)) }
    ensures buffer { IfOk result (λ found. IfSome found HasBuffer) }
{
    let Some(handle) = number(handle) else {
        return Ok(None);
    };
    match hex_bytes(alloc, digits)? {
        Some(bytes) => Ok(Some(Call::Write { handle, bytes })),
        None => Ok(None),
    }
}

/// `read` with a handle and a number of bytes.
pub fn read_of(alloc: Global, handle: &[u8], room: &[u8]) -> Result<Option<Call>, NoMemory>
    ensures call { IfOk result (λ found. option_map shown found
        ≡ both call.Read (number_of handle.now) (number_up_to room_limit room.now)) }
    ensures buffer { IfOk result (λ found. IfSome found HasBuffer) }
{
    let Some(handle) = number(handle) else {
        return Ok(None);
    };
    let Some(room) = number_up_to(ROOM_LIMIT, room) else {
        return Ok(None);
    };
    let out = vec![in alloc; 0; room as usize]?;
    Ok(Some(Call::Read { handle, room, out }))
}

/// `commit` with a handle and `now` or `trial`.
pub fn commit_of(handle: &[u8], request: &[u8]) -> Option<Call>
    ensures call { option_map shown result
        ≡ both call.Commit (number_of handle.now) (request_of request.now) }
    ensures buffer { IfSome result HasBuffer }
{
    let handle = number(handle)?;
    let request = request_of(request)?;
    Some(Call::Commit { handle, request })
}

/// The name of a file, where a word is one.
fn file_named(alloc: Global, name: &[u8]) -> Result<Option<String>, NoMemory>
    ensures named { IfOk result (λ found. option_map string_bytes found ≡ file_word_of name.now) }
{
    if !is_file_name(name) {
        return Ok(None);
    }
    match str::from_utf8(name) {
        Ok(text) => {
            let name = String::from_str(alloc, text)?;
            Ok(Some(name))
        }
        Err(_) => Ok(None),
    }
}

/// `send` with the name of a file and `now` or `trial`.
pub fn send_of(alloc: Global, name: &[u8], request: &[u8]) -> Result<Option<Call>, NoMemory>
    ensures call { IfOk result (λ found. option_map shown found
        ≡ both call.Send (file_word_of name.now) (request_of request.now)) }
    ensures buffer { IfOk result (λ found. IfSome found HasBuffer) }
{
    let Some(name) = file_named(alloc, name)? else {
        return Ok(None);
    };
    let Some(request) = request_of(request) else {
        return Ok(None);
    };
    Ok(Some(Call::Send { name, request }))
}

/// `send` with the name of a file, `now` or `trial`, and `partial`.
pub fn send_partial_of(alloc: Global, name: &[u8], request: &[u8]) -> Result<Option<Call>, NoMemory>
    ensures call { IfOk result (λ found. option_map shown found
        ≡ both call.SendPartial (file_word_of name.now) (request_of request.now)) }
    ensures buffer { IfOk result (λ found. IfSome found HasBuffer) }
{
    let Some(name) = file_named(alloc, name)? else {
        return Ok(None);
    };
    let Some(request) = request_of(request) else {
        return Ok(None);
    };
    Ok(Some(Call::SendPartial { name, request }))
}

/// One type more, where the word is one. Whether it is.
fn push_type(types: &mut Vec<Guid>, name: &[u8]) -> Result<bool, NoMemory>
    ensures named { IfOk result (λ is. is ≡ is_some (named name.now)) }
    ensures pushed { IfOk result (λ is. types.new.items ≡ types.old.items ++ cons_option (named name.now) []) }
{
    match guid_named(name) {
        Some(guid) => {
            if types.push(guid).is_err() {
                return Err(NoMemory);
            }
            Ok(true)
        }
        None => Ok(false),
    }
}

/// `begin` with 1 to 16 types, parted by one space each.
pub fn begin_of(alloc: Global, names: &[u8]) -> Result<Option<Call>, NoMemory>
    ensures call { IfOk result (λ found. option_map shown found
        ≡ begin_call (slice_split (λ b. b == 32) names.now)) }
    ensures buffer { IfOk result (λ found. IfSome found HasBuffer) }
{
    let mut types = Vec::new(alloc);
    let mut rest = names;
    for _name in 0..NAMES_LIMIT {
        match split(rest, b' ') {
            Some((name, behind)) => {
                if !push_type(&mut types, name)? {
                    return Ok(None);
                }
                rest = behind;
            }
            None => {
                if !push_type(&mut types, rest)? {
                    return Ok(None);
                }
                return Ok(Some(Call::BeginPartial { types }));
            }
        }
    }
    Ok(None)
}

/// `cut` with the number of an erase or a program, from 1, and the number of its bytes that land.
pub fn cut_of(program: &[u8], landed: &[u8]) -> Option<Call>
    ensures call { option_map shown result
        ≡ both call.Cut (option_and_then at_least_one (number_of program.now))
        (number_up_to block_bytes landed.now) }
    ensures buffer { IfSome result HasBuffer }
{
    let n = number(program)?;
    let k = number_up_to(BLOCK_BYTES, landed)?;
    if n == 0 {
        return None;
    }
    Some(Call::Cut { n, k })
}

/// `accept` with a type.
pub fn accept_of(name: &[u8]) -> Option<Call>
    ensures call { option_map shown result ≡ option_map call.Accepts (named name.now) }
    ensures buffer { IfSome result HasBuffer }
{
    let guid = guid_named(name)?;
    Some(Call::Accept { guid })
}
