//! The bytes that lines say.

use crate::line::{Said, Stream, piece};
use crate::stop::{Stop, no_line};
use host_io::MemoryFiles;
use std::alloc::Global;

// Adds the bytes of digits, with blanks between some of them.
fn add_digits(alloc: Global, bytes: &mut Vec<u8>, digits: &str) -> Result<(), Stop> {
    for group in digits.split(' ') {
        match hex::decode(alloc, group) {
            Ok(more) => bytes.extend_from_slice(more.as_slice())?,
            Err(_) => return Err(no_line(alloc, group)),
        }
    }
    Ok(())
}

// Adds the bytes of digits so many times.
fn add_times(alloc: Global, bytes: &mut Vec<u8>, count: usize, digits: &str) -> Result<(), Stop> {
    let mut once = Vec::new(alloc);
    add_digits(alloc, &mut once, digits)?;
    if let [byte] = once.as_slice() {
        bytes.resize(bytes.len().saturating_add(count), *byte)?;
        return Ok(());
    }
    for _ in 0..count {
        bytes.extend_from_slice(once.as_slice())?;
    }
    Ok(())
}

// All bytes of a file.
fn all_of<'a>(alloc: Global, files: &'a MemoryFiles, name: &str) -> Result<&'a [u8], Stop> {
    match files.get(name) {
        Some(bytes) => Ok(bytes),
        None => Err(no_line(alloc, name)),
    }
}

/// So many bytes from a place on, if there are.
pub fn part_of(bytes: &[u8], at: usize, count: usize) -> Option<&[u8]> {
    bytes.get(at..)?.get(..count)
}

/// Adds the bytes that are said.
pub fn add_said(
    alloc: Global,
    files: &MemoryFiles,
    bytes: &mut Vec<u8>,
    said: &Said<'_>,
) -> Result<(), Stop> {
    match *said {
        Said::Hex(digits) => add_digits(alloc, bytes, digits)?,
        Said::Text(text) => bytes.extend_from_slice(text.as_bytes())?,
        Said::Line(text) => {
            bytes.extend_from_slice(text.as_bytes())?;
            bytes.push(b'\n')?;
        }
        Said::Times(count, digits) => add_times(alloc, bytes, count, digits)?,
        Said::All(name) => bytes.extend_from_slice(all_of(alloc, files, name)?)?,
        Said::Part(name, at, count) => match part_of(all_of(alloc, files, name)?, at, count) {
            Some(part) => bytes.extend_from_slice(part)?,
            None => return Err(no_line(alloc, name)),
        },
    }
    Ok(())
}

// Adds the digits of the bytes that stand before a brace's end, and the text behind it.
fn add_braced(
    alloc: Global,
    files: &MemoryFiles,
    bytes: &mut Vec<u8>,
    text: &str,
) -> Result<(), Stop> {
    let (words, rest) = text.split_once('}').unwrap_or((text, ""));
    let Some(said) = piece(words) else {
        return Err(no_line(alloc, text));
    };
    let mut named = Vec::new(alloc);
    add_said(alloc, files, &mut named, &said)?;
    let digits = hex::encode(alloc, named.as_slice())?;
    bytes.extend_from_slice(digits.as_bytes())?;
    bytes.extend_from_slice(rest.as_bytes())?;
    Ok(())
}

// The bytes of a line and its end, with digits in the place of what stands in braces.
fn line_of(alloc: Global, files: &MemoryFiles, text: &str) -> Result<Vec<u8>, Stop> {
    let mut bytes = Vec::new(alloc);
    let mut pieces = text.split('{');
    bytes.extend_from_slice(pieces.next().unwrap_or("").as_bytes())?;
    for braced in pieces {
        add_braced(alloc, files, &mut bytes, braced)?;
    }
    bytes.push(b'\n')?;
    Ok(bytes)
}

/// Adds what a program reads or prints.
pub fn add_stream(
    alloc: Global,
    files: &MemoryFiles,
    bytes: &mut Vec<u8>,
    stream: &Stream<'_>,
) -> Result<(), Stop> {
    match *stream {
        Stream::Lines(count, text) => {
            let line = line_of(alloc, files, text)?;
            for _ in 0..count {
                bytes.extend_from_slice(line.as_slice())?;
            }
        }
        Stream::All(name) => bytes.extend_from_slice(all_of(alloc, files, name)?)?,
    }
    Ok(())
}
