//! Why a row doesn't hold.

use std::alloc::{AllocError, AllocFailed, Global};
use std::fmt;

/// How many bytes are shown where some differ.
const SHOWN: usize = 64;

/// Why a row doesn't hold.
#[derive(Debug, Drop)]
pub enum Stop {
    NoMemory,
    /// A line that is none, or that speaks of a file or of bytes that are not there.
    NoLine(String),
    /// What was looked at, and what was expected and found.
    Differs(String, String, String),
}

impl From<AllocError> for Stop {
    fn from(_error: AllocError) -> Stop {
        Stop::NoMemory
    }
}

impl<T: Drop> From<AllocFailed<T>> for Stop {
    fn from(_failed: AllocFailed<T>) -> Stop {
        Stop::NoMemory
    }
}

impl fmt::Display for Stop {
    fn fmt<W: fmt::Write>(&self, f: &mut fmt::Formatter<W>) -> fmt::Result {
        match self {
            Stop::NoMemory => write!(f, "  no memory"),
            Stop::NoLine(line) => write!(f, "  is no line: {line}"),
            Stop::Differs(what, wanted, found) => {
                write!(f, "  {what}\n  expected:\n{wanted}\n  found:\n{found}")
            }
        }
    }
}

/// Says that this is no line.
pub fn no_line(alloc: Global, line: &str) -> Stop {
    match String::from_str(alloc, line) {
        Ok(line) => Stop::NoLine(line),
        Err(_) => Stop::NoMemory,
    }
}

/// Says what was expected and found of something.
pub fn differ(alloc: Global, what: &str, wanted: &str, found: &str) -> Result<Stop, AllocError> {
    let what = String::from_str(alloc, what)?;
    let wanted = String::from_str(alloc, wanted)?;
    let found = String::from_str(alloc, found)?;
    Ok(Stop::Differs(what, wanted, found))
}

// How many bytes both begin with.
fn same_bytes(one: &[u8], other: &[u8]) -> usize {
    let mut count = 0usize;
    for (left, right) in one.iter().zip(other.iter()) {
        if left != right {
            return count;
        }
        count = count.saturating_add(1);
    }
    count
}

// The first bytes from a place on, in digits.
fn digits_from(alloc: Global, bytes: &[u8], at: usize) -> Result<String, AllocError> {
    let rest = bytes.get(at..).unwrap_or(&[]);
    hex::encode(alloc, &rest[..rest.len().min(SHOWN)])
}

/// Says where the bytes of a file differ from those that are expected, and what stands there.
pub fn compare_bytes(alloc: Global, name: &str, wanted: &[u8], found: &[u8]) -> Result<(), Stop> {
    if wanted == found {
        return Ok(());
    }
    let same = same_bytes(wanted, found);
    let size = found.len();
    let what = format!(in alloc; "{name}, {size} bytes, from byte {same} of these on")?;
    let wanted = digits_from(alloc, wanted, same)?;
    let found = digits_from(alloc, found, same)?;
    Err(Stop::Differs(what, wanted, found))
}
