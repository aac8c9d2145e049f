//! Lists of digests in files.

ghost use Rattle.std.specs.Prelude.{◌≡◌, ◌<◌, ◌+◌, ℕ, Ok, Err, Some, IfOk, OnOk};
ghost use Rattle.host_io.specs.Contents.{TellsSize};
ghost use Rattle.host_io.specs.Reads.{ReadsFile};
ghost use Rattle.host_io.specs.Whole.{LacksFile};
ghost use Rattle.allow_list.specs.Lists.{AddsLine, HasListCause, IsAnswerOf, LacksLine};
ghost use Rattle.allow_list.specs.declared.stops.ListStop.TheVariants as stop;

use crate::stops::ListStop;
use host_io::Files;
use std::alloc::Global;
use verify_core::{DigestList, LINE_BYTES, LineFault};

// Adds the digest of the line that begins at a place of the file. No more of the file is read than one line has.
fn add_line<H: Files>(
    files: &mut H,
    name: &str,
    size: u64,
    at: u64,
    number: u64,
    list: &mut DigestList,
) -> Result<(), ListStop>
    requires known { TellsSize (H.contents files.old) name.now (Some size) }
    requires inside { at < size }
    ensures added { OnOk result (AddsLine (H.contents files.old) name.now size at list.old list.new) }
    ensures bad { (line : ℕ) → result ≡ Err (stop.BadLine line)
        → (line ≡ number) × LacksLine (H.contents files.old) name.now size at }
    ensures reads { ReadsFile H.Files name.now files.old files.new }
    ensures cause { HasListCause (H.contents files.old) name.now (H.faults files.old) (H.faults files.new) result }
{
    let count = (size - at).min(LINE_BYTES as u64);
    let mut room = [0u8; LINE_BYTES];
    let piece = &mut room[..count as usize];
    files.read_at(name, at, piece)?;
    match list.add_first_line(piece) {
        Ok(()) => Ok(()),
        Err(LineFault::NoDigest) => Err(ListStop::BadLine(number)),
        Err(LineFault::NoMemory) => Err(ListStop::NoMemory),
    }
}

// The list in a file of this size.
fn read_lines<H: Files>(
    alloc: Global,
    files: &mut H,
    name: &str,
    size: u64,
) -> Result<DigestList, ListStop>
    requires known { TellsSize (H.contents files.old) name.now (Some size) }
    ensures ok { IfOk result (λ list. IsAnswerOf (H.contents files.old) name.now (Ok list)) }
    ensures bad { (line : ℕ) → result ≡ Err (stop.BadLine line)
        → IsAnswerOf (H.contents files.old) name.now (Err line) }
    ensures reads { ReadsFile H.Files name.now files.old files.new }
    ensures cause { HasListCause (H.contents files.old) name.now (H.faults files.old) (H.faults files.new) result }
{
    let mut list = DigestList::new(alloc);
    let mut at = 0;
    let mut number = 1;
    while at < size {
        add_line(files, name, size, at, number, &mut list)?;
        at += LINE_BYTES as u64;
        number += 1;
    }
    Ok(list)
}

/// The list of digests in a file whose lines are 64 hexadecimal digits, letters of either case, each ended by a byte
/// 0x0A, our own format. It is read 65 bytes at a time, which is a line, and no read follows the one that meets the
/// first bad line. The memory is that of the digests. `Failed` where no file has the name, and where a call failed;
/// `NoMemory` where a digest finds none.
pub fn read_list<H: Files>(alloc: Global, files: &mut H, name: &str) -> Result<DigestList, ListStop>
    // The digests are those of the file's bytes where it is told, and of some bytes in any case.
    ensures ok { IfOk result (λ list. IsAnswerOf (H.contents files.old) name.now (Ok list)) }
    // The line is the first bad one of these.
    ensures bad { (line : ℕ) → result ≡ Err (stop.BadLine line)
        → IsAnswerOf (H.contents files.old) name.now (Err line) }
    ensures missing { LacksFile (H.contents files.old) name.now → result ≡ Err stop.Failed }
    ensures reads { ReadsFile H.Files name.now files.old files.new }
    ensures cause { HasListCause (H.contents files.old) name.now (H.faults files.old) (H.faults files.new) result }
{
    let Some(size) = files.size(name)? else {
        return Err(ListStop::Failed);
    };
    if size == 0 {
        // It is opened too: a file that may not be read is no empty list.
        files.read_at(name, 0, &mut [])?;
        return Ok(DigestList::new(alloc));
    }
    read_lines(alloc, files, name, size)
}
