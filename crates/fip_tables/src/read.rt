//! Packages in files.

ghost use Rattle.std.specs.Prelude.{◌≡◌, ◌≤◌, ◌<◌, ◌+◌, ◌^◌, ℕ, List, Some, Err, IfOk, OnOk, length, take, drop};
ghost use Rattle.host_io.specs.Causes.{HasCause};
ghost use Rattle.host_io.specs.Contents.{TellsSize};
ghost use Rattle.host_io.specs.Reads.{ReadsFile};
ghost use Rattle.fwu_formats.specs.Package.{payload, toc_of};
ghost use Rattle.fwu_formats.specs.declared.kinds.FipFault.{FipFault};
ghost use Rattle.fip_tables.specs.Files.{HasFed, HasFedAll, HasReadCause, IsTocAnswer, IsTableFault, IsOfSome, Lacks, Tells};
ghost use Rattle.fip_tables.specs.declared.toc.TocStop.TheVariants as stop;

use crate::entries::Entry;
use crate::stream::StreamToc;
use crate::toc::{Toc, TocStop};
use host_io::{Failed, Files};

// How many bytes the group at a place has: the header, or an entry.
fn group_at(at: u64) -> u64
    ensures { (0 < result) × (result ≤ 40) }
{
    if at == 0 { 16 } else { 40 }
}

// Feeds the file's next group, which begins at `at`, and says how many bytes it has.
fn feed_next<H: Files>(
    files: &mut H,
    name: &str,
    size: u64,
    at: u64,
    stream: &mut StreamToc,
) -> Result<u64, TocStop>
    requires known { TellsSize (H.contents files.old) name.now (Some size) }
    requires inside { at < size }
    requires fed { HasFed (H.contents files.old) name.now stream.old at }
    ensures some { IfOk result (λ count. (0 < count) × (at + count ≤ size)) }
    ensures fed { IfOk result (λ count. HasFed (H.contents files.old) name.now stream.new (at + count)) }
    ensures fault { (f : FipFault) → result ≡ Err (stop.Fault f) → IsTableFault (H.contents files.old) name.now f }
    ensures reads { ReadsFile H.Files name.now files.old files.new }
    ensures cause { HasReadCause (H.contents files.old) name.now (H.faults files.old) (H.faults files.new) result }
{
    let count = (size - at).min(group_at(at));
    let mut group = [0u8; 40];
    let piece = &mut group[..count as usize];
    match files.read_at(name, at, piece) {
        Ok(()) => {}
        Err(_) => return Err(TocStop::ReadFailed),
    }
    match stream.feed(piece) {
        Ok(()) => Ok(count),
        Err(fault) => Err(TocStop::Fault(fault)),
    }
}

// Feeds the file's table, and skips what follows it.
fn feed_table<H: Files>(files: &mut H, name: &str, size: u64) -> Result<StreamToc, TocStop>
    requires known { TellsSize (H.contents files.old) name.now (Some size) }
    ensures fed { IfOk result (λ stream. HasFedAll (H.contents files.old) name.now stream size) }
    ensures fault { (f : FipFault) → result ≡ Err (stop.Fault f) → IsTableFault (H.contents files.old) name.now f }
    ensures reads { ReadsFile H.Files name.now files.old files.new }
    ensures cause { HasReadCause (H.contents files.old) name.now (H.faults files.old) (H.faults files.new) result }
{
    let mut stream = StreamToc::new();
    let mut at = 0;
    while at < size {
        if stream.is_whole() {
            stream.skip(size - at);
            return Ok(stream);
        }
        at += feed_next(files, name, size, at, &mut stream)?;
    }
    Ok(stream)
}

/// The table of contents of a package in a file, or the file's first fault. It reads the table
/// alone, a group at a time, and takes no memory.
pub fn read_toc<H: Files>(files: &mut H, name: &str) -> Result<Toc, TocStop>
    // Where the file's bytes are told, it is their table or their first fault.
    ensures told { (bytes : List ℕ) → Tells (H.contents files.old) name.now bytes → IsTocAnswer result (toc_of bytes) }
    // Whatever file it is, the answer is that of some bytes. So a table has entries that end below 2 ^ 64, of different types.
    ensures some { IsOfSome result }
    ensures missing { Lacks (H.contents files.old) name.now → result ≡ Err stop.ReadFailed }
    ensures reads { ReadsFile H.Files name.now files.old files.new }
    ensures cause { HasReadCause (H.contents files.old) name.now (H.faults files.old) (H.faults files.new) result }
{
    let size = match files.size(name) {
        Ok(Some(size)) => size,
        Ok(None) | Err(_) => return Err(TocStop::ReadFailed),
    };
    let stream = match feed_table(files, name, size) {
        Ok(stream) => stream,
        Err(stop) => return Err(stop),
    };
    match stream.end() {
        Ok(toc) => Ok(toc),
        Err(fault) => Err(TocStop::Fault(fault)),
    }
}

/// Fills `out` with the bytes of a payload from place `at` of it on.
pub fn payload_at<H: Files>(
    files: &mut H,
    name: &str,
    entry: &Entry,
    at: u64,
    out: &mut [u8],
) -> Result<(), Failed>
    requires inside { at + length out.old ≤ entry.now.size }
    requires ends { entry.now.offset + entry.now.size < 2 ^ 64 }
    requires stored { (bytes : List ℕ) → Tells (H.contents files.old) name.now bytes
        → entry.now.offset + entry.now.size ≤ length bytes }
    requires there { Lacks (H.contents files.old) name.now → ⊥ }
    ensures bytes { OnOk result ((bytes : List ℕ) → Tells (H.contents files.old) name.now bytes
        → out.new ≡ take (length out.old) (drop at (payload bytes entry.now))) }
    ensures reads { ReadsFile H.Files name.now files.old files.new }
    ensures cause { HasCause (H.faults files.old) (H.faults files.new) result }
{
    files.read_at(name, entry.offset + at, out)
}
