//! `unpack`: payloads that are written to files of their own.
ghost use Rattle.std.specs.Prelude.{◌≡◌, ◌≢◌, ◌≤◌, ◌+◌, ◌++◌, ◌||◌, ◌==◌, All, IfOk, OnOk, List, Some, ℕ, codes, decimal, false, filter, length, map, string_bytes};
ghost use Rattle.base_core.specs.Guid.{guid_text};
ghost use Rattle.fip_tables.specs.Files.{Lacks, Tells};
ghost use Rattle.fip_words.specs.Order.{FipAsked};
ghost use Rattle.fip_words.specs.Values.{is_unpacked};
ghost use Rattle.host_io.specs.Access.{Access, Asks, Makes};
ghost use Rattle.host_io.specs.Contents.{Directory};
ghost use Rattle.fip_tool.specs.Lines.{unpacked_line, unpacked_name};
ghost use Rattle.fip_tool.specs.Done.{DoneWithFiles, WritesTexts, Unpacked, DidIn};
ghost use Rattle.fip_tool.specs.Steps.{Makes};
ghost use Rattle.fip_making.specs.Values.{has_type_among};
ghost use Rattle.fip_tool.specs.Tool.{unpack_steps};

use crate::lines::{add, add_guid, add_named};
use crate::writing::{NewFile, join_and_print};
use base_core::{Guid, NoMemory};
use fip_making::{Stop, has_type_among, table_with};
use fip_tables::Entry;
use host_io::{Files, Piece, Sink};
use std::alloc::Global;

// The file of a type's payload.
fn file_name(alloc: Global, prefix: &str, guid: &Guid) -> Result<String, NoMemory>
    ensures name { IfOk result (λ name. string_bytes name ≡ unpacked_name prefix.now guid.now) }
    ensures other { OnOk result ((from : List ℕ) → is_unpacked prefix.now from ≡ false → from ≢ unpacked_name prefix.now guid.now) }
{
    let mut text = [0; 36];
    guid.text(&mut text);
    let Ok(text) = str::from_utf8(&text) else {
        return Err(NoMemory);
    };
    let mut name = String::from_str(alloc, prefix)?;
    name.push_str(text)?;
    name.push_str(".bin")?;
    Ok(name)
}

// The line of a payload that was written to a file.
fn unpacked_line(alloc: Global, entry: &Entry, file: &str) -> Result<Vec<u8>, NoMemory>
    ensures { IfOk result (λ line. line.items ≡ guid_text entry.now.guid ++ codes " size=" ++
        decimal entry.now.size ++ codes " file=" ++ file.now ++ codes "\n") }
{
    let mut line = Vec::new(alloc);
    add_guid(&mut line, &entry.guid)?;
    add_named(&mut line, b" size=", entry.size)?;
    add(&mut line, b" file=")?;
    add(&mut line, file.as_bytes())?;
    add(&mut line, b"\n")?;
    Ok(line)
}

// Makes the file of an entry's payload, and prints its line.
fn unpack_entry<H: Files, O: Sink>(
    alloc: Global,
    files: &mut H,
    sink: &mut O,
    from: &str,
    prefix: &str,
    entry: &Entry,
) -> Result<(), Stop>
    requires stored { (bytes : List ℕ) → Tells (H.contents files.old) from.now bytes
        → entry.now.offset + entry.now.size ≤ length bytes }
    requires there { Lacks (H.contents files.old) from.now → ⊥ }
    ensures { Unpacked H.Files O.Sink from.now prefix.now entry.now result files.old files.new sink.old sink.new }
{
    let name = file_name(alloc, prefix, &entry.guid)?;
    let line = unpacked_line(alloc, entry, name.as_str())?;
    let payload = Piece {
        gap: 0,
        file: from,
        at: entry.offset,
        count: entry.size,
    };
    let file = NewFile {
        name: name.as_str(),
        frame: &[],
        pieces: &[payload],
    };
    join_and_print(alloc, files, sink, &file, line.as_slice())
}

// Whether the entry is named, or none is.
fn is_chosen(names: &[Guid], entry: &Entry) -> bool
    ensures { result ≡ ((length names.now == 0) || has_type_among names.now entry.now) }
{
    names.is_empty() || has_type_among(names, entry)
}

// A package that is unpacked: its file, the front of the files' names, and the types that are named.
#[derive(Clone, Copy)]
struct Unpacking<'a> {
    from: &'a str,
    prefix: &'a str,
    names: &'a [Guid],
}

// Unpacks the entries that are named, or all where none is.
fn unpack_entries<H: Files, O: Sink>(
    alloc: Global,
    files: &mut H,
    sink: &mut O,
    unpacked: &Unpacking<'_>,
    entries: &[Entry],
) -> Result<(), Stop>
    requires other { is_unpacked unpacked.now.prefix.now unpacked.now.from.now ≡ false }
    requires stored { (bytes : List ℕ) → Tells (H.contents files.old) unpacked.now.from.now bytes
        → All (λ e. e.offset + e.size ≤ length bytes) entries.now }
    requires there { Lacks (H.contents files.old) unpacked.now.from.now → ⊥ }
    ensures told { (told : Directory) → (bytes : List ℕ) → H.contents files.old ≡ Some told
        → told unpacked.now.from.now ≡ Some bytes → DidIn H.Files O.Sink (Makes (unpack_steps unpacked.now.prefix.now bytes
        (filter (λ e. (length unpacked.now.names.now == 0) || has_type_among unpacked.now.names.now e) entries.now))) told
        files.old files.new sink.old sink.new result }
    ensures texts { WritesTexts H.Files O.Sink (λ texts. texts ≡ map (unpacked_line unpacked.now.prefix.now)
        (filter (λ e. (length unpacked.now.names.now == 0) || has_type_among unpacked.now.names.now e) entries.now)) result
        files.old files.new sink.old sink.new }
    ensures spares { (access : Access) → access ≢ Asks unpacked.now.from.now
        → All (λ e. access ≢ Makes (unpacked_name unpacked.now.prefix.now e.guid))
        (filter (λ e. (length unpacked.now.names.now == 0) || has_type_among unpacked.now.names.now e) entries.now)
        → H.spares files.old files.new access }
{
    for entry in entries {
        if is_chosen(unpacked.names, entry) {
            unpack_entry(alloc, files, sink, unpacked.from, unpacked.prefix, entry)?;
        }
    }
    Ok(())
}

/// Writes the payloads of a package, or those that are named where some are, each to the file of the prefix, its type's text and
/// `.bin`. It prints a line for each. It takes them in the package's order.
pub fn run_unpack<H: Files, O: Sink>(
    alloc: Global,
    files: &mut H,
    sink: &mut O,
    from: &str,
    prefix: &str,
    names: &[Guid],
) -> Result<(), Stop>
    requires other { is_unpacked prefix.now from.now ≡ false }
    ensures { DoneWithFiles H.Files O.Sink ⊥ (Some (FipAsked.unpack from.now prefix.now names.now)) result
        files.old files.new sink.old sink.new }
{
    let toc = table_with(files, from, names)?;
    let entries = toc.entries.as_slice();
    let unpacked = Unpacking {
        from,
        prefix,
        names,
    };
    unpack_entries(alloc, files, sink, &unpacked, entries)
}
