//! Packages that are made: new ones, and those of another package's entries.
ghost use Rattle.std.specs.Prelude.{◌≡◌, ◌≢◌, ◌⊎◌, All, IfErr, IfOk, None, filter, length, map, not};
ghost use Rattle.fwu_formats.specs.Package.{Toc};
ghost use Rattle.host_io.specs.Access.{Asks};
ghost use Rattle.host_io.specs.Reads.{ReadsFile};
ghost use Rattle.fip_words.specs.Order.{part_view};
ghost use Rattle.fip_making.specs.Payloads.{MakesFile, HasEntry, HasNoPieceOf, IsElsewhere, IsThere, IsWholeFile, file_bytes, made_by, part_told};
ghost use Rattle.fip_making.specs.Values.{IsTableOfSome, and_then, create_value, first_missing, has_type_among, kept_part, pack_value, parts_in, remove_value, update_value, updated_part};
ghost use Rattle.fip_making.specs.Stops.{IsOfEntries, PackingOr, IsLate};
ghost use Rattle.fip_making.specs.Answers.{AsTold, ReadsFilesAlone, ReadsOne};

use crate::made::Made;
use crate::named::{has_type_among, table_with};
use crate::packing::packed;
use crate::payloads::{Payload, payloads_of_entries, payloads_of_files};
use crate::stops::Stop;
use base_core::Guid;
use fip_tables::{Entry, Toc};
use fip_words::FileWord;
use host_io::Files;
use std::alloc::{AllocError, Global};

const NEW_SERIAL: u32 = 0x1234_5678;

/// A new package of named files, each payload at a multiple of `align` bytes.
pub fn created<'a, H: Files>(
    alloc: Global,
    files: &mut H,
    align: u32,
    named: &[FileWord<'a>],
) -> Result<Made<'a>, Stop>
    ensures told { AsTold H.Files made_by (λ told. create_value told align (map part_view named.now)) files.old files.new result }
    ensures whole { IfOk result (IsWholeFile (H.contents files.new)) }
    ensures count { IfOk result (λ m. m.count ≡ length named.now) }
    ensures pieces { IfOk result (HasNoPieceOf (λ access. All (λ w. access ≢ Asks w.file.now) named.now)) }
    ensures reads { ReadsFilesAlone H.Files (λ access. All (λ w. access ≢ Asks w.file.now) named.now) (PackingOr IsLate)
        files.old files.new result }
{
    match payloads_of_files(alloc, files, named) {
        Ok(payloads) => packed(alloc, NEW_SERIAL, 0, align, payloads.as_slice()),
        Err(stop) => Err(stop),
    }
}

/// A package of these entries of another file, under the serial number and the flags of its table, with
/// the new payloads where there are some.
pub fn repacked<'a>(
    alloc: Global,
    align: u32,
    from: &'a str,
    toc: &Toc,
    entries: &[Entry],
    new: &[Payload<'a>],
) -> Result<Made<'a>, Stop>
    ensures { MakesFile (λ told. All (IsThere told) new.now × All (HasEntry told from.now) entries.now)
        (λ access. (access ≢ Asks from.now) × IsElsewhere new.now access)
        (λ told. pack_value toc.now.serial toc.now.flags
        (map (updated_part (file_bytes told from.now) (map (part_told told) new.now)) entries.now) align)
        (length entries.now) result }
{
    let Ok(payloads) = payloads_of_entries(alloc, from, entries, new) else {
        return Err(Stop::NoMemory);
    };
    packed(alloc, toc.serial, toc.flags, align, payloads.as_slice())
}

// The entries that are not named.
fn kept_entries(alloc: Global, entries: &[Entry], guids: &[Guid]) -> Result<Vec<Entry>, AllocError>
    ensures { IfOk result (λ v. v.items ≡ filter (λ e. not (has_type_among guids.now e)) entries.now) }
{
    entries
        .iter()
        .copied()
        .filter(|entry| !has_type_among(guids, entry))
        .collect(alloc)
}

// The types of named files.
fn types_of(alloc: Global, named: &[FileWord]) -> Result<Vec<Guid>, AllocError>
    ensures { IfOk result (λ v. v.items ≡ map (λ p. p.guid) named.now) }
{
    named.iter().map(|one| one.guid).collect(alloc)
}

// The package of another's table without the named entries.
fn without<'a>(
    alloc: Global,
    align: u32,
    from: &'a str,
    toc: &Toc,
    guids: &[Guid],
) -> Result<Made<'a>, Stop>
    ensures { MakesFile (λ told. All (HasEntry told from.now) toc.now.entries) (λ access. access ≢ Asks from.now)
        (λ told. pack_value toc.now.serial toc.now.flags
        (map (kept_part (file_bytes told from.now)) (filter (λ e. not (has_type_among guids.now e)) toc.now.entries)) align)
        (length (filter (λ e. not (has_type_among guids.now e)) toc.now.entries)) result }
{
    let kept = kept_entries(alloc, toc.entries.as_slice(), guids)?;
    let none = Vec::new(alloc);
    repacked(alloc, align, from, toc, kept.as_slice(), none.as_slice())
}

/// The package in the file `from` without the named entries, each payload at a multiple of `align` bytes.
pub fn removed<'a, H: Files>(
    alloc: Global,
    files: &mut H,
    align: u32,
    from: &'a str,
    guids: &[Guid],
) -> Result<Made<'a>, Stop>
    ensures told { AsTold H.Files made_by (λ told. remove_value told align from.now guids.now) files.old files.new result }
    ensures whole { IfOk result (IsWholeFile (H.contents files.new)) }
    ensures count { IfOk result (λ m. (t : Toc) × IsTableOfSome t × (first_missing t guids.now ≡ None)
        × (m.count ≡ length (filter (λ e. not (has_type_among guids.now e)) t.entries))) }
    ensures pieces { IfOk result (HasNoPieceOf (λ access. access ≢ Asks from.now)) }
    ensures reads { ReadsOne H.Files from.now (PackingOr IsOfEntries) files.old files.new result }
{
    let toc = table_with(files, from, guids)?;
    without(alloc, align, from, &toc, guids)
}

// The package of another's table with new payloads.
fn replaced<'a, H: Files>(
    alloc: Global,
    files: &mut H,
    align: u32,
    from: &'a str,
    toc: &Toc,
    named: &[FileWord<'a>],
) -> Result<Made<'a>, Stop>
    requires { All (HasEntry (H.contents files.old) from.now) toc.now.entries }
    ensures told { AsTold H.Files made_by (λ told. and_then (parts_in told (map part_view named.now))
        (λ new. pack_value toc.now.serial toc.now.flags (map (updated_part (file_bytes told from.now) new) toc.now.entries) align))
        files.old files.new result }
    ensures whole { IfOk result (IsWholeFile (H.contents files.new)) }
    ensures count { IfOk result (λ m. m.count ≡ length toc.now.entries) }
    ensures pieces { IfOk result (HasNoPieceOf (λ access. (access ≢ Asks from.now)
        × All (λ w. access ≢ Asks w.file.now) named.now)) }
    ensures reads { ReadsFilesAlone H.Files (λ access. All (λ w. access ≢ Asks w.file.now) named.now) (PackingOr IsLate)
        files.old files.new result }
{
    match payloads_of_files(alloc, files, named) {
        Ok(new) => {
            let entries = toc.entries.as_slice();
            repacked(alloc, align, from, toc, entries, new.as_slice())
        }
        Err(stop) => Err(stop),
    }
}

/// The package in the file `from` with the payloads of named files, each payload at a multiple of `align` bytes. The named files
/// are asked for once the package has an entry of each of their types.
pub fn updated<'a, H: Files>(
    alloc: Global,
    files: &mut H,
    align: u32,
    from: &'a str,
    named: &[FileWord<'a>],
) -> Result<Made<'a>, Stop>
    ensures told { AsTold H.Files made_by (λ told. update_value told align from.now (map part_view named.now))
        files.old files.new result }
    ensures whole { IfOk result (IsWholeFile (H.contents files.new)) }
    ensures count { IfOk result (λ m. (t : Toc) × IsTableOfSome t
        × (first_missing t (map (λ p. p.guid) (map part_view named.now)) ≡ None)
        × (m.count ≡ length t.entries)) }
    ensures pieces { IfOk result (HasNoPieceOf (λ access. (access ≢ Asks from.now)
        × All (λ w. access ≢ Asks w.file.now) named.now)) }
    ensures reads { ReadsFilesAlone H.Files (λ access. (access ≢ Asks from.now) × All (λ w. access ≢ Asks w.file.now) named.now)
        (PackingOr IsOfEntries) files.old files.new result }
    ensures package { IfErr result (λ s. PackingOr IsLate s ⊎ ReadsFile H.Files from.now files.old files.new) }
{
    let types = types_of(alloc, named)?;
    let toc = table_with(files, from, types.as_slice())?;
    replaced(alloc, files, align, from, &toc, named)
}
