//! The payloads of packages that are made: what each is, and where it is read.
ghost use Rattle.std.specs.Prelude.{◌≡◌, ◌≢◌, All, IfOk, Option, find, length, map};
ghost use Rattle.base_core.specs.Bytes.{same_bytes};
ghost use Rattle.host_io.specs.Contents.{Directory};
ghost use Rattle.host_io.specs.Access.{Access, Asks};
ghost use Rattle.fip_words.specs.Order.{part_view};
ghost use Rattle.fip_making.specs.Answers.{AsTold, ReadsFilesAlone, ReadsOne};
ghost use Rattle.fip_making.specs.Stops.{IsLate};
ghost use Rattle.fip_making.specs.Payloads.{HasEntry, IsElsewhere, IsThere, file_bytes, outline_of, part_told, payload_piece};
ghost use Rattle.fip_making.specs.Values.{part_in, parts_in, there, updated_part};

use crate::stops::Stop;
use crate::table::size_of;
use base_core::{Guid, NoMemory};
use fip_tables::{Entry, Outline};
use fip_words::FileWord;
use host_io::{Files, Piece};
use std::alloc::Global;

/// A payload of a package to come: its type and its flags, and where it is read, so many bytes from
/// place `at` of a file on.
#[derive(Clone, Copy, Debug)]
pub struct Payload<'a> {
    pub guid: Guid,
    pub flags: u64,
    pub size: u64,
    pub file: &'a str,
    pub at: u64,
}

impl<'a> Payload<'a> {
    /// The payload by its size.
    pub fn outline(&self) -> Outline
        ensures { result ≡ outline_of self.now }
    {
        Outline {
            guid: self.guid,
            flags: self.flags,
            size: self.size,
        }
    }

    /// The piece of a file that it is, behind a gap.
    pub fn piece(&self, gap: usize) -> Piece<'a>
        ensures { result ≡ payload_piece gap self.now }
    {
        Piece {
            gap,
            file: self.file,
            at: self.at,
            count: self.size,
        }
    }
}

// The payload that a named file is, whole.
fn payload_of_file<'a, H: Files>(files: &mut H, named: &FileWord<'a>) -> Result<Payload<'a>, Stop>
    ensures told { AsTold H.Files part_told (λ told. there (part_in told (part_view named.now))) files.old files.new result }
    ensures there { IfOk result (IsThere (H.contents files.old)) }
    ensures file { IfOk result (λ p. p.file.now ≡ named.now.file.now) }
    ensures reads { ReadsOne H.Files named.now.file.now IsLate files.old files.new result }
{
    let size = size_of(files, named.file)?;
    Ok(Payload {
        guid: named.guid,
        flags: 0,
        size,
        file: named.file,
        at: 0,
    })
}

/// The payloads that named files are, each a whole file.
pub fn payloads_of_files<'a, H: Files>(
    alloc: Global,
    files: &mut H,
    named: &[FileWord<'a>],
) -> Result<Vec<Payload<'a>>, Stop>
    ensures told { AsTold H.Files (λ told v. map (part_told told) v.items) (λ told. parts_in told (map part_view named.now))
        files.old files.new result }
    ensures there { IfOk result (λ v. All (IsThere (H.contents files.old)) v.items) }
    ensures count { IfOk result (λ v. length v.items ≡ length named.now) }
    ensures elsewhere { IfOk result (λ v. (access : Access) → All (λ w. access ≢ Asks w.file.now) named.now
        → IsElsewhere v.items access) }
    ensures reads { ReadsFilesAlone H.Files (λ access. All (λ w. access ≢ Asks w.file.now) named.now) IsLate
        files.old files.new result }
{
    let mut payloads = Vec::new(alloc);
    for one in named {
        let payload = match payload_of_file(files, one) {
            Ok(payload) => payload,
            Err(stop) => return Err(stop),
        };
        match payloads.push(payload) {
            Ok(()) => {}
            Err(_) => return Err(Stop::NoMemory),
        }
    }
    Ok(payloads)
}

// The payload of this type.
fn of_type<'a>(payloads: &[Payload<'a>], guid: &Guid) -> Option<Payload<'a>>
    ensures { result ≡ find (λ p. same_bytes p.guid guid.now) payloads.now }
{
    payloads
        .iter()
        .copied()
        .find(|payload| payload.guid.is(guid))
}

// The payload of an entry of a package, or the new one of its type, where there is one.
fn payload_of_entry<'a>(from: &'a str, entry: &Entry, new: &[Payload<'a>]) -> Payload<'a>
    ensures told { (told : Directory)
        → part_told told result ≡ updated_part (file_bytes told from.now) (map (part_told told) new.now) entry.now }
    ensures there { (told : Option Directory) → All (IsThere told) new.now × HasEntry told from.now entry.now
        → IsThere told result }
    ensures elsewhere { (access : Access) → (access ≢ Asks from.now) × IsElsewhere new.now access
        → access ≢ Asks result.file.now }
{
    match of_type(new, &entry.guid) {
        Some(payload) => Payload {
            guid: entry.guid,
            flags: entry.flags,
            size: payload.size,
            file: payload.file,
            at: payload.at,
        },
        None => Payload {
            guid: entry.guid,
            flags: entry.flags,
            size: entry.size,
            file: from,
            at: entry.offset,
        },
    }
}

/// The payloads of entries of a package, with the new ones in place of those of their types.
pub fn payloads_of_entries<'a>(
    alloc: Global,
    from: &'a str,
    entries: &[Entry],
    new: &[Payload<'a>],
) -> Result<Vec<Payload<'a>>, NoMemory>
    ensures told { (told : Directory) → IfOk result (λ v. map (part_told told) v.items
        ≡ map (updated_part (file_bytes told from.now) (map (part_told told) new.now)) entries.now) }
    ensures there { (told : Option Directory) → All (IsThere told) new.now × All (HasEntry told from.now) entries.now
        → IfOk result (λ v. All (IsThere told) v.items) }
    ensures count { IfOk result (λ v. length v.items ≡ length entries.now) }
    ensures elsewhere { IfOk result (λ v. (access : Access) → (access ≢ Asks from.now) × IsElsewhere new.now access
        → IsElsewhere v.items access) }
{
    let mut payloads = Vec::new(alloc);
    for entry in entries {
        match payloads.push(payload_of_entry(from, entry, new)) {
            Ok(()) => {}
            Err(_) => return Err(NoMemory),
        }
    }
    Ok(payloads)
}
