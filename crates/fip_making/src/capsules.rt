//! Capsules that are made of packages, and packages of capsules.
ghost use Rattle.std.specs.Prelude.{◌≡◌, ◌≢◌, All, IfOk, length, map};
ghost use Rattle.fwu_formats.specs.Package.{Toc};
ghost use Rattle.capsule_tables.specs.Answers.{IsSomeTable};
ghost use Rattle.host_io.specs.Access.{Asks};
ghost use Rattle.fip_making.specs.Payloads.{HasEntry, HasNoPieceOf, IsWholeFile, file_bytes, made_by, MakesFile};
ghost use Rattle.fip_making.specs.Values.{IsTableOfSome, capsule_value, enclose_value, kept_part, pack_value, repackage_value};
ghost use Rattle.fip_making.specs.Stops.{IsOfCapsule, IsPackageStop, PackingOr};
ghost use Rattle.fip_making.specs.Answers.{AsTold, ReadsOne};

use crate::enclosing::enclosed;
use crate::made::Made;
use crate::making::repacked;
use crate::named::table_with;
use crate::payloads::payloads_of_entries;
use crate::stops::Stop;
use crate::table::read_enclosed;
use fip_tables::{Entry, Toc};
use host_io::Files;
use std::alloc::Global;

// The capsule of a package's entries.
fn capsule_of_entries<'a>(alloc: Global, from: &'a str, entries: &[Entry]) -> Result<Made<'a>, Stop>
    ensures { MakesFile (λ told. All (HasEntry told from.now) entries.now) (λ access. access ≢ Asks from.now)
        (λ told. enclose_value (map (kept_part (file_bytes told from.now)) entries.now)) (length entries.now) result }
{
    let none = Vec::new(alloc);
    let Ok(payloads) = payloads_of_entries(alloc, from, entries, none.as_slice()) else {
        return Err(Stop::NoMemory);
    };
    enclosed(alloc, payloads.as_slice())
}

/// The capsule of the package in the file `from`.
pub fn capsule_of_package<'a, H: Files>(
    alloc: Global,
    files: &mut H,
    from: &'a str,
) -> Result<Made<'a>, Stop>
    ensures told { AsTold H.Files made_by (λ told. capsule_value told from.now) files.old files.new result }
    ensures whole { IfOk result (IsWholeFile (H.contents files.new)) }
    ensures count { IfOk result (λ m. (t : Toc) × IsTableOfSome t × (m.count ≡ length t.entries)) }
    ensures pieces { IfOk result (HasNoPieceOf (λ access. access ≢ Asks from.now)) }
    ensures reads { ReadsOne H.Files from.now (PackingOr IsPackageStop) files.old files.new result }
{
    let toc = table_with(files, from, &[])?;
    capsule_of_entries(alloc, from, toc.entries.as_slice())
}

// The package of a capsule's table.
fn package_of_items<'a>(
    alloc: Global,
    align: u32,
    from: &'a str,
    toc: &Toc,
) -> Result<Made<'a>, Stop>
    ensures { MakesFile (λ told. All (HasEntry told from.now) toc.now.entries) (λ access. access ≢ Asks from.now)
        (λ told. pack_value toc.now.serial toc.now.flags (map (kept_part (file_bytes told from.now)) toc.now.entries) align)
        (length toc.now.entries) result }
{
    let none = Vec::new(alloc);
    let entries = toc.entries.as_slice();
    repacked(alloc, align, from, toc, entries, none.as_slice())
}

/// The package of the capsule in the file `from`, each payload at a multiple of `align` bytes. Its serial number is 0x12345678,
/// and all its flags are 0.
pub fn package_of_capsule<'a, H: Files>(
    alloc: Global,
    files: &mut H,
    align: u32,
    from: &'a str,
) -> Result<Made<'a>, Stop>
    ensures told { AsTold H.Files made_by (λ told. repackage_value told align from.now) files.old files.new result }
    ensures whole { IfOk result (IsWholeFile (H.contents files.new)) }
    ensures count { IfOk result (λ m. (t : Toc) × IsSomeTable t × (m.count ≡ length t.entries)) }
    ensures pieces { IfOk result (HasNoPieceOf (λ access. access ≢ Asks from.now)) }
    ensures reads { ReadsOne H.Files from.now (PackingOr IsOfCapsule) files.old files.new result }
{
    let toc = read_enclosed(files, from)?;
    package_of_items(alloc, align, from, &toc)
}
