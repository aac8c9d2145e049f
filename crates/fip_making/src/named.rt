//! The entries of a package that the words name, each by its type.
ghost use Rattle.std.specs.Prelude.{◌≡◌, ◌<◌, ◌+◌, ◌^◌, All, IfOk, None, Ok, IfErr, length};
ghost use Rattle.fip_making.specs.Stops.{IsOfEntries, IsPackageStop, Unstarved};
ghost use Rattle.fip_making.specs.Values.{IsTableOfSome, and_then, first_missing, has_type_among, sized_table, unless};
ghost use Rattle.fip_making.specs.Answers.{AsTold, ReadsOne};
ghost use Rattle.fip_making.specs.declared.stops.Stop.TheVariants as stop;

use crate::stops::Stop;
use crate::table::read_package;
use base_core::Guid;
use fip_tables::{Entry, Toc};
use host_io::Files;

// The first of these types that the package hasn't.
fn first_missing(toc: &Toc, guids: &[Guid]) -> Option<Guid>
    ensures { result ≡ first_missing toc.now guids.now }
{
    let entries = &toc.entries;
    guids.iter().copied().find(|guid| !entries.has(guid))
}

/// Whether the entry's type is one of these.
pub fn has_type_among(guids: &[Guid], entry: &Entry) -> bool
    ensures { result ≡ has_type_among guids.now entry.now }
{
    guids.iter().any(|guid| guid.is(&entry.guid))
}

/// The table of a package that has an entry of each of these types.
pub fn table_with<H: Files>(files: &mut H, name: &str, guids: &[Guid]) -> Result<Toc, Stop>
    ensures told { AsTold H.Files (λ told t. t) (λ told. and_then (sized_table told name.now)
        (λ t. unless stop.NoSuchEntry (first_missing t.0 guids.now) (Ok t.0))) files.old files.new result }
    ensures all { IfOk result (λ t. first_missing t guids.now ≡ None) }
    ensures table { IfOk result IsTableOfSome }
    ensures ends { IfOk result (λ t. All (λ e. e.offset + e.size < 2 ^ 64) t.entries) }
    ensures reads { ReadsOne H.Files name.now (Unstarved IsOfEntries) files.old files.new result }
    ensures unnamed { length guids.now ≡ 0 → IfErr result IsPackageStop }
{
    let (toc, _) = read_package(files, name)?;
    match first_missing(&toc, guids) {
        None => Ok(toc),
        Some(guid) => Err(Stop::NoSuchEntry(guid)),
    }
}
