//! `info`: what a package has.
ghost use Rattle.std.specs.Prelude.{IfOk, List, ℕ};
ghost use Rattle.fip_making.specs.Stops.{IsPackageStop};
ghost use Rattle.fip_tool.specs.Wrote.{IsListing};
ghost use Rattle.fip_making.specs.Answers.{AsTold, GivenToIn, ReadsGiven, ReadsOne};
ghost use Rattle.fip_making.specs.Values.{StopsInTime};
ghost use Rattle.fip_tool.specs.Tool.{given_value, info_value};

use crate::lines::info_text;
use fip_making::{Stop, read_given, read_package};
use host_io::{Files, Source};
use std::alloc::Global;

/// What is printed of a package in a file.
pub fn file_info<H: Files>(alloc: Global, files: &mut H, name: &str) -> Result<Vec<u8>, Stop>
    ensures told { AsTold H.Files (λ told text. text.items) (λ told. info_value told name.now) files.old files.new result }
    ensures listed { IfOk result (λ text. IsListing text.items) }
    ensures reads { ReadsOne H.Files name.now IsPackageStop files.old files.new result }
{
    let (toc, size) = read_package(files, name)?;
    Ok(info_text(alloc, &toc, size)?)
}

/// What is printed of the package that the source gives.
pub fn source_info<I: Source>(alloc: Global, source: &mut I) -> Result<Vec<u8>, Stop>
    ensures given { (given : List ℕ) × StopsInTime given × GivenToIn I.Source (λ text. text.items)
        given_value source.old source.new result given }
    ensures listed { IfOk result (λ text. IsListing text.items) }
    ensures source { ReadsGiven I.Source source.old source.new result }
{
    let (toc, size) = read_given(source)?;
    Ok(info_text(alloc, &toc, size)?)
}
