//! Packages that are made of payloads, by their sizes: no file is read for them.
ghost use Rattle.std.specs.Prelude.{◌≡◌, All, IfOk, length, map};
ghost use Rattle.fip_making.specs.Payloads.{IsElsewhere, MakesFile, IsThere, outline_of, part_told};
ghost use Rattle.fip_making.specs.Values.{pack_value};

use crate::made::Made;
use crate::payloads::Payload;
use crate::stops::Stop;
use fip_tables::{Outline, package_frame};
use std::alloc::{AllocError, Global};

/// The payloads by their sizes.
pub fn outlines(alloc: Global, payloads: &[Payload<'_>]) -> Result<Vec<Outline>, AllocError>
    ensures { IfOk result (λ v. v.items ≡ map outline_of payloads.now) }
{
    payloads
        .iter()
        .map(|payload| payload.outline())
        .collect(alloc)
}

/// The package of these payloads, where their sizes fit one.
pub fn packed<'a>(
    alloc: Global,
    serial: u32,
    flags: u64,
    align: u32,
    payloads: &[Payload<'a>],
) -> Result<Made<'a>, Stop>
    ensures { MakesFile (λ told. All (IsThere told) payloads.now) (IsElsewhere payloads.now)
        (λ told. pack_value serial flags (map (part_told told) payloads.now) align) (length payloads.now) result }
{
    let outlines = outlines(alloc, payloads)?;
    let frame = package_frame(alloc, serial, flags, outlines.as_slice(), align)?;
    Ok(Made::new(alloc, frame, payloads)?)
}
