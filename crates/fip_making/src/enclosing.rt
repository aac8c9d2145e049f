//! Capsules that are made of payloads, by their sizes: no file is read for them.
ghost use Rattle.std.specs.Prelude.{All, length, map};
ghost use Rattle.fip_making.specs.Payloads.{IsElsewhere, MakesFile, IsThere, part_told};
ghost use Rattle.fip_making.specs.Values.{enclose_value};

use crate::made::Made;
use crate::packing::outlines;
use crate::payloads::Payload;
use crate::stops::Stop;
use capsule_tables::capsule_frame;
use std::alloc::Global;

/// The capsule of these payloads, where their sizes fit one.
pub fn enclosed<'a>(alloc: Global, payloads: &[Payload<'a>]) -> Result<Made<'a>, Stop>
    ensures { MakesFile (λ told. All (IsThere told) payloads.now) (IsElsewhere payloads.now)
        (λ told. enclose_value (map (part_told told) payloads.now)) (length payloads.now) result }
{
    let outlines = outlines(alloc, payloads)?;
    let frame = capsule_frame(alloc, outlines.as_slice())?;
    Ok(Made::new(alloc, frame, payloads)?)
}
