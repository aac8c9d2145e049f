//! Whole files.
ghost use Rattle.fip_making.specs.Answers.{AsTold, ReadsOne};
ghost use Rattle.fip_making.specs.Stops.{IsLate};
ghost use Rattle.fip_making.specs.Values.{there};

use crate::stops::Stop;
use host_io::{Files, read_whole};
use std::alloc::Global;

/// The bytes of a file.
pub fn read_file<H: Files>(alloc: Global, files: &mut H, name: &str) -> Result<Vec<u8>, Stop>
    ensures told { AsTold H.Files (λ told v. v.items) (λ told. there (told name.now)) files.old files.new result }
    ensures reads { ReadsOne H.Files name.now IsLate files.old files.new result }
{
    Ok(read_whole(alloc, files, name)?)
}
