//! Files that are read whole.

ghost use Rattle.std.specs.Prelude.{◌≡◌, IfOk};
ghost use Rattle.host_io.specs.Contents.{Holds};
ghost use Rattle.host_io.specs.Reads.{ReadsFile};
ghost use Rattle.host_io.specs.Whole.{HasFileCause};

use crate::files::Files;
use crate::stops::ReadStop;
use std::alloc::Global;

/// The bytes of a file. `Failed` where no file has the name, and where a call failed.
pub fn read_whole<H: Files>(alloc: Global, files: &mut H, name: &str) -> Result<Vec<u8>, ReadStop>
    ensures whole { IfOk result (λ bytes. Holds (H.contents files.old) name.now bytes.items) }
    ensures reads { ReadsFile H.Files name.now files.old files.new }
    ensures cause { HasFileCause (H.contents files.old) name.now (H.faults files.old)
        (H.faults files.new) result }
{
    let Some(size) = files.size(name)? else {
        return Err(ReadStop::Failed);
    };
    let mut bytes = Vec::with_capacity(alloc, size as usize)?;
    files.read_onto(name, 0, size as usize, &mut bytes)?;
    Ok(bytes)
}
