//! Capsules in files.

ghost use Rattle.std.specs.Prelude.{◌≡◌, Err, IfOk};
ghost use Rattle.host_io.specs.Reads.{ReadsFile};
ghost use Rattle.fip_tables.specs.Files.{Lacks};
ghost use Rattle.capsule_tables.specs.Answers.{AnswersFile, HasReadCause, IsSomeTable};
ghost use Rattle.fwu_formats.specs.Capsule.{capsule_of};
ghost use Rattle.capsule_tables.specs.Ranges.{IsOfReads};
ghost use Rattle.capsule_tables.specs.declared.faults.CapsuleStop.TheVariants as stop;

use crate::faults::CapsuleStop;
use crate::items::read_items;
use crate::shape::read_shape;
use fip_tables::Toc;
use host_io::Files;

// The serial number of every capsule's table.
const SERIAL: u32 = 0x1234_5678;

/// The table of contents of a firmware management capsule in a file, or the file's first fault. It has
/// an entry for each item, in their order, with its type, where its image stands in the file and its
/// bytes. The serial number is 0x12345678, and all flags are 0. It reads the headers, and of each item
/// its place and its first 32 bytes, up to the first fault, and takes no memory.
pub fn read_capsule<H: Files>(files: &mut H, name: &str) -> Result<Toc, CapsuleStop>
    // Where the file's bytes are told, it is their table or their first fault.
    ensures told { AnswersFile (H.contents files.old) name.now capsule_of result }
    // On any files a table and a fault are of what was read: some headers, and of each item some bytes.
    ensures some { IsOfReads result }
    // Whatever file it is, the entries end below 2 ^ 32 and have different types.
    ensures any { IfOk result IsSomeTable }
    ensures missing { Lacks (H.contents files.old) name.now → result ≡ Err stop.ReadFailed }
    ensures reads { ReadsFile H.Files name.now files.old files.new }
    ensures cause { HasReadCause (H.contents files.old) name.now (H.faults files.old)
        (H.faults files.new) result }
{
    let Some(size) = files.size(name)? else {
        return Err(CapsuleStop::ReadFailed);
    };
    let shape = read_shape(files, name, size)?;
    let entries = read_items(files, name, size, &shape)?;
    Ok(Toc {
        serial: SERIAL,
        flags: 0,
        entries,
    })
}
