//! The commands that turn a package into a capsule, and back: `capsule` and `package`.
ghost use Rattle.std.specs.Prelude.{Some};
ghost use Rattle.fip_words.specs.Order.{FipAsked};
ghost use Rattle.fip_tool.specs.Done.{DoneWithFiles};

use crate::lines::Format;
use crate::writing::put_made;
use fip_making::{Stop, capsule_of_package, package_of_capsule};
use host_io::{Files, Sink};
use std::alloc::Global;

/// Writes the capsule of the package in the file `from` to the file `out`, and prints its line.
pub fn run_capsule<H: Files, O: Sink>(
    alloc: Global,
    files: &mut H,
    sink: &mut O,
    from: &str,
    out: &str,
) -> Result<(), Stop>
    ensures { DoneWithFiles H.Files O.Sink ⊥ (Some (FipAsked.capsule from.now out.now)) result
        files.old files.new sink.old sink.new }
{
    let made = capsule_of_package(alloc, files, from);
    put_made(alloc, files, sink, Format::Capsule, out, made)
}

/// Writes the package of the capsule in the file `from` to the file `out`, and prints its line. Its
/// serial number is 0x12345678, and all its flags are 0.
pub fn run_package<H: Files, O: Sink>(
    alloc: Global,
    files: &mut H,
    sink: &mut O,
    align: u32,
    from: &str,
    out: &str,
) -> Result<(), Stop>
    ensures { DoneWithFiles H.Files O.Sink ⊥ (Some (FipAsked.repackage align from.now out.now)) result
        files.old files.new sink.old sink.new }
{
    let made = package_of_capsule(alloc, files, align, from);
    put_made(alloc, files, sink, Format::Package, out, made)
}
