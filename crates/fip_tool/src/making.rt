//! The commands that make packages: `create`, `remove` and `update`.
ghost use Rattle.std.specs.Prelude.{◌≡◌, Some, map};
ghost use Rattle.fip_words.specs.Order.{FipAsked, part_view};
ghost use Rattle.fip_tool.specs.Done.{DoneWithFiles};

use crate::lines::Format;
use crate::writing::put_made;
use base_core::Guid;
use fip_making::{Stop, created, removed, updated};
use fip_words::FileWord;
use host_io::{Files, Sink};
use std::alloc::Global;

/// A package that is made of the one in the file `from`, for the file `out`, each payload at a multiple of `align` bytes.
#[derive(Clone, Copy)]
pub struct Remade<'a> {
    pub align: u32,
    pub from: &'a str,
    pub out: &'a str,
}

impl<'a> Remade<'a> {
    /// The package of these words.
    pub fn new(align: u32, from: &'a str, out: &'a str) -> Remade<'a>
        ensures { (result.align ≡ align) × (result.from.now ≡ from.now) × (result.out.now ≡ out.now) }
    {
        Remade { align, from, out }
    }
}

/// Writes a new package of named files to the file `out`, and prints its line.
pub fn run_create<H: Files, O: Sink>(
    alloc: Global,
    files: &mut H,
    sink: &mut O,
    align: u32,
    out: &str,
    named: &[FileWord<'_>],
) -> Result<(), Stop>
    ensures { DoneWithFiles H.Files O.Sink ⊥ (Some (FipAsked.create align out.now (map part_view named.now))) result
        files.old files.new sink.old sink.new }
{
    let made = created(alloc, files, align, named);
    put_made(alloc, files, sink, Format::Package, out, made)
}

/// Writes the package in the file `from` without the named entries to the file `out`, and prints its line.
pub fn run_remove<H: Files, O: Sink>(
    alloc: Global,
    files: &mut H,
    sink: &mut O,
    remade: &Remade<'_>,
    guids: &[Guid],
) -> Result<(), Stop>
    ensures { DoneWithFiles H.Files O.Sink ⊥
        (Some (FipAsked.remove remade.now.align remade.now.from.now remade.now.out.now guids.now)) result
        files.old files.new sink.old sink.new }
{
    let made = removed(alloc, files, remade.align, remade.from, guids);
    put_made(alloc, files, sink, Format::Package, remade.out, made)
}

/// Writes the package in the file `from` with the payloads of named files to the file `out`, and prints its line. The named files
/// are asked for once the package has an entry of each of their types.
pub fn run_update<H: Files, O: Sink>(
    alloc: Global,
    files: &mut H,
    sink: &mut O,
    remade: &Remade<'_>,
    named: &[FileWord<'_>],
) -> Result<(), Stop>
    ensures { DoneWithFiles H.Files O.Sink ⊥
        (Some (FipAsked.update remade.now.align remade.now.from.now remade.now.out.now (map part_view named.now))) result
        files.old files.new sink.old sink.new }
{
    let made = updated(alloc, files, remade.align, remade.from, named);
    put_made(alloc, files, sink, Format::Package, remade.out, made)
}
