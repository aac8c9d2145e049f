//! The command that makes manifests: `manifest`.
ghost use Rattle.std.specs.Prelude.{Some, map};
ghost use Rattle.fip_words.specs.Order.{FipAsked, image_view};
ghost use Rattle.fip_tool.specs.Done.{DoneWithFiles};

use crate::lines::manifest_line;
use crate::writing::{NewFile, join_and_print};
use fip_making::{Stop, manifest};
use fip_words::ImageWord;
use host_io::{Files, Sink};
use std::alloc::Global;

/// Writes a manifest of named images to the file `out`, and prints its line.
pub fn run_manifest<H: Files, O: Sink>(
    alloc: Global,
    files: &mut H,
    sink: &mut O,
    out: &str,
    security: u32,
    named: &[ImageWord],
) -> Result<(), Stop>
    ensures { DoneWithFiles H.Files O.Sink ⊥ (Some (FipAsked.manifest out.now security (map image_view named.now))) result
        files.old files.new sink.old sink.new }
{
    let (rows, bytes) = manifest(alloc, files, security, named)?;
    let line = manifest_line(alloc, rows, bytes.len() as u64, security)?;
    let bytes = bytes.as_slice();
    let file = NewFile {
        name: out,
        frame: bytes,
        pieces: &[],
    };
    join_and_print(alloc, files, sink, &file, line.as_slice())
}
