//! A file that is made, and the line that is printed then.
ghost use Rattle.std.specs.Prelude.{◌≡◌, ◌≢◌, ◌≤◌, ◌∷◌, [], All, Some, None, Err, IfErr, IfOk, OnOk};
ghost use Rattle.base_core.specs.Counts.{Rose};
ghost use Rattle.host_io.specs.Access.{Access, Makes};
ghost use Rattle.host_io.specs.Contents.{Directory};
ghost use Rattle.host_io.specs.Joined.{AsksNoPiece, HasPiece};
ghost use Rattle.fip_tool.specs.Done.{PutsMade, WritesTexts, DidIn};
ghost use Rattle.fip_tool.specs.Steps.{FaultsOnce, Makes, MayTear, NoneUnwritten, Prints, Writes, Written};
ghost use Rattle.fip_making.specs.Stops.{IsLate};
ghost use Rattle.fip_making.specs.Payloads.{IsWholeFile, joined_pieces, made_by};
ghost use Rattle.fip_tool.specs.Lines.{made_line};
ghost use Rattle.fip_tool.specs.Tool.{puts};
ghost use Rattle.fip_tool.specs.Wrote.{written_once};
ghost use Rattle.fip_making.specs.declared.stops.Stop.TheVariants as stop;

use crate::lines::{Format, made_line};
use crate::printing::print;
use fip_making::{Made, Stop};
use host_io::{Files, Piece, Sink};
use std::alloc::Global;

/// A file that is to be made, of a frame with pieces of files between its bytes.
#[derive(Clone, Copy)]
pub struct NewFile<'a> {
    pub name: &'a str,
    pub frame: &'a [u8],
    pub pieces: &'a [Piece<'a>],
}

// Makes a file.
fn join<H: Files>(alloc: Global, files: &mut H, file: &NewFile<'_>) -> Result<(), Stop>
    requires { All (HasPiece (H.contents files.old)) file.now.pieces.now }
    ensures told { (told : Directory) → H.contents files.old ≡ Some told
        → Written told (H.contents files.new) (Rose (H.faults files.old) (H.faults files.new))
        (MayTear (H.writes files.old) (H.writes files.new))
        file.now.name.now (joined_pieces told file.now.frame.now file.now.pieces.now) result }
    ensures spares { (access : Access) → access ≢ Makes file.now.name.now → AsksNoPiece file.now.pieces.now access
        → H.spares files.old files.new access }
    ensures file_count { FaultsOnce (H.faults files.old) (H.faults files.new) result }
    ensures wrote { (H.writes files.new).done ≡ written_once result (H.writes files.old).done }
    ensures unspoiled { OnOk result (NoneUnwritten (H.writes files.old) (H.writes files.new)) }
    ensures cause { result ≡ Err stop.FileFault → Rose (H.faults files.old) (H.faults files.new) }
    ensures silent { H.contents files.old ≡ None → H.contents files.new ≡ None }
    ensures late { IfErr result IsLate }
    ensures sink { result ≡ Err stop.SinkFault → ⊥ }
    ensures later { H.faults files.old ≤ H.faults files.new }
{
    let NewFile {
        name,
        frame,
        pieces,
    } = *file;
    files.write_joined(alloc, name, frame, pieces)?;
    Ok(())
}

/// Makes a file, and prints a line then.
pub fn join_and_print<H: Files, O: Sink>(
    alloc: Global,
    files: &mut H,
    sink: &mut O,
    file: &NewFile<'_>,
    line: &[u8],
) -> Result<(), Stop>
    requires { All (HasPiece (H.contents files.old)) file.now.pieces.now }
    ensures told { (told : Directory) → H.contents files.old ≡ Some told → DidIn H.Files O.Sink
        (Makes (Writes file.now.name.now (joined_pieces told file.now.frame.now file.now.pieces.now) ∷ Prints line.now ∷ []))
        told files.old files.new sink.old sink.new result }
    ensures spares { (access : Access) → access ≢ Makes file.now.name.now → AsksNoPiece file.now.pieces.now access
        → H.spares files.old files.new access }
    ensures texts { WritesTexts H.Files O.Sink (λ texts. texts ≡ line.now ∷ []) result files.old files.new sink.old sink.new }
    ensures unspoiled { OnOk result (NoneUnwritten (H.writes files.old) (H.writes files.new)) }
    ensures silent { H.contents files.old ≡ None → H.contents files.new ≡ None }
{
    join(alloc, files, file)?;
    print(sink, line)
}

/// Ends a command that makes a package or a capsule: writes it to the file `out`, and prints its line.
pub fn put_made<H: Files, O: Sink>(
    alloc: Global,
    files: &mut H,
    sink: &mut O,
    format: Format,
    out: &str,
    made: Result<Made<'_>, Stop>,
) -> Result<(), Stop>
    requires { IfOk made (IsWholeFile (H.contents files.old)) }
    ensures told { (told : Directory) → H.contents files.old ≡ Some told → IfOk made.entry (λ m. DidIn H.Files O.Sink
        (Makes (puts (made_line format) out.now (made_by told m))) told files.old files.new sink.old sink.new result) }
    ensures spares { (access : Access) → access ≢ Makes out.now → IfOk made.entry (λ m. AsksNoPiece m.pieces.items access)
        → H.spares files.old files.new access }
    ensures puts { PutsMade H.Files O.Sink format made.entry result files.old files.new sink.old sink.new }
{
    let made = match made {
        Ok(made) => made,
        Err(stop) => return Err(stop),
    };
    let line = made_line(alloc, format, made.count, made.frame.size)?;
    let frame = made.frame.bytes.as_slice();
    let pieces = made.pieces.as_slice();
    let file = NewFile {
        name: out,
        frame,
        pieces,
    };
    join_and_print(alloc, files, sink, &file, line.as_slice())
}
