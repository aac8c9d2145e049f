//! The command `serve`.
ghost use Rattle.std.specs.Prelude.{◌≡◌, ◌≤◌, None, IsFalse};
ghost use Rattle.host_io.specs.Once.{ReadsOnce};
ghost use Rattle.script_runs.specs.Ending.{ending, in_model, is_beyond_model, noted};
ghost use Rattle.script_runs.specs.Ways.{without_list, world};
ghost use Rattle.script_cmd.specs.Here.{ServeWay, note_of};

use flash_core::Flash;
use host_io::{Files, Sink, Source};
use script_runs::{Done, Note};
use script_turns::Powered;
use serving::{ServeEnd, Served, Serving, serve};
use std::alloc::Global;
use verify_core::Verifier;

/// What is noted of how a serving ended.
fn note_of(end: ServeEnd) -> Note
    ensures noted { noted result ≡ note_of end }
    ensures note { IsFalse (is_beyond_model result) }
{
    match end {
        ServeEnd::NotBooted(why) => Note::Boot(why),
        _ => Note::Nothing,
    }
}

/// Starts the bank that boots, and answers the requests of the source by frames. No line is printed.
///
/// Status 0 says that the source is at its end, behind whole frames. 2 says that a read of it failed, 3 that the sink did, 5
/// that the flash did. 6 says that no bank was started, 8 that the source gave byte 1,073,741,825, 11 that it gave no frame, and
/// 12 that power was lost. Status 9 says that memory was wanting, for a turn or at a put.
pub fn serve_source<D: Flash, H: Files, I: Source, O: Sink, V: Verifier>(
    alloc: Global,
    files: &mut H,
    source: &mut I,
    sink: &mut O,
    flash: D,
    verifier: &V,
) -> Done<D>
    requires off { IsFalse (D.on flash) }
    requires unarmed { D.arming flash ≡ None }
    ensures way { ServeWay (V.passes verifier.now) D.tells
        (without_list H.Files (I.left source.old) files.old) (in_model (ending result))
        (world D.Flash H.Files I.Source O.Sink flash files.old source.old sink.old)
        (world D.Flash H.Files I.Source O.Sink result.flash files.new source.new sink.new) (I.left source.new) }
    ensures files { files.new ≡ files.old }
    ensures note { IsFalse (is_beyond_model result.note) }
    ensures later_source { I.faults source.old ≤ I.faults source.new }
    ensures once { ReadsOnce I.Source source.old source.new }
    ensures later_sink { O.faults sink.old ≤ O.faults sink.new }
    ensures size { D.blocks result.flash ≡ D.blocks flash }
{
    let Served { serving, end } = serve(alloc, Powered::off(flash), files, source, sink, verifier);
    let Serving {
        powered,
        journal,
        ..
    } = serving;
    Done {
        status: end.status(),
        note: note_of(end),
        flash: powered.into_flash(),
        journal,
    }
}
