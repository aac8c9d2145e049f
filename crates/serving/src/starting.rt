//! A serving, from its boot.
ghost use Rattle.std.specs.Prelude.{◌≡◌, None};
ghost use Rattle.host_io.specs.Once.{ReadsOnce};
ghost use Rattle.script_turns.specs.Powered.{device, has_power, moment_of, shown_on};
ghost use Rattle.serving.specs.Holds.{ServingHolds};
ghost use Rattle.serving.specs.Scene.{LeavesServing, at, run_of, scene_of, sink_port, source_port};
ghost use Rattle.serving.specs.Going.{ServeBoots, ServesFrom};

use crate::ends::{ServeEnd, end_by};
use crate::serving::{Serving, serve_all};
use flash_core::Flash;
use fwu_journal::Journal;
use fwu_wire::Exchange;
use host_io::{Files, Sink, Source};
use script_text::Call;
use script_turns::{Powered, turn};
use std::alloc::Global;
use verify_core::Verifier;

/// A serving that ended.
#[derive(Drop)]
pub struct Served<D: Flash> {
    pub serving: Serving<D>,
    pub end: ServeEnd,
}

/// Makes the turn of a boot. Room for it is found before.
fn boot<D: Flash, H: Files, V: Verifier>(
    alloc: Global,
    serving: &mut Serving<D>,
    files: &mut H,
    verifier: &V,
) -> Result<(), ServeEnd>
    requires powered { D.on (device serving.old.powered) ≡ has_power serving.old.powered }

    ensures boots { ServeBoots (scene_of V.Verifier D.Flash H.Files verifier.now files.old)
        (run_of serving.old) (run_of serving.new) result }
    ensures exchange { serving.new.exchange ≡ serving.old.exchange }
    ensures leaves { LeavesServing result serving.old serving.new files.old files.new }
{
    serving.journal.make_room(1)?;
    let boot = turn(alloc, &mut serving.powered, Call::Boot, files, verifier);
    let started = end_by(&boot.reply);
    serving.journal.add(boot);
    started
}

/// Starts the bank that boots, and serves the requests of a source, up to its end or to what ends the serving first. No bank was
/// started on the flash. The source gives frames, each with a request, and the sink gets the frames of the replies. No file is
/// read.
pub fn serve<D: Flash, H: Files, I: Source, O: Sink, V: Verifier>(
    alloc: Global,
    start: Powered<D>,
    files: &mut H,
    source: &mut I,
    sink: &mut O,
    verifier: &V,
) -> Served<D>
    requires powered { D.on (device start) ≡ has_power start }
    requires not_booted { shown_on start ≡ None }

    // What was taken, done and written.
    ensures serves { ServesFrom (scene_of V.Verifier D.Flash H.Files verifier.now files.old) (moment_of start)
        (sink_port O.Sink sink.old) (at result.serving (sink_port O.Sink sink.new)) result.end
        (source_port I.Source source.old) (source_port I.Source source.new) }
    // What holds however it ended, and why it ended so.
    ensures holds { ServingHolds (scene_of V.Verifier D.Flash H.Files verifier.now files.old) (moment_of start)
        (sink_port O.Sink sink.old) (at result.serving (sink_port O.Sink sink.new)) result.end
        (source_port I.Source source.old) (source_port I.Source source.new) }
    // No read of the source is made behind one that gave no bytes or failed.
    ensures once { ReadsOnce I.Source source.old source.new }
    ensures size { D.blocks (device result.serving.powered) ≡ D.blocks (device start) }
    ensures files { files.new ≡ files.old }
{
    let mut serving = Serving {
        powered: start,
        journal: Journal::new(alloc),
        exchange: Exchange::new(),
    };
    if let Err(end) = boot(alloc, &mut serving, files, verifier) {
        return Served { serving, end };
    }
    let end = serve_all(alloc, &mut serving, files, source, sink, verifier);
    Served { serving, end }
}
