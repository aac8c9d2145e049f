//! A run at the place that is asked for: on the flash as it is, or on the one that the device has behind its partition table.
ghost use Rattle.std.specs.Prelude.{◌≡◌, ◌≤◌, None, Some, IsTrue, IsFalse};
ghost use Rattle.host_io.specs.Access.{Access};
ghost use Rattle.host_io.specs.Once.{ReadsOnce};
ghost use Rattle.fwu_journal.specs.Shown.{turns};
ghost use Rattle.fwu_words.specs.declared.orders.Place.TheVariants as place;
ghost use Rattle.fwu_words.specs.declared.orders.ScriptFrom.TheVariants as origin;
ghost use Rattle.script_runs.specs.WaysByTable.{GoesAt};
ghost use Rattle.script_runs.specs.Ending.{is_beyond_model};
ghost use Rattle.script_runs.specs.Sourced.{plain_of, text_of};
ghost use Rattle.script_runs.specs.Ending.{IsUnnamedIn};
ghost use Rattle.script_runs.specs.Sourced.{FailsOnce, TakesScript};
ghost use Rattle.script_runs.specs.Ways.{Given, HasGoodList};
ghost use Rattle.script_turns.specs.Runs.{calls_of, sends_none};

use crate::done::Done;
use crate::partitioned::run_by_table;
use crate::reading::script_of;
use crate::refusing::refuse;
use crate::running::run_script;
use flash_core::Flash;
use fwu_words::{Place, Turns};
use host_io::{Files, Sink, Source};
use script_turns::Powered;
use std::alloc::Global;
use verify_core::Verifier;

/// What a run is on: a flash, which is off, and who says whose manifests pass.
pub struct Board<'v, D: Flash, V: Verifier> {
    pub flash: D,
    pub verifier: &'v V,
}

/// Does the turns that are asked for, at the place that is asked for. The script is read first, and room is made for its turns.
pub fn run_turns<D: Flash, H: Files, I: Source, O: Sink, V: Verifier>(
    alloc: Global,
    order: Turns,
    files: &mut H,
    source: &mut I,
    sink: &mut O,
    board: Board<'_, D, V>,
) -> Done<D>
    requires off { IsFalse (D.on board.flash) }
    requires unarmed { D.arming board.flash ≡ None }
    ensures way { (g : Given) → HasGoodList g.list g.files → g.files ≡ H.contents files.old
        → GoesAt order.place D.Flash H.Files O.Sink (V.passes board.entry.verifier.now)
        (Some (plain_of order.from)) (record g { script = text_of order.from (I.left source.old) })
        (I.faults source.old) (I.faults source.new) board.entry.flash files.old sink.old result files.new sink.new }
    ensures note { order.place ≡ place.Flash → IsFalse (is_beyond_model result.note) }
    // What it reads: for one boot neither the source nor a file, and only the file of a `send`.
    ensures boot_source { order.from ≡ origin.Boot → source.new ≡ source.old }
    ensures boot_files { order.from ≡ origin.Boot → files.new ≡ files.old }
    ensures unsent { IsTrue (sends_none (calls_of (turns result.journal))) → files.new ≡ files.old }
    ensures spares { (access : Access) → IsUnnamedIn (turns result.journal) access → H.spares files.old files.new access }
    ensures same_files { H.contents files.new ≡ H.contents files.old }
    ensures unwritten { H.writes files.new ≡ H.writes files.old }
    ensures takes { order.from ≡ origin.Source
        → TakesScript (turns result.journal) result.status (I.left source.old) (I.left source.new) }
    ensures source_count { FailsOnce (turns result.journal) result.status (I.faults source.old) (I.faults source.new) }
    ensures later_files { H.faults files.old ≤ H.faults files.new }
    ensures later_source { I.faults source.old ≤ I.faults source.new }
    ensures later_sink { O.faults sink.old ≤ O.faults sink.new }
    ensures once { ReadsOnce I.Source source.old source.new }
    ensures size { D.blocks result.flash ≡ D.blocks board.entry.flash }
{
    let Board { flash, verifier } = board;
    let ready = match script_of(alloc, order.from, source) {
        Ok(ready) => ready,
        Err(why) => return refuse(alloc, sink, why, flash),
    };
    match order.place {
        Place::Flash => run_script(alloc, ready, files, sink, Powered::off(flash), verifier),
        Place::Partitions => run_by_table(alloc, ready, files, sink, flash, verifier),
    }
}
