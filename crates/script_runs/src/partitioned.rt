//! Runs on the flash that a device has behind a GUID partition table.
ghost use Rattle.std.specs.Prelude.{◌≡◌, ◌≢◌, ◌≤◌, ℕ, Option, None, IsTrue, IsFalse};
ghost use Rattle.host_io.specs.Access.{Access};
ghost use Rattle.flash_core.specs.Told.{NothingDirty};
ghost use Rattle.agent_machine.specs.Fields.{Fields};
ghost use Rattle.fwu_journal.specs.Shown.{turns};
ghost use Rattle.fwu_words.specs.Order.{Asked};
ghost use Rattle.fwu_words.specs.declared.orders.Place.TheVariants as place;
ghost use Rattle.gpt_core.specs.Beside.{Beside, TouchesPlaces};
ghost use Rattle.gpt_core.specs.Mapped.{device, places_of};
ghost use Rattle.gpt_core.specs.Places.{Fit};
ghost use Rattle.script_runs.specs.ByTable.{seen_at};
ghost use Rattle.script_runs.specs.Ending.{ending};
ghost use Rattle.script_turns.specs.Powered.{moment, moment_on};
ghost use Rattle.script_runs.specs.Ending.{EndsRun, IsUnnamedIn, KeepsFiles};
ghost use Rattle.script_turns.specs.Runs.{Ran, calls_of, sends_none};
ghost use Rattle.script_runs.specs.Ways.{Given};
ghost use Rattle.script_runs.specs.WaysByTable.{GoesAt, ReadsScript};

use crate::done::Done;
use crate::opening::{Unopened, open};
use crate::refusing::{Refusal, refuse};
use crate::room::Ready;
use crate::running::run_script;
use flash_core::Flash;
use gpt_core::{Mapped, Places, Start};
use host_io::{Files, Sink};
use script_turns::{Fresh, Powered};
use std::alloc::Global;
use std::marker::Brand;
use verify_core::Verifier;

/// What is left of a run, with the device in place of the flash that it has at its places.
fn unmapped<D: Flash, K: Start>(done: Done<Mapped<D, K>>) -> Done<D>
    ensures status { result.status ≡ done.status }
    ensures note { result.note ≡ done.note }
    ensures journal { result.journal ≡ done.journal }
    ensures device { result.flash ≡ device done.flash }
    ensures places { places_of done.flash ≡ K.at }
    ensures size { D.blocks result.flash ≡ K.blocks }
    ensures beside { IsTrue D.tells → NothingDirty K.was → Beside K.at K.was (D.told result.flash) }
    ensures touches { TouchesPlaces K.at K.writes (D.writes result.flash) }
{
    let Done {
        status,
        note,
        flash,
        journal,
    } = done;
    Done {
        status,
        note,
        flash: flash.into_flash(),
        journal,
    }
}

/// A device that is on, with nothing dirty, and the places of the flash behind its partition table.
#[derive(Drop)]
struct Opened<D: Flash> {
    flash: D,
    places: Places,
    ghost is_on: { IsTrue (D.on flash) },
    ghost clean: { IsTrue D.tells → NothingDirty (D.told flash) },
    ghost unarmed: { D.arming flash ≡ None },
    ghost fits: { Fit (D.blocks flash) places },
}

/// Does the calls of a script on the flash behind the table.
fn run_mapped<D: Flash, K: Start, H: Files, O: Sink, V: Verifier>(
    alloc: Global,
    ready: Ready,
    files: &mut H,
    sink: &mut O,
    opened: Opened<D>,
    verifier: &V,
) -> Done<D>
    requires at { opened.places ≡ K.at }
    requires size { D.blocks opened.flash ≡ K.blocks }
    requires start { IsTrue D.tells → D.told opened.flash ≡ K.was }
    requires writes { D.writes opened.flash ≡ K.writes }
    ensures ran { (on : Option Fields) × Ran (V.passes verifier.now) D.tells (H.contents files.old)
        (turns result.journal) (seen_at opened.places (moment D.Flash opened.flash))
        (seen_at opened.places (moment_on D.Flash on result.flash)) (H.faults files.old) (H.faults files.new) }
    ensures beside { IsTrue D.tells → Beside opened.places (D.told opened.flash) (D.told result.flash) }
    ensures touches { TouchesPlaces opened.places (D.writes opened.flash) (D.writes result.flash) }
    ensures ends { EndsRun O.Sink ready.script (ending result) sink.old sink.new }
    ensures keeps { KeepsFiles H.Files (turns result.journal) files.old files.new }
    ensures size { D.blocks result.flash ≡ D.blocks opened.flash }
{
    let Opened { flash, places } = opened;
    let mapped = Mapped::<D, K>::new(flash, places);
    let start = Powered::fresh(Fresh { flash: mapped });
    unmapped(run_script(alloc, ready, files, sink, start, verifier))
}

/// The same, with what the device told, and counted of its blocks, as the places' key.
fn run_at<D: Flash, H: Files, O: Sink, V: Verifier>(
    alloc: Global,
    ready: Ready,
    files: &mut H,
    sink: &mut O,
    opened: Opened<D>,
    verifier: &V,
) -> Done<D>
    ensures ran { (on : Option Fields) × Ran (V.passes verifier.now) D.tells (H.contents files.old)
        (turns result.journal) (seen_at opened.places (moment D.Flash opened.flash))
        (seen_at opened.places (moment_on D.Flash on result.flash)) (H.faults files.old) (H.faults files.new) }
    ensures beside { IsTrue D.tells → Beside opened.places (D.told opened.flash) (D.told result.flash) }
    ensures touches { TouchesPlaces opened.places (D.writes opened.flash) (D.writes result.flash) }
    ensures ends { EndsRun O.Sink ready.script (ending result) sink.old sink.new }
    ensures keeps { KeepsFiles H.Files (turns result.journal) files.old files.new }
    ensures size { D.blocks result.flash ≡ D.blocks opened.flash }
{
    run_mapped::<D, Brand, H, O, V>(alloc, ready, files, sink, opened, verifier)
}

/// Powers a device on, reads and repairs its partition table, and does the calls of a script on the flash behind it. Where the
/// table gives no flash the status is 10, and where power is lost or the flash fails before the first turn it is 5.
pub fn run_by_table<D: Flash, H: Files, O: Sink, V: Verifier>(
    alloc: Global,
    ready: Ready,
    files: &mut H,
    sink: &mut O,
    flash: D,
    verifier: &V,
) -> Done<D>
    requires off { IsFalse (D.on flash) }
    requires unarmed { D.arming flash ≡ None }
    ensures way { (asked : Option Asked) (g : Given) (before after : ℕ)
        → ReadsScript asked g ready.script → g.files ≡ H.contents files.old
        → GoesAt place.Partitions D.Flash H.Files O.Sink (V.passes verifier.now) asked g before after flash files.old sink.old
        result files.new sink.new }
    ensures later { O.faults sink.old ≤ O.faults sink.new }
    ensures later_files { H.faults files.old ≤ H.faults files.new }
    ensures same_files { H.contents files.new ≡ H.contents files.old }
    ensures unwritten { H.writes files.new ≡ H.writes files.old }
    ensures files { IsTrue (sends_none ready.script) → files.new ≡ files.old }
    ensures unsent { IsTrue (sends_none (calls_of (turns result.journal))) → files.new ≡ files.old }
    ensures spares { (access : Access) → IsUnnamedIn (turns result.journal) access → H.spares files.old files.new access }
    // No status tells of a script that is too long.
    ensures not_long { result.status ≢ 8 }
    ensures size { D.blocks result.flash ≡ D.blocks flash }
{
    let mut flash = flash;
    match open(alloc, &mut flash) {
        Ok(places) => {
            let opened = Opened { flash, places };
            run_at(alloc, ready, files, sink, opened, verifier)
        }
        Err(Unopened::Lacks(lack)) => refuse(alloc, sink, Refusal::NoTable(lack), flash),
        Err(Unopened::Stopped) => refuse(alloc, sink, Refusal::Stopped, flash),
        Err(Unopened::NoMemory) => refuse(alloc, sink, Refusal::NoMemory, flash),
    }
}
