//! The command `show`.
ghost use Rattle.std.specs.Prelude.{if◌then◌else◌, not, ◌==◌, ◌≡◌, ◌+◌, ◌≤◌, ◌++◌, [], None, length, IsTrue, IsFalse};
ghost use Rattle.flash_core.specs.Counts.{all_stops};
ghost use Rattle.flash_core.specs.Told.{NothingDirty};
ghost use Rattle.early_boot.specs.Numbers.{numbers as read};
ghost use Rattle.fwu_journal.specs.Room.{Grows, HasRoom};
ghost use Rattle.fwu_journal.specs.Shown.{turns};
ghost use Rattle.fwu_journal.specs.declared.line.TheConstants.{LINE_ROOM};
ghost use Rattle.fwu_model.specs.Causes.{Faults};
ghost use Rattle.script_turns.specs.Powered.{moment};
ghost use Rattle.script_runs.specs.Ways.{Given, HasGoodList, moment_world};
ghost use Rattle.script_runs.specs.ByTable.{Wakes};
ghost use Rattle.script_runs.specs.Ending.{is_beyond_model, noted};
ghost use Rattle.script_turns.specs.Turning.{NoneFalls};
ghost use Rattle.flash_commands.specs.Showing.{ShowFinds, Showed, shown_line, not_shown_line};

use early_boot::{Numbers, Unshown, read_numbers};
use flash_core::Flash;
use fwu_journal::{Journal, LINE_ROOM, add, add_no_boot, add_numbers};
use fwu_model::NoBoot;
use host_io::Sink;
use script_runs::{Done, Note, put_line};
use std::alloc::Global;

/// Adds the line of numbers that a flash shows.
fn add_shown(text: &mut Vec<u8>, shown: &Numbers)
    requires { HasRoom text.old LINE_ROOM }
    ensures { text.new.items ≡ text.old.items ++ shown_line (read shown.now) }
{
    add(text, b"show ");
    add_numbers(text, shown);
    add(text, b"\n")
}

/// Adds the line of a flash that shows no numbers.
fn add_not_shown(text: &mut Vec<u8>, why: NoBoot)
    requires { HasRoom text.old LINE_ROOM }
    ensures { text.new.items ≡ text.old.items ++ not_shown_line why }
{
    add(text, b"show ");
    add_no_boot(text, why);
    add(text, b"\n")
}

/// What was found, with the status and the note of it.
#[derive(Clone, Copy)]
struct Found {
    status: u8,
    note: Note,
}

/// Reads the numbers of a flash and makes the line of what was found.
fn find<D: Flash>(flash: &mut D, text: &mut Vec<u8>) -> Found
    requires off { IsFalse (D.on flash.old) }
    requires unarmed { D.arming flash.old ≡ None }
    requires room { HasRoom text.old LINE_ROOM }
    requires empty { text.old.items ≡ [] }
    ensures woken { IsTrue D.tells → Wakes (D.told flash.old) (D.told flash.new) }
    ensures finds { ShowFinds (IsTrue D.tells) (D.told flash.new).now
        (D.counts flash.old) (D.counts flash.new) result.status (noted result.note) text.new.items }
    ensures note { IsFalse (is_beyond_model result.note) }
    ensures counts { NoneFalls (D.counts flash.old) (D.counts flash.new) }
    ensures once { all_stops (D.counts flash.new) ≤ all_stops (D.counts flash.old) + (if result.status == 5 then 1 else 0) }
    ensures made { (D.counts flash.new).made ≡ (D.counts flash.old).made }
    ensures unarmed { D.arming flash.new ≡ None }
    ensures power { D.on flash.new ≡ not (result.status == 5) }
    ensures writes { D.writes flash.new ≡ D.writes flash.old }
    ensures size { D.blocks flash.new ≡ D.blocks flash.old }
{
    flash.power_on();
    match read_numbers(flash) {
        Ok(shown) => {
            add_shown(text, &shown);
            Found {
                status: 0,
                note: Note::Nothing,
            }
        }
        Err(Unshown::Layout(fault)) => not_found(text, NoBoot::Layout(fault)),
        Err(Unshown::Metadata) => not_found(text, NoBoot::Metadata),
        Err(Unshown::Flash(_)) => {
            add(text, b"flash-fault\n");
            Found {
                status: 5,
                note: Note::Nothing,
            }
        }
    }
}

/// A flash that shows no numbers.
fn not_found(text: &mut Vec<u8>, why: NoBoot) -> Found
    requires { HasRoom text.old LINE_ROOM }
    ensures line { text.new.items ≡ text.old.items ++ not_shown_line why }
    ensures status { result.status ≡ 6 }
    ensures note { result.note ≡ Note.Boot why }
{
    add_not_shown(text, why);
    Found {
        status: 6,
        note: Note::Boot(why),
    }
}

/// Powers the flash on, reads what it shows, and puts the line of that into the sink. Nothing is written, and no replica is
/// repaired. Status 6 says that there is no layout or no metadata, and 5 that power was lost or the flash failed.
pub fn show<D: Flash, O: Sink>(alloc: Global, sink: &mut O, flash: D) -> Done<D>
    requires off { IsFalse (D.on flash) }
    requires unarmed { D.arming flash ≡ None }
    ensures showed { (g : Given) (before after : Faults) → HasGoodList g.list g.files → Showed D.tells g
        (moment_world D.Flash O.Sink before flash sink.old)
        (moment_world D.Flash O.Sink after result.flash sink.new) result.status (noted result.note) }
    ensures note { IsFalse (is_beyond_model result.note) }
    ensures content { IsTrue D.tells → NothingDirty (D.told flash) → D.told result.flash ≡ D.told flash }
    ensures guard { IsTrue D.tells → (D.told result.flash).guard ≡ (D.told flash).guard }
    // on every device, whatever its reads give: nothing is erased or programmed
    ensures writes { D.writes result.flash ≡ D.writes flash }
    ensures no_turns { turns result.journal ≡ [] }
    ensures counts { NoneFalls (D.counts flash) (D.counts result.flash) }
    ensures made { (D.counts result.flash).made ≡ (D.counts flash).made }
    ensures unarmed { D.arming result.flash ≡ None }
    ensures power { result.status ≡ 0 → IsTrue (D.on result.flash) }
    ensures later { O.faults sink.old ≤ O.faults sink.new }
    ensures size { D.blocks result.flash ≡ D.blocks flash }
{
    let journal = Journal::new(alloc);
    let Ok(mut text) = Vec::with_capacity(alloc, LINE_ROOM) else {
        return Done {
            status: 9,
            note: Note::Nothing,
            flash,
            journal,
        };
    };
    let mut flash = flash;
    let found = find(&mut flash, &mut text);
    let status = put_line(sink, text.as_slice(), found.status);
    Done {
        status,
        note: found.note,
        flash,
        journal,
    }
}
