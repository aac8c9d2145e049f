//! The command `format`.
ghost use Rattle.std.specs.Prelude.{◌≡◌, ◌≤◌, ℕ, List, [], Option, None, IsTrue, IsFalse};
ghost use Rattle.fwu_journal.specs.Shown.{turns};
ghost use Rattle.host_io.specs.Reads.{ReadsFile};
ghost use Rattle.script_turns.specs.Powered.{moment};
ghost use Rattle.flash_commands.specs.Formatting.{Formats, Tries, format_note, format_status, layout_of};
ghost use Rattle.script_runs.specs.Ways.{described, without_list, world_at};

use crate::format_line::{FORMAT_ROOM, add_format_line};
use base_core::ImageRow;
use flash_core::Flash;
use flash_format::{FormatStop, Formatted, format};
use fwu_journal::Journal;
use fwu_words::NewFlash;
use host_io::{Files, Sink};
use script_runs::{Done, Note, Refusal, put_line, refuse};
use std::alloc::Global;
use verify_core::Verifier;

/// The exit status of what became of a format.
pub fn status_of(ended: &Result<Formatted, FormatStop>) -> u8
    ensures { result ≡ format_status ended.now }
{
    match ended {
        Ok(_) => 0,
        Err(FormatStop::Input(_)) => 7,
        Err(FormatStop::ReadFailed) => 2,
        Err(FormatStop::Flash(_)) => 5,
    }
}

/// The note of what became of a format.
pub fn note_of(ended: &Result<Formatted, FormatStop>) -> Note
    ensures { result ≡ format_note ended.now }
{
    match ended {
        Err(FormatStop::Input(fault)) => Note::Input(*fault),
        Ok(_) => Note::Nothing,
        Err(FormatStop::ReadFailed) => Note::Nothing,
        Err(FormatStop::Flash(_)) => Note::Nothing,
    }
}

/// Powers a flash on, and formats it.
pub fn try_format<D: Flash, H: Files, V: Verifier>(
    flash: &mut D,
    rows: &[ImageRow],
    banks: u32,
    files: &mut H,
    name: &str,
    verifier: &V,
) -> Result<Formatted, FormatStop>
    requires off { IsFalse (D.on flash.old) }
    requires unarmed { D.arming flash.old ≡ None }
    ensures tries { Tries (V.passes verifier.now) D.tells (H.contents files.old) name.now
        (record { banks = banks; rows = rows.now }) (D.blocks flash.old) (moment D.Flash flash.old) (moment D.Flash flash.new)
        (H.faults files.old) (H.faults files.new) result }
    // That file alone is asked for, and none is written.
    ensures reads { ReadsFile H.Files name.now files.old files.new }
    ensures size { D.blocks flash.new ≡ D.blocks flash.old }
{
    flash.power_on();
    format(flash, rows, banks, files, name, verifier)
}

/// Powers the flash on, makes it as it is asked for, and puts the line of what became of that into the sink in one piece. The room
/// for the line is made before the flash is touched.
///
/// Status 2 says that the file could not be read, and 5 that power was lost or the flash failed. 7 says that the rows, the banks
/// or the package were refused, and the note says why.
pub fn format_flash<'a, D: Flash, H: Files, O: Sink, V: Verifier>(
    alloc: Global,
    wanted: NewFlash<'a>,
    files: &mut H,
    sink: &mut O,
    flash: D,
    verifier: &V,
) -> Done<D>
    requires off { IsFalse (D.on flash) }
    requires unarmed { D.arming flash ≡ None }
    ensures formats { (script : Option (List ℕ)) (was are : ℕ) → Formats (V.passes verifier.now) (described D.Flash flash)
        (without_list H.Files script files.old) wanted.entry.package.now (layout_of wanted.entry)
        (world_at D.Flash H.Files O.Sink was flash files.old sink.old)
        (world_at D.Flash H.Files O.Sink are result.flash files.new sink.new) result.status result.note }
    ensures power { result.status ≡ 0 → IsTrue (D.on result.flash) }
    ensures no_turns { turns result.journal ≡ [] }
    // The package's file alone is asked for, and none is written.
    ensures reads { ReadsFile H.Files wanted.entry.package.now files.old files.new }
    ensures later_sink { O.faults sink.old ≤ O.faults sink.new }
    ensures size { D.blocks result.flash ≡ D.blocks flash }
{
    let Ok(mut text) = Vec::with_capacity(alloc, FORMAT_ROOM) else {
        return refuse(alloc, sink, Refusal::NoMemory, flash);
    };
    let mut flash = flash;
    let NewFlash {
        banks,
        rows,
        package,
    } = wanted;
    let ended = try_format(&mut flash, rows.as_slice(), banks, files, package, verifier);
    add_format_line(&mut text, &ended);
    let status = put_line(sink, text.as_slice(), status_of(&ended));
    Done {
        status,
        note: note_of(&ended),
        flash,
        journal: Journal::new(alloc),
    }
}
