//! The command `soak`.
ghost use Rattle.std.specs.Prelude.{◌≡◌, ◌≢◌, ◌≤◌, ℕ, List, [], None, IfOk, IsFalse, string_bytes};
ghost use Rattle.fwu_journal.specs.Shown.{HasRoomFor, turns};
ghost use Rattle.fwu_model.specs.Call.{Call};
ghost use Rattle.fwu_model.specs.Causes.{Faults};
ghost use Rattle.gen_core.specs.Calls.{file_name, first_package};
ghost use Rattle.gen_core.specs.Draws.{register_after};
ghost use Rattle.gen_core.specs.Generated.{generated};
ghost use Rattle.gen_core.specs.Line.{soak_line};
ghost use Rattle.gen_core.specs.Rounds.{sizes_in_round};
ghost use Rattle.gen_core.specs.Setup.{is_too_small, soak_layout};
ghost use Rattle.host_io.specs.Contents.{Directory};
ghost use Rattle.script_turns.specs.Powered.{TurnMoment, device, moment, moment_of};
ghost use Rattle.script_runs.specs.Ending.{ending, in_model, noted};
ghost use Rattle.flash_commands.specs.SoakWays.{SoakEnds, SoaksWay};
ghost use Rattle.script_runs.specs.ByTable.{flash_fault_line};
ghost use Rattle.flash_commands.specs.Soaking.{StandsHere, only_file_of, first_files};
ghost use Rattle.script_runs.specs.Ways.{Given, HasGoodList, PrintsTo};

use crate::format_line::add_format_line;
use crate::formatting::{note_of, status_of, try_format};
use crate::one_file::OneFile;
use crate::soaking::do_soak;
use crate::totals::totals;
use base_core::NoMemory;
use flash_core::Flash;
use flash_format::InputFault;
use fwu_formats::LayoutFault;
use fwu_journal::Journal;
use gen_core::{Lcg, draw_sizes, file_name, is_too_small, package, soak_rows};
use host_io::Sink;
use script_runs::{Done, End, Note, Refusal, Room, Run, put_line, refuse};
use script_turns::{Fresh, Powered};
use std::alloc::Global;
use verify_core::AnyManifest;

/// The package of number 0, and the register behind it, from which the rounds are drawn.
#[derive(Drop)]
struct Drawn {
    first: OneFile,
    register: Lcg,
}

/// Draws the sizes of the package of number 0, and makes it.
fn first_file(alloc: Global, register: &mut Lcg) -> Result<OneFile, NoMemory>
    ensures file { IfOk result (λ f. only_file_of (string_bytes f.name) f.bytes.items ≡ first_files register.old) }
    ensures moves_on { register.new ≡ register_after 2 register.old }
{
    let sizes = draw_sizes(register);
    let bytes = package(alloc, &soak_rows(), &sizes, 0, 1)?;
    Ok(OneFile {
        name: file_name(alloc, 0)?,
        bytes,
    })
}

/// Puts the line of the totals of a journal into the sink, and gives the exit status that comes of it. Where memory is wanting for
/// the line, nothing is written.
fn print_totals<O: Sink>(alloc: Global, journal: &Journal, rounds: u32, sink: &mut O) -> u8
    ensures { PrintsTo O.Sink (soak_line rounds (turns journal.now)) 0 result sink.old sink.new }
{
    match totals(journal).line(alloc, rounds) {
        Ok(line) => put_line(sink, line.as_slice(), 0),
        Err(NoMemory) => 9,
    }
}

/// Puts the line of a soak that stands at this status into the sink, and gives the exit status that comes of it.
fn print_end<O: Sink>(
    alloc: Global,
    stand: u8,
    last: &[u8],
    journal: &Journal,
    rounds: u32,
    sink: &mut O,
) -> u8
    ensures goes { stand ≡ 0 → PrintsTo O.Sink (soak_line rounds (turns journal.now)) 0 result sink.old sink.new }
    ensures starved { stand ≡ 9 → (result ≡ 9) × (sink.new ≡ sink.old) }
    ensures failed { stand ≡ 5 → PrintsTo O.Sink flash_fault_line 5 result sink.old sink.new }
    ensures stopped { stand ≢ 0 → stand ≢ 5 → stand ≢ 9 → PrintsTo O.Sink last.now stand result sink.old sink.new }
{
    if stand == 0 {
        print_totals(alloc, journal, rounds, sink)
    } else if stand == 5 {
        put_line(sink, b"flash-fault\n", 5)
    } else if stand == 9 {
        9
    } else {
        put_line(sink, last, stand)
    }
}

/// Puts the line of a soak into the sink: that of its totals, or of the turn that ended it. Where memory is wanting, nothing is
/// written.
fn finish<D: Flash, O: Sink>(
    alloc: Global,
    run: Run<D>,
    end: End,
    rounds: u32,
    sink: &mut O,
) -> Done<D>
    ensures ended { (all : Directory) (calls : List Call) (old : TurnMoment) → StandsHere all calls old run end →
        SoakEnds rounds calls (in_model (ending result))
        (O.taken sink.old) (O.taken sink.new) (O.faults sink.old) (O.faults sink.new) }
    ensures journal { result.journal ≡ run.journal }
    ensures note { result.note ≡ end.note }
    ensures flash { result.flash ≡ device run.powered }
    ensures later { O.faults sink.old ≤ O.faults sink.new }
{
    let status = print_end(
        alloc,
        end.status,
        run.text.as_slice(),
        &run.journal,
        rounds,
        sink,
    );
    let note = end.note;
    run.into_done(End { status, note })
}

/// Formats a flash with the first package, and does the rounds.
fn format_and_soak<D: Flash, O: Sink>(
    alloc: Global,
    room: Room,
    drawn: Drawn,
    rounds: u32,
    sink: &mut O,
    flash: D,
) -> Done<D>
    requires off { IsFalse (D.on flash) }
    requires unarmed { D.arming flash ≡ None }
    requires turn_fits { HasRoomFor room.journal 1 }
    ensures way { (seed : ℕ) (g : Given) (faults : Faults) → HasGoodList g.list g.files
        → IsFalse (is_too_small (D.blocks flash)) → drawn.register ≡ register_after 2 seed
        → only_file_of (string_bytes drawn.first.name) drawn.first.bytes.items ≡ first_files seed
        → SoaksWay D.Flash O.Sink g seed rounds faults flash sink.old result sink.new }
    ensures later { O.faults sink.old ≤ O.faults sink.new }
    ensures size { D.blocks result.flash ≡ D.blocks flash }
{
    let Drawn { first, register } = drawn;
    let mut first = first;
    let mut register = register;
    let mut flash = flash;
    let Ok(name) = file_name(alloc, 0) else {
        return refuse(alloc, sink, Refusal::NoMemory, flash);
    };
    let ended = try_format(
        &mut flash,
        &soak_rows(),
        2,
        &mut first,
        name.as_str(),
        &AnyManifest,
    );
    match ended {
        Ok(_) => {
            let start = Powered::fresh(Fresh { flash });
            let mut run = Run::new(room, start);
            let end = do_soak(alloc, &mut run, &mut first, &mut register, rounds);
            finish(alloc, run, end, rounds, sink)
        }
        Err(_) => {
            let Room { journal, text } = room;
            let mut text = text;
            add_format_line(&mut text, &ended);
            let status = put_line(sink, text.as_slice(), status_of(&ended));
            Done {
                status,
                note: note_of(&ended),
                flash,
                journal,
            }
        }
    }
}

/// Formats the flash with a package that is made from the seed, and does so many rounds of updates with power cuts, all drawn from
/// the seed, by any manifest. No turn's line is printed. At the end one line tells the totals.
///
/// Status 5 says that power was lost or the flash failed while it was formatted, or that it failed within a turn. 6 says that a
/// boot started no bank, whose line is then printed, and 7 that the flash is too small, or does not hold what was written to it.
/// Status 9 says that memory was wanting, for a package, a round or the line; the turns that were done are in the journal.
pub fn soak<D: Flash, O: Sink>(
    alloc: Global,
    seed: u32,
    rounds: u32,
    sink: &mut O,
    flash: D,
) -> Done<D>
    requires off { IsFalse (D.on flash) }
    requires unarmed { D.arming flash ≡ None }
    ensures way { (g : Given) (faults : Faults) → HasGoodList g.list g.files
        → SoaksWay D.Flash O.Sink g seed rounds faults flash sink.old result sink.new }
    ensures later { O.faults sink.old ≤ O.faults sink.new }
    ensures size { D.blocks result.flash ≡ D.blocks flash }
{
    if is_too_small(flash.blocks()) {
        let note = Note::Input(InputFault::Layout(LayoutFault::BeyondFlash));
        return Done {
            status: put_line(sink, b"soak too-small\n", 7),
            note,
            flash,
            journal: Journal::new(alloc),
        };
    }
    let mut register = Lcg::new(seed);
    let Ok(first) = first_file(alloc, &mut register) else {
        return refuse(alloc, sink, Refusal::NoMemory, flash);
    };
    let Ok(room) = Room::make(alloc, 1) else {
        return refuse(alloc, sink, Refusal::NoMemory, flash);
    };
    let drawn = Drawn { first, register };
    format_and_soak(alloc, room, drawn, rounds, sink, flash)
}
