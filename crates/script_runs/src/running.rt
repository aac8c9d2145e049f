//! The turns of a script, one after the other.
ghost use Rattle.std.specs.Prelude.{◌≡◌, ◌≤◌, ◌+◌, ℕ, Option, None, IsTrue, IsFalse, vec_capacity};
ghost use Rattle.agent_machine.specs.Fields.{Fields};
ghost use Rattle.host_io.specs.Access.{Access};
ghost use Rattle.fwu_model.specs.Causes.{status_by, note_by};
ghost use Rattle.fwu_model.specs.Text.{line};
ghost use Rattle.script_text.specs.Armable.{IsArmable};
ghost use Rattle.script_text.specs.Shown.{HasBuffer, shown};
ghost use Rattle.fwu_journal.specs.Room.{HasRoom};
ghost use Rattle.fwu_journal.specs.Shown.{HasRoomFor, IsShortReply, reply, turn as shown_turn, turns};
ghost use Rattle.fwu_journal.specs.declared.line.TheConstants.{LINE_ROOM};
ghost use Rattle.script_turns.specs.Powered.{device, has_power, moment, moment_of, moment_on, shown_on};
ghost use Rattle.script_runs.specs.Ending.{is_beyond_model, noted, ending};
ghost use Rattle.script_runs.specs.Ending.{DoesTurn, EndsRun, KeepsFiles};
ghost use Rattle.script_turns.specs.Sending.{IsUnnamed};
ghost use Rattle.script_turns.specs.Runs.{Ran, calls_of, sends_none};
ghost use Rattle.fwu_model.specs.Run.{is_send};

use crate::done::{Done, Note};
use crate::printing::put_line;
use crate::room::{Ready, Room};
use flash_core::Flash;
use fwu_journal::{Journal, Reply, Turn, add_line};
use host_io::{Files, Sink};
use script_text::Call;
use script_turns::{Powered, turn};
use std::alloc::Global;
use verify_core::Verifier;

/// A run between two turns: its flash, the turns so far, and the line of the last one.
#[derive(Drop)]
pub struct Run<D: Flash> {
    pub powered: Powered<D>,
    pub journal: Journal,
    pub text: Vec<u8>,
    ghost line_fits: { LINE_ROOM ≤ vec_capacity text },
}

impl<D: Flash> Run<D> {
    /// A run that begins in this room, on a flash as it is.
    pub fn new(room: Room, start: Powered<D>) -> Run<D>
        ensures powered { result.powered ≡ start }
        ensures journal { result.journal ≡ room.journal }
    {
        let Room { journal, text } = room;
        Run {
            powered: start,
            journal,
            text,
        }
    }

    /// What is left of a run that ended.
    pub fn into_done(self, end: End) -> Done<D>
        ensures status { result.status ≡ end.status }
        ensures note { result.note ≡ end.note }
        ensures flash { result.flash ≡ device self.powered }
        ensures journal { result.journal ≡ self.journal }
    {
        let Run {
            powered,
            journal,
            ..
        } = self;
        Done {
            status: end.status,
            note: end.note,
            flash: powered.into_flash(),
            journal,
        }
    }
}

/// How a run stands: at the status 0 it goes on, and else it ends.
#[derive(Clone, Copy)]
pub struct End {
    pub status: u8,
    pub note: Note,
}

/// It goes on.
pub const GOES_ON: End = End {
    status: 0,
    note: Note::Nothing,
};

/// Memory is wanting.
pub const STARVED: End = End {
    status: 9,
    note: Note::Nothing,
};

/// The status after a last turn with this reply.
pub fn status_of(last: &Reply) -> u8
    ensures { result ≡ status_by (reply last.now) }
{
    match last {
        Reply::ReadFault => 2,
        Reply::Fault => 5,
        Reply::NotBooted(_) => 6,
        _ => 0,
    }
}

/// The note after a last turn with this reply.
pub fn note_of(last: &Reply) -> Note
    ensures noted { noted result ≡ note_by (reply last.now) }
    ensures note { IsFalse (is_beyond_model result) }
{
    match last {
        Reply::NotBooted(why) => Note::Boot(*why),
        _ => Note::Nothing,
    }
}

/// Writes the line of a turn, and tells how the run stands by it.
fn write_turn(text: &mut Vec<u8>, next: &Turn) -> End
    requires line_fits { LINE_ROOM ≤ vec_capacity text.old }
    requires short { IsShortReply (shown_turn next.now).reply }
    ensures text { text.new.items ≡ line (shown_turn next.now).call (shown_turn next.now).reply }
    ensures status { result.status ≡ status_by (shown_turn next.now).reply }
    ensures noted { noted result.note ≡ note_by (shown_turn next.now).reply }
    ensures note { IsFalse (is_beyond_model result.note) }
    ensures line_fits { LINE_ROOM ≤ vec_capacity text.new }
{
    text.clear();
    add_line(text, next);
    End {
        status: status_of(&next.reply),
        note: note_of(&next.reply),
    }
}

/// Does a call, keeps its turn and writes its line, which is not printed. Tells how the run stands by it.
pub fn do_call<D: Flash, H: Files, V: Verifier>(
    alloc: Global,
    run: &mut Run<D>,
    call: Call,
    files: &mut H,
    verifier: &V,
) -> End
    requires powered { D.on (device run.old.powered) ≡ has_power run.old.powered }
    requires armable { IsArmable (shown call) }
    requires buffer { HasBuffer call }
    requires turn_fits { HasRoomFor run.old.journal 1 }
    ensures does { DoesTurn (V.passes verifier.now) D.tells (H.contents files.old) (shown call)
        (turns run.old.journal) (turns run.new.journal) (moment_of run.old.powered) (moment_of run.new.powered)
        (H.faults files.old) (H.faults files.new) result.status (noted result.note) run.new.text.items }
    ensures note { IsFalse (is_beyond_model result.note) }
    // Where the run goes on.
    ensures powered { result.status ≡ 0 → D.on (device run.new.powered) ≡ has_power run.new.powered }
    ensures turns_fit { (n : ℕ) → HasRoomFor run.old.journal (n + 1) → HasRoomFor run.new.journal n }
    ensures size { D.blocks (device run.new.powered) ≡ D.blocks (device run.old.powered) }
    ensures same_files { H.contents files.new ≡ H.contents files.old }
    ensures unwritten { H.writes files.new ≡ H.writes files.old }
    ensures files { IsFalse (is_send (shown call)) → files.new ≡ files.old }
    // It asks for no file but the one that it sends.
    ensures spares { (access : Access) → IsUnnamed (shown call) access → H.spares files.old files.new access }
{
    let next = turn(alloc, &mut run.powered, call, files, verifier);
    let end = write_turn(&mut run.text, &next);
    run.journal.add(next);
    end
}

/// Does the calls of a script in their order, and puts the line of each into the sink. A turn that the flash failed, that found
/// nothing to boot, or whose file could not be read ends the run after its line. So does a line that the sink did not take. The
/// room is for all turns. No bank was started on the flash.
pub fn run_script<D: Flash, H: Files, O: Sink, V: Verifier>(
    alloc: Global,
    ready: Ready,
    files: &mut H,
    sink: &mut O,
    start: Powered<D>,
    verifier: &V,
) -> Done<D>
    requires powered { D.on (device start) ≡ has_power start }
    requires not_booted { shown_on start ≡ None }
    requires unarmed { D.arming (device start) ≡ None }

    ensures ran { (on : Option Fields) × Ran (V.passes verifier.now) D.tells (H.contents files.old)
        (turns result.journal) (moment D.Flash (device start))
        (moment_on D.Flash on result.flash) (H.faults files.old) (H.faults files.new) }
    ensures ends { EndsRun O.Sink ready.script (ending result) sink.old sink.new }
    ensures size { D.blocks result.flash ≡ D.blocks (device start) }
    ensures keeps { KeepsFiles H.Files (turns result.journal) files.old files.new }
{
    let Ready { script, room } = ready;
    let mut run = Run::new(room, start);
    let mut script = script;
    for index in 0..script.len() {
        let call = script.take(index);
        let end = do_call(alloc, &mut run, call, files, verifier);
        let status = put_line(sink, run.text.as_slice(), end.status);
        if status != 0 {
            let note = end.note;
            return run.into_done(End { status, note });
        }
    }
    run.into_done(GOES_ON)
}
