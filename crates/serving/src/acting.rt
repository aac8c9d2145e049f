//! A request that acts, as a turn.
ghost use Rattle.std.specs.Prelude.{◌≡◌, ◌≤◌, Ok, Err, IfOk, IfErr, length, take};
ghost use Rattle.script_text.specs.Shown.{shown};
ghost use Rattle.fwu_journal.specs.Shown.{HasRoomFor, IsShortReply, reply};
ghost use Rattle.fwu_wire.specs.Replies.{message};
ghost use Rattle.script_turns.specs.Powered.{device, has_power};
ghost use Rattle.serving.specs.Serving.{ActsOn};
ghost use Rattle.serving.specs.Ends.{end_by};
ghost use Rattle.serving.specs.Scene.{LeavesServing, run_of, scene_of};
ghost use Rattle.serving.specs.Written.{IsServedCall, called};

use crate::answers::put_answer;
use crate::ends::{ServeEnd, end_by};
use crate::requests::request_of;
use crate::serving::Serving;
use flash_core::Flash;
use fwu_journal::Reply;
use host_io::Files;
use script_text::Call;
use script_turns::turn;
use std::alloc::Global;
use verify_core::Verifier;

/// Writes the message of a turn's reply, and gives its size in bytes; or tells how the turn ends the serving.
fn answer(out: &mut [u8], last: &Reply) -> Result<usize, ServeEnd>
    requires room { 4104 ≤ length out.old }
    requires short { IsShortReply (reply last.now) }
    ensures goes { IfOk result (λ n. end_by (reply last.now) ≡ Ok tt) }
    ensures few { IfOk result (λ n. n ≤ 4104) }
    ensures bytes { IfOk result (λ n. take n out.new ≡ message (reply last.now)) }
    ensures ends { IfErr result (λ end. end_by (reply last.now) ≡ Err end) }
{
    end_by(last)?;
    Ok(put_answer(out, last))
}

/// Does a call as a turn, and keeps it. Writes the message of its reply, and gives its size in bytes.
fn do_turn<D: Flash, H: Files, V: Verifier>(
    alloc: Global,
    serving: &mut Serving<D>,
    call: Call,
    out: &mut [u8],
    files: &mut H,
    verifier: &V,
) -> Result<usize, ServeEnd>
    requires powered { D.on (device serving.old.powered) ≡ has_power serving.old.powered }
    requires served { IsServedCall call }
    requires turn_fits { HasRoomFor serving.old.journal 1 }
    requires room { 4104 ≤ length out.old }

    ensures acts { ActsOn (scene_of V.Verifier D.Flash H.Files verifier.now files.old) (shown call)
        (run_of serving.old) (run_of serving.new) out.new result }
    ensures few { IfOk result (λ n. n ≤ 4104) }
    ensures exchange { serving.new.exchange ≡ serving.old.exchange }
    ensures leaves { LeavesServing result serving.old serving.new files.old files.new }
{
    let next = turn(alloc, &mut serving.powered, call, files, verifier);
    let answered = answer(out, &next.reply);
    serving.journal.add(next);
    answered
}

/// Does what the message of a request asks for, as a turn. Room for the turn and memory for its bytes are found before it is done.
/// Writes the message of its reply, and gives its size in bytes.
pub fn act_on<D: Flash, H: Files, V: Verifier>(
    alloc: Global,
    serving: &mut Serving<D>,
    message: &[u8],
    out: &mut [u8],
    files: &mut H,
    verifier: &V,
) -> Result<usize, ServeEnd>
    requires powered { D.on (device serving.old.powered) ≡ has_power serving.old.powered }
    requires some { 4 ≤ length message.now }
    requires room { 4104 ≤ length out.old }

    ensures acts { ActsOn (scene_of V.Verifier D.Flash H.Files verifier.now files.old) (called message.now)
        (run_of serving.old) (run_of serving.new) out.new result }
    ensures few { IfOk result (λ n. n ≤ 4104) }
    ensures exchange { serving.new.exchange ≡ serving.old.exchange }
    ensures leaves { LeavesServing result serving.old serving.new files.old files.new }
{
    serving.journal.make_room(1)?;
    let call = request_of(alloc, message)?;
    do_turn(alloc, serving, call, out, files, verifier)
}
