//! One turn of a run.
ghost use Rattle.std.specs.Prelude.{◌≡◌, IsSome, IsTrue, IsFalse, None};
ghost use Rattle.host_io.specs.Reads.{ReadsFiles};
ghost use Rattle.fwu_model.specs.Call as call;
ghost use Rattle.fwu_model.specs.Reply as reply;
ghost use Rattle.fwu_model.specs.Run.{ends_run, is_boot, is_send};
ghost use Rattle.agent_calls.specs.Shown.{device as agent_device, gone};
ghost use Rattle.fwu_journal.specs.Shown.{IsShortReply, turn};
ghost use Rattle.script_text.specs.Armable.{IsArmable};
ghost use Rattle.script_text.specs.Shown.{HasBuffer, shown};
ghost use Rattle.script_turns.specs.Replies.{needs_bank};
ghost use Rattle.script_turns.specs.Powered.{FitsMachine, device, has_power, moment_of, shown_on};
ghost use Rattle.script_turns.specs.Sending.{IsUnnamed, LacksSent};
ghost use Rattle.script_turns.specs.Stage.{device as flash_of, has_power as is_powered};
ghost use Rattle.script_turns.specs.Turning.{IsStageTurn, IsTurnWith, LeavesAgent, TurnLeaves, TurnsAlone, Turns};

use crate::booting::{Booting, boot_turn};
use crate::calling::call_turn;
use crate::powered::Powered;
use crate::quiet::{cut_turn, no_call_turn, show_turn};
use crate::sending::send_turn;
use crate::stage::{Live, Stage};
use crate::turned::{AgentTurn, turn_of};
use agent_calls::Agent;
use flash_core::Flash;
use fwu_journal::{Reply, Turn};
use host_io::Files;
use script_text::Call;
use std::alloc::Global;
use std::mem;
use verify_core::Verifier;

/// The turn of a call for an agent that is there.
fn agent_turn<D: Flash, H: Files, V: Verifier>(
    alloc: Global,
    agent: &mut Agent<D>,
    call: Call,
    files: &mut H,
    verifier: &V,
) -> AgentTurn
    requires alive { IsFalse (gone agent.old) }
    requires asks { IsTrue (needs_bank (shown call)) }
    requires buffer { HasBuffer call }

    ensures turns { IsTurnWith H.Files (V.passes verifier.now) (shown call) result agent.old agent.new files.old files.new }
    ensures leaves { LeavesAgent result agent.old agent.new }
    ensures reads { ReadsFiles H.Files (IsUnnamed (shown call)) files.old files.new }
    ensures files { IsFalse (is_send (shown call)) → files.new ≡ files.old }
{
    match call {
        Call::Send { name, request } => send_turn(agent, name, request, false, files, verifier),
        Call::SendPartial { name, request } => {
            send_turn(agent, name, request, true, files, verifier)
        }
        other => call_turn(agent, Vec::new(alloc), other, verifier),
    }
}

/// The turn of a call for which a bank must have been started, on a flash on which one was. Where a turn has ended its agent, it is
/// answered `off` and nothing is done.
fn live_turn<D: Flash, H: Files, V: Verifier>(
    alloc: Global,
    live: &mut Live<D>,
    call: Call,
    files: &mut H,
    verifier: &V,
) -> Turn
    requires asks { IsTrue (needs_bank (shown call)) }
    requires powered { D.on (agent_device live.old.agent) ≡ live.old.here }
    requires buffer { HasBuffer call }

    ensures { IsStageTurn H.Files (V.passes verifier.now) (shown call) (turn result)
        (Stage.On live.old) (Stage.On live.new) files.old files.new }
{
    if !live.here {
        return turn_of(call, Reply::Off);
    }
    live.here = false;
    let AgentTurn { turn, here } = agent_turn(alloc, &mut live.agent, call, files, verifier);
    live.here = here;
    turn
}

/// The turn of a call for which a bank must have been started: where none was, it is answered `off` and nothing is done.
fn bank_turn<D: Flash, H: Files, V: Verifier>(
    alloc: Global,
    stage: &mut Stage<D>,
    call: Call,
    files: &mut H,
    verifier: &V,
) -> Turn
    requires asks { IsTrue (needs_bank (shown call)) }
    requires powered { D.on (flash_of stage.old) ≡ is_powered stage.old }
    requires buffer { HasBuffer call }

    ensures { IsStageTurn H.Files (V.passes verifier.now) (shown call) (turn result) stage.old stage.new files.old files.new }
{
    match stage {
        Stage::On(live) => live_turn(alloc, live, call, files, verifier),
        Stage::Off(_) | Stage::Fresh(_) => turn_of(call, Reply::Off),
    }
}

/// The turn of a call that isn't a boot.
fn stage_turn<D: Flash, H: Files, V: Verifier>(
    alloc: Global,
    stage: &mut Stage<D>,
    call: Call,
    files: &mut H,
    verifier: &V,
) -> Turn
    requires other { IsFalse (is_boot (shown call)) }
    requires powered { D.on (flash_of stage.old) ≡ is_powered stage.old }
    requires armable { IsArmable (shown call) }
    requires buffer { HasBuffer call }

    ensures { IsStageTurn H.Files (V.passes verifier.now) (shown call) (turn result) stage.old stage.new files.old files.new }
{
    match call {
        Call::Show => show_turn(stage),
        Call::NoCall => no_call_turn(stage),
        Call::Cut { n, k } => cut_turn(stage, n, k),
        other => bank_turn(alloc, stage, other, files, verifier),
    }
}

/// The turn of a boot: the stage is out while the flash boots.
fn boot_in<D: Flash, V: Verifier>(powered: &mut Powered<D>, verifier: &V) -> Turn
    requires { D.on (device powered.old) ≡ has_power powered.old }
    ensures turns { TurnsAlone (V.passes verifier.now) D.tells call.Boot (turn result)
        (moment_of powered.old) (moment_of powered.new) }
    ensures leaves { TurnLeaves D.Flash (turn result) (has_power powered.new) (device powered.old) (device powered.new) }
{
    let Some(stage) = mem::replace(&mut powered.inside, None) else {
        unreachable!()
    };
    let Booting { turn, stage } = boot_turn(stage, verifier);
    let before = mem::replace(&mut powered.inside, Some(stage));
    let None = before else { unreachable!() };
    turn
}

/// Does a call. `boot` brings power back where it is off, and boots the flash as it reads now; `cut` arms it, on or off. Where no
/// bank is on the others answer `off`. Else `show` tells its numbers, `NoCall` asks no agent, and the rest ask the bank's.
pub fn turn<D: Flash, H: Files, V: Verifier>(
    alloc: Global,
    powered: &mut Powered<D>,
    call: Call,
    files: &mut H,
    verifier: &V,
) -> Turn
    requires powered { D.on (device powered.old) ≡ has_power powered.old }
    requires armable { IsArmable (shown call) }
    requires buffer { HasBuffer call }

    ensures turns { Turns (V.passes verifier.now) D.tells (H.contents files.old) (shown call)
        (turn result) (moment_of powered.old) (moment_of powered.new)
        (H.faults files.old) (H.faults files.new) }
    // On any device: an agent that is there fits some machine.
    ensures fits { FitsMachine D.tells (moment_of powered.new) }
    // Where the run goes on.
    ensures powered { IsFalse (ends_run (turn result).reply)
        → D.on (device powered.new) ≡ has_power powered.new }
    ensures size { D.blocks (device powered.new) ≡ D.blocks (device powered.old) }
    ensures reads { ReadsFiles H.Files (IsUnnamed (shown call)) files.old files.new }
    ensures files { IsFalse (is_send (shown call)) → files.new ≡ files.old }
    ensures idle { shown_on powered.old ≡ None → files.new ≡ files.old }
    // A file that is not there.
    ensures missing { LacksSent (H.contents files.old) (shown call)
        → IsSome (shown_on powered.old) → (turn result).reply ≡ reply.ReadFault }
    ensures short { IsShortReply (turn result).reply }
{
    match call {
        Call::Boot => boot_in(powered, verifier),
        other => match &mut powered.inside {
            Some(stage) => stage_turn(alloc, stage, other, files, verifier),
            None => unreachable!(),
        },
    }
}
