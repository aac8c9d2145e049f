//! The turns of `show` and `cut`, and of a request for no call, which leave what the flash holds.
ghost use Rattle.std.specs.Prelude.{◌≡◌, ◌≤◌, ℕ, Bool, List};
ghost use Rattle.early_boot.specs.Numbers.{numbers};
ghost use Rattle.agent_calls.specs.Shown.{fields};
ghost use Rattle.fwu_model.specs.Call as call;
ghost use Rattle.fwu_journal.specs.Shown.{IsShortReply, reply, turn};
ghost use Rattle.script_turns.specs.Stage.{device, has_power, shown_on};
ghost use Rattle.script_turns.specs.Powered.{moment_in, numbers_kept, Arms};
ghost use Rattle.script_turns.specs.Replies.{no_call_reply, show_reply};
ghost use Rattle.script_turns.specs.Turning.{TurnsAlone};

use crate::stage::Stage;
use crate::turned::turn_of;
use agent_calls::Agent;
use early_boot::Numbers;
use flash_core::Flash;
use fwu_journal::{Reply, Turn};
use script_text::Call;

/// The numbers that the flash of an agent shows.
fn numbers_of<D: Flash>(agent: &Agent<D>) -> Numbers
    ensures { numbers result ≡ numbers_kept (fields agent.now) }
{
    let meta = agent.metadata();
    Numbers {
        form: meta.form(),
        active: meta.active(),
        previous: meta.previous(),
        states: *meta.states(),
        bits: *meta.bits(),
        trials: agent.trials(),
        counter: agent.counter(),
    }
}

/// What `show` answers: the numbers, or `off` where no bank is on.
fn shown_by<D: Flash>(stage: &Stage<D>) -> Reply
    ensures value { reply result ≡ show_reply (shown_on stage.now) }
    ensures short { IsShortReply (reply result) }
{
    match stage {
        Stage::On(live) if live.here => Reply::Shown(numbers_of(&live.agent)),
        Stage::On(_) | Stage::Off(_) | Stage::Fresh(_) => Reply::Off,
    }
}

/// The turn of `show`: the flash stays as it is.
pub(crate) fn show_turn<D: Flash>(stage: &Stage<D>) -> Turn
    ensures turns { (passes : List ℕ → Bool)
        → TurnsAlone passes D.tells call.Show (turn result) (moment_in stage.now) (moment_in stage.now) }
    ensures short { IsShortReply (turn result).reply }
{
    turn_of(Call::Show, shown_by(stage))
}

/// What a request for no call is answered: nothing is done, but a bank must be on.
fn not_understood<D: Flash>(stage: &Stage<D>) -> Reply
    ensures value { reply result ≡ no_call_reply (shown_on stage.now) }
    ensures short { IsShortReply (reply result) }
{
    match stage {
        Stage::On(live) if live.here => Reply::NotUnderstood,
        Stage::On(_) | Stage::Off(_) | Stage::Fresh(_) => Reply::Off,
    }
}

/// The turn of a request for no call: no agent is asked, and the flash stays as it is.
pub(crate) fn no_call_turn<D: Flash>(stage: &Stage<D>) -> Turn
    ensures turns { (passes : List ℕ → Bool)
        → TurnsAlone passes D.tells call.NoCall (turn result) (moment_in stage.now) (moment_in stage.now) }
    ensures short { IsShortReply (turn result).reply }
{
    turn_of(Call::NoCall, not_understood(stage))
}

/// Arms a loss of power.
fn arm<D: Flash>(stage: &mut Stage<D>, n: u32, k: u32)
    requires { 1 ≤ n }
    ensures arms { Arms D.tells n k (moment_in stage.old) (moment_in stage.new) }
    ensures has { has_power stage.new ≡ has_power stage.old }
    ensures power { D.on (device stage.new) ≡ D.on (device stage.old) }
    ensures size { D.blocks (device stage.new) ≡ D.blocks (device stage.old) }
{
    match stage {
        Stage::Off(flash) => flash.arm(n, k),
        Stage::Fresh(fresh) => fresh.flash.arm(n, k),
        Stage::On(live) => live.agent.arm(n, k),
    }
}

/// The turn of `cut`: a loss of power is armed, with the flash on or off.
pub(crate) fn cut_turn<D: Flash>(stage: &mut Stage<D>, n: u32, k: u32) -> Turn
    requires { 1 ≤ n }
    ensures turns { (passes : List ℕ → Bool)
        → TurnsAlone passes D.tells (call.Cut n k) (turn result) (moment_in stage.old) (moment_in stage.new) }
    ensures has { has_power stage.new ≡ has_power stage.old }
    ensures power { D.on (device stage.new) ≡ D.on (device stage.old) }
    ensures size { D.blocks (device stage.new) ≡ D.blocks (device stage.old) }
    ensures short { IsShortReply (turn result).reply }
{
    arm(stage, n, k);
    turn_of(Call::Cut { n, k }, Reply::CutOk)
}
