//! The turn of `boot`.
ghost use Rattle.std.specs.Prelude.{◌≡◌, None, IsTrue, IsFalse, false};
ghost use Rattle.fwu_model.specs.Call as call;
ghost use Rattle.early_boot.specs.Numbers.{numbers};
ghost use Rattle.early_boot.specs.Started.{started, started_reply};
ghost use Rattle.early_boot.specs.Started.{device as booted_device};
ghost use Rattle.early_boot.specs.Ends.{device_of, ended, some_numbers};
ghost use Rattle.early_boot.specs.Ends.{booted as booted_to};
ghost use Rattle.fwu_journal.specs.Shown.{IsShortReply, reply, turn};
ghost use Rattle.script_turns.specs.Stage.{device, has_power, shown_on};
ghost use Rattle.script_turns.specs.Powered.{moment, moment_in};
ghost use Rattle.script_turns.specs.Turning.{LeavesBooted, TurnLeaves, TurnsAlone, GetsPower, boot_turn};

use crate::stage::{Live, Stage};
use agent_calls::Agent;
use early_boot::{BootEnd, Booted, Numbers, boot};
use flash_core::Flash;
use fwu_journal::{Reply, Turn};
use fwu_model::NoBoot;
use script_text::Call;
use verify_core::Verifier;

/// A boot that was done: its turn, and the flash as it left it.
#[derive(Drop)]
pub(crate) struct Booting<D: Flash> {
    pub turn: Turn,
    pub stage: Stage<D>,
}

/// What a boot that started a bank tells.
fn booted_reply<D: Flash>(booted: &Booted<D>) -> Reply
    ensures { reply result ≡ started_reply (started booted.now) }
{
    Reply::Booted {
        bank: booted.bank(),
        version: booted.version(),
        trials: booted.trials(),
        counter: booted.counter(),
        fallback: booted.fallback(),
    }
}

/// The turn of a boot.
fn turn_with(answer: Reply, read: Option<Numbers>) -> Turn
    ensures { turn result ≡ record
        { call = call.Boot; reply = reply answer; numbers = some_numbers numbers read } }
{
    Turn {
        call: Call::Boot,
        reply: answer,
        numbers: read,
    }
}

/// The turn of a boot that started no bank.
fn not_booted<D: Flash>(flash: D, answer: Reply, read: Option<Numbers>) -> Booting<D>
    ensures turn { turn result.turn ≡ record
        { call = call.Boot; reply = reply answer; numbers = some_numbers numbers read } }
    ensures on { shown_on result.stage ≡ None }
    ensures has { has_power result.stage ≡ false }
    ensures device { device result.stage ≡ flash }
{
    Booting {
        turn: turn_with(answer, read),
        stage: Stage::Off(flash),
    }
}

/// The turn of a boot that started a bank: its agent begins there.
fn was_booted<D: Flash>(booted: Booted<D>, read: Numbers) -> Booting<D>
    ensures turn { turn result.turn ≡ boot_turn (booted_to (started booted) (numbers read)) }
    ensures leaves { LeavesBooted (booted_to (started booted) (numbers read)) (booted_device booted) result.stage }
{
    let turn = turn_with(booted_reply(&booted), Some(read));
    let agent = Agent::start(booted);
    agent.showing();
    Booting {
        turn,
        stage: Stage::On(Live { agent, here: true }),
    }
}

/// The turn of a boot that ended like this.
fn turned_by<D: Flash>(end: BootEnd<D>) -> Booting<D>
    ensures turn { turn result.turn ≡ boot_turn (ended end) }
    ensures leaves { LeavesBooted (ended end) (device_of end) result.stage }
    ensures short { IsShortReply (turn result.turn).reply }
{
    match end {
        BootEnd::Booted(booted, read) => was_booted(booted, read),
        BootEnd::BadLayout(flash, fault) => {
            not_booted(flash, Reply::NotBooted(NoBoot::Layout(fault)), None)
        }
        BootEnd::NoMetadata(flash) => not_booted(flash, Reply::NotBooted(NoBoot::Metadata), None),
        BootEnd::NoBank {
            flash,
            active,
            previous,
        } => not_booted(
            flash,
            Reply::NotBooted(NoBoot::Bank { active, previous }),
            None,
        ),
        BootEnd::Lost(flash, read) => not_booted(flash, Reply::Lost, read),
        BootEnd::Fault(flash, read) => not_booted(flash, Reply::Fault, read),
    }
}

/// Power comes back to a flash that is off, on which no bank is on.
fn powered_on<D: Flash>(flash: D) -> D
    requires { IsFalse (D.on flash) }
    ensures power { IsTrue (D.on result) }
    ensures has { GetsPower D.tells None (moment D.Flash flash) (moment D.Flash result) }
    ensures size { D.blocks result ≡ D.blocks flash }
{
    let mut flash = flash;
    flash.power_on();
    flash
}

/// The flash with power: it comes back where it is off.
fn with_power<D: Flash>(stage: Stage<D>) -> D
    requires { D.on (device stage) ≡ has_power stage }
    ensures power { IsTrue (D.on result) }
    ensures has { GetsPower D.tells (shown_on stage) (moment_in stage) (moment D.Flash result) }
    ensures size { D.blocks result ≡ D.blocks (device stage) }
{
    match stage {
        Stage::Off(flash) => powered_on(flash),
        Stage::Fresh(fresh) => fresh.flash,
        Stage::On(live) if live.here => live.agent.into_flash(),
        Stage::On(live) => powered_on(live.agent.into_flash()),
    }
}

/// The turn of `boot`: power comes back where it is off, and the flash boots as it reads now.
pub(crate) fn boot_turn<D: Flash, V: Verifier>(stage: Stage<D>, verifier: &V) -> Booting<D>
    requires { D.on (device stage) ≡ has_power stage }
    ensures turns { TurnsAlone (V.passes verifier.now) D.tells call.Boot (turn result.turn)
        (moment_in stage) (moment_in result.stage) }
    ensures leaves { TurnLeaves D.Flash (turn result.turn) (has_power result.stage) (device stage) (device result.stage) }
{
    turned_by(boot(with_power(stage), verifier))
}
