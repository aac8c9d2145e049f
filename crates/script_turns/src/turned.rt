//! A turn that was done.
ghost use Rattle.std.specs.Prelude.{◌≡◌, true, false};
ghost use Rattle.fwu_journal.specs.Shown.{reply, turn};
ghost use Rattle.script_text.specs.Shown.{shown};
ghost use Rattle.script_turns.specs.Turning.{quiet_turn};

use fwu_journal::{Reply, Turn};
use script_text::Call;

/// A turn of an agent, and whether the agent is there afterwards.
#[derive(Drop)]
pub struct AgentTurn {
    pub turn: Turn,
    pub here: bool,
}

/// The turn of a call that has no numbers.
pub(crate) fn turn_of(call: Call, answer: Reply) -> Turn
    ensures { turn result ≡ quiet_turn (shown call) (reply answer) }
{
    Turn {
        call,
        reply: answer,
        numbers: None,
    }
}

/// A turn after which the agent is there.
pub(crate) fn answered(call: Call, answer: Reply) -> AgentTurn
    ensures turn { turn result.turn ≡ quiet_turn (shown call) (reply answer) }
    ensures here { result.here ≡ true }
{
    AgentTurn {
        turn: turn_of(call, answer),
        here: true,
    }
}

/// A turn after which nothing is on.
pub(crate) fn stopped(call: Call, answer: Reply) -> AgentTurn
    ensures turn { turn result.turn ≡ quiet_turn (shown call) (reply answer) }
    ensures here { result.here ≡ false }
{
    AgentTurn {
        turn: turn_of(call, answer),
        here: false,
    }
}
