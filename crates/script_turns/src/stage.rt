//! What a flash is between two turns.
ghost use Rattle.std.specs.Prelude.{IsTrue, IsFalse};
ghost use Rattle.flash_core.specs.Told.{NothingDirty};
ghost use Rattle.agent_machine.specs.Moment.{Showing, Shows};
ghost use Rattle.fwu_model.specs.State.{State};
ghost use Rattle.fwu_model.specs.Session.{Session};
ghost use Rattle.moves.specs.Moved.{IsShown};
ghost use Rattle.agent_calls.specs.Shown.{device as agent_device, fields, gone, moment};

use agent_calls::Agent;
use flash_core::Flash;

/// A flash that is on, with nothing dirty, on which no bank was booted.
#[derive(Drop)]
pub struct Fresh<D: Flash> {
    pub flash: D,
    ghost is_on: { IsTrue (D.on flash) },
    ghost clean: { IsTrue D.tells → NothingDirty (D.told flash) },
}

/// A flash on which a bank was started, with its agent, which lies there also where a turn has ended it. While `here`, no stop of
/// the flash has ended it, it shows some machine, and what it shows stands on a flash that tells its content.
#[derive(Drop)]
pub struct Live<D: Flash> {
    pub agent: Agent<D>,
    /// Whether no turn has ended it.
    pub here: bool,
    ghost not_gone: { IsTrue here → IsFalse (gone agent) },
    ghost shows: { IsTrue here → ∥ Showing (moment agent) ∥₁ },
    ghost seen: { IsTrue here → IsTrue D.tells → (s : State) (x : Session)
        → Shows (moment agent) s x
        → IsShown (fields agent).layout (D.told (agent_device agent)).now s },
}

/// A flash between two turns: off or behind a refused boot, on before the first boot, or with a bank that was started.
#[derive(Drop)]
pub enum Stage<D: Flash> {
    Off(D),
    Fresh(Fresh<D>),
    On(Live<D>),
}

impl<D: Flash> Stage<D> {
    ghost use Rattle.std.specs.Prelude.{◌≡◌};
    ghost use Rattle.script_turns.specs.Stage.{device};

    /// The flash as it is.
    pub fn into_flash(self) -> D
        ensures { result ≡ device self }
    {
        match self {
            Stage::Off(flash) => flash,
            Stage::Fresh(fresh) => fresh.flash,
            Stage::On(live) => live.agent.into_flash(),
        }
    }
}
