//! An agent starts from a bank that was booted.
ghost use Rattle.std.specs.Prelude.{◌≡◌, IsTrue, IsFalse};
ghost use Rattle.early_boot.specs.Started as boot;
ghost use Rattle.fwu_model.specs.State.{State};
ghost use Rattle.fwu_model.specs.Session as machine;
ghost use Rattle.moves.specs.Moved.{IsShown};
ghost use Rattle.agent_machine.specs.Moment.{Shows};
ghost use Rattle.agent_calls.specs.Shown.{fields, device, gone, moment};
ghost use Rattle.agent_calls.specs.Started.{StartsFrom};

use crate::agent::Agent;
use agent_state::Session;
use base_core::GRANULE_BYTES;
use early_boot::Booted;
use flash_core::Flash;

impl<D: Flash> Agent<D> {
    /// The agent of a bank that was started, on its device: nothing is staged, and no handle is open.
    pub fn start(booted: Booted<D>) -> Agent<D>
        ensures fields { StartsFrom (boot.started booted) (fields result) }
        ensures here { IsFalse (gone result) }
        ensures device { device result ≡ boot.device booted }
        // each machine that it shows has nothing staged, and no handle open
        ensures session { (s : State) (x : machine.Session) → Shows (moment result) s x →
            x ≡ boot.started_session (boot.started booted) }
        // where the content is told, the state that the flash shows is shown with that session
        ensures shows { IsTrue D.tells → (s : State)
            → IsShown (fields result).layout (D.told (device result)).now s
            → Shows (moment result) s (boot.started_session (boot.started booted)) }
    {
        let boot = booted.bank();
        let trials = booted.trials();
        let counter = booted.counter();
        let lengths = booted.lengths();
        let (flash, layout, meta) = booted.into_parts();
        let session = Session::new(layout.rows());
        Agent {
            flash,
            layout,
            meta,
            session,
            boot,
            trials,
            counter,
            lengths,
            rests: [[0; GRANULE_BYTES as usize]; 16],
            gone: false,
        }
    }
}
