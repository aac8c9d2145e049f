//! What an agent tells of itself.
ghost use Rattle.std.specs.Prelude.{◌≡◌, ℕ, ◌+◌, ◌<◌, ◌≤◌, min, Bool, List, Some, length, IsTrue, IsFalse, IsOk, IfOk};
ghost use Rattle.flash_core.specs.Counts.{Idles};
ghost use Rattle.fwu_formats.specs.Layout.{fits_layout, slot_bytes};
ghost use Rattle.fwu_formats.specs.Metadata.{fits_meta};
ghost use Rattle.fwu_model.specs.Call as call;
ghost use Rattle.fwu_model.specs.Reply as reply;
ghost use Rattle.fwu_model.specs.State.{State, is_valid};
ghost use Rattle.agent_machine.specs.Meets.{Meets};
ghost use Rattle.flash_core.specs.May.{Guards};
ghost use Rattle.fwu_model.specs.Session.{Session};
ghost use Rattle.fwu_model.specs.Sound.{Setting};
ghost use Rattle.fwu_model.specs.Calm.{IsCalm};
ghost use Rattle.moves.specs.Moved.{IsReady, IsShown};
ghost use Rattle.agent_machine.specs.Moment.{Showing, Shows};
ghost use Rattle.agent_calls.specs.Shown.{AgentGoes, fields, device, gone, moment};
ghost use Rattle.agent_calls.specs.Told.{HasFunctionNumbers, state_kept};

use crate::agent::Agent;
use agent_machine::Stop;
use base_core::{BLOCK_BYTES, ImageRow};
use flash_core::Flash;
use fwu_formats::BankState;
use fwu_model::AgentState;
use meta_layout::Meta;

/// What the agent tells of itself (DEN0118, fwu_discovery): the version of the calls, what it is
/// doing, and the numbers of its functions.
#[derive(Clone, Copy, Debug, PartialEq, Eq)]
pub struct Discovery {
    pub major: u32,
    pub minor: u32,
    pub state: AgentState,
    pub functions: [u32; 10],
}

/// Whether a bank of this state is on trial.
fn is_on_trial(state: BankState) -> bool
    ensures { result ≡ is_valid state }
{
    match state {
        BankState::Valid => true,
        BankState::Invalid | BankState::Accepted => false,
    }
}

impl<D: Flash> Agent<D> {
    /// What the agent is doing: staging a package, or running on trial, or neither.
    fn state(&self) -> AgentState
        requires { IsFalse (gone self.now) }
        ensures { result ≡ state_kept (fields self.now) }
    {
        if self.session.is_staging() {
            return AgentState::Staging;
        }
        if is_on_trial(self.meta.state(self.meta.active())) {
            return AgentState::Trial;
        }
        AgentState::Regular
    }

    /// The version 1.0, what the agent is doing, and the numbers of its ten functions. They are 0 of
    /// the discovery itself, and 16 to 24 of begin, end, cancel, open, write_stream, read_stream,
    /// commit, accept and previous (DEN0118, fwu_discovery). The device is not touched.
    ///
    /// Gone: the flash stopped an earlier call of this agent.
    pub fn discover(&self) -> Result<Discovery, Stop>
        // On any device: the answer is that of each machine that the agent shows.
        ensures meets { IsFalse (gone self.now) → (passes : List ℕ → Bool) →
            Meets (λ told answer. answer ≡ reply.Discovered told.state) result passes call.Discover
            (moment self.now) (moment self.now) }
        ensures goes { AgentGoes result self.now self.now }
        ensures answers { IsFalse (gone self.now) → IsOk result }
        ensures numbers { IfOk result HasFunctionNumbers }
    {
        if self.gone {
            return Err(Stop::Gone);
        }
        Ok(Discovery {
            major: 1,
            minor: 0,
            state: self.state(),
            functions: [0, 16, 17, 18, 19, 20, 21, 22, 23, 24],
        })
    }

    /// Whether the flash stopped an earlier call of this agent, so that each further one answers `Gone`.
    pub fn is_gone(&self) -> bool
        ensures { result ≡ gone self.now }
    {
        self.gone
    }

    /// The metadata of the agent, with the version in which the replicas have it.
    pub fn metadata(&self) -> &Meta
        ensures value { result.now ≡ (fields self.now).meta }
        ensures fits { IsFalse (gone self.now) →
            IsTrue (fits_meta (fields self.now).layout (fields self.now).meta.meta) }
    {
        &self.meta
    }

    /// The images of the layout, in the order of their slots.
    pub fn rows(&self) -> &[ImageRow]
        ensures value { result.now ≡ (fields self.now).layout.rows }
        ensures few { length result.now ≤ 16 }
        ensures fits { IsTrue (fits_layout (fields self.now).layout) }
    {
        self.layout.rows()
    }

    /// The number of the bank that was started.
    pub fn boot_index(&self) -> u32
        ensures value { result ≡ (fields self.now).boot }
        ensures below { IsFalse (gone self.now) → result < (fields self.now).layout.banks }
    {
        self.boot
    }

    /// How often the active bank was started on trial, and 0 where it is not on trial.
    pub fn trials(&self) -> u32
        ensures { result ≡ (fields self.now).trials }
    {
        self.trials
    }

    /// The anti-rollback counter: the least security version that is started.
    pub fn counter(&self) -> u32
        ensures { result ≡ (fields self.now).counter }
    {
        self.counter
    }

    /// How many bytes the slot of an image has, in each bank.
    pub fn slot_bytes(&self, image: u32) -> u32
        requires { image < length (fields self.now).layout.rows }
        ensures { result ≡ slot_bytes (fields self.now).layout image }
    {
        BLOCK_BYTES * self.layout.rows()[image as usize].slots
    }

    /// Arms a loss of power at the n-th erase or program of the device from here on, after its first k
    /// bytes, in place of one that was armed before. It may be called on an agent that is gone.
    pub fn arm(&mut self, n: u32, k: u32)
        requires { 1 ≤ n }
        ensures fields { fields self.new ≡ fields self.old }
        ensures gone { gone self.new ≡ gone self.old }
        ensures content { IsTrue D.tells → D.told (device self.new) ≡ D.told (device self.old) }
        ensures power { D.on (device self.new) ≡ D.on (device self.old) }
        ensures size { D.blocks (device self.new) ≡ D.blocks (device self.old) }
        ensures arming { D.arming (device self.new) ≡ Some (record { n = n; k = k }) }
        ensures landed { D.landed (device self.new) ≡ D.landed (device self.old) }
        ensures made { (D.counts (device self.new)).made
            ≡ min ((D.counts (device self.old)).made + 1) 18446744073709551615 }
        ensures counts { Idles (D.counts (device self.old)) (D.counts (device self.new)) }
        ensures writes { D.writes (device self.new) ≡ D.writes (device self.old) }
    {
        self.flash.arm(n, k);
    }

    /// The device as it is.
    pub fn into_flash(self) -> D
        ensures { result ≡ device self }
    {
        self.flash
    }

    /// A law of each agent that isn't gone: it shows some machine, on any device, and its device is on.
    /// What it shows is what a device that tells its content has, and where that is calm it is ready.
    pub fn showing(&self)
        ensures shows { IsFalse (gone self.now) → ∥ Showing (moment self.now) ∥₁ }
        ensures powered { IsFalse (gone self.now) → IsTrue (D.on (device self.now)) }
        ensures seen { IsFalse (gone self.now) → IsTrue D.tells → (s : State) (x : Session) →
            Shows (moment self.now) s x →
            IsShown (fields self.now).layout (D.told (device self.now)).now s }
        ensures ready { IsFalse (gone self.now) → IsTrue D.tells →
            (E : Setting) (s : State) (x : Session) → E.layout ≡ (fields self.now).layout →
            Shows (moment self.now) s x → IsCalm E (D.told (device self.now)) s →
            Guards 1 7 (D.told (device self.now)) → IsReady E (D.told (device self.now)) s }
    {}
}
