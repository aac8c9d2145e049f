//! A staging begins.
ghost use Rattle.std.specs.Prelude.{◌≡◌, ◌*◌, true, IsTrue, IsFalse, OnOk};
ghost use Rattle.base_core.specs.Block.{block_bytes};
ghost use Rattle.flash_core.specs.Touches.{TouchesOnly};
ghost use Rattle.fwu_model.specs.State.{Free, State};
ghost use Rattle.fwu_model.specs.Sound.{Setting};
ghost use Rattle.fwu_model.specs.Session.{Session};
ghost use Rattle.fwu_model.specs.Answer.{answer};
ghost use Rattle.fwu_model.specs.Call as call;
ghost use Rattle.fwu_model.specs.Reply.{Success};
ghost use Rattle.agent_machine.specs.Fields.{target};
ghost use Rattle.agent_machine.specs.Meets.{IsDone, IsRefused, flash_result, IsStopped};
ghost use Rattle.agent_machine.specs.Moment.{Shows};
ghost use Rattle.agent_machine.specs.Stored.{frees};
ghost use Rattle.agent_calls.specs.Metas.{has_invalid_target, meta_begun};
ghost use Rattle.agent_kept.specs.Kept.{Restarts};
ghost use Rattle.fwu_model.specs.MoveMetas.{meta_after};
ghost use Rattle.replicas.specs.Stores.{Stores};

use crate::agent::Agent;
use agent_machine::Stop;
use agent_state::{Plan, Request};
use flash_core::Flash;

/// Whether a plan makes the update bank invalid.
fn frees(plan: &Plan) -> bool
    ensures { result ≡ frees plan.now }
{
    match *plan {
        Plan::Begin { store } | Plan::BeginPartial { store, .. } => store,
        _ => false,
    }
}

impl<D: Flash> Agent<D> {
    ghost use Rattle.agent_calls.specs.Shown.{AgentGoes, MeetsDone, SpendsStore, device, fields, gone, moment};

    /// Begins a staging, or begins it anew (DEN0118, fwu_begin_staging). The update bank is made invalid,
    /// with the bit of each image clear, where it isn't invalid already: metadata is stored for that.
    /// No image is staged then, and all handles are closed. The vendor flags have no meaning.
    ///
    /// DENIED: nothing is staged and the active bank is on trial, or the bank that was started isn't
    /// the active one. NOT_AVAILABLE: `partial_count` isn't 0; an update of some images alone begins with
    /// `begin_partial`. Lost, Fault: the flash stopped the store. Gone: it stopped an earlier call of this agent.
    pub fn begin(&mut self, vendor_flags: u32, partial_count: u32) -> Result<(), Stop>
        // On any device: an answer or a refusal is that of each machine that the agent shows.
        ensures meets { MeetsDone result (call.Begin partial_count) self.old self.new }
        // On any device: the flash stops no begin that a machine refuses.
        ensures begun { IsStopped result → IsFalse (gone self.old) →
            (E : Setting) (s : State) (x : Session) → E.layout ≡ (fields self.old).layout →
            Shows (moment self.old) s x → (answer E s x (call.Begin partial_count)).reply ≡ Success }
        ensures goes { AgentGoes result self.old self.new }
        ensures refused { IsRefused result → self.new ≡ self.old }
        // On any device: where the update bank is invalid already, the device is not touched.
        ensures still { IsTrue (has_invalid_target (fields self.old)) →
            device self.new ≡ device self.old }
        // On any flash that tells its content, sound or not: else the metadata is stored in which it is,
        // over replica 0, then over replica 1, and nothing else.
        ensures stores { IsDone result → IsTrue D.tells → let f = fields self.old in
            IsFalse (has_invalid_target f) →
            Stores (flash_result result) f.layout (meta_after f.meta.meta (Free (target f)))
            (D.told (device self.old)) (D.told (device self.new)) }
        // On every device, at any exit: no block is erased or programmed but the replicas.
        ensures touches { TouchesOnly (block_bytes * 1) (block_bytes * 3)
            (D.writes (device self.old)) (D.writes (device self.new)) }
        // On any device: the agent keeps the metadata in which the update bank is invalid, also where the
        // flash stopped the store. A package is staged of which nothing is there.
        ensures keeps { IsDone result → (fields self.new).meta ≡ meta_begun (fields self.old) }
        ensures restarts { OnOk result
            (Restarts true (fields self.old).session (fields self.new).session) }
        // On any device, at any exit: the trials that it tells are those that it told.
        ensures trials { (fields self.new).trials ≡ (fields self.old).trials }
        ensures spent { SpendsStore result self.old self.new }
    {
        if self.gone {
            return Err(Stop::Gone);
        }
        let request = Request::Begin {
            vendor_flags,
            partial_count,
        };
        match self.plan(&request) {
            Ok(plan) => self.carry_out(Plan::Begin {
                store: frees(&plan),
            }),
            Err(status) => Err(Stop::Status(status)),
        }
    }
}
