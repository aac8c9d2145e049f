//! The end of a staging.
ghost use Rattle.std.specs.Prelude.{◌≡◌, ◌*◌, ℕ, Bool, true, List, IsTrue, IsFalse, IfErr, OnOk, is_ok};
ghost use Rattle.base_core.specs.Block.{block_bytes};
ghost use Rattle.flash_core.specs.Counts.{Spends, StaysUnarmed};
ghost use Rattle.flash_core.specs.Touches.{TouchesOnly};
ghost use Rattle.fwu_formats.specs.Metadata.{fits_meta};
ghost use Rattle.fwu_model.specs.Call as call;
ghost use Rattle.fwu_model.specs.Reply.{Success};
ghost use Rattle.agent_kept.specs.Kept.{kept};
ghost use Rattle.marks_core.specs.Marks.{is_clear};
ghost use Rattle.agent_machine.specs.Ends.{ClearsAndStores, TakesSwitch, TakesSwitchBy};
ghost use Rattle.agent_machine.specs.Meets.{IsDone, IsRefused, Meets};

use crate::agent::{Agent, stopped};
use agent_machine::Stop;
use agent_state::{Decision, Plan, Request, decide, settle};
use base_core::BLOCK_BYTES;
use flash_core::{Flash, FlashStop};
use fwu_formats::TRIAL_BLOCK;
use fwu_model::Status;
use marks_core::clear;
use meta_layout::{Layout, Meta};
use replicas::store;
use verify_core::Verifier;

/// Clears the trial marks, and then stores metadata in both replicas.
// kept apart, so that its block stands on the stack for this call alone
#[inline(never)]
fn clear_and_store<D: Flash>(flash: &mut D, layout: &Layout, meta: &Meta) -> Result<(), FlashStop>
    requires on { IsTrue (D.on flash.old) }
    requires fits { IsTrue (fits_meta layout.now meta.now.meta) }

    ensures ends { IsTrue D.tells →
        ClearsAndStores result layout.now meta.now.meta (D.told flash.old) (D.told flash.new) }
    // on every device: no block is erased or programmed but the replicas and the marks
    ensures touches { TouchesOnly (block_bytes * 1) (block_bytes * 4) (D.writes flash.old) (D.writes flash.new) }
    ensures power { D.on flash.new ≡ is_ok result }
    ensures size { D.blocks flash.new ≡ D.blocks flash.old }
    // on every device: an erase of the marks, or none, and two erases and two programs
    ensures spent { OnOk result (TakesSwitch (D.arming flash.old) (D.arming flash.new)) }
    // where the content is told, by the bytes of the marks' block
    ensures once { IsTrue D.tells → OnOk result
        (TakesSwitchBy (is_clear 3 (D.told flash.old).now) (D.arming flash.old) (D.arming flash.new)) }
    ensures unarmed { StaysUnarmed result (D.arming flash.old) (D.arming flash.new)
        (D.counts flash.old) (D.counts flash.new) }
    ensures costs { Spends result (D.counts flash.old) (D.counts flash.new) }
{
    let mut buf = [0; BLOCK_BYTES as usize];
    match clear(flash, TRIAL_BLOCK, &mut buf) {
        Ok(()) => store(flash, layout, meta, &mut buf),
        Err(stop) => Err(stop),
    }
}

impl<D: Flash> Agent<D> {
    ghost use Rattle.agent_calls.specs.Ended.{EndsStaging};
    ghost use Rattle.agent_calls.specs.Shown.{AgentDecides, AgentGoes, gone, moment, snapshot};
    ghost use Rattle.agent_kept.specs.declared.kinds.Plan.TheVariants as plan;
    ghost use Rattle.agent_kept.specs.declared.kinds.Request.TheVariants as request;
    ghost use Rattle.agent_kept.specs.declared.kinds.Decision.TheVariants as decision;

    /// Whether the staging may end, or why it is refused.
    fn may_end<V: Verifier>(&self, verifier: &V) -> Result<(), Status>
        requires here { IsFalse (gone self.now) }

        ensures may { OnOk result
            (AgentDecides (V.passes verifier.now) request.End (decision.Do plan.End) self.now) }
        ensures staging { OnOk result ((kept self.now.session).staging ≡ true) }
        ensures refused { IfErr result (λ status.
            AgentDecides (V.passes verifier.now) request.End (decision.Refused status) self.now) }
    {
        match decide(
            &self.meta,
            &self.session,
            self.boot,
            &Request::End,
            self.counter,
            verifier,
        ) {
            Decision::Refused(status) => Err(status),
            Decision::Do(plan) => match plan {
                Plan::End => Ok(()),
                // no other plan is one for an end
                _ => Err(Status::Denied),
            },
            // nor does an end wait for a verdict
            Decision::ByVerdict { .. } => Err(Status::Denied),
        }
    }

    /// Switches to the staged package: the trial marks are cleared, and the metadata is stored in
    /// which the update bank is active.
    fn switch(&mut self) -> Result<(), Stop>
        requires here { IsFalse self.old.gone }
        requires staging { (kept self.old.session).staging ≡ true }
        requires decided { (passes : List ℕ → Bool)
            × AgentDecides passes request.End (decision.Do plan.End) self.old }

        ensures meets { (passes : List ℕ → Bool) →
            AgentDecides passes request.End (decision.Do plan.End) self.old →
            Meets (λ value reply. reply ≡ Success) result passes call.End
            (moment self.old) (moment self.new) }
        ensures goes { AgentGoes result self.old self.new }
        ensures done { IsDone result }
        ensures staging { EndsStaging D.Flash result (snapshot self.old) (snapshot self.new) }
    {
        settle(
            &mut self.meta,
            &mut self.session,
            &Decision::Do(Plan::End),
            &[],
        );
        self.trials = 0;
        match clear_and_store(&mut self.flash, &self.layout, &self.meta) {
            Ok(()) => Ok(()),
            Err(stop) => {
                self.gone = true;
                Err(stopped(stop))
            }
        }
    }

    /// Ends the staging (DEN0118, fwu_end_staging) where each image is committed, and together they
    /// are a complete package that is permitted: not below the anti-rollback counter, with a
    /// manifest that the verifier accepts. The trial marks are cleared, and the metadata is stored
    /// in which the update bank is active. It is accepted where each image was committed as
    /// accepted and else valid, and the bank that was active is the previous one. Then nothing is
    /// staged, and no handle is open.
    ///
    /// DENIED: nothing is staged. BUSY: a handle writes. AUTH_FAIL: what is staged may not be
    /// installed. A refusal reads nothing, and the staging goes on. Lost, Fault: the flash stopped
    /// it. Gone: it stopped an earlier call of this agent.
    pub fn end<V: Verifier>(&mut self, verifier: &V) -> Result<(), Stop>
        // on any device: an answer or a refusal is that of each machine that the agent shows
        ensures meets { IsFalse (gone self.old) → (passes : List ℕ → Bool) →
            passes ≡ V.passes verifier.now →
            Meets (λ value reply. reply ≡ Success) result passes call.End
            (moment self.old) (moment self.new) }
        ensures goes { AgentGoes result self.old self.new }
        ensures refused { IsRefused result → self.new ≡ self.old }
        ensures staging { EndsStaging D.Flash result (snapshot self.old) (snapshot self.new) }
    {
        if self.gone {
            return Err(Stop::Gone);
        }
        match self.may_end(verifier) {
            Ok(()) => self.switch(),
            Err(status) => Err(Stop::Status(status)),
        }
    }
}
