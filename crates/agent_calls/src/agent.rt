//! The agent.
ghost use Rattle.std.specs.Prelude.{◌≡◌, ◌≤◌, Err, IsTrue, IsFalse};
ghost use Rattle.fwu_formats.specs.Layout.{blocks_needed};
ghost use Rattle.agent_kept.specs.Kept.{kept};
ghost use Rattle.agent_machine.specs.Knows.{Fitting, Knows, SomeStaged};
ghost use Rattle.agent_machine.specs.Meets.{IsStopped, flash_result};

use agent_machine::Stop;
use agent_state::{Decision, Plan, Request, Session, decide, settle};
use base_core::GRANULE_BYTES;
use flash_core::{Flash, FlashStop};
use fwu_model::Status;
use meta_layout::{Layout, Meta};
use verify_core::AnyManifest;

/// The agent on a flash whose bank was started. Its calls are those of DEN0118, on one device; none of
/// them takes memory.
#[derive(Drop)]
pub struct Agent<D: Flash> {
    pub(crate) flash: D,
    pub(crate) layout: Layout,
    pub(crate) meta: Meta,
    pub(crate) session: Session,
    pub(crate) boot: u32,
    pub(crate) trials: u32,
    pub(crate) counter: u32,
    pub(crate) lengths: [u32; 16],
    pub(crate) rests: [[u8; GRANULE_BYTES as usize]; 16],
    pub(crate) gone: bool,
    ghost power: { IsFalse gone → IsTrue (D.on flash) },
    ghost inside: { IsFalse gone → blocks_needed layout ≤ D.blocks flash },
    ghost fitting: { IsFalse gone → Fitting (record {
      layout = layout;
      meta = meta;
      session = kept session;
      boot = boot;
      trials = trials;
      counter = counter;
      lengths = lengths;
      rests = rests;
    }) },
    // some bytes of the staged images fit what is kept
    ghost some: { IsFalse gone → ∥ SomeStaged (kept session) ∥₁ },
    ghost knows: { IsFalse gone → IsTrue D.tells → Knows (record {
      layout = layout;
      meta = meta;
      session = kept session;
      boot = boot;
      trials = trials;
      counter = counter;
      lengths = lengths;
      rests = rests;
    }) (D.told flash) },
}

/// What a call answers that the flash stopped.
pub(crate) fn stopped(stop: FlashStop) -> Stop
    ensures stop { flash_result {T = Unit {0}} (Err result) ≡ Err stop }
    ensures stopped { IsStopped {T = Unit {0}} (Err result) }
{
    match stop {
        FlashStop::Lost => Stop::Lost,
        FlashStop::Failed => Stop::Fault,
    }
}

impl<D: Flash> Agent<D> {
    ghost use Rattle.std.specs.Prelude.{ℕ, ◌<◌, Bool, List, []};
    ghost use Rattle.agent_state.specs.Settles.{IsPlanOf};
    ghost use Rattle.agent_machine.specs.Asks.{AsksNoVerifier, IsQuietPlan, PlansAs, IsPlannedIn, IsPlannedFor};
    ghost use Rattle.agent_machine.specs.Fields.{target};
    ghost use Rattle.agent_machine.specs.Carries.{MayKeep, CarriedOut};
    ghost use Rattle.agent_calls.specs.Records.{KeepsRests};
    ghost use Rattle.agent_calls.specs.Shown.{fields, device, gone, moment};

    /// What is decided of a request that asks no verifier.
    pub(crate) fn plan(&self, request: &Request) -> Result<Plan, Status>
        requires here { IsFalse (gone self.now) }
        requires plain { AsksNoVerifier request.now }
        ensures plans { (passes : List ℕ → Bool) → PlansAs passes (fields self.now) request.now result }
        ensures of { IsPlannedIn (fields self.now) result }
        ensures asked { IsPlannedFor (fields self.now) request.now result }
    {
        match decide(
            &self.meta,
            &self.session,
            self.boot,
            request,
            self.counter,
            &AnyManifest,
        ) {
            Decision::Do(plan) => Ok(plan),
            Decision::Refused(status) => Err(status),
            // a verdict is waited for by none of these requests
            Decision::ByVerdict { .. } => Err(Status::Denied),
        }
    }

    /// The update bank: the one behind the active bank.
    pub(crate) fn target(&self) -> u32
        requires { IsFalse (gone self.now) }
        ensures value { result ≡ target (fields self.now) }
        ensures below { result < (fields self.now).layout.banks }
    {
        let banks = self.layout.banks();
        (self.meta.active() + 1) % banks
    }

    /// Makes of what is kept what a plan says of which nothing is done on the flash.
    pub(crate) fn keep(&mut self, plan: &Plan)
        requires here { IsFalse (gone self.old) }
        requires plan { IsPlanOf (kept self.old.session) plan.now }
        requires quiet { IsQuietPlan plan.now }
        requires may { MayKeep D.tells (fields self.old) plan.now }
        ensures carried { CarriedOut plan.now [] (moment self.old) (moment self.new) }
        ensures device { device self.new ≡ device self.old }
        ensures records { KeepsRests (fields self.old) (fields self.new) }
        ensures here { IsFalse (gone self.new) }
    {
        settle(&mut self.meta, &mut self.session, &Decision::Do(*plan), &[]);
    }
}
