//! The commit of a handle.
ghost use Rattle.std.specs.Prelude.{◌≡◌, ℕ, Some, List, Bool, IsFalse};
ghost use Rattle.fwu_model.specs.Call as call;
ghost use Rattle.fwu_model.specs.Reply.{Success};
ghost use Rattle.agent_kept.specs.Kept.{kept};
ghost use Rattle.agent_state.specs.Settles.{IsPlanOf};
ghost use Rattle.agent_machine.specs.Ends.{IsWriter};
ghost use Rattle.agent_machine.specs.Meets.{IsDone, IsRefused, Meets};

use crate::agent::{Agent, stopped};
use agent_kept::Handle;
use agent_machine::Stop;
use agent_state::{Decision, Plan, settle};
use flash_core::Flash;
use fwu_model::Status;
use slot_writer::finish;

impl<D: Flash> Agent<D> {
    ghost use Rattle.agent_calls.specs.Images.{EndsImage};
    ghost use Rattle.agent_calls.specs.Records.{KeepsRests};
    ghost use Rattle.agent_calls.specs.Shown.{AgentDecides, AgentGoes, MeetsDone, device, fields, gone};
    ghost use Rattle.agent_calls.specs.Shown.{moment, snapshot};
    ghost use Rattle.agent_kept.specs.declared.kinds.Plan.TheVariants as plan;
    ghost use Rattle.agent_kept.specs.declared.kinds.Request.TheVariants as request;
    ghost use Rattle.agent_kept.specs.declared.kinds.Decision.TheVariants as decision;

    /// Ends an image that a handle writes: its rest is padded with 0xFF and programmed, with a
    /// barrier, and its digest is kept.
    fn commit_image(&mut self, number: u32, image: u32, bit: bool) -> Result<(), Stop>
        requires here { IsFalse self.old.gone }
        requires plan { IsPlanOf (kept self.old.session) (plan.Commit number (Some image) bit) }

        ensures meets { (passes : List ℕ → Bool) (h req most : ℕ) →
            AgentDecides passes (request.Commit h req most)
            (decision.Do (plan.Commit number (Some image) bit)) self.old →
            Meets (λ value reply. reply ≡ Success) result passes (call.Commit h req)
            (moment self.old) (moment self.new) }
        ensures goes { AgentGoes result self.old self.new }
        ensures done { IsDone result }
        ensures image { EndsImage D.Flash image result (snapshot self.old) (snapshot self.new) }
        ensures records { KeepsRests (fields self.old) (fields self.new) }
    {
        let _images = self.layout.rows().len();
        let bank = self.target();
        let first = self.layout.start(bank, image);
        let size = self.session.size(image as usize);
        let rest = self.rests[image as usize];
        match finish(&mut self.flash, first, size, &rest) {
            Ok(()) => {
                let plan = Plan::Commit {
                    handle: number,
                    written: Some(image),
                    bit,
                };
                settle(&mut self.meta, &mut self.session, &Decision::Do(plan), &[]);
                Ok(())
            }
            Err(stop) => {
                self.gone = true;
                Err(stopped(stop))
            }
        }
    }

    /// Closes a handle, whose number counts from 1 on (DEN0118, fwu_commit). Of an image that was
    /// written through it, the last bytes that fill no granule of 16 are padded with 0xFF and
    /// programmed. Then a barrier is made, and the image is committed. It counts as accepted where
    /// `acceptance_req` is 0, else it needs an accept of its own once its bank is active. Its
    /// length in bytes is that of what was written. `max_atomic_len` has no meaning.
    ///
    /// UNKNOWN: no handle of this number is open. Lost, Fault: the flash stopped it. Gone: it
    /// stopped an earlier call of this agent.
    pub fn commit(
        &mut self,
        handle: u32,
        acceptance_req: u32,
        max_atomic_len: u32,
    ) -> Result<(), Stop>
        // on any device: an answer or a refusal is that of each machine that the agent shows
        ensures meets { MeetsDone result (call.Commit handle acceptance_req) self.old self.new }
        ensures goes { AgentGoes result self.old self.new }
        ensures refused { IsRefused result → self.new ≡ self.old }
        // the image that the handle wrote is ended
        ensures image { IsFalse (gone self.old) → (image : ℕ) →
            IsWriter (fields self.old) handle image →
            EndsImage D.Flash image result (snapshot self.old) (snapshot self.new) }
        // and nothing is done on the device where it writes none
        ensures still { ((image : ℕ) → IsWriter (fields self.old) handle image → ⊥) →
            device self.new ≡ device self.old }
        ensures records { KeepsRests (fields self.old) (fields self.new) }
    {
        if self.gone {
            return Err(Stop::Gone);
        }
        let bit = acceptance_req == 0;
        match self.session.handle(handle) {
            Handle::Free => Err(Stop::Status(Status::Unknown)),
            Handle::Reads { .. } => {
                self.keep(&Plan::Commit {
                    handle,
                    written: None,
                    bit,
                });
                Ok(())
            }
            Handle::Writes { image } => self.commit_image(handle, image, bit),
        }
    }
}
