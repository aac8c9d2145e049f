//! Bytes go behind those of a staged image.
ghost use Rattle.std.specs.Prelude.{◌≡◌, ℕ, ◌-◌, Bool, List, length, IsFalse};
ghost use Rattle.fwu_model.specs.Call as call;
ghost use Rattle.fwu_model.specs.Reply.{Success};
ghost use Rattle.agent_kept.specs.declared.kinds.Request.TheVariants as request;
ghost use Rattle.agent_kept.specs.declared.kinds.Plan.TheVariants as plan;
ghost use Rattle.agent_kept.specs.declared.kinds.Decision.TheVariants as decision;
ghost use Rattle.agent_kept.specs.declared.parts.Handle.TheVariants as handle_kinds;
ghost use Rattle.agent_kept.specs.Kept.{handle_kept, kept};
ghost use Rattle.agent_state.specs.Settles.{IsPlanOf};
ghost use Rattle.agent_machine.specs.Meets.{IsDone, IsRefused, Meets};
ghost use Rattle.agent_calls.specs.Images.{AppendsImage};
ghost use Rattle.agent_calls.specs.Records.{KeepsRecords};
ghost use Rattle.agent_calls.specs.Shown.{AgentDecides, AgentGoes, MeetsDone, fields, gone, moment, snapshot};

use crate::agent::{Agent, stopped};
use agent_machine::Stop;
use agent_state::{Decision, Plan, Request, settle};
use flash_core::Flash;
use slot_writer::append;

impl<D: Flash> Agent<D> {
    /// Puts bytes behind those of an open image, for which there is room. A stop of the flash makes the
    /// agent gone.
    fn write_image(&mut self, number: u32, image: u32, at: u32, bytes: &[u8]) -> Result<(), Stop>
        requires here { IsFalse (gone self.old) }
        requires plan { IsPlanOf (kept self.old.session)
            (plan.Write number image at (length bytes.now)) }

        ensures meets { (passes : List ℕ → Bool) (h : ℕ) →
            AgentDecides passes (request.Write h (length bytes.now))
            (decision.Do (plan.Write number image at (length bytes.now))) self.old →
            Meets (λ value reply. reply ≡ Success) result passes (call.Write h bytes.now)
            (moment self.old) (moment self.new) }
        ensures goes { AgentGoes result self.old self.new }
        ensures done { IsDone result }
        ensures records { KeepsRecords (fields self.old) (fields self.new) }
        ensures image { AppendsImage D.Flash image bytes.now result
            (snapshot self.old) (snapshot self.new) }
    {
        let _images = self.layout.rows().len();
        let bank = self.target();
        let first = self.layout.start(bank, image);
        let size = self.session.size(image as usize);
        match append(
            &mut self.flash,
            first,
            size,
            &mut self.rests[image as usize],
            bytes,
        ) {
            Ok(()) => {
                let plan = Plan::Write {
                    handle: number,
                    image,
                    at,
                    length: bytes.len() as u32,
                };
                settle(
                    &mut self.meta,
                    &mut self.session,
                    &Decision::Do(plan),
                    bytes,
                );
                Ok(())
            }
            Err(stop) => {
                self.gone = true;
                Err(stopped(stop))
            }
        }
    }

    /// Puts bytes behind those of the staged image that a handle writes (DEN0118, fwu_write_stream).
    /// Whole granules of 16 bytes go to the flash, and a rest of up to 15 bytes is kept until more come
    /// or the handle is committed. A block of 4096 bytes is erased when the image first reaches it. No
    /// barrier is made.
    ///
    /// UNKNOWN: no handle of this number is open. DENIED: it reads. OUT_OF_BOUNDS: the image's slot has
    /// no room for all of the bytes, and none is kept. Lost, Fault: the flash stopped the call. Gone: it
    /// stopped an earlier call of this agent.
    pub fn write_stream(&mut self, handle: u32, bytes: &[u8]) -> Result<(), Stop>
        // On any device: an answer or a refusal is that of each machine that the agent shows.
        ensures meets { MeetsDone result (call.Write handle bytes.now) self.old self.new }
        ensures goes { AgentGoes result self.old self.new }
        ensures refused { IsRefused result → self.new ≡ self.old }
        // on any device: what is answered, or stopped by the flash, is of a handle that writes
        ensures writes { IsDone result → (image : ℕ)
            × (handle_kept (fields self.old).session (handle - 1) ≡ handle_kinds.Writes image) }
        ensures image { (image : ℕ) →
            handle_kept (fields self.old).session (handle - 1) ≡ handle_kinds.Writes image →
            AppendsImage D.Flash image bytes.now result (snapshot self.old) (snapshot self.new) }
        ensures records { KeepsRecords (fields self.old) (fields self.new) }
    {
        if self.gone {
            return Err(Stop::Gone);
        }
        let request = Request::Write {
            handle,
            length: bytes.len() as u64,
        };
        match self.plan(&request) {
            Ok(plan) => match plan {
                Plan::Write {
                    handle: number,
                    image,
                    at,
                    ..
                } => self.write_image(number, image, at, bytes),
                _ => {
                    self.keep(&plan);
                    Ok(())
                }
            },
            Err(status) => Err(Stop::Status(status)),
        }
    }
}
