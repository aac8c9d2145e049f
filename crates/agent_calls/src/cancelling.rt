//! A staging is given up.
ghost use Rattle.std.specs.Prelude.{◌≡◌};
ghost use Rattle.fwu_model.specs.Call as call;
ghost use Rattle.agent_machine.specs.Meets.{IsRefused, IsStopped};
ghost use Rattle.agent_calls.specs.Records.{KeepsRests};
ghost use Rattle.agent_calls.specs.Shown.{AgentGoes, MeetsDone, device, fields};

use crate::agent::Agent;
use agent_machine::Stop;
use agent_state::Request;
use flash_core::Flash;

impl<D: Flash> Agent<D> {
    /// Gives up what is staged, and closes all handles (DEN0118, fwu_cancel_staging). What was written
    /// stays in the update bank, which is invalid. The device is not touched.
    ///
    /// DENIED: nothing is staged. Gone: the flash stopped an earlier call of this agent.
    pub fn cancel(&mut self) -> Result<(), Stop>
        // On any device: an answer or a refusal is that of each machine that the agent shows.
        ensures meets { MeetsDone result call.Cancel self.old self.new }
        ensures goes { AgentGoes result self.old self.new }
        ensures refused { IsRefused result → self.new ≡ self.old }
        ensures answers { IsStopped result → ⊥ }
        ensures still { device self.new ≡ device self.old }
        ensures records { KeepsRests (fields self.old) (fields self.new) }
    {
        if self.gone {
            return Err(Stop::Gone);
        }
        match self.plan(&Request::Cancel) {
            Ok(plan) => {
                self.keep(&plan);
                Ok(())
            }
            Err(status) => Err(Stop::Status(status)),
        }
    }
}
