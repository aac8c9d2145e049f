//! An image of the active bank is accepted.
ghost use Rattle.std.specs.Prelude.{◌≡◌, ℕ, Some, OnOk};
ghost use Rattle.fwu_formats.specs.Layout.{find_image};
ghost use Rattle.fwu_model.specs.Call as call;
ghost use Rattle.agent_machine.specs.Meets.{IsDone, IsRefused};

use crate::agent::Agent;
use agent_machine::Stop;
use agent_state::{Plan, Request};
use base_core::Guid;
use flash_core::Flash;

impl<D: Flash> Agent<D> {
    ghost use Rattle.agent_calls.specs.Images.{AcceptsImage};
    ghost use Rattle.agent_calls.specs.Shown.{AgentGoes, MeetsDone, SpendsStore, fields, snapshot};

    /// Accepts the image of a type in the active bank (DEN0118, fwu_accept_image): its bit is set, and
    /// with the last one the bank is accepted and its trials are over. Metadata is stored for that,
    /// unless the bit is set already.
    ///
    /// DENIED: a package is staged, or the bank that was started isn't the active one. UNKNOWN: no image
    /// has the type. Lost, Fault: the flash stopped the store. Gone: it stopped an earlier call of this
    /// agent.
    pub fn accept(&mut self, guid: Guid) -> Result<(), Stop>
        // On any device: an answer or a refusal is that of each machine that the agent shows.
        ensures meets { MeetsDone result (call.Accepts guid) self.old self.new }
        ensures goes { AgentGoes result self.old self.new }
        ensures refused { IsRefused result → self.new ≡ self.old }
        // On any device: what is answered, or stopped by the flash, is of an image that is there.
        ensures found { IsDone result →
            (image : ℕ) × (find_image (fields self.old).layout.rows guid ≡ Some image) }
        ensures image { (image : ℕ) → find_image (fields self.old).layout.rows guid ≡ Some image →
            AcceptsImage D.Flash image result (snapshot self.old) (snapshot self.new) }
        // On any device: the agent keeps the session as it was.
        ensures session { OnOk result ((fields self.new).session ≡ (fields self.old).session) }
        ensures spent { SpendsStore result self.old self.new }
    {
        if self.gone {
            return Err(Stop::Gone);
        }
        match self.plan(&Request::Accept { guid }) {
            Ok(plan) => match plan {
                Plan::Accept { image, store } => self.carry_out(Plan::Accept { image, store }),
                // no other plan of this request changes anything
                _ => Ok(()),
            },
            Err(status) => Err(Stop::Status(status)),
        }
    }
}
