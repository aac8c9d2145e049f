//! Opening an image, or the directory.
use crate::agent::Agent;
use agent_machine::Stop;
use agent_state::{Plan, Request};
use base_core::Guid;
use flash_core::Flash;
use fwu_model::{Op, Status};

impl<D: Flash> Agent<D> {
    ghost use Rattle.std.specs.Prelude.{◌≡◌, []};
    ghost use Rattle.fwu_formats.specs.Layout.{find_image};
    ghost use Rattle.fwu_model.specs.Reply as reply;
    ghost use Rattle.agent_kept.specs.Plans.{call_of};
    ghost use Rattle.agent_machine.specs.Fields.{total_of, IsImageOrDirectory};
    ghost use Rattle.agent_machine.specs.Meets.{IsStopped, IsRefused};
    ghost use Rattle.agent_calls.specs.Records.{KeepsRests};
    ghost use Rattle.agent_calls.specs.Shown.{AgentGoes, AgentMeets, device, fields};

    /// The image of a type.
    fn find(&self, guid: &Guid) -> Option<u32>
        ensures value { result ≡ find_image (fields self.now).layout.rows guid.now }
        ensures there { IsImageOrDirectory (fields self.now) result }
    {
        self.layout.find(guid)
    }

    /// How many bytes there are in all: of the directory, or of an image of the bank that was
    /// started.
    fn total(&self, image: Option<u32>) -> u32
        requires { IsImageOrDirectory (fields self.now) image }
        ensures { result ≡ total_of (fields self.now) image }
    {
        let images = self.layout.rows().len();
        match image {
            None => 16 + 32 * images as u32,
            Some(image) => self.lengths[image as usize],
        }
    }

    /// Opens an image or the directory (DEN0118, fwu_open), and gives the lowest handle of 1 to 32
    /// that is free. An image of the bank that was started is read, and so is the directory; an
    /// image of the staged package is written, and has no bytes yet. The device is not touched.
    ///
    /// UNKNOWN: no image has this type, and it is not the directory's. DENIED: the directory is to
    /// be written, or an image where none is staged, or one that is committed. BUSY: the image is
    /// being written, or 32 handles are open. They come in this order. Gone: the flash stopped an
    /// earlier call of this agent.
    pub fn open(&mut self, guid: Guid, op: Op) -> Result<u32, Stop>
        // On any device: an answer or a refusal is that of each machine that the agent shows.
        ensures meets { AgentMeets (λ h r. r ≡ reply.Opened h) result
            (call_of (Request.Open guid op 0) []) self.old self.new }
        ensures goes { AgentGoes result self.old self.new }
        ensures refused { IsRefused result → self.new ≡ self.old }
        ensures answers { IsStopped result → ⊥ }
        ensures still { device self.new ≡ device self.old }
        ensures records { KeepsRests (fields self.old) (fields self.new) }
    {
        if self.gone {
            return Err(Stop::Gone);
        }
        let image = self.find(&guid);
        let total = self.total(image);
        let request = Request::Open { guid, op, total };
        match self.plan(&request) {
            Ok(plan) => match plan {
                Plan::Open { handle, .. } => {
                    self.keep(&Plan::Open {
                        handle,
                        image,
                        op,
                        total,
                    });
                    Ok(handle)
                }
                // an open has no other plan
                _ => Err(Stop::Status(Status::Denied)),
            },
            Err(status) => Err(Stop::Status(status)),
        }
    }
}
