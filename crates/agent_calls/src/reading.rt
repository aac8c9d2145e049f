//! Reading through a handle.
ghost use Rattle.flash_core.specs.Calls.{Reads};
ghost use Rattle.std.specs.Prelude.{◌≡◌, ◌+◌, ◌*◌, ◌<◌, ◌≤◌, length, take, drop, IsTrue, OnOk, None};
ghost use Rattle.base_core.specs.Block.{block_bytes};
ghost use Rattle.fwu_formats.specs.Layout.{slot_bytes, start};
ghost use Rattle.fwu_formats.specs.Metadata.{fits_meta};
ghost use Rattle.agent_machine.specs.Fields.{directory_size};
ghost use Rattle.agent_machine.specs.Directory.{piece_of};
ghost use Rattle.agent_calls.specs.Readable.{HoldsBank};

use crate::agent::Agent;
use crate::directory::directory_of;
use agent_machine::Stop;
use agent_state::{Plan, Request};
use base_core::BLOCK_BYTES;
use flash_core::{Flash, FlashStop};
use fwu_model::Status;
use manifest_core::{MOST_MANIFEST_BYTES, manifest_size};
use meta_layout::{Layout, Meta};

/// Fills the buffer with the directory's bytes from a place on. The versions are those of the
/// manifest that the bank has.
fn read_directory<D: Flash>(
    flash: &mut D,
    layout: &Layout,
    meta: &Meta,
    bank: u32,
    lengths: &[u32; 16],
    at: u32,
    out: &mut [u8],
) -> Result<(), FlashStop>
    requires holds { HoldsBank D.Flash flash.old layout.now bank }
    requires fit { IsTrue (fits_meta layout.now meta.now.meta) }
    requires within { at + length out.old ≤ directory_size (length layout.now.rows) }
    ensures bytes { OnOk result (IsTrue D.tells → out.new ≡ piece_of layout.now meta.now.meta bank
        lengths.now (D.told flash.old).now None at (length out.old)) }
    ensures reads { Reads D.Flash result flash.old flash.new }
{
    let mut front = [0; MOST_MANIFEST_BYTES];
    let manifest = &mut front[..manifest_size(layout.rows())];
    flash.read(BLOCK_BYTES * layout.start(bank, 0), manifest)?;
    let directory = directory_of(layout, meta, bank, lengths, manifest);
    let from = at as usize;
    out.copy_from_slice(&directory[from..from + out.len()]);
    Ok(())
}

/// Fills the buffer with an image's bytes from a place on.
fn read_image<D: Flash>(
    flash: &mut D,
    layout: &Layout,
    bank: u32,
    image: u32,
    at: u32,
    out: &mut [u8],
) -> Result<(), FlashStop>
    requires holds { HoldsBank D.Flash flash.old layout.now bank }
    requires image { image < length layout.now.rows }
    requires within { at + length out.old ≤ slot_bytes layout.now image }
    ensures bytes { OnOk result (IsTrue D.tells → out.new ≡ take (length out.old)
        (drop (block_bytes * start layout.now bank image + at) (D.told flash.old).now)) }
    ensures reads { Reads D.Flash result flash.old flash.new }
{
    let _rows = layout.rows();
    flash.read(BLOCK_BYTES * layout.start(bank, image) + at, out)
}

impl<D: Flash> Agent<D> {
    ghost use Rattle.std.specs.Prelude.{ℕ, ◌-◌, Option, is_err, IfOk, IsErrOf, IsFalse};
    ghost use Rattle.fwu_model.specs.Call as call;
    ghost use Rattle.agent_kept.specs.declared.parts.Handle.TheVariants as handle;
    ghost use Rattle.agent_kept.specs.Kept.{handle_kept};
    ghost use Rattle.agent_machine.specs.Fields.{total_of, IsImageOrDirectory};
    ghost use Rattle.agent_machine.specs.Meets.{IsGot, IsRefused, flash_result};
    ghost use Rattle.agent_calls.specs.Records.{KeepsRests, ReadsAlone};
    ghost use Rattle.agent_calls.specs.Shown.{AgentGoes, AgentMeets, device, fields, gone};

    /// Fills the buffer with bytes of the directory, or of an image of the bank that was started,
    /// from a place on. A stop of the flash makes the agent gone.
    pub(crate) fn read_part(
        &mut self,
        image: Option<u32>,
        at: u32,
        out: &mut [u8],
    ) -> Result<(), FlashStop>
        requires here { IsFalse (gone self.old) }
        requires there { IsImageOrDirectory (fields self.old) image }
        requires within { at + length out.old ≤ total_of (fields self.old) image }
        ensures bytes { OnOk result (IsTrue D.tells → let f = fields self.old in
            out.new ≡ piece_of f.layout f.meta.meta f.boot f.lengths (D.told (device self.old)).now
            image at (length out.old)) }
        ensures fields { fields self.new ≡ fields self.old }
        ensures gone { gone self.new ≡ is_err result }
        ensures reads { Reads D.Flash result (device self.old) (device self.new) }
    {
        let result = match image {
            None => read_directory(
                &mut self.flash,
                &self.layout,
                &self.meta,
                self.boot,
                &self.lengths,
                at,
                out,
            ),
            Some(image) => read_image(&mut self.flash, &self.layout, self.boot, image, at, out),
        };
        self.gone = result.is_err();
        result
    }

    /// Fills the front of the buffer with what the handle reads, from the handle's place on
    /// (DEN0118, fwu_read_stream): as many bytes as there are and fit. Gives their number, and how
    /// many bytes there are in all. The handle's place moves behind them. An image is read of the
    /// bank that was started, whichever bank is active by now, and the directory has its bits as
    /// they are now.
    ///
    /// UNKNOWN: no handle of this number is open. DENIED: the handle writes. Lost, Fault: the flash
    /// stopped the read, and any bytes may stand in the front of the buffer. Gone: it stopped an
    /// earlier call of this agent.
    pub fn read_stream(&mut self, h: u32, out: &mut [u8]) -> Result<(u32, u32), Stop>
        // On any device: an answer or a refusal is that of each machine that the agent shows, and
        // the bytes too where the device tells its content.
        ensures meets { AgentMeets (IsGot D.tells out.new) result (call.Read h (length out.old))
            self.old self.new }
        ensures goes { AgentGoes result self.old self.new }
        ensures refused { IsRefused result → self.new ≡ self.old }
        ensures long { length out.new ≡ length out.old }
        ensures room { IfOk result (λ got. got.0 ≤ length out.old) }
        ensures behind { IfOk result (λ got. drop got.0 out.new ≡ drop got.0 out.old) }
        ensures unread { IsRefused result → out.new ≡ out.old }
        ensures unfilled { IsErrOf result Stop.Gone → out.new ≡ out.old }
        // also where the flash stops it: nothing changes behind as many bytes as there are
        ensures beyond { (image : Option ℕ) (at total : ℕ) →
            handle_kept (fields self.old).session (h - 1) ≡ handle.Reads image at total →
            drop (total - at) out.new ≡ drop (total - at) out.old }
        ensures records { KeepsRests (fields self.old) (fields self.new) }
        ensures reads { ReadsAlone D.Flash (flash_result result) (device self.old) (device self.new) }
    {
        if self.gone {
            return Err(Stop::Gone);
        }
        let request = Request::Read {
            handle: h,
            room: out.len() as u64,
        };
        match self.plan(&request) {
            Ok(plan) => match plan {
                Plan::Read {
                    image,
                    at,
                    length,
                    total,
                    ..
                } => match self.read_part(image, at, &mut out[..length as usize]) {
                    Ok(()) => {
                        self.keep(&plan);
                        Ok((length, total))
                    }
                    Err(FlashStop::Lost) => Err(Stop::Lost),
                    Err(FlashStop::Failed) => Err(Stop::Fault),
                },
                // a read has no other plan
                _ => Err(Stop::Status(Status::Denied)),
            },
            Err(status) => Err(Stop::Status(status)),
        }
    }
}
