//! A staging begins of which the images that aren't named are those of the active bank.
ghost use Rattle.std.specs.Prelude.{All, slice_index_or, true, false, ◌≡◌, ◌+◌, ◌<◌, ℕ, Bool, List, Some, length, IfOk, OnOk, IsTrue, IsFalse};
ghost use Rattle.base_core.specs.Block.{block_bytes};
ghost use Rattle.fwu_formats.specs.Layout.{start};
ghost use Rattle.slot_writer.specs.Slots.{IsBlankAhead};
ghost use Rattle.agent_machine.specs.Fields.{target, total_of};
ghost use Rattle.agent_machine.specs.Meets.{IsDone, IsRefused, flash_result};
ghost use Rattle.fwu_model.specs.Answer.{are_named};
ghost use Rattle.agent_calls.specs.Partly.{named_in};

use crate::agent::{Agent, stopped};
use agent_machine::Stop;
use agent_state::{Plan, Request};
use base_core::{BLOCK_BYTES, Guid};
use flash_core::Flash;
use fwu_model::Op;

/// The images that a plan to begin in part names.
fn named_in(plan: &Plan) -> [bool; 16]
    ensures { result ≡ named_in plan.now }
{
    match *plan {
        Plan::BeginPartial { named, .. } => named,
        _ => [false; 16],
    }
}

impl<D: Flash> Agent<D> {
    ghost use Rattle.agent_calls.specs.Shown.{AgentGoes, SpentBy, AgentTakes, fields, device, gone, moment};
    ghost use Rattle.agent_calls.specs.Copies.{BeginsPartly, CopiesPiece, CopiesBytes, CopiesImage, CopiesImages};
    ghost use Rattle.agent_calls.specs.Copies.{FillsBank, StoresThenFills};
    ghost use Rattle.agent_calls.specs.Metas.{has_invalid_target, meta_begun};
    ghost use Rattle.agent_calls.specs.Takes.{CopiesTake, CopyTakes, FrontTakes, PieceTakes, Takes};
    ghost use Rattle.agent_calls.specs.Takes.{piece_at, pieces_of, writes_to_begin, writes_to_copy};

    /// Reads a piece of an image of the bank that was started, from the byte `at` of it on, and writes it
    /// through handle 1. How many bytes it has: 4096, but for the last piece of the image.
    fn copy_piece(&mut self, image: u32, at: u32, buf: &mut [u8]) -> Result<u32, Stop>
        requires here { IsFalse (gone self.old) }
        requires image { image < length (fields self.old).layout.rows }
        requires some { at < total_of (fields self.old) (Some image) }
        requires room { length buf.old ≡ block_bytes }

        ensures copies { CopiesPiece image at result (moment self.old) (moment self.new) }
        ensures fills { FillsBank (moment self.old) (moment self.new) }
        ensures piece { IfOk result (λ n.
            n ≡ piece_at block_bytes (total_of (fields self.old) (Some image)) at) }
        ensures takes { IfOk result (λ n. AgentTakes (PieceTakes image at n) self.old self.new) }
        ensures spent { SpentBy (flash_result result) self.old self.new }
        ensures buffer { length buf.new ≡ length buf.old }
    {
        let left = self.lengths[image as usize] - at;
        let size = left.min(BLOCK_BYTES);
        match self.read_part(Some(image), at, &mut buf[..size as usize]) {
            Ok(()) => {}
            Err(stop) => return Err(stopped(stop)),
        }
        match self.write_stream(1, &buf[..size as usize]) {
            Ok(()) => Ok(size),
            Err(stop) => Err(stop),
        }
    }

    /// Writes all bytes of an image of the bank that was started through handle 1, in pieces of 4096.
    fn copy_bytes(&mut self, image: u32) -> Result<(), Stop>
        requires here { IsFalse (gone self.old) }
        requires image { image < length (fields self.old).layout.rows }

        ensures copies { CopiesBytes image result (moment self.old) (moment self.new) }
        ensures fills { FillsBank (moment self.old) (moment self.new) }
        ensures takes { OnOk result (AgentTakes (FrontTakes image (pieces_of block_bytes
            (total_of (fields self.old) (Some image)))) self.old self.new) }
        ensures spent { SpentBy (flash_result result) self.old self.new }
    {
        let mut buf = [0; BLOCK_BYTES as usize];
        let total = self.lengths[image as usize];
        let mut at = 0;
        while at < total {
            match self.copy_piece(image, at, &mut buf) {
                Ok(count) => at += count,
                Err(stop) => return Err(stop),
            }
        }
        Ok(())
    }

    /// Commits an image of which nothing is staged with the bytes that it has in the bank that was
    /// started, as accepted. No handle is open before, so handle 1 writes it.
    fn copy_image(&mut self, image: u32) -> Result<(), Stop>
        requires here { IsFalse (gone self.old) }
        requires image { image < length (fields self.old).layout.rows }

        ensures copies { CopiesImage image result (moment self.old) (moment self.new) }
        ensures fills { FillsBank (moment self.old) (moment self.new) }
        ensures takes { OnOk result (AgentTakes (CopyTakes image) self.old self.new) }
        ensures spent { SpentBy (flash_result result) self.old self.new }
    {
        let guid = self.layout.rows()[image as usize].guid;
        match self.open(guid, Op::Write) {
            Ok(_) => {}
            Err(stop) => return Err(stop),
        }
        match self.copy_bytes(image) {
            Ok(()) => {}
            Err(stop) => return Err(stop),
        }
        self.commit(1, 0, 0)
    }

    /// Copies so each image that isn't named, in the layout's order.
    fn copy_images(&mut self, named: &[bool]) -> Result<(), Stop>
        requires here { IsFalse (gone self.old) }
        requires each { length named.now ≡ length (fields self.old).layout.rows }

        ensures copies { CopiesImages named.now result (moment self.old) (moment self.new) }
        ensures fills { FillsBank (moment self.old) (moment self.new) }
        ensures still { All IsTrue named.now → self.new ≡ self.old }
        ensures takes { OnOk result (AgentTakes (CopiesTake named.now (length named.now))
            self.old self.new) }
        ensures spent { SpentBy (flash_result result) self.old self.new }
    {
        for image in 0..named.len() {
            if named[image] {
                continue;
            }
            match self.copy_image(image as u32) {
                Ok(()) => {}
                Err(stop) => return Err(stop),
            }
        }
        Ok(())
    }

    /// Begins a staging of some images alone (DEN0118, fwu_begin_staging). It does what `begin` does, and
    /// then commits each image that the list doesn't name with the bytes that it has in the active bank,
    /// as accepted. These are read from the flash in pieces of 4096 bytes, the last one of an image
    /// shorter, and each piece is written as by `write_stream`. An image of no bytes has no piece. Of an
    /// image that the list names nothing is staged. An empty list names no image, and so all are copied.
    /// A type that the list names twice counts once. The vendor flags have no meaning. Nothing here takes
    /// memory but a buffer of 4096 bytes on the stack.
    ///
    /// DENIED: nothing is staged and the active bank is on trial, or the bank that was started isn't
    /// the active one. UNKNOWN: the list names a type that is no image's. They come in this order, before
    /// anything is done. Lost, Fault: the flash stopped the store, a read or a write, and what was copied
    /// by then is in an invalid bank. Gone: it stopped an earlier call of this agent.
    pub fn begin_partial(&mut self, vendor_flags: u32, list: &[Guid]) -> Result<(), Stop>
        // On any device: an answer or a refusal is that of each machine that the agent shows.
        ensures begins { IsFalse (gone self.old) → (passes : List ℕ → Bool) →
            BeginsPartly list.now (are_named (fields self.old).layout.rows list.now) passes result
            (moment self.old) (moment self.new) }
        ensures goes { AgentGoes result self.old self.new }
        ensures refused { IsRefused result → self.new ≡ self.old }
        // On any device: where the update bank is invalid already and each image is named, it is not touched.
        ensures still { let f = fields self.old in
            IsTrue (has_invalid_target f) →
            All IsTrue (are_named f.layout.rows list.now) → device self.new ≡ device self.old }
        // On any flash that tells its content, sound or not, at any exit but a refusal: the metadata is
        // stored once, as by `begin`. Behind that only the update bank changes.
        ensures stores { IsDone result → IsTrue D.tells →
            StoresThenFills (flash_result result) (fields self.old)
            (D.told (device self.old)) (D.told (device self.new)) }
        // On any device: the agent keeps the metadata in which the update bank is invalid, also where the
        // flash stopped the store or a copy.
        ensures keeps { IsDone result → (fields self.new).meta ≡ meta_begun (fields self.old) }
        // On any device, at any exit: the trials that it tells are those that it told.
        ensures trials { (fields self.new).trials ≡ (fields self.old).trials }
        // When done, on every device: the erases and programs of a begin, and of the writes and the commit
        // of each image that is copied, and no other.
        ensures spent { IsFalse (gone self.old) → let f = fields self.old in
            OnOk result (Takes (writes_to_begin f
            + writes_to_copy (are_named f.layout.rows list.now) f.lengths (length f.layout.rows))
            (D.arming (device self.old)) (D.arming (device self.new))) }
        // When done, on any flash that tells its content, sound or not: behind each image that is copied the
        // block that it ends in is blank.
        ensures padded { OnOk result (IsTrue D.tells → let f = fields self.old in (image : ℕ) →
            image < length f.layout.rows →
            slice_index_or (are_named f.layout.rows list.now) image true ≡ false →
            IsBlankAhead (start f.layout (target f) image) (total_of f (Some image))
            (D.told (device self.new)).now) }
    {
        if self.gone {
            return Err(Stop::Gone);
        }
        let request = Request::BeginPartial { vendor_flags, list };
        let named = match self.plan(&request) {
            Ok(plan) => named_in(&plan),
            Err(status) => return Err(Stop::Status(status)),
        };
        let count = self.layout.rows().len();
        match self.begin(vendor_flags, 0) {
            Ok(()) => self.copy_images(&named[..count]),
            Err(stop) => Err(stop),
        }
    }
}
