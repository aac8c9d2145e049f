//! The device.
ghost use Rattle.std.specs.Prelude.{◌≡◌, ℕ, ◌+◌, ◌*◌, ◌≤◌, All, length, is_none, true, IsTrue, IfSome, IfNone, slice_range};
ghost use Rattle.std.specs.Option.{ForSome};
ghost use Rattle.base_core.specs.Block.{blank, block_bytes, fewest_blocks, most_blocks};
ghost use Rattle.flash_core.specs.Told.{Told, IsSound};
ghost use Rattle.flash_core.specs.Counts.{lowered};
ghost use Rattle.step_flash.specs.Guard.{start_with};
ghost use Rattle.step_flash.specs.Steps.{AreDoable, IsInsideWith, one_proof, room_bytes, run_step, run_with, source_of};
ghost use Rattle.step_flash.specs.Writes.{IsArmed};

use crate::lent_file::LentFile;
use crate::overlay::overlay;
use crate::step::{BARRIER, COPY, ERASE, Step, note_barrier, note_erase, note_program};
use crate::stopped::Stopped;
use base_core::{BLOCK_BYTES, FEWEST_BLOCKS, MOST_BLOCKS};
use flash_core::{Arming, FlashStop};
use std::alloc::Global;

static BLANK: [u8; 4096] = [0xFF; 4096];

/// The device of a `StepFlash`: the image, the package beside it, and what was noted.
#[derive(Drop)]
pub(crate) struct StepDevice<'a> {
    image: &'a [u8],
    file: LentFile<'a>,
    blocks: u32,
    on: bool,
    // power was not on again after a stop
    live: bool,
    steps: Vec<Step>,
    most: usize,
    // the bytes of the programs that are no copies, one after the other
    room: Vec<u8>,
    stopped: Option<Stopped>,
    arming: Option<Arming>,
    faults: u64,
    made: u64,
    ghost sizes: { (fewest_blocks ≤ blocks) × (blocks ≤ most_blocks) },
    ghost size: { length image.now ≡ block_bytes * blocks },
    ghost inside: { All (IsInsideWith (length file.bytes.now) (length room.items) (block_bytes * blocks)) steps.items },
    ghost doable: { AreDoable file.bytes.now room.items
        (start_with image.now file.bytes.now) steps.items } by { one_proof _ _ _ _ },
    ghost few: { length steps.items ≤ most },
    ghost theirs: { length room.items ≡ room_bytes steps.items },
    ghost idle: { IsTrue on → IsTrue (is_none stopped) },
    ghost ahead: { ForSome arming IsArmed },
    ghost sound: { IsSound blocks true
        (run_with file.bytes.now room.items (start_with image.now file.bytes.now) steps.items) },
}

/// What was noted: the steps, in their order, and the room in which bytes of programs stand.
#[derive(Drop)]
pub struct StepParts {
    /// What is to be done to the flash, in this order.
    pub steps: Vec<Step>,
    /// The bytes of the programs that are no copies, one after the other.
    pub room: Vec<u8>,
}

/// The bytes of an erased block.
#[tactic(auto, unfolding(base_core::specs::Block::blank))]
fn blank_block() -> &'static [u8]
    ensures { result.now ≡ blank block_bytes }
{
    &BLANK
}

/// How many blocks an image of so many bytes has, where a flash may have as many.
fn blocks_of(bytes: usize) -> Option<u32>
    ensures some { IfSome result (λ b. (fewest_blocks ≤ b) × (b ≤ most_blocks) × (bytes ≡ block_bytes * b)) }
    ensures none { IfNone result ((b : ℕ) → fewest_blocks ≤ b → b ≤ most_blocks → bytes ≡ block_bytes * b → ⊥) }
{
    let block = BLOCK_BYTES as usize;
    if bytes % block != 0 {
        return None;
    }
    let blocks = bytes / block;
    if blocks < FEWEST_BLOCKS as usize {
        return None;
    }
    if blocks > MOST_BLOCKS as usize {
        return None;
    }
    Some(blocks as u32)
}

/// Where the bytes of a program stand.
fn source_of<'b>(step: &Step, file: &'b [u8], room: &'b [u8]) -> &'b [u8]
    ensures { result.now ≡ source_of file.now room.now step.now }
{
    if step.kind == COPY {
        return file;
    }
    room
}

/// Makes of bytes that were read from a place on what a step makes of them.
fn lay(step: &Step, file: &[u8], room: &[u8], blocks: u32, at: usize, out: &mut [u8])
    requires inside { IsInsideWith (length file.now) (length room.now) (block_bytes * blocks) step.now }
    requires few { blocks ≤ most_blocks }
    requires place { at + length out.old ≤ block_bytes * blocks }
    ensures laid { (t : Told) → length t.now ≡ block_bytes * blocks
        → out.old ≡ slice_range t.now at (at + length out.old)
        → out.new ≡ slice_range (run_step file.now room.now t step.now).now at (at + length out.old) }
    ensures size { length out.new ≡ length out.old }
{
    if step.kind == ERASE {
        overlay(out, at, step.at as usize, blank_block());
        return;
    }
    if step.kind == BARRIER {
        return;
    }
    let from = step.from as usize;
    let bytes = &source_of(step, file, room)[from..from + step.length as usize];
    overlay(out, at, step.at as usize, bytes);
}

impl<'a> StepDevice<'a> {
    ghost use Rattle.std.specs.Prelude.{◌≡◌, true, None, [], ◌+◌, ◌*◌, ◌<◌, ◌≤◌, All, length, slice_range};
    ghost use Rattle.std.specs.Prelude.{ℕ, IfSome, IfNone, IsTrue};
    ghost use Rattle.flash_core.specs.Told.{halt};
    ghost use Rattle.flash_core.specs.Counts.{IsDue};
    ghost use Rattle.step_flash.specs.Device.{after_steps, told_of, writes_of, Fails, IsGivenOut, LieAsCounted, NotedBy};

    /// The device over an image, with a package and the places that are tried in it.
    pub(crate) fn new(
        alloc: Global,
        image: &'a [u8],
        most: usize,
        file: &'a [u8],
        places: &'a [usize],
    ) -> Option<StepDevice<'a>>
        ensures content { IfSome result (λ d. told_of d ≡ start_with image.now file.now) }
        ensures steps { IfSome result (λ d. d.steps.items ≡ []) }
        ensures unwritten { IfSome result (λ d. (b : ℕ) → writes_of d b ≡ 0) }
        ensures power { IfSome result (λ d. d.on ≡ true) }
        ensures unarmed { IfSome result (λ d. d.arming ≡ None) }
        ensures image { IfSome result (λ d. d.image.now ≡ image.now) }
        ensures file { IfSome result (λ d. d.file.bytes.now ≡ file.now) }
        ensures live { IfSome result (λ d. d.live ≡ true) }
        ensures most { IfSome result (λ d. d.most ≡ most) }
        ensures size { IfSome result (λ d. length image.now ≡ block_bytes * d.blocks) }
        ensures none { IfNone result ((b : ℕ) → fewest_blocks ≤ b → b ≤ most_blocks → length image.now ≡ block_bytes * b → ⊥) }
    {
        let blocks = blocks_of(image.len())?;
        Some(StepDevice {
            image,
            file: LentFile::new(file, places),
            blocks,
            on: true,
            live: true,
            steps: Vec::new(alloc),
            most,
            room: Vec::new(alloc),
            stopped: None,
            arming: None,
            faults: 0,
            made: 0,
        })
    }

    /// Whether power was not on again after a stop. Then what is told is what the steps leave.
    pub(crate) fn is_live(&self) -> bool
        ensures { result ≡ self.now.live }
    {
        self.live
    }

    /// The steps that were noted, in their order.
    pub(crate) fn into_parts(self) -> StepParts
        ensures given { IsGivenOut self.entry result }
        ensures noted { IsTrue self.entry.live → NotedBy self.entry result }
        ensures inside { All (IsInsideWith (length self.entry.file.bytes.now) (length result.room.items)
            (length self.entry.image.now)) result.steps.items }
        ensures doable { AreDoable self.entry.file.bytes.now result.room.items
            (start_with self.entry.image.now self.entry.file.bytes.now) result.steps.items }
        ensures few { length result.steps.items ≤ self.entry.most }
        ensures theirs { length result.room.items ≡ room_bytes result.steps.items }
        ensures lie { LieAsCounted self.entry result.steps.items }
    {
        StepParts {
            steps: self.steps,
            room: self.room,
        }
    }

    /// Fills the buffer with the bytes that stand from a place on after the steps.
    fn fill(&self, at: usize, out: &mut [u8])
        requires inside { at + length out.old ≤ block_bytes * self.now.blocks }
        ensures { out.new ≡ slice_range (after_steps self.now).now at (at + length out.old) }
    {
        out.copy_from_slice(&self.image[at..at + out.len()]);
        for step in &self.steps {
            lay(step, self.file.bytes, &self.room, self.blocks, at, out);
        }
    }

    /// A call fails, and power goes.
    fn failed(&mut self) -> Result<(), FlashStop>
        ensures { Fails (told_of self.old) result self.old self.new }
    {
        self.on = false;
        self.faults = self.faults.saturating_add(1);
        Err(FlashStop::Failed)
    }

    /// An erase or a program fails, and power goes.
    fn stop(&mut self, at: u32, bytes: &[u8]) -> Result<(), FlashStop>
        requires on { IsTrue self.old.on }
        ensures { Fails (halt at bytes.now (told_of self.old)) result self.old self.new }
    {
        self.on = false;
        self.stopped = Some(Stopped::new(at, bytes));
        self.failed()
    }

    /// Whether an erase or a program may be noted: power was not on again after a stop, and no loss is armed for it.
    fn is_ready(&self) -> bool
        ensures live { IsTrue result → IsTrue self.now.live }
        ensures undue { IsTrue result → IsDue self.now.arming → ⊥ }
    {
        self.live && !matches!(self.arming, Some(Arming { n: 1, .. }))
    }
}

/// An armed loss is one erase or program nearer.
fn lowered(arming: Option<Arming>) -> Option<Arming>
    ensures { result ≡ lowered arming }
{
    let Arming { n, k } = arming?;
    Some(Arming {
        n: n.saturating_sub(1),
        k,
    })
}

impl<'a> StepDevice<'a> {
    ghost use Rattle.std.specs.Prelude.{◌≡◌, ◌+◌, ◌*◌, ◌<◌, ◌≤◌, is_ok, length, IsTrue, IsFalse};
    ghost use Rattle.base_core.specs.Block.{blank};
    ghost use Rattle.step_flash.specs.Device.{ArmsLoss, KeepsSteps, NotesProgram, NotesStep, ComesBackOn, ReadsImage, SettlesImage, StaysLive, Writes, told_of};
    ghost use Rattle.step_flash.specs.Steps.{TakesProgram, barrier_step, erase_step};

    pub(crate) fn blocks(&self) -> u32
        ensures { result ≡ self.now.blocks }
    {
        self.blocks
    }

    pub(crate) fn is_on(&self) -> bool
        ensures { result ≡ self.now.on }
    {
        self.on
    }

    pub(crate) fn read(&mut self, at: u32, out: &mut [u8]) -> Result<(), FlashStop>
        requires on { IsTrue self.old.on }
        requires inside { at + length out.old ≤ block_bytes * self.old.blocks }
        ensures reads { ReadsImage at out.old out.new result self.old self.new }
        ensures kept { KeepsSteps self.old self.new }
        ensures live { StaysLive result self.old self.new }
        ensures done { IsTrue self.old.live → IsTrue (is_ok result) }
    {
        if !self.live {
            return self.failed();
        }
        self.fill(at as usize, out);
        Ok(())
    }

    pub(crate) fn erase(&mut self, block: u32) -> Result<(), FlashStop>
        requires on { IsTrue self.old.on }
        requires inside { block < self.old.blocks }
        ensures writes { Writes (block_bytes * block) (blank block_bytes) result self.old self.new }
        ensures noted { NotesStep (erase_step (block_bytes * block)) result self.old self.new }
        ensures live { StaysLive result self.old self.new }
    {
        let at = BLOCK_BYTES * block;
        if !self.is_ready() || !note_erase(&mut self.steps, self.most, at) {
            return self.stop(at, blank_block());
        }
        self.arming = lowered(self.arming);
        Ok(())
    }

    pub(crate) fn program(&mut self, at: u32, bytes: &[u8]) -> Result<(), FlashStop>
        requires on { IsTrue self.old.on }
        requires takes { TakesProgram (told_of self.old) at (length bytes.now) }
        requires inside { at + length bytes.now ≤ block_bytes * self.old.blocks }
        ensures writes { Writes at bytes.now result self.old self.new }
        ensures noted { NotesProgram at bytes.now result self.old self.new }
        ensures live { StaysLive result self.old self.new }
    {
        if !self.is_ready()
            || !note_program(
                &mut self.steps,
                &mut self.room,
                &mut self.file,
                self.most,
                at,
                bytes,
            )
        {
            return self.stop(at, bytes);
        }
        self.arming = lowered(self.arming);
        Ok(())
    }

    pub(crate) fn barrier(&mut self) -> Result<(), FlashStop>
        requires on { IsTrue self.old.on }
        ensures settles { SettlesImage result self.old self.new }
        ensures noted { NotesStep barrier_step result self.old self.new }
        ensures live { StaysLive result self.old self.new }
    {
        if !self.live || !note_barrier(&mut self.steps, self.most) {
            return self.failed();
        }
        Ok(())
    }

    pub(crate) fn arm(&mut self, n: u32, k: u32)
        requires { 1 ≤ n }
        ensures arms { ArmsLoss n k self.old self.new }
        ensures kept { KeepsSteps self.old self.new }
        ensures live { self.new.live ≡ self.old.live }
    {
        self.arming = Some(Arming { n, k });
        self.made = self.made.saturating_add(1);
    }

    pub(crate) fn power_on(&mut self)
        ensures back { ComesBackOn self.old self.new }
        ensures kept { KeepsSteps self.old self.new }
        ensures live { IsFalse self.new.live }
    {
        self.on = true;
        self.live = false;
        self.stopped = None;
    }
}
