//! The flash, as its callers hold it.
ghost use Rattle.std.specs.Prelude.{◌≡◌, ℕ, ◌<◌, ◌≤◌, ◌+◌, ◌*◌, ◌%◌, None, true, [], All, IfErr, IfOk, IsFalse, IsTrue, is_ok, length, slice_range};
ghost use Rattle.base_core.specs.Block.{blank, block_bytes, granule_bytes};
ghost use Rattle.step_flash.specs.Device.{ArmsLoss, IsGivenOut, KeepsSteps, LieAsCounted, NotedBy, NotesProgram, NotesStep, ComesBackOn, ReadsImage, SettlesImage, StaysLive, Writes, device_ahead, device_sound};
ghost use Rattle.step_flash.specs.Flash.{device_in, steps_of, arming_of, block_count, counts_of, image_of, is_live, is_on};
ghost use Rattle.step_flash.specs.Flash.{most_of, package_of, told_of, writes_of};
ghost use Rattle.step_flash.specs.Guard.{start_with};
ghost use Rattle.step_flash.specs.Steps.{AreDoable, IsInsideWith, barrier_step, erase_step, room_bytes};
ghost use Rattle.step_flash.specs.Flash.{IsUnmade};

use crate::device::{StepDevice, StepParts};
use flash_core::{Flash, FlashStop};
use std::alloc::Global;

/// A flash over an image in memory, which is never written. Its erases, programs and barriers are noted as steps, at most so many.
/// A program whose bytes are found in a package beside the image may be noted as a copy.
///
/// An erase, a program or a barrier fails where there is no room for one more step, or no memory for it. An erase or a program
/// fails too where an armed loss of power is due, since a list of steps has no loss. Power goes then. Once it is on again, each
/// read, erase, program and barrier fails.
///
/// Where no loss is armed it tells one that lies behind all steps, and that each erase and program brings nearer. So what a call
/// promises of an armed loss says how many of them it makes.
///
/// It stands in memory of its own, so that handing it on copies no more than a pointer.
#[derive(Drop)]
pub struct StepFlash<'a> {
    device: Box<StepDevice<'a>>,
}

/// Why no flash is made over an image.
#[derive(Clone, Copy, Debug, PartialEq, Eq)]
pub enum Unmade {
    /// The image has not the bytes of 8 to 65,536 blocks of 4096 bytes.
    NoFlash,
    /// There is no memory for it.
    NoMemory,
}

impl<'a> StepFlash<'a> {
    /// The flash over an image, with no package, which is on, with nothing dirty, and notes so many steps at most.
    pub fn new(alloc: Global, image: &'a [u8], most: usize) -> Result<StepFlash<'a>, Unmade>
        ensures content { IfOk result (λ d. told_of d ≡ start_with image.now []) }
        ensures steps { IfOk result (λ d. steps_of d ≡ []) }
        ensures unwritten { IfOk result (λ d. (b : ℕ) → writes_of d b ≡ 0) }
        ensures power { IfOk result (λ d. is_on d ≡ true) }
        ensures unarmed { IfOk result (λ d. (device_in d).arming ≡ None) }
        ensures image { IfOk result (λ d. image_of d ≡ image.now) }
        ensures live { IfOk result (λ d. is_live d ≡ true) }
        ensures most { IfOk result (λ d. most_of d ≡ most) }
        ensures size { IfOk result (λ d. length image.now ≡ block_bytes * block_count d) }
        ensures unmade { IfErr result (λ why. IsUnmade (length image.now) why) }
    {
        StepFlash::with_package(alloc, image, most, &[], &[])
    }

    /// As `new`, with a package. A program's bytes are looked for in it behind those that were found last, and at each of the
    /// places.
    // kept apart, so that the device is on the stack only while it is made
    #[inline(never)]
    pub fn with_package(
        alloc: Global,
        image: &'a [u8],
        most: usize,
        file: &'a [u8],
        places: &'a [usize],
    ) -> Result<StepFlash<'a>, Unmade>
        ensures content { IfOk result (λ d. told_of d ≡ start_with image.now file.now) }
        ensures steps { IfOk result (λ d. steps_of d ≡ []) }
        ensures unwritten { IfOk result (λ d. (b : ℕ) → writes_of d b ≡ 0) }
        ensures power { IfOk result (λ d. is_on d ≡ true) }
        ensures unarmed { IfOk result (λ d. (device_in d).arming ≡ None) }
        ensures image { IfOk result (λ d. image_of d ≡ image.now) }
        ensures file { IfOk result (λ d. package_of d ≡ file.now) }
        ensures live { IfOk result (λ d. is_live d ≡ true) }
        ensures most { IfOk result (λ d. most_of d ≡ most) }
        ensures size { IfOk result (λ d. length image.now ≡ block_bytes * block_count d) }
        ensures unmade { IfErr result (λ why. IsUnmade (length image.now) why) }
    {
        let device = StepDevice::new(alloc, image, most, file, places).ok_or(Unmade::NoFlash)?;
        match Box::new(alloc, device) {
            Ok(device) => Ok(StepFlash { device }),
            Err(_) => Err(Unmade::NoMemory),
        }
    }

    /// Whether power was not on again after a stop. Then what is told is what the steps leave.
    pub fn is_live(&self) -> bool
        ensures { result ≡ is_live self.now }
    {
        self.device.is_live()
    }

    /// The steps that were noted, in their order.
    // kept apart, as `with_package` is
    #[inline(never)]
    pub fn into_parts(self) -> StepParts
        // An erase, a program and a barrier that is done is one of these steps: see the calls of the trait.
        ensures given { IsGivenOut (device_in self.entry) result }
        ensures noted { IsTrue (is_live self.entry) → NotedBy (device_in self.entry) result }
        ensures inside { All (IsInsideWith (length (package_of self.entry)) (length result.room.items)
            (length (image_of self.entry))) result.steps.items }
        // Each step can be done when its turn comes.
        ensures doable { AreDoable (package_of self.entry) result.room.items
            (start_with (image_of self.entry) (package_of self.entry)) result.steps.items }
        ensures few { length result.steps.items ≤ most_of self.entry }
        // The room has the bytes of the programs that are no copies.
        ensures theirs { length result.room.items ≡ room_bytes result.steps.items }
        // Where the counts of the blocks say so, each step that is no barrier lies between two places, or beside what is between.
        ensures lie { LieAsCounted (device_in self.entry) result.steps.items }
    {
        Box::into_inner(self.device).into_parts()
    }
}

impl<'a> Flash for StepFlash<'a> {
    ghost on = { λ d. is_on d };

    ghost blocks = { λ d. block_count d };

    ghost tells = { true };

    ghost told = { λ d. told_of d };

    ghost landed = { λ d. 0 };

    ghost arming = { λ d. arming_of d };

    ghost counts = { λ d. counts_of d };

    ghost writes = { λ d. writes_of d };

    ghost sizes = { λ d. (device_in d).sizes };

    ghost sound = { λ d _. device_sound (device_in d) };

    ghost ahead = { λ d. device_ahead (device_in d) };

    fn blocks(&self) -> u32 {
        self.device.blocks()
    }

    fn is_on(&self) -> bool {
        self.device.is_on()
    }

    fn read(&mut self, at: u32, out: &mut [u8]) -> Result<(), FlashStop>
        requires on { IsTrue (is_on self.old) }
        requires inside { at + length out.old ≤ block_bytes * block_count self.old }
        ensures reads { ReadsImage at out.old out.new result (device_in self.old) (device_in self.new) }
        ensures kept { KeepsSteps (device_in self.old) (device_in self.new) }
        ensures live { StaysLive result (device_in self.old) (device_in self.new) }
        ensures done { IsTrue (is_live self.old) → IsTrue (is_ok result) }
    {
        self.device.read(at, out)
    }

    fn erase(&mut self, block: u32) -> Result<(), FlashStop>
        requires on { IsTrue (is_on self.old) }
        requires inside { block < block_count self.old }
        ensures writes { Writes (block_bytes * block) (blank block_bytes) result (device_in self.old) (device_in self.new) }
        ensures noted { NotesStep (erase_step (block_bytes * block)) result (device_in self.old) (device_in self.new) }
        ensures live { StaysLive result (device_in self.old) (device_in self.new) }
    {
        self.device.erase(block)
    }

    fn program(&mut self, at: u32, bytes: &[u8]) -> Result<(), FlashStop>
        requires on { IsTrue (is_on self.old) }
        requires place { at % granule_bytes ≡ 0 }
        requires granules { length bytes.now % granule_bytes ≡ 0 }
        requires some { 0 < length bytes.now }
        requires inside { at + length bytes.now ≤ block_bytes * block_count self.old }
        requires blank { IsTrue true → slice_range (told_of self.old).now at (at + length bytes.now) ≡ blank (length bytes.now) }
        ensures writes { Writes at bytes.now result (device_in self.old) (device_in self.new) }
        ensures noted { NotesProgram at bytes.now result (device_in self.old) (device_in self.new) }
        ensures live { StaysLive result (device_in self.old) (device_in self.new) }
    {
        self.device.program(at, bytes)
    }

    fn barrier(&mut self) -> Result<(), FlashStop>
        requires on { IsTrue (is_on self.old) }
        ensures settles { SettlesImage result (device_in self.old) (device_in self.new) }
        ensures noted { NotesStep barrier_step result (device_in self.old) (device_in self.new) }
        ensures live { StaysLive result (device_in self.old) (device_in self.new) }
    {
        self.device.barrier()
    }

    fn arm(&mut self, n: u32, k: u32)
        requires { 1 ≤ n }
        ensures arms { ArmsLoss n k (device_in self.old) (device_in self.new) }
        ensures kept { KeepsSteps (device_in self.old) (device_in self.new) }
        ensures live { is_live self.new ≡ is_live self.old }
    {
        self.device.arm(n, k);
    }

    fn power_on(&mut self)
        requires { IsFalse (is_on self.old) }
        ensures back { ComesBackOn (device_in self.old) (device_in self.new) }
        ensures kept { KeepsSteps (device_in self.old) (device_in self.new) }
        ensures live { IsFalse (is_live self.new) }
    {
        self.device.power_on();
    }
}
