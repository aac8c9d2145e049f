//! An update of a flash that lies in memory.
ghost use Rattle.std.specs.Prelude.{◌≡◌, ◌≤◌, ◌<◌, ◌*◌, [], length, true, IfSome, IsFalse, IsTrue, MatchResult, slice_index_or};
ghost use Rattle.base_core.specs.Block.{block_bytes};
ghost use Rattle.fwu_formats.specs.declared.kinds.BankState.TheVariants.{Invalid};
ghost use Rattle.fwu_model.specs.State.{is_valid};
ghost use Rattle.fwu_model.specs.State as state;
ghost use Rattle.agent_calls.specs.Shown.{device, gone, moment};
ghost use Rattle.step_flash.specs.Flash.{image_of, is_on};
ghost use Rattle.early_boot.specs.Ends.{Ended, booted};
ghost use Rattle.early_boot.specs.Started.{Started, started};
ghost use Rattle.early_boot.specs.Started as boot;
ghost use Rattle.fwu_c.specs.Agents.{BeginsAgent};
ghost use Rattle.fwu_c.specs.Handed.{IsJustMade, TellsAnswer, TellsSteps};
ghost use Rattle.fwu_c.specs.Updates.{BootsUp, IsOnTrial, UpdatesBy};

use crate::handing::{hand_over, unmade_number};
use crate::kept_agent::agent_of;
use crate::packages::{MOST_PLACES, read_places};
use crate::report::{Report, into_flash, report_end, report_start};
use crate::sending::{install, outcome_number};
use agent_calls::Agent;
use base_core::BLOCK_BYTES;
use early_boot::{BootEnd, Booted, Numbers, Unshown, boot_in, read_numbers_in};
use std::alloc::Global;
use step_flash::{Step, StepFlash};
use verify_core::AnyManifest;

/// Installs a package, whose bytes lie in memory, on a flash that lies in memory. It tells the steps by which the flash becomes
/// what the update makes of it. These are those of a boot, and behind them those of begin, of the images and of end (DEN0118). A
/// copy has its bytes from the package. With `acceptance` 0 each image is accepted at once; with another number the package is on
/// trial.
///
/// 0: installed, once the steps are done in their order. 1: block 0 is no layout. 2: neither replica is metadata. 3: neither bank
/// may be started. 5: there was no room for one more step. 6: these bytes are no flash. 7: memory, or room for the steps' bytes, is
/// wanting. 16: the active bank is on trial, and no step is told; or the previous bank was started in its place. 17: the package is
/// not complete, or below the counter. 18: it is no package. 19: it lacks an image of the layout, or one is larger than its slot.
#[unsafe(no_mangle)]
pub extern "C" fn fwu_update(
    alloc: Global,
    image: &[u8],
    file: &[u8],
    acceptance: u32,
    steps: &mut [Step],
    room: &mut [u8],
    report: &mut Report,
) -> u32
    ensures updates { (IsOnTrial image.now → ⊥) → TellsAnswer result →
        UpdatesBy image.now file.now acceptance result report.old report.new steps.new room.new }
    // A boot would count one more start of a bank on trial. Nothing else is written then.
    ensures trial { IsOnTrial image.now → TellsAnswer result → (result ≡ 16)
        × (report.new ≡ record report.old { steps = 0; bytes = 0 }) × (steps.new ≡ steps.old) × (room.new ≡ room.old) }
    // Whatever it answers: no loss of power, no erase, program or copy in block 0, which fields stay, and at 1, 2 and 5 to 7 what
    // that number says.
    ensures tells { TellsSteps image.now result report.old steps.old room.old report.new steps.new room.new }
{
    let first = match StepFlash::new(alloc, image, 0) {
        Ok(first) => first,
        Err(why) => return unmade_number(why),
    };
    let Ok(mut block) = Vec::from_elem(alloc, 0u8, BLOCK_BYTES as usize) else {
        return 7;
    };
    match shows_trial(first, &mut block) {
        Some(true) => {
            report.steps = 0;
            report.bytes = 0;
            16
        }
        Some(false) => {
            let sending = Sending { file, acceptance };
            update(image, &mut block, sending, steps, room, report)
        }
        // no read of this device fails
        None => 7,
    }
}

/// Whether the active bank is on trial.
fn is_on_trial(shown: &Numbers) -> bool
    requires { shown.now.active < length shown.now.states }
    ensures { result ≡ is_valid (slice_index_or shown.now.states shown.now.active Invalid) }
{
    shown.states.get(shown.active as usize).is_valid()
}

/// Whether a device over an image shows an active bank that is on trial. None where a read failed.
// its frame is gone before the boot: that keeps the stack small
#[inline(never)]
fn shows_trial(flash: StepFlash<'_>, block: &mut [u8]) -> Option<bool>
    requires new { IsJustMade [] flash }
    requires block { block_bytes ≤ length block.old }
    ensures trial { IfSome result (λ shown. IsTrue shown → IsOnTrial (image_of flash.entry)) }
    ensures other { IfSome result (λ shown. IsFalse shown → IsOnTrial (image_of flash.entry) → ⊥) }
{
    let mut flash = flash;
    match read_numbers_in(&mut flash, &mut block[..BLOCK_BYTES as usize]) {
        Ok(shown) => Some(is_on_trial(&shown)),
        Err(Unshown::Layout(_)) => Some(false),
        Err(Unshown::Metadata) => Some(false),
        Err(Unshown::Flash(_)) => None,
    }
}

/// A package whose bytes lie in memory, and whether each of its images is accepted at once, which 0 asks for.
#[derive(Clone, Copy)]
struct Sending<'a> {
    file: &'a [u8],
    acceptance: u32,
}

/// As `fwu_update`, of an image whose active bank is not on trial, with a buffer of 4096 bytes.
fn update(
    image: &[u8],
    block: &mut Vec<u8>,
    sending: Sending<'_>,
    steps: &mut [Step],
    room: &mut [u8],
    report: &mut Report,
) -> u32
    requires { block_bytes ≤ length block.old.items }
    ensures updates { TellsAnswer result →
        UpdatesBy image.now sending.entry.file.now sending.entry.acceptance result report.old report.new steps.new
        room.new }
    ensures tells { TellsSteps image.now result report.old steps.old room.old report.new steps.new room.new }
{
    let file = sending.file;
    let mut places = [0; MOST_PLACES];
    let count = read_places(file, &mut places);
    let tried = &places[..count];
    let most = steps.len();
    let flash = match StepFlash::with_package(*block.allocator(), image, most, file, tried) {
        Ok(flash) => flash,
        Err(why) => return unmade_number(why),
    };
    update_over(flash, block, sending, steps, room, report)
}

/// Boots, keeps the bank that is started in memory of its own, and reports the end. Where none is started the number of the end
/// comes with the device. None where there is no memory for it.
// kept apart, so that its frame is gone before the agent is made
#[inline(never)]
fn booted_up<'a>(
    alloc: Global,
    flash: StepFlash<'a>,
    block: &mut [u8],
    told: &mut Report,
) -> Option<Result<Box<Booted<StepFlash<'a>>>, (StepFlash<'a>, u32)>>
    requires on { is_on flash ≡ true }
    requires room { block_bytes ≤ length block.old }
    ensures { IfSome result (λ end. MatchResult end
        (λ b. (n : state.Numbers) × BootsUp (booted (started b.value) n) 0 flash.entry (boot.device b.value) told.old told.new)
        (λ e. (1 ≤ e.1) × (end : Ended) × BootsUp end e.1 flash.entry e.0 told.old told.new)) }
{
    match boot_in(flash, &AnyManifest, &mut block[..BLOCK_BYTES as usize]) {
        BootEnd::Booted(booted, _) => {
            report_start(&booted, told);
            match Box::new(alloc, booted) {
                Ok(kept) => Some(Ok(kept)),
                Err(_) => None,
            }
        }
        end => {
            let number = report_end(&end, told);
            Some(Err((into_flash(end), number)))
        }
    }
}

/// Boots, for an agent of the bank that is started, and reports the end. Where no bank is started the number of the
/// end comes with the device. None where there is no memory for the bank or for an agent.
fn boot_agent<'a>(
    alloc: Global,
    flash: StepFlash<'a>,
    block: &mut [u8],
    told: &mut Report,
) -> Option<Result<Box<Agent<StepFlash<'a>>>, (StepFlash<'a>, u32)>>
    requires on { is_on flash ≡ true }
    requires room { block_bytes ≤ length block.old }
    ensures { IfSome result (λ end. MatchResult end
        (λ a. (b : Started) × (n : state.Numbers) × BeginsAgent b (moment a.value) (gone a.value)
        × BootsUp (booted b n) 0 flash.entry (device a.value) told.old told.new)
        (λ e. (1 ≤ e.1) × (end : Ended) × BootsUp end e.1 flash.entry e.0 told.old told.new)) }
{
    match booted_up(alloc, flash, block, told) {
        Some(Ok(booted)) => match agent_of(alloc, booted) {
            Some(agent) => Some(Ok(agent)),
            None => None,
        },
        Some(Err(left)) => Some(Err(left)),
        None => None,
    }
}

/// As `update`, on the device over the image and the package, with a buffer of 4096 bytes.
fn update_over(
    flash: StepFlash<'_>,
    block: &mut Vec<u8>,
    sending: Sending<'_>,
    steps: &mut [Step],
    room: &mut [u8],
    report: &mut Report,
) -> u32
    requires new { IsJustMade sending.file.now flash }
    requires block { block_bytes ≤ length block.old.items }
    ensures updates { TellsAnswer result →
        UpdatesBy (image_of flash.entry) sending.entry.file.now sending.entry.acceptance result report.old report.new
        steps.new room.new }
    ensures tells { TellsSteps (image_of flash.entry) result report.old steps.old room.old report.new steps.new room.new }
{
    let Sending { file, acceptance } = sending;
    let alloc = *block.allocator();
    let mut told = *report;
    match boot_agent(alloc, flash, block, &mut told) {
        Some(Ok(agent)) => {
            let Some((flash, outcome)) = install(alloc, agent, file, acceptance, block) else {
                return 7;
            };
            let number = outcome_number(&outcome);
            hand_over(flash, number, &told, steps, room, report)
        }
        Some(Err((flash, number))) => hand_over(flash, number, &told, steps, room, report),
        None => 7,
    }
}
