//! The boot of a flash that lies in memory.
ghost use Rattle.std.specs.Prelude.{◌≡◌, ◌⊎◌, ◌≤◌, [], length};
ghost use Rattle.base_core.specs.Block.{block_bytes};
ghost use Rattle.step_flash.specs.Flash.{image_of};
ghost use Rattle.fwu_c.specs.Boots.{BootsBy};
ghost use Rattle.fwu_c.specs.Handed.{IsJustMade, TellsSteps};

use crate::handing::{hand_over, unmade_number};
use crate::report::{Report, into_flash, report_end};
use base_core::BLOCK_BYTES;
use early_boot::boot_in;
use std::alloc::Global;
use step_flash::{Step, StepFlash};
use verify_core::AnyManifest;

/// Boots a flash that lies in memory, and tells the steps by which the flash becomes what the boot makes of it.
///
/// 0: a bank is to be started, once the steps are done in their order. 1: block 0 is no layout. 2: neither replica is metadata. 3:
/// neither bank may be started. 5: there was no room for one more step. 6: these bytes are no flash. 7: memory, or room for the
/// steps' bytes, is wanting.
#[unsafe(no_mangle)]
pub extern "C" fn fwu_boot(
    alloc: Global,
    image: &[u8],
    steps: &mut [Step],
    room: &mut [u8],
    report: &mut Report,
) -> u32
    ensures answers { result ≤ 7 }
    ensures boots { result ≤ 5 → BootsBy image.now result report.old report.new steps.new room.new }
    // Whatever it answers: no loss of power, no erase or program in block 0, which fields stay, and at 1, 2 and 5 to 7 what that
    // number says.
    ensures tells { TellsSteps image.now result report.old steps.old room.old report.new steps.new room.new }
{
    let flash = match StepFlash::new(alloc, image, steps.len()) {
        Ok(flash) => flash,
        Err(why) => return unmade_number(why),
    };
    let Ok(mut block) = Vec::from_elem(alloc, 0u8, BLOCK_BYTES as usize) else {
        return 7;
    };
    boot_over(flash, &mut block, steps, room, report)
}

/// As `fwu_boot`, on the device over the image, with a buffer of 4096 bytes, in which images are hashed one after another.
fn boot_over(
    flash: StepFlash<'_>,
    block: &mut [u8],
    steps: &mut [Step],
    room: &mut [u8],
    report: &mut Report,
) -> u32
    requires new { IsJustMade [] flash }
    requires block { block_bytes ≤ length block.old }
    ensures answers { (result ≤ 5) ⊎ (result ≡ 7) }
    ensures boots { result ≤ 5 → BootsBy (image_of flash.entry) result report.old report.new steps.new room.new }
    ensures tells { TellsSteps (image_of flash.entry) result report.old steps.old room.old report.new steps.new room.new }
{
    let end = boot_in(flash, &AnyManifest, &mut block[..BLOCK_BYTES as usize]);
    let mut told = *report;
    let number = report_end(&end, &mut told);
    hand_over(into_flash(end), number, &told, steps, room, report)
}
