//! Writing the images of a plan, and testing them.
ghost use Rattle.std.specs.Prelude.{◌≡◌, ◌+◌, ◌*◌, IsTrue, IfOk, IfErr, OnOk};
ghost use Rattle.base_core.specs.Block.{block_bytes};
ghost use Rattle.flash_core.specs.Calls.{Goes};
ghost use Rattle.flash_core.specs.Counts.{lowered_by};
ghost use Rattle.flash_core.specs.May.{Keeps};
ghost use Rattle.flash_core.specs.Touches.{TouchesOnly};
ghost use Rattle.fwu_formats.specs.Layout.{blocks_needed};
ghost use Rattle.image_check.specs.Passed.{HasPassed};
ghost use Rattle.image_check.specs.Verdict.{verdict_on};
ghost use Rattle.image_check.specs.declared.bank.Verdict.TheVariants.{Good};
ghost use Rattle.flash_format.specs.Places.{IsBare, Erased};
ghost use Rattle.flash_format.specs.Choosing.{IsFilled, IsPlan, pieces_in};
ghost use Rattle.flash_format.specs.Stops.{flash_result, IfRefused, IsByVerdict, ReadsPackage, RefusesNothing, StopsEarly};
ghost use Rattle.flash_format.specs.Stops.{ClearsFirst, IsReadyDevice};

use crate::bank::write_bank;
use crate::erasing::erase_all;
use crate::plan::Plan;
use crate::stops::{FormatStop, InputFault};
use flash_core::Flash;
use host_io::Files;
use image_check::{LANES_BYTES, Verdict, check};
use meta_layout::Layout;
use verify_core::Verifier;

/// Erases the blocks up to the last bank's end, and writes the images into bank 0.
pub fn fill<D: Flash, H: Files>(
    flash: &mut D,
    plan: &Plan,
    files: &mut H,
    name: &str,
) -> Result<(), FormatStop>
    requires ready { IsReadyDevice D.Flash (blocks_needed plan.now.layout) flash.old }
    requires planned { IsPlan (H.contents files.old) name.now plan.now.layout plan.now.entries }

    ensures keeps { IsTrue D.tells → Keeps 0 (block_bytes * blocks_needed plan.now.layout) (D.told flash.old) (D.told flash.new) }
    // On every device, whatever its reads give: no block beyond the last bank is erased or programmed.
    ensures touches { TouchesOnly 0 (block_bytes * blocks_needed plan.now.layout) (D.writes flash.old) (D.writes flash.new) }
    ensures clears { ClearsFirst D.Flash flash.old flash.new }
    ensures erased { OnOk (flash_result result) (IsTrue D.tells → Erased 0 (block_bytes * 8) (D.told flash.new).now) }
    // A file that could not be read leaves it bare too.
    ensures bare { OnOk (flash_result result) (IsTrue D.tells → IsBare (D.told flash.new)) }
    ensures filled { OnOk result (IsTrue D.tells →
        IsFilled (H.contents files.old) name.now plan.now.layout plan.now.entries (D.told flash.new)) }
    ensures goes { Goes D.Flash (flash_result result) flash.old flash.new }
    // on every device: one erase of each block, and one program of each piece of an image
    ensures spent { OnOk result (D.arming flash.new
        ≡ lowered_by (blocks_needed plan.now.layout + pieces_in plan.now.entries) (D.arming flash.old)) }
    ensures reads { ReadsPackage H.Files name.now result files.old files.new }
    ensures stops { RefusesNothing result }
{
    let _rows = plan.layout.rows();
    erase_all(flash, plan.layout.blocks())?;
    write_bank(flash, &plan.layout, files, name, plan.entries.as_slice())?;
    flash.barrier()?;
    Ok(())
}

/// Tests bank 0, and gives its version.
pub fn check_bank<D: Flash, V: Verifier>(
    flash: &mut D,
    layout: &Layout,
    verifier: &V,
) -> Result<u32, FormatStop>
    requires { IsReadyDevice D.Flash (blocks_needed layout.now) flash.old }

    ensures good { IfOk result (λ version. IsTrue D.tells →
        verdict_on (V.passes verifier.now) 0 layout.now (D.told flash.old).now 0 ≡ Good version) }
    ensures passed { IfOk result (λ version. HasPassed (V.passes verifier.now) layout.now.rows 0 (Good version)) }
    ensures refuses { IsByVerdict (V.passes verifier.now) layout.now.rows result }
    ensures found { IfRefused result (λ found. IsTrue D.tells →
        verdict_on (V.passes verifier.now) 0 layout.now (D.told flash.old).now 0 ≡ found) }
    ensures content { IsTrue D.tells → D.told flash.new ≡ D.told flash.old }
    // on every device: nothing is erased or programmed
    ensures writes { D.writes flash.new ≡ D.writes flash.old }
    ensures goes { Goes D.Flash (flash_result result) flash.old flash.new }
    ensures arming { OnOk (flash_result result) (D.arming flash.new ≡ D.arming flash.old) }
    // It stops by the flash, or by what is in the bank.
    ensures stops { IfErr result (λ why. StopsEarly why → ⊥) }
{
    let mut buffer = [0; LANES_BYTES];
    let _banks = layout.banks();
    match check(flash, layout, 0, 0, &mut buffer, verifier)? {
        Verdict::Good { version } => Ok(version),
        found => Err(FormatStop::Input(InputFault::Incomplete(found))),
    }
}
