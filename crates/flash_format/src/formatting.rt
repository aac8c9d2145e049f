//! Formatting a flash.
ghost use Rattle.std.specs.Prelude.{◌≡◌, ◌⊎◌, ◌*◌, ℕ, List, Ok, Err, IfOk, IfErr, OnOk, IsTrue};
ghost use Rattle.base_core.specs.Block.{block_bytes};
ghost use Rattle.flash_core.specs.Calls.{Goes};
ghost use Rattle.flash_core.specs.Counts.{lowered_by};
ghost use Rattle.flash_core.specs.May.{Keeps};
ghost use Rattle.flash_core.specs.Touches.{TouchesOnly};
ghost use Rattle.flash_core.specs.Told.{NothingDirty};
ghost use Rattle.fwu_formats.specs.Layout.{blocks_needed};
ghost use Rattle.fwu_formats.specs.Package.{Toc, toc_of};
ghost use Rattle.fwu_model.specs.Answer.{images_of};
ghost use Rattle.fwu_formats.specs.Manifest.{is_complete, manifest_part};
ghost use Rattle.meta_layout.specs.Rows.{fitted};
ghost use Rattle.fip_tables.specs.Files.{Lacks, Tells};
ghost use Rattle.flash_format.specs.Formatted.{asked_layout, HasAtMost, HoldsImages, IsBlank, IsInOrder, IsMade, IsOrdered, IsRefusedFormat, IsUnlaid, IsWholeFormat};
ghost use Rattle.flash_format.specs.Places.{Erased};
ghost use Rattle.flash_format.specs.Choosing.{IsFilled, IsPlan, FormatTakes, writes_to_format};
ghost use Rattle.flash_format.specs.Stops.{flash_result, FormatFinishes, IfRefused, IsByVerdict, IsEarlyStop, IsOfLayout, ReadsPackage, RefusesInput, StopsEarly};
ghost use Rattle.flash_format.specs.declared.stops.FormatStop.TheVariants.{ReadFailed as FileFailed};
ghost use Rattle.flash_format.specs.Stops.{IsReadyDevice};

use crate::plan::Plan;
use crate::planning::plan;
use crate::records::write_records;
use crate::stops::FormatStop;
use crate::writing::{check_bank, fill};
use base_core::ImageRow;
use flash_core::Flash;
use host_io::Files;
use meta_layout::Layout;
use verify_core::Verifier;

/// What a flash was formatted with.
#[derive(Clone, Copy)]
pub struct Formatted {
    pub layout: Layout,
    /// The security version of the package.
    pub version: u32,
}

/// Tests bank 0 of a flash that was filled, and writes the metadata and the layout. The version of what is in the bank.
fn finish<D: Flash, V: Verifier>(
    flash: &mut D,
    layout: &Layout,
    verifier: &V,
) -> Result<u32, FormatStop>
    requires ready { IsReadyDevice D.Flash (blocks_needed layout.now) flash.old }
    requires erased { IsTrue D.tells → Erased 0 (block_bytes * 8) (D.told flash.old).now }

    ensures made { IfOk result (λ version. IsMade D.Flash (V.passes verifier.now) layout.now version flash.new) }
    ensures at_most { IsTrue D.tells → HasAtMost layout.now (D.told flash.new).now }
    ensures refused { IfRefused result (λ found. IsTrue D.tells →
        IsRefusedFormat (V.passes verifier.now) layout.now found (D.told flash.new).now) }
    ensures clean { FormatFinishes result (IsTrue D.tells → NothingDirty (D.told flash.old) → NothingDirty (D.told flash.new)) }
    ensures keeps { IsTrue D.tells → Keeps 0 (block_bytes * 3) (D.told flash.old) (D.told flash.new) }
    ensures touches { TouchesOnly 0 (block_bytes * 3) (D.writes flash.old) (D.writes flash.new) }
    // Where nothing was dirty: whatever a loss leaves, no layout is there before both replicas are, and this one only on a flash
    // that is formatted.
    ensures ordered { IsTrue D.tells → NothingDirty (D.told flash.old) → IsOrdered layout.now (D.told flash.new) }
    ensures whole { IsTrue D.tells → NothingDirty (D.told flash.old) →
        IsWholeFormat (V.passes verifier.now) layout.now (D.told flash.new) }
    ensures goes { Goes D.Flash (flash_result result) flash.old flash.new }
    ensures spent { OnOk result (D.arming flash.new ≡ lowered_by 3 (D.arming flash.old)) }
    ensures worn { IfRefused result (λ found. D.arming flash.new ≡ D.arming flash.old) }
    ensures refuses { IsByVerdict (V.passes verifier.now) layout.now.rows result }
    // It stops by the flash, or by what is in the bank.
    ensures stops { IfErr result (λ why. StopsEarly why → ⊥) }
{
    let _rows = layout.rows();
    let version = check_bank(flash, layout, verifier)?;
    write_records(flash, layout)?;
    Ok(version)
}

/// Writes what is planned, tests it, and writes the metadata and the layout.
fn carry_out<D: Flash, H: Files, V: Verifier>(
    flash: &mut D,
    plan: &Plan,
    files: &mut H,
    name: &str,
    verifier: &V,
) -> Result<u32, FormatStop>
    requires ready { IsReadyDevice D.Flash (blocks_needed plan.now.layout) flash.old }
    requires planned { IsPlan (H.contents files.old) name.now plan.now.layout plan.now.entries }

    ensures made { IfOk result (λ version. IsMade D.Flash (V.passes verifier.now) plan.now.layout version flash.new) }
    ensures refused { IfRefused result (λ found. IsTrue D.tells →
        IsRefusedFormat (V.passes verifier.now) plan.now.layout found (D.told flash.new).now) }
    ensures filled { FormatFinishes result (IsTrue D.tells →
        IsFilled (H.contents files.old) name.now plan.now.layout plan.now.entries (D.told flash.new)) }
    ensures failed { result ≡ Err FileFailed → IsTrue D.tells → IsUnlaid (D.told flash.new) }
    ensures keeps { IsTrue D.tells → Keeps 0 (block_bytes * blocks_needed plan.now.layout) (D.told flash.old) (D.told flash.new) }
    ensures touches { TouchesOnly 0 (block_bytes * blocks_needed plan.now.layout) (D.writes flash.old) (D.writes flash.new) }
    // At any exit block 0 goes first and the layout comes last, whatever a loss leaves.
    ensures ordered { IsTrue D.tells → IsInOrder (V.passes verifier.now) plan.now.layout (D.told flash.old) (D.told flash.new) }
    ensures goes { Goes D.Flash (flash_result result) flash.old flash.new }
    ensures spent { OnOk result (D.arming flash.new
        ≡ lowered_by (writes_to_format plan.now.layout plan.now.entries 3) (D.arming flash.old)) }
    ensures worn { IfRefused result (λ found. D.arming flash.new
        ≡ lowered_by (writes_to_format plan.now.layout plan.now.entries 0) (D.arming flash.old)) }
    ensures refuses { IsByVerdict (V.passes verifier.now) plan.now.layout.rows result }
    ensures stops { IsEarlyStop result → ⊥ }
    ensures reads { ReadsPackage H.Files name.now result files.old files.new }
{
    let _rows = plan.layout.rows();
    fill(flash, plan, files, name)?;
    finish(flash, &plan.layout, verifier)
}

/// Formats a flash with the layout of these rows and banks, and a firmware image package in bank 0,
/// which is accepted with all bits set.
///
/// Before the flash is touched the rows, banks and blocks are tested, then the file's table, then its images in the order of the
/// layout. Then block 0 is erased, with a barrier behind it, and after it the blocks up to the last bank's end. The images are
/// written to the starts of their slots in bank 0, and bank 0 is tested as a boot does, with a counter of 0. Only then the two
/// replicas are written, and after them the layout in block 0. So from that first barrier on the flash has no layout until it is
/// formatted whole.
///
/// A loss of power up to that barrier leaves the blocks behind block 0 as one before the call might have: where nothing was dirty
/// then, as they were. Where block 0 isn't guarded any bytes may stand in it, the old layout among them. A later loss leaves no
/// layout, and of each of the first eight blocks that is guarded no more than one before the call might have. Where nothing was
/// dirty then, that is the block as it was or without a seal. Or it leaves blocks 3 to 7 and the other banks erased, and a layout
/// only with both replicas.
pub fn format<D: Flash, H: Files, V: Verifier>(
    flash: &mut D,
    rows: &[ImageRow],
    banks: u32,
    files: &mut H,
    name: &str,
    verifier: &V,
) -> Result<Formatted, FormatStop>
    requires { IsTrue (D.on flash.old) }

    // What is refused before the flash is touched.
    ensures input { RefusesInput (H.contents files.old) name.now (asked_layout banks rows.now) (D.blocks flash.old) result }
    ensures untouched { IsEarlyStop result → flash.new ≡ flash.old }
    // A file that could not be read: the flash is as it was, or has no layout, whatever a loss leaves.
    ensures failed { result ≡ Err FileFailed → IsTrue D.tells → D.told flash.new ≡ D.told flash.old ⊎ IsUnlaid (D.told flash.new) }
    // A name that told files lack gives a file that could not be read, unless rows and banks are no layout; the flash is as it was.
    ensures missing { Lacks (H.contents files.old) name.now
        → (IsOfLayout result ⊎ (result ≡ Err FileFailed)) × (flash.new ≡ flash.old) }
    // Formatted: by the layout that was asked for.
    ensures given { IfOk result (λ done. fitted (asked_layout banks rows.now) (D.blocks flash.old) ≡ Ok done.layout) }
    ensures made { IfOk result (λ done. IsMade D.Flash (V.passes verifier.now) done.layout done.version flash.new) }
    // Refused: the flash has no layout, and what it is refused for is the verdict on what bank 0 holds.
    ensures refused { IfRefused result (λ found. IsTrue D.tells →
        IsRefusedFormat (V.passes verifier.now) (asked_layout banks rows.now) found (D.told flash.new).now) }
    // Either way bank 0 holds the package's images, and they aren't refused where they are a complete package that passes.
    ensures images { FormatFinishes result (IsTrue D.tells → (file : List ℕ) (toc : Toc) →
        Tells (H.contents files.old) name.now file → toc_of file ≡ Ok toc
        → HoldsImages (asked_layout banks rows.now) (images_of rows.now file toc) (D.told flash.new).now) }
    ensures blank { FormatFinishes result (IsTrue D.tells → IsBlank (asked_layout banks rows.now) (D.told flash.new).now) }
    ensures deserved { IfRefused result (λ found. IsTrue D.tells → (file : List ℕ) (toc : Toc) →
        Tells (H.contents files.old) name.now file → toc_of file ≡ Ok toc
        → IsTrue (is_complete rows.now (images_of rows.now file toc))
        → IsTrue (V.passes verifier.now (manifest_part (images_of rows.now file toc))) → ⊥) }
    // Either way nothing is dirty, so that a loss leaves just what is there.
    ensures clean { FormatFinishes result (IsTrue D.tells → NothingDirty (D.told flash.new)) }
    // At any exit, whatever a loss leaves: block 0 alone was touched, or a layout stands only with both replicas. The one that was
    // asked for stands only on a flash that is formatted whole, and until a loss no other layout is there.
    ensures ordered { IsTrue D.tells → IsInOrder (V.passes verifier.now) (asked_layout banks rows.now)
        (D.told flash.old) (D.told flash.new) }
    // Beyond the last bank nothing changes, at any exit.
    ensures keeps { IsTrue D.tells → Keeps 0 (block_bytes * blocks_needed (asked_layout banks rows.now))
        (D.told flash.old) (D.told flash.new) }
    // On every device, whatever its reads give: no block beyond the last bank is erased or programmed, at any exit.
    ensures touches { TouchesOnly 0 (block_bytes * blocks_needed (asked_layout banks rows.now))
        (D.writes flash.old) (D.writes flash.new) }
    ensures goes { Goes D.Flash (flash_result result) flash.old flash.new }
    // On every device, in total: an erase for each block up to the last bank's end. And a program for each piece of an image (of
    // untold files of as many pieces as a bank has room for), each replica and the layout. Where the bank is refused, the last two
    // are not there.
    ensures spent { IfOk result (λ done.
        FormatTakes (H.contents files.old) name.now done.layout 3 (D.arming flash.old) (D.arming flash.new)) }
    ensures worn { IfRefused result (λ found. FormatTakes (H.contents files.old) name.now
        (asked_layout banks rows.now) 0 (D.arming flash.old) (D.arming flash.new)) }
    ensures refuses { IsByVerdict (V.passes verifier.now) rows.now result }
    ensures reads { ReadsPackage H.Files name.now result files.old files.new }
{
    let plan = plan(rows, banks, flash.blocks(), files, name)?;
    let version = carry_out(flash, &plan, files, name, verifier)?;
    Ok(Formatted {
        layout: plan.layout,
        version,
    })
}
