//! What is to be written: the layout, and the entries of its images. It is found before the flash is touched.
ghost use Rattle.std.specs.Prelude.{◌≡◌, ◌⊎◌, ℕ, List, Ok, Err, IfOk, IfErr};
ghost use Rattle.fwu_formats.specs.Package.{toc_of};
ghost use Rattle.meta_layout.specs.Rows.{fitted};
ghost use Rattle.fip_tables.specs.Files.{Lacks, Tells};
ghost use Rattle.flash_format.specs.Choosing.{refusal_by};
ghost use Rattle.flash_format.specs.Formatted.{asked_layout};
ghost use Rattle.flash_format.specs.Choosing.{IsPlan};
ghost use Rattle.flash_format.specs.Stops.{RefusesAs, IsOfBytes, IsOfLayout, ReadsPackage, RefusesInput, StopsEarly};
ghost use Rattle.flash_format.specs.declared.stops.FormatStop.TheVariants.{ReadFailed as FileFailed};

use crate::plan::Plan;
use crate::stops::{FormatStop, InputFault};
use crate::table::read_table;
use base_core::ImageRow;
use fip_tables::images_of;
use host_io::Files;
use meta_layout::Layout;

/// The entries of a layout's images in a package.
fn plan_of<H: Files>(files: &mut H, name: &str, layout: Layout) -> Result<Plan, FormatStop>
    ensures layout { IfOk result (λ plan. plan.layout ≡ layout) }
    ensures plans { IfOk result (λ plan. IsPlan (H.contents files.old) name.now plan.layout plan.entries) }
    ensures answers { (file : List ℕ) → Tells (H.contents files.old) name.now file →
        RefusesAs (refusal_by (Ok layout) (toc_of file)) result }
    ensures some { IsOfBytes (Ok layout) result }
    ensures missing { Lacks (H.contents files.old) name.now → result ≡ Err FileFailed }
    ensures other { IsOfLayout result → ⊥ }
    ensures stops { IfErr result StopsEarly }
    ensures reads { ReadsPackage H.Files name.now result files.old files.new }
{
    let toc = read_table(files, name)?;
    let _rows = layout.rows();
    let entries = images_of(layout.rows(), &toc)?;
    Ok(Plan { layout, entries })
}

/// The layout of these rows and banks on a flash of so many blocks, and the entries of its images in a package. Or it is the
/// first fault: of the layout, of the package, and of the lowest image that has one.
pub fn plan<H: Files>(
    rows: &[ImageRow],
    banks: u32,
    blocks: u32,
    files: &mut H,
    name: &str,
) -> Result<Plan, FormatStop>
    ensures fits { IfOk result (λ plan. fitted (asked_layout banks rows.now) blocks ≡ Ok plan.layout) }
    ensures plans { IfOk result (λ plan. IsPlan (H.contents files.old) name.now plan.layout plan.entries) }
    ensures input { RefusesInput (H.contents files.old) name.now (asked_layout banks rows.now) blocks result }
    ensures missing { Lacks (H.contents files.old) name.now → IsOfLayout result ⊎ (result ≡ Err FileFailed) }
    ensures stops { IfErr result StopsEarly }
    ensures reads { ReadsPackage H.Files name.now result files.old files.new }
{
    match Layout::make(rows, banks, blocks) {
        Ok(layout) => plan_of(files, name, layout),
        Err(fault) => Err(FormatStop::Input(InputFault::Layout(fault))),
    }
}
