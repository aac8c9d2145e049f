//! The table of a package in a file.
ghost use Rattle.std.specs.Prelude.{◌≡◌, ◌+◌, ◌^◌, ◌<◌, ℕ, List, Ok, Err, All, IfOk, length};
ghost use Rattle.fwu_formats.specs.Package.{toc_of};
ghost use Rattle.fip_tables.specs.Files.{Lacks, Tells};
ghost use Rattle.flash_format.specs.Stops.{ReadsPackage, IsTableRead};
ghost use Rattle.flash_format.specs.declared.stops.FormatStop.TheVariants.{ReadFailed as FileFailed};

use crate::stops::{FormatStop, InputFault};
use fip_tables::{Toc, TocStop, read_toc};
use host_io::Files;

/// The table of a package in a file, where there is one, or the package's first fault. Each payload ends below 2 ^ 64, whatever
/// file it is.
pub fn read_table<H: Files>(files: &mut H, name: &str) -> Result<Toc, FormatStop>
    ensures told { (file : List ℕ) → Tells (H.contents files.old) name.now file → IsTableRead (toc_of file) result }
    // on any files: the table, or the fault, of some bytes
    ensures some { (bytes : List ℕ) × (length bytes < 2 ^ 64) × IsTableRead (toc_of bytes) result }
    // A name that told files lack is no package that is refused.
    ensures missing { Lacks (H.contents files.old) name.now → result ≡ Err FileFailed }
    ensures there { IfOk result (λ toc. Lacks (H.contents files.old) name.now → ⊥) }
    ensures ends { IfOk result (λ toc. All (λ e. e.offset + e.size < 2 ^ 64) toc.entries) }
    ensures reads { ReadsPackage H.Files name.now result files.old files.new }
{
    match read_toc(files, name) {
        Ok(toc) => Ok(toc),
        Err(TocStop::Fault(fault)) => Err(FormatStop::Input(InputFault::Package(fault))),
        Err(TocStop::ReadFailed) => Err(FormatStop::ReadFailed),
    }
}
