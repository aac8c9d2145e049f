//! The table of a file that is to be sent.
ghost use Rattle.std.specs.Prelude.{◌≡◌, ℕ, List, IfErr, IfOk};
ghost use Rattle.host_io.specs.Reads.{ReadsFile};
ghost use Rattle.fwu_formats.specs.Capsule.{capsule_of, is_capsule};
ghost use Rattle.fwu_formats.specs.Package.{toc_of};
ghost use Rattle.fwu_model.specs.Answer.{table_in, table_or};
ghost use Rattle.fwu_model.specs.Reply as reply;
ghost use Rattle.fip_tables.specs.Files.{Lacks, Tells};
ghost use Rattle.script_turns.specs.Tables.{HasTableCause, ReadsTable};
ghost use Rattle.script_turns.specs.declared.tables.TableStop.TheVariants as stop;

use capsule_tables::{CapsuleFault, CapsuleStop, FMP_GUID, read_capsule};
use fip_tables::{Toc, TocStop, read_toc};
use fwu_formats::FipFault;
use host_io::{Failed, Files};
use thiserror::Error;

/// Why a file gives no table to send by.
#[derive(Clone, Copy, Debug, PartialEq, Eq, Error)]
pub enum TableStop {
    /// It is no package: its first fault.
    #[error("the file is no package: {0}")]
    Package(FipFault),
    /// It begins as a capsule, and is none: its first fault.
    #[error("the file is no capsule: {0}")]
    Capsule(CapsuleFault),
    /// It could not be read, or there is none of this name.
    #[error("the file could not be read, or there is none of this name")]
    ReadFailed,
}

/// Whether the file begins with the UUID of capsules.
fn is_capsule<H: Files>(files: &mut H, name: &str) -> Result<bool, TableStop>
    ensures told { IfOk result (λ found. (file : List ℕ) → Tells (H.contents files.old) name.now file
        → found ≡ is_capsule file) }
    ensures there { IfOk result (λ found. Lacks (H.contents files.old) name.now → ⊥) }
    ensures stops { IfErr result (λ why. why ≡ stop.ReadFailed) }
    ensures reads { ReadsFile H.Files name.now files.old files.new }
    ensures cause { HasTableCause (H.contents files.old) name.now (H.faults files.old)
        (H.faults files.new) result }
{
    let size = match files.size(name) {
        Ok(Some(size)) => size,
        Ok(None) | Err(Failed) => return Err(TableStop::ReadFailed),
    };
    if size < 16 {
        return Ok(false);
    }
    let mut front = [0u8; 16];
    match files.read_at(name, 0, &mut front) {
        Ok(()) => Ok(front == FMP_GUID),
        Err(Failed) => Err(TableStop::ReadFailed),
    }
}

/// The table of a package.
fn package_table<H: Files>(files: &mut H, name: &str) -> Result<Toc, TableStop>
    ensures { ReadsTable H.Files (λ file. table_or reply.BadPackage (toc_of file)) name.now result files.old files.new }
{
    match read_toc(files, name) {
        Ok(toc) => Ok(toc),
        Err(TocStop::Fault(fault)) => Err(TableStop::Package(fault)),
        Err(TocStop::ReadFailed) => Err(TableStop::ReadFailed),
    }
}

/// The table of a capsule.
fn capsule_table<H: Files>(files: &mut H, name: &str) -> Result<Toc, TableStop>
    ensures { ReadsTable H.Files (λ file. table_or reply.BadCapsule (capsule_of file)) name.now result files.old files.new }
{
    match read_capsule(files, name) {
        Ok(toc) => Ok(toc),
        Err(CapsuleStop::Fault(fault)) => Err(TableStop::Capsule(fault)),
        Err(CapsuleStop::ReadFailed) => Err(TableStop::ReadFailed),
    }
}

/// The table that a file is sent by: what begins with the UUID of capsules is read as one, and any other file as a package. The
/// error is a fault, of a told file its first, or that a read failed or no file has the name. Nothing here takes memory.
pub fn read_table<H: Files>(files: &mut H, name: &str) -> Result<Toc, TableStop>
    ensures { ReadsTable H.Files table_in name.now result files.old files.new }
{
    if is_capsule(files, name)? {
        capsule_table(files, name)
    } else {
        package_table(files, name)
    }
}
