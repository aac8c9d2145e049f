//! Why a file gives no table of a capsule.

ghost use Rattle.std.specs.Prelude.{◌≡◌};
ghost use Rattle.capsule_tables.specs.declared.faults.CapsuleStop.TheVariants as stop;

use fwu_formats::CapsuleFault;
use host_io::Failed;
use thiserror::Error;

/// Why a file gives no table.
#[derive(Clone, Copy, Debug, PartialEq, Eq, Error)]
pub enum CapsuleStop {
    /// It is no capsule: its first fault.
    #[error("the file is no capsule: {0}")]
    Fault(CapsuleFault),
    /// It could not be read.
    #[error("the file could not be read")]
    ReadFailed,
}

impl From<CapsuleFault> for CapsuleStop {
    ghost from_gives = { λ fault result. result ≡ stop.Fault fault };

    fn from(fault: CapsuleFault) -> CapsuleStop {
        CapsuleStop::Fault(fault)
    }
}

impl From<Failed> for CapsuleStop {
    ghost from_gives = { λ _ result. result ≡ stop.ReadFailed };

    fn from(_: Failed) -> CapsuleStop {
        CapsuleStop::ReadFailed
    }
}
