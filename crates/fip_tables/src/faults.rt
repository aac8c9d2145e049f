//! Why parts are not packed.

ghost use Rattle.std.specs.Prelude.{◌≡◌};
ghost use Rattle.fip_tables.specs.declared.faults.PackStop.TheVariants as stop;

use std::alloc::AllocError;
use thiserror::Error;

/// Why parts cannot be packed, the first fault.
#[derive(Clone, Copy, Debug, PartialEq, Eq, Error)]
pub enum PackFault {
    /// More than 64 parts.
    #[error("more than 64 parts")]
    TooMany,
    /// The lowest part that has the type of an earlier one.
    #[error("part {0} has the type of an earlier one")]
    Duplicate(u32),
    /// The lowest part that has the nil UUID.
    #[error("part {0} has the nil UUID")]
    NilGuid(u32),
    /// The alignment is no power of two from 1 to 4096.
    #[error("the alignment is no power of two from 1 to 4096")]
    BadAlign,
    /// The package, or the capsule, would have more than 67,108,864 bytes.
    #[error("what is made would have more than 67,108,864 bytes")]
    TooLarge,
}

/// Why no package was made.
#[derive(Clone, Copy, Debug, PartialEq, Eq, Error)]
pub enum PackStop {
    #[error("{0}")]
    Fault(PackFault),
    #[error("no memory")]
    NoMemory,
}

impl From<PackFault> for PackStop {
    ghost from_gives = { λ fault result. result ≡ stop.Fault fault };

    fn from(fault: PackFault) -> PackStop {
        PackStop::Fault(fault)
    }
}

impl From<AllocError> for PackStop {
    ghost from_gives = { λ _ result. result ≡ stop.NoMemory };

    fn from(_: AllocError) -> PackStop {
        PackStop::NoMemory
    }
}
