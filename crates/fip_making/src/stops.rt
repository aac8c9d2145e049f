//! Why a command ended before all was done.

ghost use Rattle.std.specs.Prelude.{◌≡◌};
ghost use Rattle.fip_making.specs.Stops.{capsule_stopped_by, packed_by, stop_of_table, unmade_by, unread_by};
ghost use Rattle.fip_making.specs.declared.stops.Stop.TheVariants as stop;

use base_core::{Guid, NoMemory as NoMemoryFound};
use capsule_tables::{CapsuleFault, CapsuleStop};
use fip_tables::{PackFault, PackStop, TocStop};
use fwu_formats::{FipFault, ManifestFault};
use host_io::{Failed, JoinStop, ReadStop};
use std::alloc::AllocError;
use thiserror::Error;

/// Why a command ended before all was done.
#[derive(Clone, Copy, Debug, PartialEq, Eq, Error)]
pub enum Stop {
    /// The words ask for nothing.
    #[error("the words are not those of a command")]
    Usage,
    /// A file, or the source, could not be read or written.
    #[error("a file, or the source, could not be read or written")]
    FileFault,
    /// The sink took no more.
    #[error("the sink took no more")]
    SinkFault,
    /// A file is no package: its first fault.
    #[error("a file is no package: {0}")]
    NotFip(FipFault),
    /// The package has no entry of a type that the words name: the first such.
    #[error("the package has no entry {0:?}")]
    NoSuchEntry(Guid),
    /// The payloads fit no package, or no capsule: the first fault.
    #[error("the payloads are not packed: {0}")]
    NotPacked(PackFault),
    /// The images fit no manifest.
    #[error("the images fit no manifest: {0}")]
    NoManifest(ManifestFault),
    /// The source gave more than 4,294,967,296 bytes.
    #[error("the source gave more than 4,294,967,296 bytes")]
    TooLong,
    /// A file is no capsule: its first fault.
    #[error("a file is no capsule: {0}")]
    NotCapsule(CapsuleFault),
    #[error("no memory")]
    NoMemory,
}

impl From<NoMemoryFound> for Stop {
    ghost from_gives = { λ _ stopped. stopped ≡ stop.NoMemory };

    fn from(_: NoMemoryFound) -> Stop {
        Stop::NoMemory
    }
}

impl From<AllocError> for Stop {
    ghost from_gives = { λ _ stopped. stopped ≡ stop.NoMemory };

    fn from(_: AllocError) -> Stop {
        Stop::NoMemory
    }
}

// Of a file that was not made.
impl From<JoinStop> for Stop {
    ghost from_gives = { λ given stopped. stopped ≡ unmade_by given };

    fn from(given: JoinStop) -> Stop {
        match given {
            JoinStop::Unread | JoinStop::Failed => Stop::FileFault,
            JoinStop::NoMemory => Stop::NoMemory,
        }
    }
}

// Of a file that was not read whole.
impl From<ReadStop> for Stop {
    ghost from_gives = { λ given stopped. stopped ≡ unread_by given };

    fn from(given: ReadStop) -> Stop {
        match given {
            ReadStop::Failed => Stop::FileFault,
            ReadStop::NoMemory => Stop::NoMemory,
        }
    }
}

// Of a file that was not read, or of the source.
impl From<Failed> for Stop {
    ghost from_gives = { λ _ stopped. stopped ≡ stop.FileFault };

    fn from(_: Failed) -> Stop {
        Stop::FileFault
    }
}

// Of what was not packed, into a package or a capsule.
impl From<PackStop> for Stop {
    ghost from_gives = { λ given stopped. stopped ≡ packed_by given };

    fn from(given: PackStop) -> Stop {
        match given {
            PackStop::Fault(fault) => Stop::NotPacked(fault),
            PackStop::NoMemory => Stop::NoMemory,
        }
    }
}

impl From<TocStop> for Stop {
    ghost from_gives = { λ given stopped. stopped ≡ stop_of_table given };

    fn from(given: TocStop) -> Stop {
        match given {
            TocStop::Fault(fault) => Stop::NotFip(fault),
            TocStop::ReadFailed => Stop::FileFault,
        }
    }
}

impl From<CapsuleStop> for Stop {
    ghost from_gives = { λ given stopped. stopped ≡ capsule_stopped_by given };

    fn from(given: CapsuleStop) -> Stop {
        match given {
            CapsuleStop::Fault(fault) => Stop::NotCapsule(fault),
            CapsuleStop::ReadFailed => Stop::FileFault,
        }
    }
}

impl Stop {
    ghost use Rattle.fip_making.specs.Stops.{exit_status};

    /// The exit status.
    pub fn status(&self) -> u8
        ensures { result ≡ exit_status self.now }
    {
        match self {
            Stop::Usage => 1,
            Stop::FileFault => 2,
            Stop::SinkFault => 3,
            Stop::NotFip(_) => 4,
            Stop::NoSuchEntry(_) => 5,
            Stop::NotPacked(_) | Stop::NoManifest(_) => 6,
            Stop::TooLong => 7,
            Stop::NotCapsule(_) => 8,
            Stop::NoMemory => 9,
        }
    }
}
