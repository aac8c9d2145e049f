//! Why a call stops.

ghost use Rattle.std.specs.Prelude.{◌≡◌};
ghost use Rattle.host_io.specs.declared.stops.JoinStop.TheVariants as join;
ghost use Rattle.host_io.specs.declared.stops.ReadStop.TheVariants as read_stop;
ghost use Rattle.host_io.specs.declared.stops.WriteStop.TheVariants as stop;

use base_core::NoMemory;
use std::alloc::AllocError;
use thiserror::Error;

/// A call on the outside failed, and its object counted a fault.
#[derive(Clone, Copy, Debug, PartialEq, Eq, Error)]
#[error("a call on the outside failed")]
pub struct Failed;

/// Why a file was not read whole.
#[derive(Clone, Copy, Debug, PartialEq, Eq, Error)]
pub enum ReadStop {
    /// The file is not there, or the outside failed, and the object counted a fault.
    #[error("the file could not be read")]
    Failed,
    /// There is no memory for its bytes.
    #[error("no memory for what was to be read")]
    NoMemory,
}

impl From<Failed> for ReadStop {
    ghost from_gives = { λ _ stopped. stopped ≡ read_stop.Failed };

    fn from(_: Failed) -> ReadStop {
        ReadStop::Failed
    }
}

impl From<AllocError> for ReadStop {
    ghost from_gives = { λ _ stopped. stopped ≡ read_stop.NoMemory };

    fn from(_: AllocError) -> ReadStop {
        ReadStop::NoMemory
    }
}

/// Why a write stopped.
#[derive(Clone, Copy, Debug, PartialEq, Eq, Error)]
pub enum WriteStop {
    /// The outside failed, and the object counted a fault.
    #[error("a write to the outside failed")]
    Failed,
    /// The object had no memory for the bytes, and is unchanged.
    #[error("no memory for what was to be written")]
    NoMemory,
}

impl From<Failed> for WriteStop {
    ghost from_gives = { λ _ stopped. stopped ≡ stop.Failed };

    fn from(_: Failed) -> WriteStop {
        WriteStop::Failed
    }
}

impl From<NoMemory> for WriteStop {
    ghost from_gives = { λ _ stopped. stopped ≡ stop.NoMemory };

    fn from(_: NoMemory) -> WriteStop {
        WriteStop::NoMemory
    }
}

impl From<AllocError> for WriteStop {
    ghost from_gives = { λ _ stopped. stopped ≡ stop.NoMemory };

    fn from(_: AllocError) -> WriteStop {
        WriteStop::NoMemory
    }
}

/// Why no file was made of a frame and pieces of files.
#[derive(Clone, Copy, Debug, PartialEq, Eq, Error)]
pub enum JoinStop {
    /// A piece could not be read. The object counted a fault, and no write: no file has changed.
    #[error("a piece of the file could not be read")]
    Unread,
    /// The file could not be written. The object counted a fault, and a write that failed.
    #[error("the file could not be written")]
    Failed,
    /// The object had no memory for the bytes, and is unchanged.
    #[error("no memory for what was to be written")]
    NoMemory,
}

impl From<AllocError> for JoinStop {
    ghost from_gives = { λ _ stopped. stopped ≡ join.NoMemory };

    fn from(_: AllocError) -> JoinStop {
        JoinStop::NoMemory
    }
}
