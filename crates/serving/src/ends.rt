//! How a serving ends.
ghost use Rattle.std.specs.Prelude.{◌≡◌};
ghost use Rattle.fwu_journal.specs.Shown.{reply};
ghost use Rattle.serving.specs.Ends.{end_by, end_of_stop, status_of};
ghost use Rattle.serving.specs.declared.ends.ServeEnd.TheVariants as end;

use base_core::NoMemory;
use fwu_journal::Reply;
use fwu_model::NoBoot;
use std::alloc::AllocError;
use wire_frames::FrameStop;

/// Why a serving ended.
#[derive(Clone, Copy, Debug, PartialEq, Eq)]
pub enum ServeEnd {
    /// The source is at its end, between two frames.
    End,
    /// A read of the source failed.
    ReadFailed,
    /// A put into the sink failed.
    SinkFailed,
    /// The flash failed.
    FlashFault,
    /// No bank was started.
    NotBooted(NoBoot),
    /// The source gave byte 1,073,741,825.
    TooLong,
    /// Memory was wanting, before a turn or at a put.
    NoMemory,
    /// A length outside 8 to 4,108, or an end inside a frame.
    BadFrame,
    /// Power was lost.
    PowerLost,
}

impl ServeEnd {
    /// The exit status of a program that ends so.
    pub fn status(self) -> u8
        ensures { result ≡ status_of self }
    {
        match self {
            ServeEnd::End => 0,
            ServeEnd::ReadFailed => 2,
            ServeEnd::SinkFailed => 3,
            ServeEnd::FlashFault => 5,
            ServeEnd::NotBooted(_) => 6,
            ServeEnd::TooLong => 8,
            ServeEnd::NoMemory => 9,
            ServeEnd::BadFrame => 11,
            ServeEnd::PowerLost => 12,
        }
    }
}

impl From<AllocError> for ServeEnd {
    ghost from_gives = { λ _ result. result ≡ end.NoMemory };

    fn from(_: AllocError) -> Self {
        ServeEnd::NoMemory
    }
}

impl From<NoMemory> for ServeEnd {
    ghost from_gives = { λ _ result. result ≡ end.NoMemory };

    fn from(_: NoMemory) -> Self {
        ServeEnd::NoMemory
    }
}

/// How a serving ends where no frame was read.
pub fn end_of_stop(why: FrameStop) -> ServeEnd
    ensures { result ≡ end_of_stop why }
{
    match why {
        FrameStop::End => ServeEnd::End,
        FrameStop::Failed => ServeEnd::ReadFailed,
        FrameStop::TooLong => ServeEnd::TooLong,
        FrameStop::BadFrame => ServeEnd::BadFrame,
    }
}

/// How a serving ends by a turn with this reply, or that it goes on. No turn of a serving reads a file.
pub fn end_by(last: &Reply) -> Result<(), ServeEnd>
    ensures { result ≡ end_by (reply last.now) }
{
    match last {
        Reply::Fault => Err(ServeEnd::FlashFault),
        Reply::NotBooted(why) => Err(ServeEnd::NotBooted(*why)),
        Reply::Lost => Err(ServeEnd::PowerLost),
        _ => Ok(()),
    }
}
