//! Why no list was read.

ghost use Rattle.std.specs.Prelude.{◌≡◌};
ghost use Rattle.allow_list.specs.declared.stops.ListStop.TheVariants as stop;

use host_io::Failed;
use thiserror::Error;

/// Why no list was read from a file.
#[derive(Clone, Copy, Debug, PartialEq, Eq, Error)]
pub enum ListStop {
    /// The file is not there, or the outside failed, and the files counted a fault.
    #[error("the list could not be read")]
    Failed,
    /// The first line, from 1, that is not 64 hexadecimal digits and a line end.
    #[error("line {0} is not 64 hexadecimal digits and a line end")]
    BadLine(u64),
    /// There is no memory for one more digest.
    #[error("no memory for the digests of the list")]
    NoMemory,
}

impl From<Failed> for ListStop {
    ghost from_gives = { λ _ stopped. stopped ≡ stop.Failed };

    fn from(_: Failed) -> ListStop {
        ListStop::Failed
    }
}
