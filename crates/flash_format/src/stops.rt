//! Why a flash was not formatted.
ghost use Rattle.std.specs.Prelude.{◌≡◌};
ghost use Rattle.flash_format.specs.Choosing.{input_refusal};
ghost use Rattle.flash_format.specs.declared.stops.FormatStop.TheVariants.{Flash as FlashStopped, Input as InputRefused};

use base_core::Guid;
use fip_tables::ImageFault;
use flash_core::FlashStop;
use fwu_formats::{FipFault, LayoutFault};
use image_check::Verdict;
use thiserror::Error;

/// What is wrong with what was given: the first fault of the layout, the package, its images by their rows, and the bank.
#[derive(Clone, Copy, Debug, PartialEq, Eq, Error)]
pub enum InputFault {
    /// The rows and banks are no layout of the flash.
    #[error("no layout of the flash: {0}")]
    Layout(LayoutFault),
    /// The file is no package.
    #[error("the file is no package: {0}")]
    Package(FipFault),
    /// The package lacks the image of this type, the lowest image that has a fault.
    #[error("the package lacks the image {0:?}")]
    Missing(Guid),
    /// The image of this type, the lowest image that has a fault, is larger than its slot.
    #[error("the image {0:?} is larger than its slot")]
    TooLarge(Guid),
    /// The images, once they were in bank 0, were not good. They stand there, and the flash has no layout.
    #[error("the bank was not good: {0:?}")]
    Incomplete(Verdict),
}

/// Why a flash was not formatted.
#[derive(Clone, Copy, Debug, PartialEq, Eq, Error)]
pub enum FormatStop {
    #[error("{0}")]
    Input(InputFault),
    /// The file could not be read.
    #[error("the file could not be read")]
    ReadFailed,
    /// The flash stopped, and is off.
    #[error("{0}")]
    Flash(FlashStop),
}

impl From<FlashStop> for FormatStop {
    ghost from_gives = { λ stop e. e ≡ FlashStopped stop };

    fn from(stop: FlashStop) -> Self {
        FormatStop::Flash(stop)
    }
}

impl From<InputFault> for FormatStop {
    ghost from_gives = { λ fault e. e ≡ InputRefused fault };

    fn from(fault: InputFault) -> Self {
        FormatStop::Input(fault)
    }
}

impl From<ImageFault> for FormatStop {
    ghost from_gives = { λ fault e. e ≡ InputRefused (input_refusal fault) };

    fn from(fault: ImageFault) -> Self {
        match fault {
            ImageFault::Missing(guid) => FormatStop::Input(InputFault::Missing(guid)),
            ImageFault::TooLarge(guid) => FormatStop::Input(InputFault::TooLarge(guid)),
        }
    }
}
