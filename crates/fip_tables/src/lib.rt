//! Firmware image packages (the FIP layout of Trusted Firmware-A): their tables of contents, read
//! from a stream or a file without memory, and packages made from payloads.
#![tactic(auto)]

mod entries;
mod faults;
mod frame;
mod images;
mod laws;
mod outline;
mod payloads;
mod read;
mod reader;
mod stream;
mod toc;

pub use entries::{Entries, Entry};
pub use faults::{PackFault, PackStop};
pub use frame::{Frame, package_frame};
pub use images::{ImageEntries, ImageFault, images_of, present_images_of};
pub use laws::{fronts_decide, passed_is_read};
pub use outline::{Outline, check_parts};
pub use payloads::{Part, Parts, outlines, pack};
pub use read::{payload_at, read_toc};
pub use stream::StreamToc;
pub use toc::{Toc, TocStop};
