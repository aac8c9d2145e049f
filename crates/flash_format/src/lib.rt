//! Formatting a flash: a layout, and a firmware image package in bank 0 (the places of a flash and their
//! formats are an own format). Nothing here takes memory.
#![tactic(auto)]

mod bank;
mod erasing;
mod formatting;
mod images;
mod plan;
mod planning;
mod records;
mod stops;
mod table;
mod writing;

pub use formatting::{Formatted, format};
pub use stops::{FormatStop, InputFault};
