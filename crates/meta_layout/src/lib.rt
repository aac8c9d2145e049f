//! The layout of a flash (own format), and the metadata of its firmware store (DEN0118), versions 2 and 1.
//! Blocks are read exactly, with the first fault, and written in their one spelling. Nothing here takes memory.
#![tactic(auto)]

mod block;
mod bytes;
mod entries;
mod fields;
mod first;
mod layout;
mod lists;
mod meta;
mod read;
mod rows;
mod write;

pub use fwu_formats::{BankState, LayoutFault, MetaFault};
pub use layout::Layout;
pub use lists::{BankBits, Bits, States};
pub use meta::Meta;
pub use rows::directory_guid;
