//! The flash of a platform in the partitions of a device with a GUID partition table (UEFI). The table
//! is read and repaired, and the partitions are seen as one flash.
//!
//! A sector is one block of 4096 bytes, and an entry has 128 bytes.
#![tactic(auto)]

mod headers;
mod layout;
mod mapped;
mod partitions;
mod reading;
mod repairs;
mod steps;
mod table;

pub use layout::{PlaceFault, Places};
pub use mapped::{Mapped, Start, losses_are_seen_through_places};
pub use partitions::{Partition, places};
pub use reading::{GptStop, Table, a_copy_is_its_bytes, read_table};
pub use repairs::{repair_table, repairs_leave_the_partitions};
pub use table::{TableCopy, WhichTable};
