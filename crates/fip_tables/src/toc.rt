//! A package's table of contents.

ghost use Rattle.std.specs.Prelude.{◌≡◌};
ghost use Rattle.fip_tables.specs.declared.toc.TocStop.TheVariants as stop;

use crate::entries::Entries;
use fwu_formats::FipFault;
use std::marker::Model;
use thiserror::Error;

/// The table of contents of a package: its serial number, its flags, and its entries in order.
#[derive(Drop)]
pub struct Toc {
    pub serial: u32,
    pub flags: u64,
    pub entries: Entries,
}

impl Model for Toc {
    ghost use Rattle.fwu_formats.specs.Package.{Toc as Contents};

    ghost Value = { Contents };

    ghost view = { λ t. record { serial = t.serial; flags = t.flags; entries = t.entries } };
}

/// Why a file gives no table.
#[derive(Clone, Copy, Debug, PartialEq, Eq, Error)]
pub enum TocStop {
    /// It is no package: its first fault.
    #[error("the file is no package: {0}")]
    Fault(FipFault),
    /// It could not be read.
    #[error("the file could not be read")]
    ReadFailed,
}

impl From<FipFault> for TocStop {
    ghost from_gives = { λ fault result. result ≡ stop.Fault fault };

    fn from(fault: FipFault) -> TocStop {
        TocStop::Fault(fault)
    }
}
