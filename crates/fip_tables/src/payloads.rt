//! Packages made from payloads in memory.

ghost use Rattle.std.specs.Prelude.{◌≡◌, ◌≢◌, IfOk, map};
ghost use Rattle.fwu_formats.specs.Package.{packed};
ghost use Rattle.fip_tables.specs.Again.{ReadsAgain};
ghost use Rattle.fip_tables.specs.Packing.{IsByFault, pack_fault, zeroed};

use crate::faults::PackStop;
use crate::frame::package_frame;
use crate::outline::Outline;
use base_core::Guid;
use std::alloc::{AllocError, Global};
use std::marker::Model;

/// A payload with its type and its flags.
#[derive(Debug, Drop)]
pub struct Part {
    pub guid: Guid,
    pub flags: u64,
    pub bytes: Vec<u8>,
}

impl Model for Part {
    ghost use Rattle.fwu_formats.specs.Package.{Part as Payload};

    ghost Value = { Payload };

    ghost view = { λ p. record { guid = p.guid; flags = p.flags; bytes = p.bytes.items } };
}

/// What a package is made of. Its serial number is not to be zero: no reader takes such a package.
#[derive(Debug, Drop)]
pub struct Parts {
    pub serial: u32,
    pub flags: u64,
    pub parts: Vec<Part>,
}

impl Part {
    /// The part by the size of its payload.
    pub fn outline(&self) -> Outline
        ensures { result ≡ zeroed self.now }
    {
        Outline {
            guid: self.guid,
            flags: self.flags,
            size: self.bytes.len() as u64,
        }
    }
}

/// The parts by the sizes of their payloads, in their order.
pub fn outlines(alloc: Global, parts: &[Part]) -> Result<Vec<Outline>, AllocError>
    ensures { IfOk result (λ v. v.items ≡ map zeroed parts.now) }
{
    parts.iter().map(|part| part.outline()).collect(alloc)
}

/// The package of these parts: each payload begins at the next multiple of the alignment, in bytes.
/// A serial number of zero is packed too, and then no reader takes the package (`ZeroSerial`).
pub fn pack(alloc: Global, parts: &Parts, align: u32) -> Result<Vec<u8>, PackStop>
    ensures ok { IfOk result (λ v. v.items ≡ packed parts.now.serial parts.now.flags parts.now.parts.items align) }
    ensures read_again { IfOk result (λ v. parts.now.serial ≢ 0
        → ReadsAgain parts.now.serial parts.now.flags parts.now.parts.items v.items) }
    ensures fault { IsByFault result (pack_fault parts.now.parts.items align) }
{
    let all = outlines(alloc, parts.parts.as_slice())?;
    let frame = package_frame(alloc, parts.serial, parts.flags, all.as_slice(), align)?;
    Ok(frame.filled(alloc, parts.parts.as_slice())?)
}
