//! The two headers of a capsule.

ghost use Rattle.std.specs.Prelude.{◌≡◌, ◌<◌, ◌≤◌, ◌+◌, ◌*◌, Some, Err, IfOk};
ghost use Rattle.host_io.specs.Contents.{TellsSize};
ghost use Rattle.host_io.specs.Reads.{ReadsFile};
ghost use Rattle.capsule_tables.specs.Answers.{AnswersFile, HasReadCause};
ghost use Rattle.fwu_formats.specs.Capsule.{places_end, shape_of};
ghost use Rattle.capsule_tables.specs.Ranges.{FitsFile, IsOfHeaders, header_read, shape_read};

use crate::faults::CapsuleStop;
use crate::guids::FMP_GUID;
use crate::window::{le16_at, read_range};
use base_core::{Guid, le32_at};
use fwu_formats::CapsuleFault;
use host_io::Files;
use std::marker::Model;

const HEADER_SIZE: u64 = 28;

/// Where the header of the payloads stands and where the capsule ends, in bytes from the file's first
/// one on, and how many drivers and items it has.
#[derive(Clone, Copy, Debug, PartialEq, Eq)]
pub struct Shape {
    pub header: u64,
    pub end: u64,
    pub drivers: u64,
    pub items: u64,
}

impl Model for Shape {
    ghost use Rattle.fwu_formats.specs.Capsule.{Shape as Headers};

    ghost Value = { Headers };

    ghost view = { λ s. record { header = s.header; end = s.end; drivers = s.drivers; items = s.items } };

    ghost inverse = { λ s. record { header = s.header; end = s.end; drivers = s.drivers; items = s.items } };
}

// Where the header of the payloads stands and where the capsule ends, by the file's first 28 bytes.
fn header_in(head: &[u8; 28], size: u64) -> Result<(u64, u64), CapsuleFault>
    ensures value { result ≡ header_read head.now size }
    ensures inside { IfOk result (λ r. (r.0 + 8 ≤ r.1) × (r.1 ≤ size) × (r.1 < 4294967296)) }
{
    if !Guid::at(head, 0).is(&Guid::of(FMP_GUID)) {
        return Err(CapsuleFault::NotFmp);
    }
    let header = u64::from(le32_at(head, 16));
    let end = u64::from(le32_at(head, 24));
    if header < HEADER_SIZE || end < header || size < end {
        return Err(CapsuleFault::BadSize);
    }
    if end - header < 8 {
        return Err(CapsuleFault::ShortFmp);
    }
    Ok((header, end))
}

// What the payloads' header says.
fn shape_in(header: u64, end: u64, fields: &[u8; 8]) -> Result<Shape, CapsuleFault>
    requires room { header + 8 ≤ end }
    ensures value { result ≡ shape_read header end fields.now }
    ensures inside { IfOk result (λ s. (places_end s ≤ s.end) × (s.end ≡ end) × (s.items ≤ 64)) }
{
    if le32_at(fields, 0) != 1 {
        return Err(CapsuleFault::BadVersion);
    }
    let drivers = u64::from(le16_at(fields, 4));
    let items = u64::from(le16_at(fields, 6));
    if items > 64 {
        return Err(CapsuleFault::TooMany);
    }
    if end - header - 8 < 8 * (drivers + items) {
        return Err(CapsuleFault::ShortFmp);
    }
    Ok(Shape {
        header,
        end,
        drivers,
        items,
    })
}

/// What the headers of a file say.
pub fn read_shape<H: Files>(files: &mut H, name: &str, size: u64) -> Result<Shape, CapsuleStop>
    requires known { TellsSize (H.contents files.old) name.now (Some size) }
    ensures told { AnswersFile (H.contents files.old) name.now shape_of result }
    ensures some { IsOfHeaders result }
    ensures inside { IfOk result (λ s. FitsFile s size) }
    ensures reads { ReadsFile H.Files name.now files.old files.new }
    ensures cause { HasReadCause (H.contents files.old) name.now (H.faults files.old)
        (H.faults files.new) result }
{
    if size < HEADER_SIZE {
        return Err(CapsuleStop::Fault(CapsuleFault::ShortHeader));
    }
    let mut head = [0u8; 28];
    read_range(files, name, size, 0, &mut head)?;
    let (header, end) = header_in(&head, size)?;
    let mut fields = [0u8; 8];
    read_range(files, name, size, header, &mut fields)?;
    let shape = shape_in(header, end, &fields)?;
    Ok(shape)
}
