//! Packages and capsules that are to be made: what each has besides its payloads, and where these are
//! read.
ghost use Rattle.std.specs.Prelude.{◌≡◌, IfOk, length, map};
ghost use Rattle.std.specs.List.{zip};
ghost use Rattle.fip_making.specs.Payloads.{IsMadeOf, payload_piece, payload_pieces};

use crate::payloads::Payload;
use fip_tables::Frame;
use host_io::Piece;
use std::alloc::{AllocError, Global};

/// A file that is to be made: how many payloads it has, its frame, and the pieces that the payloads
/// are, in their order.
#[derive(Drop)]
pub struct Made<'a> {
    pub count: u64,
    pub frame: Frame,
    pub pieces: Vec<Piece<'a>>,
}

// The pieces that payloads are, each behind its gap.
fn pieces_of<'a>(
    alloc: Global,
    gaps: &[usize],
    payloads: &[Payload<'a>],
) -> Result<Vec<Piece<'a>>, AllocError>
    ensures { IfOk result (λ v. v.items ≡ payload_pieces gaps.now payloads.now) }
{
    gaps.iter()
        .zip(payloads)
        .map(|(gap, payload)| payload.piece(*gap))
        .collect(alloc)
}

impl<'a> Made<'a> {
    /// A frame with payloads between its bytes.
    pub fn new(
        alloc: Global,
        frame: Frame,
        payloads: &[Payload<'a>],
    ) -> Result<Made<'a>, AllocError>
        ensures { IfOk result (IsMadeOf frame payloads.now) }
    {
        let pieces = pieces_of(alloc, frame.gaps.as_slice(), payloads)?;
        Ok(Made {
            count: payloads.len() as u64,
            frame,
            pieces,
        })
    }
}
