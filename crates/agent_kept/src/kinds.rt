//! Requests, and what is decided of them.
use base_core::Guid;
use fwu_model::{Op, Status};

/// A call of the agent. A write has the length of its bytes, and an open for reading the length of
/// what is read, both in bytes. The vendor flags and the atomic length have no meaning.
#[derive(Clone, Copy, Debug, PartialEq, Eq)]
pub enum Request<'a> {
    Discover,
    Begin {
        vendor_flags: u32,
        partial_count: u32,
    },
    /// An update of the images of these types alone.
    BeginPartial {
        vendor_flags: u32,
        list: &'a [Guid],
    },
    Open {
        guid: Guid,
        op: Op,
        total: u32,
    },
    Write {
        handle: u32,
        length: u64,
    },
    Read {
        handle: u32,
        room: u64,
    },
    Commit {
        handle: u32,
        acceptance_req: u32,
        max_atomic_len: u32,
    },
    End,
    Cancel,
    Accept {
        guid: Guid,
    },
    Previous,
}

/// What is to be done on the flash. No image is the directory.
#[derive(Clone, Copy, Debug, PartialEq, Eq)]
pub enum Plan {
    /// Nothing: the state is told.
    Tell,
    /// Metadata is stored, where the update bank was in use.
    Begin {
        store: bool,
    },
    /// The same, and then each image of the layout that isn't named is copied from the active bank.
    BeginPartial {
        store: bool,
        named: [bool; 16],
    },
    Open {
        handle: u32,
        image: Option<u32>,
        op: Op,
        total: u32,
    },
    /// Bytes go behind the first ones of an image.
    Write {
        handle: u32,
        image: u32,
        at: u32,
        length: u32,
    },
    Read {
        handle: u32,
        image: Option<u32>,
        at: u32,
        length: u32,
        total: u32,
    },
    /// A handle is closed. An image that was written through it is ended.
    Commit {
        handle: u32,
        written: Option<u32>,
        bit: bool,
    },
    /// The trial marks are cleared, and metadata is stored that switches to the update bank.
    End,
    Cancel,
    Accept {
        image: u32,
        store: bool,
    },
    /// Metadata is stored that exchanges the active and the previous bank.
    Back,
}

/// What is decided of a request.
#[derive(Clone, Copy, Debug, PartialEq, Eq)]
pub enum Decision {
    Refused(Status),
    Do(Plan),
    /// The verdict on this bank decides.
    ByVerdict { bank: u32 },
}
