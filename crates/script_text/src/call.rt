//! The calls of a script.
use base_core::Guid;
use fwu_model::Op;

/// A call of a script, with the memory that it takes when it is done.
#[derive(Debug, Drop)]
pub enum Call {
    /// `discover`: the agent tells what it offers, and its state.
    Discover,
    /// `begin`: a staging begins, of all images. A count of some, which no script has, is refused by the agent.
    Begin {
        partial_count: u32,
    },
    /// `begin TYPE ..`: a staging begins, of the images of these types alone.
    BeginPartial {
        types: Vec<Guid>,
    },
    /// `open TYPE r` or `open TYPE w`: the image of a type is opened, to be read or to be written.
    Open {
        guid: Guid,
        op: Op,
    },
    /// `write HANDLE HEX`: these bytes are written at the end of what was written with the handle.
    Write {
        handle: u32,
        bytes: Vec<u8>,
    },
    /// `read HANDLE N`: at most `room` bytes, up to 4096, are read with the handle into a buffer of `room` bytes.
    Read {
        handle: u32,
        room: u32,
        out: Vec<u8>,
    },
    /// `commit HANDLE now` or `commit HANDLE trial`: the handle is closed, with request 0 or 1 for what it wrote.
    Commit {
        handle: u32,
        request: u32,
    },
    /// `end`: the staging ends.
    End,
    /// `cancel`: the staging is given up.
    Cancel,
    /// `accept TYPE`: the image of a type is accepted.
    Accept {
        guid: Guid,
    },
    /// `previous`: the bank before is booted from the next boot on.
    Previous,
    /// `send FILE now` or `send FILE trial`: a file's images are staged, each with this request.
    Send {
        name: String,
        request: u32,
    },
    /// `send FILE now partial` or `send FILE trial partial`: a file's images are staged over those of the active bank.
    SendPartial {
        name: String,
        request: u32,
    },
    /// `boot`: power comes back, and the device boots.
    Boot,
    /// `cut N K`: a loss of power is armed at the n-th erase or program from there on, after its first k bytes.
    Cut {
        n: u32,
        k: u32,
    },
    /// `show`: the state is told.
    Show,
    /// What a byte stream asks that is no call of the agent. No line of a script has it.
    NoCall,
}
