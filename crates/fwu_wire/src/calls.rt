//! What a request asks the agent for.
ghost use Rattle.std.specs.Prelude.{◌≡◌, ◌≤◌, Some, IfSome, drop, length, option_map};
ghost use Rattle.fwu_wire.specs.Calls.{AsksWithin, TellsUnused, asks, asks_by, of_length, op_of, shown};

use crate::functions::Function;
use base_core::{Guid, le32_at};
use fwu_model::Op;

/// The most bytes that a read asks for.
const MOST_ROOM: u32 = 4096;

/// A call of the agent as a request asks for it. The numbers of its arguments are little-endian, of four bytes. A type has 16
/// bytes.
#[derive(Clone, Copy, Debug)]
pub enum AgentCall<'a> {
    Discover,
    /// The vendor flags have no meaning.
    Begin {
        vendor_flags: u32,
        partial_count: u32,
    },
    End,
    Cancel,
    Open {
        guid: Guid,
        op: Op,
    },
    /// The bytes stand in the request; a body has room for 4,096.
    Write {
        handle: u32,
        bytes: &'a [u8],
    },
    /// At most `room` bytes are asked for, which is 4,096 or fewer.
    Read {
        handle: u32,
        room: u32,
    },
    /// The image is accepted at once where the request is 0. The atomic length has no meaning.
    Commit {
        handle: u32,
        acceptance_req: u32,
        max_atomic_len: u32,
    },
    Accept {
        guid: Guid,
    },
    Previous,
}

fn begin_of<'a>(args: &[u8]) -> Option<AgentCall<'a>>
    ensures call { option_map shown result ≡ asks_by (Some Function.Begin) args.now }
    ensures within { IfSome result AsksWithin }
    ensures unused { IfSome result (TellsUnused args.now) }
{
    if args.len() != 8 {
        return None;
    }
    Some(AgentCall::Begin {
        vendor_flags: le32_at(args, 0),
        partial_count: le32_at(args, 4),
    })
}

/// How an image is opened: 0 to read it, 1 to write it.
fn op_of(number: u32) -> Option<Op>
    ensures { result ≡ op_of number }
{
    match number {
        0 => Some(Op::Read),
        1 => Some(Op::Write),
        _ => None,
    }
}

fn open_of<'a>(args: &[u8]) -> Option<AgentCall<'a>>
    ensures call { option_map shown result ≡ asks_by (Some Function.Open) args.now }
    ensures within { IfSome result AsksWithin }
    ensures unused { IfSome result (TellsUnused args.now) }
{
    if args.len() != 20 {
        return None;
    }
    match op_of(le32_at(args, 16)) {
        Some(op) => Some(AgentCall::Open {
            guid: Guid::at(args, 0),
            op,
        }),
        None => None,
    }
}

fn write_of<'a>(args: &'a [u8]) -> Option<AgentCall<'a>>
    ensures call { option_map shown result ≡ asks_by (Some Function.WriteStream) args.entry.now }
    ensures within { IfSome result AsksWithin }
    ensures unused { IfSome result (TellsUnused args.entry.now) }
{
    if args.len() < 4 {
        return None;
    }
    Some(AgentCall::Write {
        handle: le32_at(args, 0),
        bytes: &args[4..],
    })
}

fn read_of<'a>(args: &[u8]) -> Option<AgentCall<'a>>
    ensures call { option_map shown result ≡ asks_by (Some Function.ReadStream) args.now }
    ensures within { IfSome result AsksWithin }
    ensures unused { IfSome result (TellsUnused args.now) }
{
    if args.len() != 8 {
        return None;
    }
    let room = le32_at(args, 4);
    if room > MOST_ROOM {
        return None;
    }
    Some(AgentCall::Read {
        handle: le32_at(args, 0),
        room,
    })
}

fn commit_of<'a>(args: &[u8]) -> Option<AgentCall<'a>>
    ensures call { option_map shown result ≡ asks_by (Some Function.Commit) args.now }
    ensures within { IfSome result AsksWithin }
    ensures unused { IfSome result (TellsUnused args.now) }
{
    if args.len() != 12 {
        return None;
    }
    Some(AgentCall::Commit {
        handle: le32_at(args, 0),
        acceptance_req: le32_at(args, 4),
        max_atomic_len: le32_at(args, 8),
    })
}

fn accept_of<'a>(args: &[u8]) -> Option<AgentCall<'a>>
    ensures call { option_map shown result ≡ asks_by (Some Function.Accept) args.now }
    ensures within { IfSome result AsksWithin }
    ensures unused { IfSome result (TellsUnused args.now) }
{
    if args.len() != 16 {
        return None;
    }
    Some(AgentCall::Accept {
        guid: Guid::at(args, 0),
    })
}

fn call_by<'a>(function: Function, args: &'a [u8]) -> Option<AgentCall<'a>>
    ensures call { option_map shown result ≡ asks_by (Some function) args.entry.now }
    ensures within { IfSome result AsksWithin }
    ensures unused { IfSome result (TellsUnused args.entry.now) }
{
    match function {
        Function::Discover if args.is_empty() => Some(AgentCall::Discover),
        Function::Begin => begin_of(args),
        Function::End if args.is_empty() => Some(AgentCall::End),
        Function::Cancel if args.is_empty() => Some(AgentCall::Cancel),
        Function::Open => open_of(args),
        Function::WriteStream => write_of(args),
        Function::ReadStream => read_of(args),
        Function::Commit => commit_of(args),
        Function::Accept => accept_of(args),
        Function::SelectPrevious if args.is_empty() => Some(AgentCall::Previous),
        // these have no arguments
        Function::Discover | Function::End | Function::Cancel | Function::SelectPrevious => None,
    }
}

/// What the message of a request asks for, which is the number of a function and its arguments.
///
/// `None`: there is no such function, or its arguments have another length. Or the op of an open is neither 0, to read, nor 1, to
/// write. Or a read asks for more than 4,096 bytes.
#[tactic(auto, unfolding(crate::specs::Calls::asks))]
pub fn call_of<'a>(message: &'a [u8]) -> Option<AgentCall<'a>>
    requires { 4 ≤ length message.now }
    ensures call { option_map shown result ≡ asks message.entry.now }
    ensures within { IfSome result AsksWithin }
    ensures unused { IfSome result (TellsUnused (drop 4 message.entry.now)) }
{
    match Function::of(le32_at(message, 0)) {
        Some(function) => call_by(function, &message[4..]),
        None => None,
    }
}
