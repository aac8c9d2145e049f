//! The call of a run that a request asks for.
ghost use Rattle.std.specs.Prelude.{◌≡◌, ◌≤◌, IfOk, length};
ghost use Rattle.script_text.specs.Shown.{shown as script_shown};
ghost use Rattle.fwu_wire.specs.Calls.{shown, AsksWithin};
ghost use Rattle.serving.specs.Written.{IsServedCall, called};

use base_core::NoMemory;
use fwu_wire::{AgentCall, call_of};
use script_text::Call;
use std::alloc::Global;

/// So many zeros.
fn zeros(alloc: Global, count: u32) -> Result<Vec<u8>, NoMemory>
    ensures { IfOk result (λ bytes. length bytes.items ≡ count) }
{
    let mut bytes = Vec::new(alloc);
    bytes.resize(count as usize, 0)?;
    Ok(bytes)
}

/// A copy of bytes.
fn copied(alloc: Global, bytes: &[u8]) -> Result<Vec<u8>, NoMemory>
    ensures { IfOk result (λ copy. copy.items ≡ bytes.now) }
{
    Ok(bytes.to_vec(alloc)?)
}

/// The call of a run, with the memory that it takes: the bytes of a write, and the buffer of a read.
fn run_call(alloc: Global, call: &AgentCall) -> Result<Call, NoMemory>
    requires { AsksWithin call.now }
    ensures call { IfOk result (λ c. script_shown c ≡ shown call.now) }
    ensures served { IfOk result IsServedCall }
{
    match *call {
        AgentCall::Discover => Ok(Call::Discover),
        AgentCall::Begin { partial_count, .. } => Ok(Call::Begin { partial_count }),
        AgentCall::End => Ok(Call::End),
        AgentCall::Cancel => Ok(Call::Cancel),
        AgentCall::Open { guid, op } => Ok(Call::Open { guid, op }),
        AgentCall::Write { handle, bytes } => Ok(Call::Write {
            handle,
            bytes: copied(alloc, bytes)?,
        }),
        AgentCall::Read { handle, room } => Ok(Call::Read {
            handle,
            room,
            out: zeros(alloc, room)?,
        }),
        AgentCall::Commit {
            handle,
            acceptance_req,
            ..
        } => Ok(Call::Commit {
            handle,
            request: acceptance_req,
        }),
        AgentCall::Accept { guid } => Ok(Call::Accept { guid }),
        AgentCall::Previous => Ok(Call::Previous),
    }
}

/// The call of the turn that the message of a request makes: `NoCall` where it asks for no call of the agent.
pub fn request_of(alloc: Global, message: &[u8]) -> Result<Call, NoMemory>
    requires { 4 ≤ length message.now }
    ensures called { IfOk result (λ call. script_shown call ≡ called message.now) }
    ensures served { IfOk result IsServedCall }
{
    match call_of(message) {
        Some(call) => run_call(alloc, &call),
        None => Ok(Call::NoCall),
    }
}
