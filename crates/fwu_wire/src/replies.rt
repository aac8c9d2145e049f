//! The bytes of a reply.
ghost use Rattle.std.specs.Prelude.{◌≡◌, ◌≤◌, ◌+◌, length, drop};
ghost use Rattle.fwu_wire.specs.Calls.{FitsFrame};
ghost use Rattle.fwu_model.specs.Reply as model;
ghost use Rattle.wire_frames.specs.Frames.{PutsFront};
ghost use Rattle.fwu_wire.specs.Replies.{below_zero, message, replied, state_number, status_number};

use crate::words::put_words;
use fwu_model::{AgentState, Status};

/// What a call of the agent answered. The bytes that were read stand in a buffer beside it.
#[derive(Clone, Copy, Debug, PartialEq, Eq)]
pub enum AgentReply {
    Refused(Status),
    Success,
    /// What the agent is doing.
    Discovered(AgentState),
    /// The number of the handle that was opened.
    Opened(u32),
    /// How many bytes there are in all, and how many were read.
    Got { total: u32, count: u32 },
}

/// -100, in two's complement of four bytes: the request asks for no call of the agent. DEN0118 has no such status.
pub const NOT_UNDERSTOOD: u32 = u32::MAX - 99;

/// A number below zero, in two's complement.
fn below_zero(n: u32) -> u32
    requires { 1 ≤ n }
    ensures { result ≡ below_zero n }
{
    u32::MAX - (n - 1)
}

/// The number of a status (DEN0118), in two's complement.
fn status_number(status: Status) -> u32
    ensures { result ≡ status_number status }
{
    match status {
        Status::Unknown => below_zero(1),
        Status::Busy => below_zero(2),
        Status::OutOfBounds => below_zero(3),
        Status::AuthFail => below_zero(4),
        Status::Denied => below_zero(6),
        Status::NotAvailable => below_zero(8),
    }
}

fn state_number(state: AgentState) -> u32
    ensures { result ≡ state_number state }
{
    match state {
        AgentState::Regular => 0,
        AgentState::Staging => 1,
        AgentState::Trial => 2,
    }
}

/// Writes the message of the reply to a request that asks for no call of the agent, and gives its size in bytes.
#[tactic(auto, unfolding(crate::specs::Replies::message))]
pub fn put_no_call(out: &mut [u8]) -> usize
    requires { 4104 ≤ length out.old }
    ensures size { result ≡ 4 }
    ensures puts { PutsFront result (message model.NotUnderstood) out.old out.new }
{
    put_words(out, &[NOT_UNDERSTOOD])
}

/// Writes the message of a reply, which is the status of a call and its results, and gives its size in bytes. What was read stands
/// from place 8 on already.
#[tactic(auto, unfolding(crate::specs::Replies::message))]
pub fn put_reply(out: &mut [u8], reply: AgentReply) -> usize
    requires room { 4104 ≤ length out.old }
    requires fits { FitsFrame reply }
    ensures few { result ≤ 4104 }
    ensures some { 4 ≤ result }
    ensures puts { PutsFront result (message (replied reply (drop 8 out.old))) out.old out.new }
{
    match reply {
        AgentReply::Refused(status) => put_words(out, &[status_number(status)]),
        AgentReply::Success => put_words(out, &[0]),
        AgentReply::Discovered(state) => put_words(
            out,
            &[
                0,
                1,
                0,
                state_number(state),
                10,
                0,
                16,
                17,
                18,
                19,
                20,
                21,
                22,
                23,
                24,
            ],
        ),
        AgentReply::Opened(handle) => put_words(out, &[0, handle]),
        AgentReply::Got { total, count } => put_words(out, &[0, total]) + count as usize,
    }
}
