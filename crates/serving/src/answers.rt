//! The bytes of a turn's reply.
ghost use Rattle.std.specs.Prelude.{◌≡◌, ◌≤◌, length, take};
ghost use Rattle.fwu_model.specs.Reply as model;
ghost use Rattle.fwu_journal.specs.Shown.{IsShortReply, reply};
ghost use Rattle.fwu_wire.specs.Replies.{message};

use fwu_journal::Reply;
use fwu_wire::{AgentReply, put_no_call, put_reply};

/// Writes the message of what was read.
fn put_got(out: &mut [u8], total: u32, bytes: &[u8]) -> usize
    requires room { 4104 ≤ length out.old }
    requires short { length bytes.now ≤ 4096 }
    ensures few { result ≤ 4104 }
    ensures bytes { take result out.new ≡ message (model.Got total bytes.now) }
{
    out[8..8 + bytes.len()].copy_from_slice(bytes);
    put_reply(
        out,
        AgentReply::Got {
            total,
            count: bytes.len() as u32,
        },
    )
}

/// Writes the message of a reply, and gives its size in bytes. The replies of the agent's calls and that to no call have one. No
/// other is the reply to a request.
#[tactic(auto, unfolding(fwu_wire::specs::Replies::message))]
pub fn put_answer(out: &mut [u8], answer: &Reply) -> usize
    requires room { 4104 ≤ length out.old }
    requires short { IsShortReply (reply answer.now) }
    ensures few { result ≤ 4104 }
    ensures bytes { take result out.new ≡ message (reply answer.now) }
{
    match answer {
        Reply::Refused(status) => put_reply(out, AgentReply::Refused(*status)),
        Reply::Success => put_reply(out, AgentReply::Success),
        Reply::Discovered(state) => put_reply(out, AgentReply::Discovered(*state)),
        Reply::Opened(handle) => put_reply(out, AgentReply::Opened(*handle)),
        Reply::Got { total, bytes } => put_got(out, *total, bytes.as_slice()),
        Reply::NotUnderstood => put_no_call(out),
        Reply::Off
        | Reply::Lost
        | Reply::Fault
        | Reply::ReadFault
        | Reply::Sent { .. }
        | Reply::SentPartial { .. }
        | Reply::Missing(_)
        | Reply::TooLarge(_)
        | Reply::BadPackage(_)
        | Reply::BadCapsule(_)
        | Reply::BeginRefused(_)
        | Reply::EndRefused(_)
        | Reply::Booted { .. }
        | Reply::NotBooted(_)
        | Reply::CutOk
        | Reply::Shown(_) => 0,
    }
}
