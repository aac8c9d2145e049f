//! Calls of the agent, with their answers as replies.
ghost use Rattle.std.specs.Prelude.{◌≡◌, ◌≤◌, ℕ, Bool, List, IsFalse, IfOk, IfErr, Some, Err, drop, length, ◌++◌};
ghost use Rattle.agent_calls.specs.Shown.{AgentGoes, device, fields, gone, moment};
ghost use Rattle.agent_calls.specs.Records.{ReadsAlone};
ghost use Rattle.agent_machine.specs.Meets.{IsRefused, flash_result};
ghost use Rattle.fwu_model.specs.Call as call;
ghost use Rattle.fwu_wire.specs.Calls.{most_room, shown, AsksWithin, FitsFrame};
ghost use Rattle.fwu_model.specs.Call.{open_call};
ghost use Rattle.fwu_wire.specs.Replies.{replied};
ghost use Rattle.fwu_wire.specs.Taken.{CallMeets, IsQuietRequest, LeavesBuffer, agents_answer, count_read, said};
ghost use Rattle.fwu_wire.specs.Taken.{ReadsIfRead, TakesByReply, agent_stopped_by};

use crate::calls::AgentCall;
use crate::replies::AgentReply;
use crate::stops::Stop;
use agent_calls::{Agent, Stop as AgentStop};
use base_core::Guid;
use flash_core::Flash;
use fwu_model::Op;
use verify_core::Verifier;

/// What is answered where the agent gives no value.
fn refused(stop: AgentStop) -> Result<AgentReply, Stop>
    ensures { result ≡ said {T = Unit {0}} (λ value. AgentReply.Success) (Err stop) }
{
    match stop {
        AgentStop::Status(status) => Ok(AgentReply::Refused(status)),
        AgentStop::Lost => Err(Stop::Lost),
        AgentStop::Fault => Err(Stop::Fault),
        AgentStop::Gone => Err(Stop::Gone),
    }
}

/// The reply to a call that tells nothing but that it was done.
fn done(answer: Result<(), AgentStop>) -> Result<AgentReply, Stop>
    ensures { result ≡ said (λ value. AgentReply.Success) answer }
{
    match answer {
        Ok(()) => Ok(AgentReply::Success),
        Err(stop) => refused(stop),
    }
}

fn discover<D: Flash>(agent: &mut Agent<D>) -> Result<AgentReply, Stop>
    ensures meets { IsFalse (gone agent.old) → (passes : List ℕ → Bool) → (bytes : List ℕ) →
        CallMeets passes call.Discover result bytes (moment agent.old) (moment agent.new) }
    ensures goes { AgentGoes (agents_answer result) agent.old agent.new }
    ensures still { agent.new ≡ agent.old }
    ensures fits { IfOk result FitsFrame }
{
    match agent.discover() {
        Ok(discovery) => Ok(AgentReply::Discovered(discovery.state)),
        Err(stop) => refused(stop),
    }
}

fn open<D: Flash>(agent: &mut Agent<D>, guid: Guid, op: Op) -> Result<AgentReply, Stop>
    ensures meets { IsFalse (gone agent.old) → (passes : List ℕ → Bool) → (bytes : List ℕ) →
        CallMeets passes (open_call guid op) result bytes
        (moment agent.old) (moment agent.new) }
    ensures goes { AgentGoes (agents_answer result) agent.old agent.new }
    ensures still { device agent.new ≡ device agent.old }
    ensures none { IfOk result (λ r. count_read r ≡ 0) }
    ensures fits { IfOk result FitsFrame }
{
    match agent.open(guid, op) {
        Ok(handle) => Ok(AgentReply::Opened(handle)),
        Err(stop) => refused(stop),
    }
}

/// Reads to the front of the buffer.
fn read<D: Flash>(agent: &mut Agent<D>, handle: u32, out: &mut [u8]) -> Result<AgentReply, Stop>
    requires few { length out.old ≤ most_room }
    ensures meets { IsFalse (gone agent.old) → (passes : List ℕ → Bool) → (behind : List ℕ) →
        CallMeets passes (call.Read handle (length out.old)) result (out.new ++ behind)
        (moment agent.old) (moment agent.new) }
    ensures goes { AgentGoes (agents_answer result) agent.old agent.new }
    ensures refused { IsRefused (agents_answer result) → agent.new ≡ agent.old }
    ensures reads { ReadsAlone D.Flash (flash_result (agent_stopped_by result)) (device agent.old) (device agent.new) }
    ensures behind { IfOk result (λ r. drop (count_read r) out.new ≡ drop (count_read r) out.old) }
    ensures buffer { IfErr result (λ why. LeavesBuffer 0 (Some (call.Read handle (length out.old))) why out.old out.new) }
    ensures fits { IfOk result FitsFrame }
{
    match agent.read_stream(handle, out) {
        Ok((count, total)) => Ok(AgentReply::Got { total, count }),
        Err(stop) => refused(stop),
    }
}

/// Calls the agent. What is read stands at the front of the buffer.
pub fn call_agent<D: Flash, V: Verifier>(
    agent: &mut Agent<D>,
    call: &AgentCall,
    out: &mut [u8],
    verifier: &V,
) -> Result<AgentReply, Stop>
    requires room { most_room ≤ length out.old }
    requires within { AsksWithin call.now }
    ensures meets { IsFalse (gone agent.old) →
        CallMeets (V.passes verifier.now) (shown call.now) result out.new
        (moment agent.old) (moment agent.new) }
    ensures goes { AgentGoes (agents_answer result) agent.old agent.new }
    ensures takes { IsFalse (gone agent.old) →
        IfOk result (λ r. TakesByReply (shown call.now) (replied r out.new) agent.old agent.new) }
    ensures reads { ReadsIfRead (Some (shown call.now)) result agent.old agent.new }
    ensures still { IsQuietRequest (fields agent.old) (Some (shown call.now)) → device agent.new ≡ device agent.old }
    ensures behind { IfOk result (λ r. drop (count_read r) out.new ≡ drop (count_read r) out.old) }
    ensures buffer { IfErr result (λ why. LeavesBuffer 0 (Some (shown call.now)) why out.old out.new) }
    ensures fits { IfOk result FitsFrame }
{
    match *call {
        AgentCall::Discover => discover(agent),
        AgentCall::Begin {
            vendor_flags,
            partial_count,
        } => done(agent.begin(vendor_flags, partial_count)),
        AgentCall::End => done(agent.end(verifier)),
        AgentCall::Cancel => done(agent.cancel()),
        AgentCall::Open { guid, op } => open(agent, guid, op),
        AgentCall::Write { handle, bytes } => done(agent.write_stream(handle, bytes)),
        AgentCall::Read { handle, room } => read(agent, handle, &mut out[..room as usize]),
        AgentCall::Commit {
            handle,
            acceptance_req,
            max_atomic_len,
        } => done(agent.commit(handle, acceptance_req, max_atomic_len)),
        AgentCall::Accept { guid } => done(agent.accept(guid)),
        AgentCall::Previous => done(agent.previous(verifier)),
    }
}
