//! The turns of the agent's calls.
ghost use Rattle.std.specs.Prelude.{◌≡◌, ◌≤◌, ◌<◌, ℕ, Bool, List, Err, length, IsTrue, IsFalse};
ghost use Rattle.base_core.specs.Block.{block_bytes};
ghost use Rattle.fwu_model.specs.Call as call;
ghost use Rattle.fwu_model.specs.Reply as model;
ghost use Rattle.agent_calls.specs.Shown.{gone};
ghost use Rattle.fwu_journal.specs.Shown.{IsShortReply, turn};
ghost use Rattle.script_text.specs.Shown.{HasBuffer, shown};
ghost use Rattle.script_turns.specs.Replies.{is_agents, is_there, reply_by, stop_reply};
ghost use Rattle.fwu_model.specs.Call.{open_call};
ghost use Rattle.script_turns.specs.Turning.{IsCallTurn, LeavesAgent, quiet_turn};

use crate::turned::{AgentTurn, answered, stopped};
use agent_calls::{Agent, Stop};
use base_core::Guid;
use flash_core::Flash;
use fwu_journal::Reply;
use fwu_model::Op;
use script_text::Call;
use verify_core::Verifier;

/// The turn of a call that the agent refused, or that the flash stopped.
fn refused(call: Call, stop: Stop) -> AgentTurn
    ensures turn { turn result.turn ≡ quiet_turn (shown call) (stop_reply stop) }
    ensures here { result.here ≡ is_there {T = Unit {0}} (Err stop) }
    ensures short { IsShortReply (turn result.turn).reply }
{
    match stop {
        Stop::Status(status) => answered(call, Reply::Refused(status)),
        Stop::Lost => stopped(call, Reply::Lost),
        Stop::Fault => stopped(call, Reply::Fault),
        // no agent that is there is gone
        Stop::Gone => stopped(call, Reply::Off),
    }
}

/// The turn of a call whose answer tells nothing but that it was done.
fn done(call: Call, answer: Result<(), Stop>) -> AgentTurn
    ensures turn { turn result.turn ≡ quiet_turn (shown call)
        (reply_by (λ value. model.Success) answer) }
    ensures here { result.here ≡ is_there answer }
    ensures short { IsShortReply (turn result.turn).reply }
{
    match answer {
        Ok(()) => answered(call, Reply::Success),
        Err(stop) => refused(call, stop),
    }
}

/// The turn of `discover`: what the agent is doing.
fn discover_turn<D: Flash>(agent: &Agent<D>) -> AgentTurn
    requires alive { IsFalse (gone agent.now) }
    ensures turns { (passes : List ℕ → Bool) → IsCallTurn passes call.Discover result agent.now agent.now }
    ensures leaves { LeavesAgent result agent.now agent.now }
{
    match agent.discover() {
        Ok(discovery) => answered(Call::Discover, Reply::Discovered(discovery.state)),
        Err(stop) => refused(Call::Discover, stop),
    }
}

/// The turn of `begin`: a package of all images is to be staged. A count of some is refused.
fn begin_turn<D: Flash>(agent: &mut Agent<D>, partial_count: u32) -> AgentTurn
    requires alive { IsFalse (gone agent.old) }
    ensures turns { (passes : List ℕ → Bool) → IsCallTurn passes (call.Begin partial_count) result agent.old agent.new }
    ensures leaves { LeavesAgent result agent.old agent.new }
{
    let result = agent.begin(0, partial_count);
    done(Call::Begin { partial_count }, result)
}

/// The turn of `begin` with types: the images of the others are those of the active bank.
fn begin_partial_turn<D: Flash>(agent: &mut Agent<D>, types: Vec<Guid>) -> AgentTurn
    requires alive { IsFalse (gone agent.old) }
    requires some { 0 < length types.items }
    ensures turns { (passes : List ℕ → Bool) → IsCallTurn passes (call.BeginPartial types.items) result agent.old agent.new }
    ensures leaves { LeavesAgent result agent.old agent.new }
{
    let result = agent.begin_partial(0, types.as_slice());
    done(Call::BeginPartial { types }, result)
}

/// The turn of `open`, to read or to write: the number of the handle.
fn open_turn<D: Flash>(agent: &mut Agent<D>, guid: Guid, op: Op) -> AgentTurn
    requires alive { IsFalse (gone agent.old) }
    ensures turns { (passes : List ℕ → Bool) → IsCallTurn passes (open_call guid op) result agent.old agent.new }
    ensures leaves { LeavesAgent result agent.old agent.new }
{
    let call = Call::Open { guid, op };
    match agent.open(guid, op) {
        Ok(handle) => answered(call, Reply::Opened(handle)),
        Err(stop) => refused(call, stop),
    }
}

/// The turn of `write`.
fn write_turn<D: Flash>(agent: &mut Agent<D>, handle: u32, bytes: Vec<u8>) -> AgentTurn
    requires alive { IsFalse (gone agent.old) }
    ensures turns { (passes : List ℕ → Bool) → IsCallTurn passes (call.Write handle bytes.items) result agent.old agent.new }
    ensures leaves { LeavesAgent result agent.old agent.new }
{
    let result = agent.write_stream(handle, bytes.as_slice());
    done(Call::Write { handle, bytes }, result)
}

/// The turn of `read`: the bytes that are read stand in the reply, in the buffer that the call came with.
fn read_turn<D: Flash>(
    agent: &mut Agent<D>,
    empty: Vec<u8>,
    handle: u32,
    room: u32,
    out: Vec<u8>,
) -> AgentTurn
    requires alive { IsFalse (gone agent.old) }
    requires room { length out.items ≡ room }
    requires few { room ≤ block_bytes }
    ensures turns { (passes : List ℕ → Bool) → IsCallTurn passes (call.Read handle room) result agent.old agent.new }
    ensures leaves { LeavesAgent result agent.old agent.new }
{
    let mut bytes = out;
    let call = Call::Read {
        handle,
        room,
        out: empty,
    };
    match agent.read_stream(handle, bytes.as_mut_slice()) {
        Ok((count, total)) => {
            bytes.truncate(count as usize);
            answered(call, Reply::Got { total, bytes })
        }
        Err(stop) => refused(call, stop),
    }
}

/// The turn of `commit`: a handle is closed.
fn commit_turn<D: Flash>(agent: &mut Agent<D>, handle: u32, request: u32) -> AgentTurn
    requires alive { IsFalse (gone agent.old) }
    ensures turns { (passes : List ℕ → Bool) → IsCallTurn passes (call.Commit handle request) result agent.old agent.new }
    ensures leaves { LeavesAgent result agent.old agent.new }
{
    let result = agent.commit(handle, request, 0);
    done(Call::Commit { handle, request }, result)
}

/// The turn of `end`: what is staged is installed.
fn end_turn<D: Flash, V: Verifier>(agent: &mut Agent<D>, verifier: &V) -> AgentTurn
    requires alive { IsFalse (gone agent.old) }
    ensures turns { IsCallTurn (V.passes verifier.now) call.End result agent.old agent.new }
    ensures leaves { LeavesAgent result agent.old agent.new }
{
    let result = agent.end(verifier);
    done(Call::End, result)
}

/// The turn of `cancel`: what is staged is given up.
fn cancel_turn<D: Flash>(agent: &mut Agent<D>) -> AgentTurn
    requires alive { IsFalse (gone agent.old) }
    ensures turns { (passes : List ℕ → Bool) → IsCallTurn passes call.Cancel result agent.old agent.new }
    ensures leaves { LeavesAgent result agent.old agent.new }
{
    let result = agent.cancel();
    done(Call::Cancel, result)
}

/// The turn of `accept`: an image of the active bank is accepted.
fn accept_turn<D: Flash>(agent: &mut Agent<D>, guid: Guid) -> AgentTurn
    requires alive { IsFalse (gone agent.old) }
    ensures turns { (passes : List ℕ → Bool) → IsCallTurn passes (call.Accepts guid) result agent.old agent.new }
    ensures leaves { LeavesAgent result agent.old agent.new }
{
    let result = agent.accept(guid);
    done(Call::Accept { guid }, result)
}

/// The turn of `previous`: the active and the previous bank change places.
fn previous_turn<D: Flash, V: Verifier>(agent: &mut Agent<D>, verifier: &V) -> AgentTurn
    requires alive { IsFalse (gone agent.old) }
    ensures turns { IsCallTurn (V.passes verifier.now) call.Previous result agent.old agent.new }
    ensures leaves { LeavesAgent result agent.old agent.new }
{
    let result = agent.previous(verifier);
    done(Call::Previous, result)
}

/// The turn of a call of the agent. A read's buffer goes into the reply, and `empty` stands in its place.
pub(crate) fn call_turn<D: Flash, V: Verifier>(
    agent: &mut Agent<D>,
    empty: Vec<u8>,
    call: Call,
    verifier: &V,
) -> AgentTurn
    requires alive { IsFalse (gone agent.old) }
    requires asks { IsTrue (is_agents (shown call)) }
    requires buffer { HasBuffer call }
    ensures turns { IsCallTurn (V.passes verifier.now) (shown call) result agent.old agent.new }
    ensures leaves { LeavesAgent result agent.old agent.new }
{
    match call {
        Call::Discover => discover_turn(agent),
        Call::Begin { partial_count } => begin_turn(agent, partial_count),
        Call::BeginPartial { types } => begin_partial_turn(agent, types),
        Call::Open { guid, op } => open_turn(agent, guid, op),
        Call::Write { handle, bytes } => write_turn(agent, handle, bytes),
        Call::Read { handle, room, out } => read_turn(agent, empty, handle, room, out),
        Call::Commit { handle, request } => commit_turn(agent, handle, request),
        Call::End => end_turn(agent, verifier),
        Call::Cancel => cancel_turn(agent),
        Call::Accept { guid } => accept_turn(agent, guid),
        Call::Previous => previous_turn(agent, verifier),
        // no other call is one of the agent
        Call::Send { .. }
        | Call::SendPartial { .. }
        | Call::Boot
        | Call::Cut { .. }
        | Call::Show
        | Call::NoCall => stopped(Call::Show, Reply::Off),
    }
}
