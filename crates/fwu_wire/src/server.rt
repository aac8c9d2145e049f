//! The side that answers: the agent's calls, each once.
ghost use Rattle.std.specs.Prelude.{◌≡◌, ◌≤◌, IsErr, IsFalse, IfOk, IfErr, drop, length, take};
ghost use Rattle.agent_calls.specs.Shown.{AgentGoes, device, fields, gone};
ghost use Rattle.wire_frames.specs.Exchange.{admission, none_yet};
ghost use Rattle.wire_frames.specs.Frames.{IsBody, PutsFront, message_of, request_number_of};
ghost use Rattle.fwu_model.specs.Reply as model;
ghost use Rattle.fwu_wire.specs.Calls.{asks};
ghost use Rattle.fwu_wire.specs.Replies.{message};
ghost use Rattle.fwu_wire.specs.Taken.{agent_of, exchange_of, GivesTaken, IsNextRequest, IsReply, LeavesBy, RepliesTo};
ghost use Rattle.fwu_wire.specs.Taken.{IsQuietRequest, LeavesBuffer, ReadsIfRead, agent_stopped_by};

use crate::calling::call_agent;
use crate::calls::call_of;
use crate::replies::{put_no_call, put_reply};
use crate::stops::{Stop, Taken};
use agent_calls::Agent;
use flash_core::Flash;
use verify_core::Verifier;
use wire_frames::{Admission, Exchange, number_of, put_head};

/// Nothing is done for a request that asks for no call. An agent that is gone doesn't answer it either.
fn answer_none<D: Flash>(called: &mut Agent<D>, out: &mut [u8]) -> Result<usize, Stop>
    requires { 4104 ≤ length out.old }
    ensures puts { IfOk result (λ n. PutsFront n (message model.NotUnderstood) out.old out.new) }
    ensures size { IfOk result (λ n. n ≡ 4) }
    ensures buffer { IsErr result → out.new ≡ out.old }
    ensures goes { AgentGoes (agent_stopped_by result) called.old called.new }
    ensures still { called.new ≡ called.old }
{
    called.showing();
    if called.is_gone() {
        return Err(Stop::Gone);
    }
    Ok(put_no_call(out))
}

/// Does what the message of a request asks for, and writes the message of its reply. Gives its size.
fn answer<D: Flash, V: Verifier>(
    called: &mut Agent<D>,
    message: &[u8],
    out: &mut [u8],
    verifier: &V,
) -> Result<usize, Stop>
    requires some { 4 ≤ length message.now }
    requires room { 4104 ≤ length out.old }
    ensures replies { IsFalse (gone called.old) → IfOk result (λ n.
        RepliesTo (V.passes verifier.now) (asks message.now) (take n out.new) called.old called.new) }
    ensures reads { ReadsIfRead (asks message.now) result called.old called.new }
    ensures leaves { IsFalse (gone called.old) →
        LeavesBy result (V.passes verifier.now) (asks message.now) called.old called.new }
    ensures some { IfOk result (λ n. 4 ≤ n) }
    ensures few { IfOk result (λ n. n ≤ 4104) }
    ensures behind { IfOk result (λ n. drop n out.new ≡ drop n out.old) }
    ensures buffer { IfErr result (λ why. LeavesBuffer 8 (asks message.now) why out.old out.new) }
    ensures goes { AgentGoes (agent_stopped_by result) called.old called.new }
    ensures still { IsQuietRequest (fields called.old) (asks message.now) → device called.new ≡ device called.old }
{
    match call_of(message) {
        Some(call) => match call_agent(called, &call, &mut out[8..], verifier) {
            Ok(reply) => Ok(put_reply(out, reply)),
            Err(stop) => Err(stop),
        },
        None => answer_none(called, out),
    }
}

/// The side that answers: an agent, the number of the last request that acted, and its reply.
#[derive(Drop)]
pub struct Server<D: Flash> {
    pub(crate) agent: Agent<D>,
    pub(crate) exchange: Exchange,
}

impl<D: Flash> Server<D> {
    /// A server of this agent, which took no request.
    pub fn new(agent: Agent<D>) -> Server<D>
        ensures agent { agent_of result ≡ agent }
        ensures none { exchange_of result ≡ none_yet }
    {
        Server {
            agent,
            exchange: Exchange::new(),
        }
    }

    /// The agent.
    pub fn into_agent(self) -> Agent<D>
        ensures { result ≡ agent_of self }
    {
        self.agent
    }

    /// A request that acts: its reply is written, and kept.
    fn act<V: Verifier>(
        &mut self,
        number: u32,
        message: &[u8],
        out: &mut [u8],
        verifier: &V,
    ) -> Result<Taken, Stop>
        requires some { 4 ≤ length message.now }
        requires room { 4112 ≤ length out.old }
        ensures gives { GivesTaken Admission.Acts number result (exchange_of self.old) (exchange_of self.new)
            out.old out.new }
        ensures reply { IsFalse (gone (agent_of self.old)) →
            IsReply (V.passes verifier.now) (asks message.now) number result out.new
            (agent_of self.old) (agent_of self.new) }
        ensures reads { ReadsIfRead (asks message.now) result (agent_of self.old) (agent_of self.new) }
        ensures leaves { IsFalse (gone (agent_of self.old)) →
            LeavesBy result (V.passes verifier.now) (asks message.now)
            (agent_of self.old) (agent_of self.new) }
        ensures goes { AgentGoes (agent_stopped_by result) (agent_of self.old) (agent_of self.new) }
        ensures quiet { IsQuietRequest (fields (agent_of self.old)) (asks message.now) →
            device (agent_of self.new) ≡ device (agent_of self.old) }
        ensures buffer { IfErr result (λ why. LeavesBuffer 16 (asks message.now) why out.old out.new) }
    {
        let size = match answer(&mut self.agent, message, &mut out[8..], verifier) {
            Ok(size) => size,
            Err(stop) => return Err(stop),
        };
        put_head(out, number, size);
        let reply = &out[..8 + size];
        self.exchange.keep(number, reply);
        Ok(Taken::Reply {
            length: reply.len() as u32,
            acted: true,
        })
    }

    /// Takes the body of a request, of 8 to 4,108 bytes. With the next number it acts: the agent does what it asks for, and the
    /// frame of the reply stands at the front of `out` and is kept. The last number again gives that frame again, and does nothing.
    /// Another number is ignored. Behind 4,294,967,295 no other acts.
    ///
    /// Lost, Fault: the flash stopped the call, and there is no reply. Gone: it stopped an earlier one. The number stays unused.
    pub fn take<V: Verifier>(
        &mut self,
        request: &[u8],
        out: &mut [u8],
        verifier: &V,
    ) -> Result<Taken, Stop>
        requires body { IsBody request.now }
        requires room { 4112 ≤ length out.old }
        // By the number and what is kept: what is given, and what is kept then.
        ensures gives { GivesTaken (admission (exchange_of self.old).last (request_number_of request.now))
            (request_number_of request.now) result (exchange_of self.old) (exchange_of self.new) out.old out.new }
        // At a stop: the buffer is as it was, but where the flash stopped a read.
        ensures buffer { IfErr result (λ why.
            LeavesBuffer 16 (asks (message_of request.now)) why out.old out.new) }
        // On any device, of an agent that isn't gone: the reply to a request that acted is the machine's. (The bytes that are read,
        // and whether `previous` goes back, are so where the device tells its content.) And by the reply: how much nearer the call
        // brings an armed loss.
        ensures reply { IsFalse (gone (agent_of self.old)) →
            IsReply (V.passes verifier.now) (asks (message_of request.now))
            (request_number_of request.now) result out.new (agent_of self.old) (agent_of self.new) }
        // On any device, at any exit: a read reaches no armed loss.
        ensures reads { IsNextRequest (exchange_of self.old) request.now →
            ReadsIfRead (asks (message_of request.now)) result (agent_of self.old) (agent_of self.new) }
        // What the flash has after one that acts, whatever a loss leaves, and what each call promises,
        ensures leaves { IsFalse (gone (agent_of self.old)) →
            IsNextRequest (exchange_of self.old) request.now →
            LeavesBy result (V.passes verifier.now) (asks (message_of request.now))
            (agent_of self.old) (agent_of self.new) }
        ensures goes { IsNextRequest (exchange_of self.old) request.now →
            AgentGoes (agent_stopped_by result) (agent_of self.old) (agent_of self.new) }
        // and that no other touches the agent.
        ensures still { (IsNextRequest (exchange_of self.old) request.now → ⊥) →
            agent_of self.new ≡ agent_of self.old }
        // On any device, by the call and by what the agent keeps: which requests leave the device as it was.
        ensures quiet { IsQuietRequest (fields (agent_of self.old)) (asks (message_of request.now)) →
            device (agent_of self.new) ≡ device (agent_of self.old) }
    {
        let number = number_of(request);
        match self.exchange.admit(number) {
            Admission::Acts => self.act(number, &request[4..], out, verifier),
            Admission::Repeats => Ok(Taken::Reply {
                length: self.exchange.repeat(out) as u32,
                acted: false,
            }),
            Admission::Ignored => Ok(Taken::Ignored),
        }
    }
}
