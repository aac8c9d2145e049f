//! The turn of `send`, whole or partial.
ghost use Rattle.std.specs.Prelude.{◌≡◌, Ok, string_bytes, IsFalse, true, false};
ghost use Rattle.host_io.specs.Reads.{ReadsFile};
ghost use Rattle.agent_calls.specs.Shown.{gone};
ghost use Rattle.fwu_journal.specs.Shown.{IsShortReply, reply, turn};
ghost use Rattle.script_text.specs.Shown.{shown};
ghost use Rattle.update_client.specs.Images.{HoldsPayloads};
ghost use Rattle.script_turns.specs.Sending.{IsTableOf, done_reply, is_answered, send_call, sent_reply};
ghost use Rattle.script_turns.specs.Turning.{IsTurnWith, LeavesAgent, quiet_turn};

use crate::tables::{TableStop, read_table};
use crate::turned::{AgentTurn, answered, stopped};
use agent_calls::Agent;
use fip_tables::Toc;
use flash_core::Flash;
use fwu_journal::Reply;
use host_io::Files;
use script_text::Call;
use update_client::{SendStop, Sent, send, send_partial};
use verify_core::Verifier;

/// How many bytes each write of a sending has, but for the last one of an image.
const PIECE: usize = 4096;

/// The call of a sending of all images, or of one over those of the active bank.
fn send_call(name: String, request: u32, partial: bool) -> Call
    ensures { shown result ≡ send_call partial (string_bytes name) request }
{
    if partial {
        Call::SendPartial { name, request }
    } else {
        Call::Send { name, request }
    }
}

/// What is told of a sending that was done: of a partial one also how many images were copied.
fn done_reply(sent: &Sent, partial: bool) -> Reply
    ensures value { reply result ≡ done_reply partial sent.now }
    ensures short { IsShortReply (reply result) }
{
    let Sent {
        images,
        skipped,
        copied,
    } = *sent;
    if partial {
        Reply::SentPartial {
            images,
            skipped,
            copied,
        }
    } else {
        Reply::Sent { images, skipped }
    }
}

/// What a sending is answered that was done, refused or stopped.
fn sent_reply(sent: &Result<Sent, SendStop>, partial: bool) -> Reply
    ensures value { reply result ≡ sent_reply partial sent.now }
    ensures short { IsShortReply (reply result) }
{
    match sent {
        Ok(sent) => done_reply(sent, partial),
        Err(SendStop::MissingImage(guid)) => Reply::Missing(*guid),
        Err(SendStop::ImageTooLarge(guid)) => Reply::TooLarge(*guid),
        Err(SendStop::Begin(status)) => Reply::BeginRefused(*status),
        Err(SendStop::End(status)) => Reply::EndRefused(*status),
        Err(SendStop::ReadFailed) => Reply::ReadFault,
        Err(SendStop::Lost) => Reply::Lost,
        Err(SendStop::Fault) => Reply::Fault,
        // no agent that is there is gone
        Err(SendStop::Gone) => Reply::Off,
    }
}

/// Whether a sending was done or refused, so that the agent is there.
fn is_answered(sent: &Result<Sent, SendStop>) -> bool
    ensures { result ≡ is_answered sent.now }
{
    !matches!(
        sent,
        Err(SendStop::ReadFailed | SendStop::Lost | SendStop::Fault | SendStop::Gone)
    )
}

/// The turn of a sending that was done, refused or stopped.
fn sent_turn(call: Call, sent: &Result<Sent, SendStop>, partial: bool) -> AgentTurn
    ensures turn { turn result.turn ≡ quiet_turn (shown call) (sent_reply partial sent.now) }
    ensures here { result.here ≡ is_answered sent.now }
    ensures short { IsShortReply (turn result.turn).reply }
{
    if is_answered(sent) {
        answered(call, sent_reply(sent, partial))
    } else {
        stopped(call, sent_reply(sent, partial))
    }
}

/// Sends what a file holds by its table.
fn send_by<D: Flash, H: Files, V: Verifier>(
    agent: &mut Agent<D>,
    name: String,
    request: u32,
    toc: &Toc,
    files: &mut H,
    verifier: &V,
) -> AgentTurn
    requires alive { IsFalse (gone agent.old) }
    requires table { IsTableOf (H.contents files.old) (string_bytes name) (Ok toc.now) }
    requires payloads { HoldsPayloads (H.contents files.old) (string_bytes name) toc.now.entries }
    ensures turns { IsTurnWith H.Files (V.passes verifier.now) (send_call false (string_bytes name) request)
        result agent.old agent.new files.old files.new }
    ensures leaves { LeavesAgent result agent.old agent.new }
    ensures reads { ReadsFile H.Files (string_bytes name) files.old files.new }
{
    let mut piece = [0u8; PIECE];
    let sent = send(
        agent,
        files,
        name.as_str(),
        toc,
        request,
        &mut piece,
        verifier,
    );
    sent_turn(Call::Send { name, request }, &sent, false)
}

/// Sends the images that a file has by its table, over those of the active bank.
fn send_partial_by<D: Flash, H: Files, V: Verifier>(
    agent: &mut Agent<D>,
    name: String,
    request: u32,
    toc: &Toc,
    files: &mut H,
    verifier: &V,
) -> AgentTurn
    requires alive { IsFalse (gone agent.old) }
    requires table { IsTableOf (H.contents files.old) (string_bytes name) (Ok toc.now) }
    requires payloads { HoldsPayloads (H.contents files.old) (string_bytes name) toc.now.entries }
    ensures turns { IsTurnWith H.Files (V.passes verifier.now) (send_call true (string_bytes name) request)
        result agent.old agent.new files.old files.new }
    ensures leaves { LeavesAgent result agent.old agent.new }
    ensures reads { ReadsFile H.Files (string_bytes name) files.old files.new }
{
    let mut piece = [0u8; PIECE];
    let sent = send_partial(
        agent,
        files,
        name.as_str(),
        toc,
        request,
        &mut piece,
        verifier,
    );
    sent_turn(Call::SendPartial { name, request }, &sent, true)
}

/// The turn of `send` where a bank is on: the package or capsule of this name is sent. Of a partial one the images that it lacks
/// are the active bank's. An armed loss counts its writes as pieces of 4096 bytes, or less at an image's end.
pub(crate) fn send_turn<D: Flash, H: Files, V: Verifier>(
    agent: &mut Agent<D>,
    name: String,
    request: u32,
    partial: bool,
    files: &mut H,
    verifier: &V,
) -> AgentTurn
    requires alive { IsFalse (gone agent.old) }
    ensures turns { IsTurnWith H.Files (V.passes verifier.now) (send_call partial (string_bytes name) request)
        result agent.old agent.new files.old files.new }
    ensures leaves { LeavesAgent result agent.old agent.new }
    ensures reads { ReadsFile H.Files (string_bytes name) files.old files.new }
{
    match read_table(files, name.as_str()) {
        Ok(toc) if partial => send_partial_by(agent, name, request, &toc, files, verifier),
        Ok(toc) => send_by(agent, name, request, &toc, files, verifier),
        Err(TableStop::Package(fault)) => answered(
            send_call(name, request, partial),
            Reply::BadPackage(fault),
        ),
        Err(TableStop::Capsule(fault)) => answered(
            send_call(name, request, partial),
            Reply::BadCapsule(fault),
        ),
        Err(TableStop::ReadFailed) => {
            stopped(send_call(name, request, partial), Reply::ReadFault)
        }
    }
}
