//! The printed reply of a turn.
ghost use Rattle.std.specs.Prelude.{◌≤◌, ◌+◌, ◌++◌, [], if◌then◌else◌, length, codes};
ghost use Rattle.fwu_model.specs.Text.{no_boot_text, reply_text, status_text};
ghost use Rattle.fwu_model.specs.Reply as model;
ghost use Rattle.fwu_model.specs.Script.{room_limit};
ghost use Rattle.fwu_journal.specs.Room.{Grows, HasRoom};
ghost use Rattle.fwu_journal.specs.Shown.{IsShortReply, reply};

use crate::adding::add;
use crate::digits::add_bytes;
use crate::journal::Reply;
use crate::numbers::{add_banks, add_counts, add_named, add_numbers};
use crate::words::{add_agent_state, add_fip_fault, add_guid, add_status, layout_fault_number};
use fwu_formats::FipFault;
use fwu_model::{AgentState, NoBoot, Status};

/// Bytes that are enough for each reply; the longest is that of a read of 4,096 bytes.
pub const REPLY_ROOM: usize = 8_218;

/// Bytes that are enough to say why no bank was started.
pub const NO_BOOT_ROOM: usize = 45;

/// Adds why no bank was started: `bad-layout N`, where N numbers the fault as `docs/FORMATS.md` does, `no-metadata`, or
/// `no-bank active=A previous=P`.
pub fn add_no_boot(text: &mut Vec<u8>, why: NoBoot)
    requires { HasRoom text.old NO_BOOT_ROOM }
    ensures grows { Grows text.old text.new (no_boot_text why) }
    ensures short { length (no_boot_text why) ≤ NO_BOOT_ROOM }
{
    match why {
        NoBoot::Layout(fault) => add_named(text, b"bad-layout ", layout_fault_number(fault)),
        NoBoot::Metadata => add(text, b"no-metadata"),
        NoBoot::Bank { active, previous } => add_banks(text, b"no-bank active=", active, previous),
    }
}

/// Adds that the bank isn't the active one, where it isn't.
fn add_fallback(text: &mut Vec<u8>, fallback: bool)
    requires { HasRoom text.old 9 }
    ensures grows { Grows text.old text.new (if fallback then codes " fallback" else []) }
    ensures short { length (if fallback then codes " fallback" else []) ≤ 9 }
{
    if fallback {
        add(text, b" fallback")
    }
}

/// Adds what a boot answered that started a bank.
fn add_booted(
    text: &mut Vec<u8>,
    bank: u32,
    version: u32,
    trials: u32,
    counter: u32,
    fallback: bool,
)
    requires { HasRoom text.old 80 }
    ensures grows { Grows text.old text.new (reply_text (model.Booted bank version trials counter fallback)) }
    ensures short { length (reply_text (model.Booted bank version trials counter fallback)) ≤ 80 }
{
    add_named(text, b"bank=", bank);
    add_named(text, b" version=", version);
    add_counts(text, trials, counter);
    add_fallback(text, fallback)
}

/// Adds the version of the agent's calls, what the agent is doing, and the numbers of the calls that it has.
fn add_discovered(text: &mut Vec<u8>, state: AgentState)
    requires { HasRoom text.old 41 }
    ensures grows { Grows text.old text.new (reply_text (model.Discovered state)) }
    ensures short { length (reply_text (model.Discovered state)) ≤ 41 }
{
    add(text, b"1.0 ");
    add_agent_state(text, state);
    add(text, b" 0,16,17,18,19,20,21,22,23,24")
}

/// Adds what a read answered: how many bytes there are in all, and those that it got.
fn add_got(text: &mut Vec<u8>, total: u32, bytes: &[u8])
    requires room { HasRoom text.old REPLY_ROOM }
    requires short { length bytes.now ≤ room_limit }
    ensures grows { Grows text.old text.new (reply_text (model.Got total bytes.now)) }
    ensures short { length (reply_text (model.Got total bytes.now)) ≤ REPLY_ROOM }
{
    add_named(text, b"SUCCESS total=", total);
    add(text, b" ");
    add_bytes(text, bytes)
}

/// Adds what a `send` answered that installed a package.
fn add_sent(text: &mut Vec<u8>, images: u32, skipped: u32)
    requires { HasRoom text.old 44 }
    ensures grows { Grows text.old text.new (reply_text (model.Sent images skipped)) }
    ensures short { length (reply_text (model.Sent images skipped)) ≤ 44 }
{
    add_named(text, b"SUCCESS images=", images);
    add_named(text, b" skipped=", skipped)
}

/// Adds what a partial `send` answered that installed a package.
fn add_sent_partial(text: &mut Vec<u8>, images: u32, skipped: u32, copied: u32)
    requires { HasRoom text.old 62 }
    ensures grows { Grows text.old text.new (reply_text (model.SentPartial images skipped copied)) }
    ensures short { length (reply_text (model.SentPartial images skipped copied)) ≤ 62 }
{
    add_sent(text, images, skipped);
    add_named(text, b" copied=", copied)
}

/// Adds what a `send` answered whose file is no package.
fn add_bad_package(text: &mut Vec<u8>, fault: FipFault)
    requires { HasRoom text.old 32 }
    ensures grows { Grows text.old text.new (reply_text (model.BadPackage fault)) }
    ensures short { length (reply_text (model.BadPackage fault)) ≤ 32 }
{
    add(text, b"bad-package ");
    add_fip_fault(text, fault)
}

/// Adds which call of the agent a `send` was refused, and why.
fn add_refused(text: &mut Vec<u8>, call: &[u8], status: Status)
    requires { HasRoom text.old (length call.now + 13) }
    ensures grows { Grows text.old text.new (call.now ++ status_text status) }
    ensures short { length (call.now ++ status_text status) ≤ length call.now + 13 }
{
    add(text, call);
    add_status(text, status)
}

/// Adds a reply.
pub fn add_reply(text: &mut Vec<u8>, next: &Reply)
    requires room { HasRoom text.old REPLY_ROOM }
    requires short { IsShortReply (reply next.now) }
    ensures grows { Grows text.old text.new (reply_text (reply next.now)) }
    ensures short { length (reply_text (reply next.now)) ≤ REPLY_ROOM }
{
    match next {
        Reply::Off => add(text, b"off"),
        Reply::Lost => add(text, b"lost"),
        Reply::Fault => add(text, b"fault"),
        Reply::ReadFault => add(text, b"read-fault"),
        Reply::Refused(status) => add_status(text, *status),
        Reply::Success => add(text, b"SUCCESS"),
        Reply::Discovered(state) => add_discovered(text, *state),
        Reply::Opened(handle) => add_named(text, b"SUCCESS handle=", *handle),
        Reply::Got { total, bytes } => add_got(text, *total, bytes.as_slice()),
        Reply::Sent { images, skipped } => add_sent(text, *images, *skipped),
        Reply::SentPartial {
            images,
            skipped,
            copied,
        } => add_sent_partial(text, *images, *skipped, *copied),
        Reply::Missing(guid) => add_guid(text, b"missing ", guid),
        Reply::TooLarge(guid) => add_guid(text, b"too-large ", guid),
        Reply::BadPackage(fault) => add_bad_package(text, *fault),
        Reply::BadCapsule(fault) => add_named(text, b"bad-capsule ", fault.number()),
        Reply::BeginRefused(status) => add_refused(text, b"begin ", *status),
        Reply::EndRefused(status) => add_refused(text, b"end ", *status),
        Reply::Booted {
            bank,
            version,
            trials,
            counter,
            fallback,
        } => add_booted(text, *bank, *version, *trials, *counter, *fallback),
        Reply::NotBooted(why) => add_no_boot(text, *why),
        Reply::CutOk => add(text, b"ok"),
        Reply::Shown(numbers) => add_numbers(text, numbers),
        Reply::NotUnderstood => add(text, b"NOT_UNDERSTOOD"),
    }
}
