//! The words of a line: of calls, of refusals and of faults.
ghost use Rattle.std.specs.Prelude.{◌≡◌, ◌≤◌, ◌+◌, ◌++◌, length};
ghost use Rattle.base_core.specs.Guid.{guid_text};
ghost use Rattle.fwu_formats.specs.FaultText.{fip_fault_text, layout_fault_number};
ghost use Rattle.fwu_model.specs.Text.{agent_text, call_word, status_text};
ghost use Rattle.script_text.specs.Shown.{shown};
ghost use Rattle.fwu_journal.specs.Room.{Grows, HasRoom};

use crate::adding::add;
use crate::numbers::add_named;
use base_core::Guid;
use fwu_formats::{FipFault, LayoutFault};
use fwu_model::{AgentState, Status};
use script_text::Call;

/// Adds the word of a call.
pub fn add_call(text: &mut Vec<u8>, call: &Call)
    requires { HasRoom text.old 8 }
    ensures grows { Grows text.old text.new (call_word (shown call.now)) }
    ensures short { length (call_word (shown call.now)) ≤ 8 }
{
    match call {
        Call::Discover => add(text, b"discover"),
        Call::Begin { .. } | Call::BeginPartial { .. } => add(text, b"begin"),
        Call::Open { .. } => add(text, b"open"),
        Call::Write { .. } => add(text, b"write"),
        Call::Read { .. } => add(text, b"read"),
        Call::Commit { .. } => add(text, b"commit"),
        Call::End => add(text, b"end"),
        Call::Cancel => add(text, b"cancel"),
        Call::Accept { .. } => add(text, b"accept"),
        Call::Previous => add(text, b"previous"),
        Call::Send { .. } | Call::SendPartial { .. } => add(text, b"send"),
        Call::Boot => add(text, b"boot"),
        Call::Cut { .. } => add(text, b"cut"),
        Call::Show => add(text, b"show"),
        Call::NoCall => add(text, b"no-call"),
    }
}

/// Adds why the agent refused a call.
pub fn add_status(text: &mut Vec<u8>, status: Status)
    requires { HasRoom text.old 13 }
    ensures grows { Grows text.old text.new (status_text status) }
    ensures short { length (status_text status) ≤ 13 }
{
    match status {
        Status::Unknown => add(text, b"UNKNOWN"),
        Status::Busy => add(text, b"BUSY"),
        Status::OutOfBounds => add(text, b"OUT_OF_BOUNDS"),
        Status::AuthFail => add(text, b"AUTH_FAIL"),
        Status::Denied => add(text, b"DENIED"),
        Status::NotAvailable => add(text, b"NOT_AVAILABLE"),
    }
}

/// Adds what the agent is doing.
pub fn add_agent_state(text: &mut Vec<u8>, state: AgentState)
    requires { HasRoom text.old 7 }
    ensures grows { Grows text.old text.new (agent_text state) }
    ensures short { length (agent_text state) ≤ 7 }
{
    match state {
        AgentState::Regular => add(text, b"regular"),
        AgentState::Staging => add(text, b"staging"),
        AgentState::Trial => add(text, b"trial"),
    }
}

/// The number of a layout's fault.
pub fn layout_fault_number(fault: LayoutFault) -> u32
    ensures { result ≡ layout_fault_number fault }
{
    match fault {
        LayoutFault::Short => 1,
        LayoutFault::BadMagic => 2,
        LayoutFault::BadSize => 3,
        LayoutFault::BadCrc => 4,
        LayoutFault::BadField => 5,
        LayoutFault::BeyondFlash => 6,
    }
}

/// Adds why a file is no package.
pub fn add_fip_fault(text: &mut Vec<u8>, fault: FipFault)
    requires { HasRoom text.old 20 }
    ensures grows { Grows text.old text.new (fip_fault_text fault) }
    ensures short { length (fip_fault_text fault) ≤ 20 }
{
    match fault {
        FipFault::ShortHeader => add(text, b"short-header"),
        FipFault::BadName => add(text, b"bad-name"),
        FipFault::ZeroSerial => add(text, b"zero-serial"),
        FipFault::NoEnd(entry) => add_named(text, b"no-end ", entry),
        FipFault::TooMany => add(text, b"too-many"),
        FipFault::Duplicate(entry) => add_named(text, b"duplicate ", entry),
        FipFault::Beyond(entry) => add_named(text, b"beyond ", entry),
    }
}

/// Adds a UUID behind a name.
pub fn add_guid(text: &mut Vec<u8>, name: &[u8], guid: &Guid)
    requires { HasRoom text.old (length name.now + 36) }
    ensures grows { Grows text.old text.new (name.now ++ guid_text guid.now) }
    ensures short { length (name.now ++ guid_text guid.now) ≤ length name.now + 36 }
{
    let mut spelled = [0; 36];
    guid.text(&mut spelled);
    add(text, name);
    add(text, &spelled)
}
