//! The calls of the agent on a flash that lies in memory.
ghost use Rattle.fwu_model.specs.Call.{Accepts, Previous};
ghost use Rattle.fwu_c.specs.Calls.{CallsBy};
ghost use Rattle.fwu_c.specs.Handed.{TellsAnswer, TellsSteps};

use crate::calling::{AgentCall, BankCall, call_on};
use crate::report::Report;
use base_core::Guid;
use std::alloc::Global;
use step_flash::Step;

/// Accepts the image of a type in the active bank of a flash that lies in memory (DEN0118, fwu_accept_image). It tells the steps by
/// which the flash becomes what that makes of it. The call is that of the firmware which `fwu_boot` started: `bank` is the bank
/// that it told. No start is counted.
///
/// 0: accepted, once the steps are done in their order. 1: block 0 is no layout. 2: neither replica is metadata. 5: there was no
/// room for one more step. 6: these bytes are no flash. 7: memory, or room for the steps' bytes, is wanting. 16: the bank is not
/// the active one. 20: no image has the type. 21: by what the flash shows no boot started the bank.
#[unsafe(no_mangle)]
pub extern "C" fn fwu_accept(
    alloc: Global,
    image: &[u8],
    bank: u32,
    guid: &[u8; 16],
    steps: &mut [Step],
    room: &mut [u8],
    report: &mut Report,
) -> u32
    ensures accepts { TellsAnswer result →
        CallsBy image.now bank (Accepts guid.now) result report.old report.new steps.new room.new }
    // Whatever it answers: no loss of power, no erase or program in block 0, which fields stay, and at 1, 2, 5 to 7 and 21 what
    // that number says.
    ensures tells { TellsSteps image.now result report.old steps.old room.old report.new steps.new room.new }
{
    let call = AgentCall::Accept(Guid::of(*guid));
    let asked = BankCall { bank, call };
    call_on(alloc, image, asked, steps, room, report)
}

/// Selects the bank before on a flash that lies in memory (DEN0118, fwu_select_previous): the active and the previous bank change
/// places. It tells the steps by which the flash becomes what that makes of it. The call is that of the firmware which `fwu_boot`
/// started: `bank` is the bank that it told. No start is counted.
///
/// 0: selected, once the steps are done in their order. 1: block 0 is no layout. 2: neither replica is metadata. 5: there was no
/// room for one more step. 6: these bytes are no flash. 7: memory, or room for the steps' bytes, is wanting. 16: there is nothing
/// to go back from, or no bank that may be gone back to. 21: by what the flash shows no boot started the bank.
#[unsafe(no_mangle)]
pub extern "C" fn fwu_previous(
    alloc: Global,
    image: &[u8],
    bank: u32,
    steps: &mut [Step],
    room: &mut [u8],
    report: &mut Report,
) -> u32
    ensures selects { TellsAnswer result → CallsBy image.now bank Previous result report.old report.new steps.new room.new }
    // Whatever it answers: no loss of power, no erase or program in block 0, which fields stay, and at 1, 2, 5 to 7 and 21 what
    // that number says.
    ensures tells { TellsSteps image.now result report.old steps.old room.old report.new steps.new room.new }
{
    let call = AgentCall::Previous;
    call_on(alloc, image, BankCall { bank, call }, steps, room, report)
}
