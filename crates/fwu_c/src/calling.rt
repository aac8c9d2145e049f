//! A call of the agent in the session behind a boot of a bank.
ghost use Rattle.std.specs.Prelude.{◌≡◌, ◌⊎◌, ◌≤◌, [], length, true, IfSome, IsFalse, MatchResult};
ghost use Rattle.base_core.specs.Block.{block_bytes};
ghost use Rattle.fwu_formats.specs.Digests.{passes_any};
ghost use Rattle.fwu_model.specs.Reply.{Success};
ghost use Rattle.early_boot.specs.Started.{Started, started};
ghost use Rattle.early_boot.specs.TakenUp.{TakenUp, stopped, taken};
ghost use Rattle.early_boot.specs.Started as boot;
ghost use Rattle.agent_machine.specs.Meets.{IsDone, IsRefused, Meets};
ghost use Rattle.agent_calls.specs.Shown.{AgentGoes, device, fields, gone, moment};
ghost use Rattle.agent_calls.specs.Started.{StartsFrom};
ghost use Rattle.step_flash.specs.Flash.{image_of, is_on, told_of, writes_of};
ghost use Rattle.flash_core.specs.Touches.{TouchesOnly};
ghost use Rattle.fwu_c.specs.Agents.{BeginsAgent};
ghost use Rattle.fwu_c.specs.Calls.{CallsBy, CallsFrom, IsAccepted, TakesUp, call_code, call_of, meta_made, status_code};
ghost use Rattle.fwu_c.specs.Calls.{take_up_code};
ghost use Rattle.fwu_c.specs.Handed.{IsDeviceEnd, IsJustMade, TellsAnswer, TellsSteps, call_reach};

use crate::handing::{hand_over, unmade_number};
use crate::kept_agent::{agent_of, flash_from};
use crate::layouts::fault_number;
use crate::report::{Report, report_start};
use agent_calls::{Agent, Stop};
use base_core::{BLOCK_BYTES, Guid};
use early_boot::{Booted, TakeUpEnd, take_up};
use flash_core::FlashStop;
use fwu_model::Status;
use std::alloc::Global;
use step_flash::{Step, StepFlash};
use verify_core::AnyManifest;

/// A call that has no value.
#[derive(Clone, Copy)]
pub enum AgentCall {
    /// Of the image of a type.
    Accept(Guid),
    Previous,
}

/// A call, and the bank that the boot behind which it comes told.
#[derive(Clone, Copy)]
pub struct BankCall {
    pub bank: u32,
    pub call: AgentCall,
}

/// The number of a refusal.
fn status_number(status: Status) -> u32
    ensures { result ≡ status_code status }
{
    match status {
        Status::Denied => 16,
        Status::AuthFail => 17,
        Status::Unknown => 20,
        Status::Busy => 22,
        Status::OutOfBounds => 23,
        Status::NotAvailable => 24,
    }
}

/// The number of a call that has no value.
fn call_number(done: &Result<(), Stop>) -> u32
    ensures { result ≡ call_code done.now }
{
    match done {
        Ok(()) => 0,
        Err(Stop::Status(status)) => status_number(*status),
        Err(Stop::Lost) => 4,
        Err(Stop::Fault) => 5,
        // no agent that was just started is gone
        Err(Stop::Gone) => 7,
    }
}

/// The number of a stop.
fn stop_number(stop: FlashStop) -> u32
    ensures { result ≡ take_up_code (stopped stop) }
{
    match stop {
        FlashStop::Lost => 4,
        FlashStop::Failed => 5,
    }
}

/// Takes up the bank that a boot started, keeps it in memory of its own, and reports it. Where it is refused, or the flash stops
/// it, the number of that comes with the device. None where there is no memory for it.
// kept apart, so that its frame is gone before the agent is made
#[inline(never)]
fn taken_up<'a>(
    alloc: Global,
    flash: StepFlash<'a>,
    bank: u32,
    block: &mut [u8],
    told: &mut Report,
) -> Option<Result<Box<Booted<StepFlash<'a>>>, (StepFlash<'a>, u32)>>
    requires on { is_on flash ≡ true }
    requires room { block_bytes ≤ length block.old }
    ensures { IfSome result (λ end. MatchResult end
        (λ b. TakesUp bank (taken (started b.value)) 0 flash.entry (boot.device b.value) told.old told.new)
        (λ e. (1 ≤ e.1) × (end : TakenUp) × TakesUp bank end e.1 flash.entry e.0 told.old told.new)) }
{
    match take_up(
        flash,
        bank,
        &AnyManifest,
        &mut block[..BLOCK_BYTES as usize],
    ) {
        TakeUpEnd::Taken(booted) => {
            report_start(&booted, told);
            match Box::new(alloc, booted) {
                Ok(kept) => Some(Ok(kept)),
                Err(_) => None,
            }
        }
        TakeUpEnd::BadLayout(flash, fault) => {
            told.layout_fault = fault_number(fault);
            Some(Err((flash, 1)))
        }
        TakeUpEnd::NoMetadata(flash) => Some(Err((flash, 2))),
        TakeUpEnd::NotStarted(flash) => Some(Err((flash, 21))),
        TakeUpEnd::Stopped(flash, stop) => Some(Err((flash, stop_number(stop)))),
    }
}

/// Takes up the bank that a boot started, for an agent, and reports it. Where it is refused, or the flash stops it, the number of
/// that comes with the device. None where there is no memory for the bank or for an agent.
fn agent_taken_up<'a>(
    alloc: Global,
    flash: StepFlash<'a>,
    bank: u32,
    block: &mut [u8],
    told: &mut Report,
) -> Option<Result<Box<Agent<StepFlash<'a>>>, (StepFlash<'a>, u32)>>
    requires on { is_on flash ≡ true }
    requires room { block_bytes ≤ length block.old }
    ensures { IfSome result (λ end. MatchResult end
        (λ a. (b : Started) × BeginsAgent b (moment a.value) (gone a.value)
        × TakesUp bank (taken b) 0 flash.entry (device a.value) told.old told.new)
        (λ e. (1 ≤ e.1) × (end : TakenUp) × TakesUp bank end e.1 flash.entry e.0 told.old told.new)) }
{
    match taken_up(alloc, flash, bank, block, told) {
        Some(Ok(booted)) => match agent_of(alloc, booted) {
            Some(agent) => Some(Ok(agent)),
            None => None,
        },
        Some(Err(left)) => Some(Err(left)),
        None => None,
    }
}

/// Makes the call.
fn ask(agent: &mut Agent<StepFlash<'_>>, call: AgentCall) -> Result<(), Stop>
    ensures meets { IsFalse (gone agent.old) →
        Meets (λ value reply. reply ≡ Success) result (λ m. passes_any m) (call_of call) (moment agent.old) (moment agent.new) }
    ensures refused { IsRefused result → told_of (device agent.new) ≡ told_of (device agent.old) }
    ensures again { (b : Started) → StartsFrom b (fields agent.old) → IsAccepted (call_of call) b →
        told_of (device agent.new) ≡ told_of (device agent.old) }
    // The agent keeps the metadata of the boot, or what the call makes of it.
    ensures metadata { (b : Started) → StartsFrom b (fields agent.old) → IsDone result →
        ((fields agent.new).meta ≡ b.meta) ⊎ ((fields agent.new).meta ≡ meta_made (call_of call) b) }
    ensures goes { AgentGoes result agent.old agent.new }
    ensures touches { TouchesOnly block_bytes call_reach (writes_of (device agent.old)) (writes_of (device agent.new)) }
{
    match call {
        AgentCall::Accept(guid) => agent.accept(guid),
        AgentCall::Previous => agent.previous(&AnyManifest),
    }
}

/// Makes the call by an agent that begins with a bank.
fn called<'a>(
    agent: Box<Agent<StepFlash<'a>>>,
    call: AgentCall,
) -> (StepFlash<'a>, Result<(), Stop>)
    requires here { IsFalse (gone agent.value) }
    ensures calls { (b : Started) → BeginsAgent b (moment agent.entry.value) (gone agent.entry.value) →
        CallsFrom (call_of call) b result.1 (told_of (device agent.entry.value)) (told_of result.0) }
    ensures ends { IsDeviceEnd (call_code result.1) }
    ensures touches { TouchesOnly block_bytes call_reach (writes_of (device agent.entry.value)) (writes_of result.0) }
{
    let mut agent = agent;
    let done = ask(&mut agent, call);
    agent.showing();
    (flash_from(agent), done)
}

/// Makes the call on a flash that lies in memory.
pub fn call_on(
    alloc: Global,
    image: &[u8],
    asked: BankCall,
    steps: &mut [Step],
    room: &mut [u8],
    report: &mut Report,
) -> u32
    ensures calls { TellsAnswer result →
        CallsBy image.now asked.bank (call_of asked.call) result report.old report.new steps.new room.new }
    ensures tells { TellsSteps image.now result report.old steps.old room.old report.new steps.new room.new }
{
    let flash = match StepFlash::new(alloc, image, steps.len()) {
        Ok(flash) => flash,
        Err(why) => return unmade_number(why),
    };
    let Ok(mut block) = Vec::from_elem(alloc, 0u8, BLOCK_BYTES as usize) else {
        return 7;
    };
    call_over(flash, &mut block, asked, steps, room, report)
}

/// As `call_on`, on the device over the image, with a buffer of 4096 bytes.
fn call_over(
    flash: StepFlash<'_>,
    block: &mut Vec<u8>,
    asked: BankCall,
    steps: &mut [Step],
    room: &mut [u8],
    report: &mut Report,
) -> u32
    requires new { IsJustMade [] flash }
    requires block { block_bytes ≤ length block.old.items }
    ensures calls { TellsAnswer result →
        CallsBy (image_of flash.entry) asked.bank (call_of asked.call) result report.old report.new steps.new room.new }
    ensures tells { TellsSteps (image_of flash.entry) result report.old steps.old room.old report.new steps.new room.new }
{
    let alloc = *block.allocator();
    let mut told = *report;
    match agent_taken_up(alloc, flash, asked.bank, block, &mut told) {
        Some(Ok(agent)) => {
            let (flash, done) = called(agent, asked.call);
            let number = call_number(&done);
            hand_over(flash, number, &told, steps, room, report)
        }
        Some(Err((flash, number))) => { hand_over(flash, number, &told, steps, room, report) }
        None => 7,
    }
}
