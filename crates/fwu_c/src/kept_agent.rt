//! The agent of a bank that was started, in memory of its own: on the stack it would stand below each call.
ghost use Rattle.std.specs.Prelude.{◌≡◌, IfSome};
ghost use Rattle.agent_calls.specs.Shown.{device, gone, moment};
ghost use Rattle.early_boot.specs.Started.{started};
ghost use Rattle.early_boot.specs.Started as boot;
ghost use Rattle.fwu_c.specs.Agents.{BeginsAgent};

use agent_calls::Agent;
use early_boot::Booted;
use std::alloc::Global;
use step_flash::StepFlash;

/// The agent of a bank that was started. None where there is no memory for it.
// kept apart, so that the agent is on the stack only while it is made
#[inline(never)]
pub fn agent_of<'a>(
    alloc: Global,
    booted: Box<Booted<StepFlash<'a>>>,
) -> Option<Box<Agent<StepFlash<'a>>>>
    ensures begins { IfSome result (λ a. BeginsAgent (started booted.entry.value) (moment a.value) (gone a.value)) }
    ensures device { IfSome result (λ a. device a.value ≡ boot.device booted.entry.value) }
{
    match Box::new(alloc, Agent::start(Box::into_inner(booted))) {
        Ok(agent) => Some(agent),
        Err(_) => None,
    }
}

/// The device of an agent, as it is.
// kept apart, as `agent_of` is
#[inline(never)]
pub fn flash_from<'a>(agent: Box<Agent<StepFlash<'a>>>) -> StepFlash<'a>
    ensures { result ≡ device agent.entry.value }
{
    Box::into_inner(agent).into_flash()
}
