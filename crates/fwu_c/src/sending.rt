//! A package that lies in memory, sent to the agent of a bank that was booted.
ghost use Rattle.std.specs.Prelude.{◌≡◌, ◌^◌, ◌<◌, [], IfSome, IsFalse, Ok, Some, length};
ghost use Rattle.agent_calls.specs.Shown.{gone};
ghost use Rattle.fwu_formats.specs.Package.{toc_of};
ghost use Rattle.fip_tables.specs.Stream.{Fed};
ghost use Rattle.fwu_c.specs.Sendings.{TriesBy, outcome_code, sent_code};

use crate::kept_agent::flash_from;
use agent_calls::Agent;
use fip_tables::{StreamToc, Toc};
use package_files::PackageFiles;
use std::alloc::Global;
use step_flash::StepFlash;
use update_client::{SendStop, Sent, send};
use verify_core::AnyManifest;

/// The name under which the agent's client reads the package. No caller sees it.
const NAME: &str = "package";

/// The number of a sending.
fn sent_number(sent: &Result<Sent, SendStop>) -> u32
    ensures { result ≡ sent_code sent.now }
{
    match sent {
        Ok(_) => 0,
        Err(SendStop::MissingImage(_) | SendStop::ImageTooLarge(_)) => 19,
        Err(SendStop::Begin(_)) => 16,
        Err(SendStop::End(_)) => 17,
        Err(SendStop::Lost) => 4,
        Err(SendStop::Fault) => 5,
        // neither comes of a package in memory and an agent that was just started
        Err(SendStop::ReadFailed | SendStop::Gone) => 7,
    }
}

/// The number of what came of a package: 18 where it is none.
pub fn outcome_number(outcome: &Option<Result<Sent, SendStop>>) -> u32
    ensures { result ≡ outcome_code outcome.now }
{
    match outcome {
        Some(sent) => sent_number(sent),
        None => 18,
    }
}

/// Sends a package by its table, in pieces that fill the buffer.
fn send_package<'a>(
    agent: Box<Agent<StepFlash<'a>>>,
    toc: &Toc,
    file: &[u8],
    acceptance: u32,
    block: &mut [u8],
) -> (StepFlash<'a>, Result<Sent, SendStop>)
    requires here { IsFalse (gone agent.value) }
    requires table { toc_of file.now ≡ Ok toc.now }
    requires short { length file.now < 2 ^ 64 }
    requires room { 0 < length block.old }
    ensures { TriesBy file.now acceptance agent.entry.value result.0 (Some result.1) }
{
    let mut agent = agent;
    let mut files = PackageFiles::new(NAME, file);
    let sent = send(
        &mut agent,
        &mut files,
        NAME,
        toc,
        acceptance,
        block,
        &AnyManifest,
    );
    agent.showing();
    (flash_from(agent), sent)
}

/// A table that has read nothing, in memory of its own. None where there is no memory for it.
// kept apart, so that the table is on the stack only while it is made
#[inline(never)]
fn new_table(alloc: Global) -> Option<Box<StreamToc>>
    ensures { IfSome result (λ table. Fed table.value []) }
{
    match Box::new(alloc, StreamToc::new()) {
        Ok(table) => Some(table),
        Err(_) => None,
    }
}

/// Sends a package, where the bytes are one, by an agent that begins with the bank that was started. None where there is no memory
/// for the package's table.
// its frame isn't there while the flash is booted: that keeps the stack small
#[inline(never)]
pub fn install<'a>(
    alloc: Global,
    agent: Box<Agent<StepFlash<'a>>>,
    file: &[u8],
    acceptance: u32,
    block: &mut [u8],
) -> Option<(StepFlash<'a>, Option<Result<Sent, SendStop>>)>
    requires here { IsFalse (gone agent.value) }
    requires room { 0 < length block.old }
    ensures { IfSome result (λ end. TriesBy file.now acceptance agent.entry.value end.0 end.1) }
{
    // the table is read where it stands: a fault that `feed` tells is told by `toc` again
    let mut table = new_table(alloc)?;
    let _fault = table.feed(file);
    match table.toc() {
        Ok(toc) => {
            let (flash, sent) = send_package(agent, toc, file, acceptance, block);
            Some((flash, Some(sent)))
        }
        Err(_) => Some((flash_from(agent), None)),
    }
}
