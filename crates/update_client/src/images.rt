//! Sending the images of a package.
ghost use Rattle.std.specs.Prelude.{◌<◌, length, IsFalse, OnOk};
ghost use Rattle.agent_calls.specs.Shown.{device, gone, moment};
ghost use Rattle.agent_calls.specs.Takes.{writes_of_image};
ghost use Rattle.update_client.specs.Images.{HoldsPayload, HoldsPayloads, KeepsBeside, SendsImage, SendsImages};
ghost use Rattle.update_client.specs.Takes.{AllUnstagedTake, ImagesTake, OnUnread, TakesFirst, TakesFront, UnstagedTakes};

use crate::packages::{Payload, Payloads};
use crate::pieces::{stopped, write_image};
use crate::stops::SendStop;
use agent_calls::Agent;
use flash_core::Flash;
use fwu_model::Op;
use host_io::Files;

/// Opens an image for writing, writes its payload, and commits it. No handle is open
/// before, so it is handle 1.
pub fn send_image<D: Flash, H: Files>(
    agent: &mut Agent<D>,
    files: &mut H,
    payload: &Payload<'_>,
    acceptance: u32,
    buf: &mut [u8],
) -> Result<(), SendStop>
    requires room { 0 < length buf.old }
    requires payload { HoldsPayload (H.contents files.old) payload.now.name.now payload.now.entry.now }
    requires here { IsFalse (gone agent.old) }

    ensures sent { SendsImage (H.contents files.old) payload.now.name.now payload.now.entry.now acceptance
        result (moment agent.old) (moment agent.new) }
    ensures takes { OnOk result (UnstagedTakes (writes_of_image (length buf.old) payload.now.entry.now.size) payload.now.entry.now
        (moment agent.old) (D.arming (device agent.old)) (D.arming (device agent.new))) }
    // the first pieces, where the file could not be read
    ensures unread { OnUnread result (TakesFront (length buf.old) payload.now.entry.now (λ writes. UnstagedTakes writes
        payload.now.entry.now (moment agent.old) (D.arming (device agent.old)) (D.arming (device agent.new)))) }
    ensures keeps { KeepsBeside H.Files payload.now.name.now result agent.old agent.new files.old files.new
        buf.old buf.new }
{
    let entry = payload.entry;
    match agent.open(entry.guid, Op::Write) {
        Ok(_) => {}
        Err(stop) => return Err(stopped(stop)),
    }
    write_image(agent, files, payload, buf)?;
    match agent.commit(1, acceptance, 0) {
        Ok(()) => Ok(()),
        Err(stop) => Err(stopped(stop)),
    }
}

/// Sends the images of a package in their order.
pub fn send_images<D: Flash, H: Files>(
    agent: &mut Agent<D>,
    files: &mut H,
    payloads: &Payloads<'_>,
    acceptance: u32,
    buf: &mut [u8],
) -> Result<(), SendStop>
    requires room { 0 < length buf.old }
    requires payloads { HoldsPayloads (H.contents files.old) payloads.now.name.now payloads.now.entries.now }
    requires here { IsFalse (gone agent.old) }

    ensures sent { SendsImages (H.contents files.old) payloads.now.name.now payloads.now.entries.now acceptance
        result (moment agent.old) (moment agent.new) }
    ensures takes { OnOk result (ImagesTake (length buf.old) payloads.now.entries.now (length payloads.now.entries.now)
        (moment agent.old) (D.arming (device agent.old)) (D.arming (device agent.new))) }
    // the first of them, and the first pieces of the next one, where the file could not be read
    ensures unread { OnUnread result (TakesFirst (length buf.old) payloads.now.entries.now
        (AllUnstagedTake payloads.now.entries.now (moment agent.old) (D.arming (device agent.old)) (D.arming (device agent.new)))) }
    ensures keeps { KeepsBeside H.Files payloads.now.name.now result agent.old agent.new files.old files.new
        buf.old buf.new }
{
    let entries = payloads.entries;
    for k in 0..entries.len() {
        let payload = Payload {
            name: payloads.name,
            entry: &entries[k],
        };
        send_image(agent, files, &payload, acceptance, buf)?;
    }
    Ok(())
}
