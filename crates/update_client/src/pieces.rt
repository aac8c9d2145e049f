//! Writing the payload of an image.
ghost use Rattle.std.specs.Prelude.{◌≡◌, ◌<◌, length, IsFalse, IfOk, OnOk};
ghost use Rattle.agent_calls.specs.Shown.{device, gone, moment};
ghost use Rattle.agent_calls.specs.Takes.{piece_at, pieces_of, writes_of_pieces};
ghost use Rattle.update_client.specs.Halts.{stopped_as, unbegun_as, is_unread as was_unread};
ghost use Rattle.update_client.specs.Images.{HoldsPayload, KeepsBeside, WritesImage, WritesPiece};
ghost use Rattle.update_client.specs.Takes.{OnUnread, PayloadPieceTakes, TakesFront, UnwrittenTakes};

use crate::packages::Payload;
use crate::stops::SendStop;
use agent_calls::{Agent, Stop};
use fip_tables::payload_at;
use flash_core::Flash;
use host_io::Files;

/// A stop of the agent, as one of a sending.
pub fn stopped(stop: Stop) -> SendStop
    ensures { result ≡ stopped_as stop }
{
    match stop {
        Stop::Status(status) => SendStop::End(status),
        Stop::Lost => SendStop::Lost,
        Stop::Fault => SendStop::Fault,
        Stop::Gone => SendStop::Gone,
    }
}

/// A stop of a begin, as one of a sending.
pub fn unbegun(stop: Stop) -> SendStop
    ensures { result ≡ unbegun_as stop }
{
    match stop {
        Stop::Status(status) => SendStop::Begin(status),
        Stop::Lost => SendStop::Lost,
        Stop::Fault => SendStop::Fault,
        Stop::Gone => SendStop::Gone,
    }
}

/// Whether the file could not be read.
pub fn is_unread(stop: &SendStop) -> bool
    ensures { result ≡ was_unread stop.now }
{
    matches!(stop, SendStop::ReadFailed)
}

/// Reads a piece of a payload, from a place of it on, and writes it through handle 1. How many
/// bytes it has.
fn write_piece<D: Flash, H: Files>(
    agent: &mut Agent<D>,
    files: &mut H,
    payload: &Payload<'_>,
    at: u64,
    buf: &mut [u8],
) -> Result<u64, SendStop>
    requires room { 0 < length buf.old }
    requires some { at < payload.now.entry.now.size }
    requires payload { HoldsPayload (H.contents files.old) payload.now.name.now payload.now.entry.now }
    requires here { IsFalse (gone agent.old) }

    ensures wrote { WritesPiece (H.contents files.old) payload.now.name.now payload.now.entry.now at result
        (moment agent.old) (moment agent.new) }
    ensures piece { IfOk result (λ n. n ≡ piece_at (length buf.old) payload.now.entry.now.size at) }
    ensures takes { IfOk result (λ n. PayloadPieceTakes at n (moment agent.old)
        (D.arming (device agent.old)) (D.arming (device agent.new))) }
    ensures unsent { OnUnread result (agent.new ≡ agent.old) }
    ensures keeps { KeepsBeside H.Files payload.now.name.now result agent.old agent.new files.old files.new
        buf.old buf.new }
{
    let entry = payload.entry;
    let size = (entry.size - at).min(buf.len() as u64) as usize;
    match payload_at(files, payload.name, entry, at, &mut buf[..size]) {
        Ok(()) => {}
        Err(_) => return Err(SendStop::ReadFailed),
    }
    match agent.write_stream(1, &buf[..size]) {
        Ok(()) => Ok(size as u64),
        Err(stop) => Err(stopped(stop)),
    }
}

/// Writes a payload through handle 1, in pieces that fill the buffer, but for the last one.
pub fn write_image<D: Flash, H: Files>(
    agent: &mut Agent<D>,
    files: &mut H,
    payload: &Payload<'_>,
    buf: &mut [u8],
) -> Result<(), SendStop>
    requires room { 0 < length buf.old }
    requires payload { HoldsPayload (H.contents files.old) payload.now.name.now payload.now.entry.now }
    requires here { IsFalse (gone agent.old) }

    ensures wrote { WritesImage (H.contents files.old) payload.now.name.now payload.now.entry.now result
        (moment agent.old) (moment agent.new) }
    ensures takes { let e = payload.now.entry.now in let size = length buf.old in OnOk result (UnwrittenTakes
        (writes_of_pieces size e.size (pieces_of size e.size)) e
        (moment agent.old) (D.arming (device agent.old)) (D.arming (device agent.new))) }
    // the first pieces, where the file could not be read
    ensures unread { OnUnread result (TakesFront (length buf.old) payload.now.entry.now (λ writes. UnwrittenTakes writes
        payload.now.entry.now (moment agent.old) (D.arming (device agent.old)) (D.arming (device agent.new)))) }
    ensures keeps { KeepsBeside H.Files payload.now.name.now result agent.old agent.new files.old files.new
        buf.old buf.new }
{
    let entry = payload.entry;
    let mut at = 0;
    while at < entry.size {
        at += write_piece(agent, files, payload, at, buf)?;
    }
    Ok(())
}
