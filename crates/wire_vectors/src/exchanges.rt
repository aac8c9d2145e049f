//! A whole update by a client and a server, where each frame comes twice; and a loss of power.

use crate::flashes::{booted, holds};
use crate::requests::{replies_to, server_of};
use agent_calls::Agent;
use flash_devices::{Cut, MemoryFlash};
use fwu_wire::{Admission, Asked, Client, Exchange, FRAME_BYTES, Server, Stop};
use host_io::MemorySource;
use runs_kit::{MANIFEST_2, two_banks};
use std::alloc::Global;
use std::process::Abort;
use verify_core::AnyManifest;
use wire_frames::{FrameReader, MOST_BODY_BYTES};

// The frame of a request with this message, twice.
fn asked_twice(rt: &impl Abort, alloc: Global, client: &mut Client, message: &[u8]) -> Vec<u8> {
    let mut stream = Vec::new(alloc);
    if message.len() < 4 || message.len() > 4104 {
        return stream;
    }
    let mut out = [0; FRAME_BYTES];
    if let Asked::Frame(size) = client.ask(message, &mut out) {
        let frame = out.get(..size as usize).expect(rt, "a frame");
        stream.extend_from_slice(frame).expect(rt, "memory");
    }
    let mut again = [0; FRAME_BYTES];
    if client.is_open() {
        let size = client.again(&mut again);
        let frame = again.get(..size as usize).expect(rt, "a frame");
        stream.extend_from_slice(frame).expect(rt, "memory");
    }
    let waits = client.ask(message, &mut out) == Asked::Waiting;
    holds(rt, waits, "one is open");
    stream
}

// Asks with a message, and gives the message of the reply, which comes twice.
fn exchanged(
    rt: &impl Abort,
    alloc: Global,
    client: &mut Client,
    server: &mut Server<MemoryFlash>,
    message: &[u8],
) -> Vec<u8> {
    let stream = asked_twice(rt, alloc, client, message);
    let written = replies_to(rt, alloc, server, stream);
    let mut source = MemorySource::new(written, Vec::new(alloc));
    let mut reader = FrameReader::new();
    let mut body = [0; MOST_BODY_BYTES];
    let mut reply = Vec::new(alloc);
    if let Ok(size) = reader.next(&mut source, &mut body) {
        let closed = client.take(&body[..size]);
        holds(rt, closed, "it closes the request");
        let message = body.get(4..size).expect(rt, "a message");
        reply.extend_from_slice(message).expect(rt, "memory");
    }
    if let Ok(size) = reader.next(&mut source, &mut body) {
        let closed = client.take(&body[..size]);
        holds(rt, !closed, "none is open");
        let same = body.get(4..size) == Some(reply.as_slice());
        holds(rt, same, "the same reply");
    }
    reply
}

/// A request and its reply, as messages.
pub type Row = (&'static str, &'static str);

/// An update up to the write of its manifest.
pub const BEFORE: [Row; 4] = [
    ("100000000000000000000000", "00000000"),
    (
        "00000000",
        "00000000010000000000000001000000\
0a0000000000000010000000110000001200000013000000140000001500000016000000\
1700000018000000",
    ),
    ("11000000", "fcffffff"),
    (
        "130000004657554d414e4946455354000000000101000000",
        "0000000001000000",
    ),
];

/// What follows that write.
pub const BEHIND: [Row; 9] = [
    ("16000000010000000000000000000000", "00000000"),
    (
        "130000005ff9ec0b4d223e4da544c39d81c73f0a01000000",
        "0000000001000000",
    ),
    ("1400000001000000616263", "00000000"),
    ("16000000010000000000000000000000", "00000000"),
    (
        "13000000d6d0eea7fcead54b97829934f234b6e401000000",
        "0000000001000000",
    ),
    ("140000000100000068656c", "00000000"),
    ("14000000010000006c6f", "00000000"),
    ("16000000010000000000000000000000", "00000000"),
    ("11000000", "00000000"),
];

fn exchange_all(
    rt: &impl Abort,
    alloc: Global,
    client: &mut Client,
    server: &mut Server<MemoryFlash>,
    rows: &[Row],
) {
    for (message, reply) in rows {
        let message = hex::decode(alloc, message).expect(rt, "digits");
        let found = exchanged(rt, alloc, client, server, message.as_slice());
        let expected = hex::decode(alloc, reply).expect(rt, "digits");
        let same = found.as_slice() == expected.as_slice();
        holds(rt, same, reply);
    }
}

#[test]
fn an_update_is_made_once(rt: HostRuntime) {
    let alloc = rt.alloc();
    let mut client = Client::new();
    let mut server = server_of(&rt, alloc);
    exchange_all(&rt, alloc, &mut client, &mut server, &BEFORE);
    let mut write = hex::decode(alloc, "1400000001000000").expect(&rt, "digits");
    let manifest = hex::decode(alloc, MANIFEST_2).expect(&rt, "digits");
    write
        .extend_from_slice(manifest.as_slice())
        .expect(&rt, "memory");
    let reply = exchanged(&rt, alloc, &mut client, &mut server, write.as_slice());
    let done = reply.as_slice() == [0, 0, 0, 0].as_slice();
    holds(&rt, done, "the manifest is written");
    exchange_all(&rt, alloc, &mut client, &mut server, &BEHIND);
    let flash = server.into_agent().into_flash();
    let image = flash.bytes().to_vec(alloc).expect(&rt, "memory");
    let next = booted(&rt, alloc, image, Vec::new(alloc));
    let installed = next.bank() == 1 && next.version() == 2;
    holds(&rt, installed, "bank 1 has version 2");
}

#[test]
fn no_number_follows_the_greatest(rt: HostRuntime) {
    let mut exchange = Exchange::new();
    exchange.keep(4_294_967_294, &[1]);
    let next = exchange.admit(4_294_967_295) == Admission::Acts;
    holds(&rt, next, "the greatest number is the next one");
    exchange.keep(4_294_967_295, &[2]);
    for number in [0, 1, 4_294_967_294] {
        let ignored = exchange.admit(number) == Admission::Ignored;
        holds(&rt, ignored, "no other request acts");
    }
    let repeats = exchange.admit(4_294_967_295) == Admission::Repeats;
    holds(&rt, repeats, "the greatest number comes again");
    let mut out = [0; FRAME_BYTES];
    let kept = exchange.repeat(&mut out) == 1 && out[0] == 2;
    holds(&rt, kept, "the frame that is kept");
}

#[test]
fn a_cut_stops_the_agent(rt: HostRuntime) {
    let alloc = rt.alloc();
    let cut = Cut {
        op: 1,
        landed: 0,
        back: false,
    };
    let cuts = [cut].to_vec(alloc).expect(&rt, "memory");
    let image = two_banks(alloc).expect(&rt, "memory");
    let mut server = Server::new(Agent::start(booted(&rt, alloc, image, cuts)));
    let begin = [1, 0, 0, 0, 16, 0, 0, 0, 0, 0, 0, 0, 0, 0, 0, 0];
    let mut open = [0; 28];
    open[..8].copy_from_slice(&[2, 0, 0, 0, 19, 0, 0, 0]);
    open[8..24].copy_from_slice(b"FWUMANIFEST\x00\x00\x00\x00\x01");
    open[24] = 1;
    let mut out = [0; FRAME_BYTES];
    let begun = server.take(&begin, &mut out, &AnyManifest).is_ok();
    holds(&rt, begun, "a begin writes nothing");
    let opened = server.take(&open, &mut out, &AnyManifest).is_ok();
    holds(&rt, opened, "an open writes nothing");
    let mut write = [0x61; 76];
    write[..12].copy_from_slice(&[3, 0, 0, 0, 20, 0, 0, 0, 1, 0, 0, 0]);
    let lost = server.take(&write, &mut out, &AnyManifest) == Err(Stop::Lost);
    holds(&rt, lost, "power is lost");
    let gone = server.take(&write, &mut out, &AnyManifest) == Err(Stop::Gone);
    holds(&rt, gone, "the agent is gone");
    let kept = server.take(&open, &mut out, &AnyManifest).is_ok();
    holds(&rt, kept, "the last reply again");
}
