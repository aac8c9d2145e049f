//! A server, the requests that it takes from a stream, and the bytes of its replies.
ghost use Rattle.wire_frames.specs.Frames.{IsBody};

use crate::flashes::{booted, holds};
use agent_calls::Agent;
use flash_devices::MemoryFlash;
use fwu_wire::{FRAME_BYTES, Server, Stop, Taken};
use host_io::MemorySource;
use runs_kit::two_banks;
use std::alloc::Global;
use std::process::Abort;
use verify_core::AnyManifest;
use wire_frames::{FrameReader, MOST_BODY_BYTES};

/// A server of the agent of a flash of two banks.
pub fn server_of(rt: &impl Abort, alloc: Global) -> Server<MemoryFlash> {
    let image = two_banks(alloc).expect(rt, "memory");
    Server::new(Agent::start(booted(rt, alloc, image, Vec::new(alloc))))
}

// Takes a request, and puts its reply behind those before. Whether it was stopped.
fn take_one(
    rt: &impl Abort,
    server: &mut Server<MemoryFlash>,
    request: &[u8],
    written: &mut Vec<u8>,
) -> Option<Stop>
    requires { IsBody request.now }
{
    let mut out = [0; FRAME_BYTES];
    match server.take(request, &mut out, &AnyManifest) {
        Ok(Taken::Reply { length, .. }) => {
            let frame = out.get(..length as usize).expect(rt, "a frame");
            written.extend_from_slice(frame).expect(rt, "memory");
            None
        }
        Ok(Taken::Ignored) => None,
        Err(stop) => Some(stop),
    }
}

/// What a server writes for the requests of a stream, up to 40 of them.
pub fn replies_to(
    rt: &impl Abort,
    alloc: Global,
    server: &mut Server<MemoryFlash>,
    stream: Vec<u8>,
) -> Vec<u8> {
    let mut source = MemorySource::new(stream, Vec::new(alloc));
    let mut reader = FrameReader::new();
    let mut body = [0; MOST_BODY_BYTES];
    let mut written = Vec::new(alloc);
    for _ in 0..40 {
        if let Ok(size) = reader.next(&mut source, &mut body) {
            let stop = take_one(rt, server, &body[..size], &mut written);
            holds(rt, stop.is_none(), "a reply");
        }
    }
    written
}

// The functions, and the lengths of their arguments.
const ARGUMENTS: [(u8, u8); 9] = [
    (0, 0),
    (16, 8),
    (17, 0),
    (18, 0),
    (19, 20),
    (21, 8),
    (22, 12),
    (23, 16),
    (24, 0),
];

// A request of a function with so many bytes 0 of arguments, and then one to cancel.
fn with_arguments(rt: &impl Abort, alloc: Global, function: u8, count: u8) -> Vec<u8> {
    let size = count.wrapping_add(8);
    let head = [size, 0, 0, 0, 1, 0, 0, 0, function, 0, 0, 0];
    let mut stream = head.to_vec(alloc).expect(rt, "memory");
    let arguments = vec![in alloc; 0; count as usize].expect(rt, "memory");
    stream
        .extend_from_slice(arguments.as_slice())
        .expect(rt, "memory");
    let cancel = [8, 0, 0, 0, 2, 0, 0, 0, 18, 0, 0, 0];
    stream.extend_from_slice(&cancel).expect(rt, "memory");
    stream
}

// The first request asks for no call, and the second one has nothing to cancel.
const NO_CALL: &str = "08000000010000009cffffff0800000002000000faffffff";

fn asks_for_no_call(rt: &impl Abort, alloc: Global, function: u8, count: u8) {
    let mut server = server_of(rt, alloc);
    let stream = with_arguments(rt, alloc, function, count);
    let written = replies_to(rt, alloc, &mut server, stream);
    let expected = hex::decode(alloc, NO_CALL).expect(rt, "digits");
    let same = written.as_slice() == expected.as_slice();
    holds(rt, same, NO_CALL);
}

#[test]
fn arguments_of_another_length_ask_for_no_call(rt: HostRuntime) {
    let alloc = rt.alloc();
    for (function, count) in &ARGUMENTS {
        asks_for_no_call(&rt, alloc, *function, count.wrapping_add(1));
        if *count > 0 {
            asks_for_no_call(&rt, alloc, *function, count.wrapping_sub(1));
        }
    }
    // A write has a handle of four bytes, and any bytes behind it.
    for count in 0..4 {
        asks_for_no_call(&rt, alloc, 20, count);
    }
}
