//! Streams that come in pieces, and streams of the most bytes that are taken.
ghost use Rattle.std.specs.Prelude.{◌≡◌, ⊤, None, false, refl};

use crate::exchanges::{BEFORE, BEHIND, Row};
use crate::flashes::{booted, holds};
use crate::servings::{Did, served};
use flash_devices::Cut;
use host_io::{Failed, Source};
use runs_kit::{MANIFEST_2, NO_TROUBLE, Trouble, two_banks};
use std::alloc::Global;
use std::process::Abort;

// A source that gives so many bytes at a time.
#[derive(Drop)]
struct InPieces {
    bytes: Vec<u8>,
    at: usize,
    size: usize,
}

impl Source for InPieces {
    ghost tells = { false };

    ghost steady = { λ _. refl };

    ghost left = { λ _. None };

    ghost faults = { λ _. 0 };

    ghost reads = { λ _ _ _. ⊤ };

    ghost at_rest = { λ _. tt };

    ghost joins = { λ _ _ _ _ _ _ _. tt };

    fn read(&mut self, out: &mut [u8]) -> Result<usize, Failed> {
        let Some(rest) = self.bytes.as_slice().get(self.at..) else {
            return Ok(0);
        };
        let given = out.len().min(self.size).min(rest.len());
        out[..given].copy_from_slice(&rest[..given]);
        self.at = self.at.saturating_add(given);
        Ok(given)
    }
}

// A source of so many bytes, of which each 4,096 are the frame of a request with number 0.
#[derive(Drop)]
struct Ignored {
    frame: Vec<u8>,
    given: u64,
    count: u64,
}

impl Source for Ignored {
    ghost tells = { false };

    ghost steady = { λ _. refl };

    ghost left = { λ _. None };

    ghost faults = { λ _. 0 };

    ghost reads = { λ _ _ _. ⊤ };

    ghost at_rest = { λ _. tt };

    ghost joins = { λ _ _ _ _ _ _ _. tt };

    fn read(&mut self, out: &mut [u8]) -> Result<usize, Failed> {
        let at = (self.given % 4096) as usize;
        let Some(rest) = self.frame.as_slice().get(at..) else {
            return Ok(0);
        };
        let left = self.count.saturating_sub(self.given).min(4096) as usize;
        let given = out.len().min(rest.len()).min(left);
        out[..given].copy_from_slice(&rest[..given]);
        self.given = self.given.saturating_add(given as u64);
        Ok(given)
    }
}

// How many bytes come, and the status.
const MOST: [(u64, u8); 3] = [(1_073_741_823, 11), (1_073_741_824, 0), (1_073_741_825, 8)];

#[test]
fn no_more_than_the_most_is_taken(rt: HostRuntime) {
    let alloc = rt.alloc();
    for (count, status) in &MOST {
        let mut frame = vec![in alloc; 0; 4096].expect(&rt, "memory");
        if let Some(length) = frame.as_mut_slice().get_mut(..4) {
            length.copy_from_slice(&[0xfc, 0x0f, 0, 0]);
        }
        let mut source = Ignored {
            frame,
            given: 0,
            count: *count,
        };
        let image = two_banks(alloc).expect(&rt, "memory");
        let did = served(&rt, alloc, image, &mut source, &NO_TROUBLE);
        holds(&rt, did.status == *status, "the status");
        holds(&rt, did.turns == 1, "the boot alone");
        holds(&rt, did.written.is_empty(), "nothing is written");
    }
}

// Adds the frame of a numbered message.
fn add_frame(rt: &impl Abort, stream: &mut Vec<u8>, number: u8, message: &[u8]) {
    let size = message.len().wrapping_add(4);
    let low = (size % 256) as u8;
    let high = (size / 256 % 256) as u8;
    let head = [low, high, 0, 0, number, 0, 0, 0];
    stream.extend_from_slice(&head).expect(rt, "memory");
    stream.extend_from_slice(message).expect(rt, "memory");
}

// Requests and replies, as frames.
#[derive(Drop)]
struct Frames {
    requests: Vec<u8>,
    replies: Vec<u8>,
    last: u8,
}

fn add_exchange(rt: &impl Abort, frames: &mut Frames, request: &[u8], reply: &[u8]) {
    frames.last = frames.last.wrapping_add(1);
    add_frame(rt, &mut frames.requests, frames.last, request);
    add_frame(rt, &mut frames.replies, frames.last, reply);
}

fn add_rows(rt: &impl Abort, alloc: Global, frames: &mut Frames, rows: &[Row]) {
    for (request, reply) in rows {
        let request = hex::decode(alloc, request).expect(rt, "digits");
        let reply = hex::decode(alloc, reply).expect(rt, "digits");
        add_exchange(rt, frames, request.as_slice(), reply.as_slice());
    }
}

// A whole update to version 2.
fn update(rt: &impl Abort, alloc: Global) -> Frames {
    let mut frames = Frames {
        requests: Vec::new(alloc),
        replies: Vec::new(alloc),
        last: 0,
    };
    add_rows(rt, alloc, &mut frames, &BEFORE);
    let mut write = hex::decode(alloc, "1400000001000000").expect(rt, "digits");
    let manifest = hex::decode(alloc, MANIFEST_2).expect(rt, "digits");
    write
        .extend_from_slice(manifest.as_slice())
        .expect(rt, "memory");
    add_exchange(rt, &mut frames, write.as_slice(), &[0, 0, 0, 0]);
    add_rows(rt, alloc, &mut frames, &BEHIND);
    frames
}

fn updated(rt: &impl Abort, alloc: Global, requests: &[u8], size: usize, trouble: &Trouble) -> Did {
    let mut source = InPieces {
        bytes: requests.to_vec(alloc).expect(rt, "memory"),
        at: 0,
        size,
    };
    served(
        rt,
        alloc,
        two_banks(alloc).expect(rt, "memory"),
        &mut source,
        trouble,
    )
}

// Whether these bytes start the bank with its version.
fn boots(rt: &impl Abort, alloc: Global, image: &[u8], bank: u32, version: u32) -> bool {
    let image = image.to_vec(alloc).expect(rt, "memory");
    let next = booted(rt, alloc, image, Vec::new(alloc));
    next.bank() == bank && next.version() == version
}

// How many bytes come at a time.
const SIZES: [usize; 10] = [1, 2, 3, 5, 7, 11, 12, 13, 64, 4112];

#[test]
fn an_update_comes_in_pieces(rt: HostRuntime) {
    let alloc = rt.alloc();
    let frames = update(&rt, alloc);
    let whole = updated(&rt, alloc, frames.requests.as_slice(), 4112, &NO_TROUBLE);
    let installed = boots(&rt, alloc, whole.image.as_slice(), 1, 2);
    holds(&rt, installed, "bank 1 has version 2");
    for size in &SIZES {
        let did = updated(&rt, alloc, frames.requests.as_slice(), *size, &NO_TROUBLE);
        holds(&rt, did.status == 0, "the end of the source");
        holds(&rt, did.turns == 15, "a boot and 14 requests");
        let same = did.written.as_slice() == frames.replies.as_slice();
        holds(&rt, same, "the same replies");
        let same = did.image.as_slice() == whole.image.as_slice();
        holds(&rt, same, "the same flash");
    }
}

// How many whole frames stand at the front of a stream, and how many bytes they have.
fn whole_frames(stream: &[u8]) -> (usize, usize) {
    let mut count: usize = 0;
    let mut end: usize = 0;
    for _ in 0..stream.len() {
        let (Some(low), Some(high)) = (stream.get(end), stream.get(end.saturating_add(1))) else {
            return (count, end);
        };
        let size = (*high as usize)
            .wrapping_mul(256)
            .wrapping_add(*low as usize);
        let next = end.saturating_add(4).saturating_add(size);
        if next > stream.len() {
            return (count, end);
        }
        count = count.wrapping_add(1);
        end = next;
    }
    (count, end)
}

// The frames of an update may end at any byte: those that came whole are answered, and an end within one is told.
#[test]
fn an_update_ends_at_any_byte(rt: HostRuntime) {
    let alloc = rt.alloc();
    let frames = update(&rt, alloc);
    for size in 0..frames.requests.len() + 1 {
        let stream = frames
            .requests
            .as_slice()
            .get(..size)
            .expect(&rt, "a front");
        let (count, end) = whole_frames(stream);
        let did = updated(&rt, alloc, stream, 4112, &NO_TROUBLE);
        let status = if end == size { 0 } else { 11 };
        holds(
            &rt,
            did.status == status,
            "an end behind a frame, or within one",
        );
        holds(
            &rt,
            did.turns == count.wrapping_add(1),
            "a boot and the requests",
        );
        let front = frames
            .replies
            .as_slice()
            .starts_with(did.written.as_slice());
        let (replies, all) = whole_frames(did.written.as_slice());
        let whole = replies == count && all == did.written.len();
        holds(&rt, front && whole, "the first replies");
    }
}

#[test]
fn an_update_is_cut_anywhere(rt: HostRuntime) {
    let alloc = rt.alloc();
    let frames = update(&rt, alloc);
    let mut losses = 0;
    for op in 1..200 {
        let cut = Cut {
            op,
            landed: 2,
            back: false,
        };
        let trouble = Trouble { cut, ..NO_TROUBLE };
        let did = updated(&rt, alloc, frames.requests.as_slice(), 4112, &trouble);
        if did.status == 0 {
            break;
        }
        losses = op;
        holds(&rt, did.status == 12, "power is lost");
        let front = frames
            .replies
            .as_slice()
            .starts_with(did.written.as_slice());
        holds(&rt, front, "the first replies");
        let old = boots(&rt, alloc, did.image.as_slice(), 0, 1);
        let whole = old || boots(&rt, alloc, did.image.as_slice(), 1, 2);
        holds(&rt, whole, "a whole bank is left");
    }
    holds(
        &rt,
        losses >= 10 && losses < 199,
        "an update has some writes",
    );
}
