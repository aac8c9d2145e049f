//! Servings that a failure or a loss of power ends: what was written up to then.
use crate::runs::{Ran, end_on, holds, run_on};
use flash_devices::Cut;
use host_io::{MemorySink, MemorySource};
use runs_kit::{NO_TROUBLE, Trouble, files_of, flash_of, two_banks, words_of};
use script_runs::Note;
use std::alloc::Global;
use std::process::Abort;

// A source of the bytes that the digits spell, of which the call of this number fails.
fn stream_of(rt: &impl Abort, alloc: Global, digits: &str, fails: u64) -> MemorySource {
    let bytes = hex::decode(alloc, digits).expect(rt, "digits");
    let fails = Vec::from_slice(alloc, &[fails]).expect(rt, "memory");
    MemorySource::new(bytes, fails)
}

// It wrote the bytes that the digits spell.
fn wrote(rt: &impl Abort, alloc: Global, ran: &Ran, digits: &str) {
    let bytes = hex::decode(alloc, digits).expect(rt, "digits");
    holds(rt, ran.printed.as_slice() == bytes.as_slice(), digits);
}

// Request 1 is a begin of all images, twice, and request 2 an end.
const BEGINS: &str =
    "100000000100000010000000000000000000000010000000010000001000000000000000000000000800000002000000\
11000000";

// A cancel, which is denied where nothing is staged.
const CANCEL: &str = "080000000100000012000000";

const NOTHING_BEGUN: &str = "0800000001000000faffffff";

// A begin, an open of tb-fw for writing, and a write of 64 bytes; and the replies to the first two.
const WRITES: &str =
    "10000000010000001000000000000000000000001c00000002000000130000005ff9ec0b4d223e4da544c39d81c73f0a01000000\
4c000000030000001400000001000000616161616161616161616161616161616161616161616161616161616161616161616161\
61616161616161616161616161616161616161616161616161616161";

const OPENED: &str = "0800000001000000000000000c000000020000000000000001000000";

// A stream on a flash with firmware, what fails, how the serving ends, and what it wrote.
#[derive(Clone, Copy)]
struct Case {
    stream: &'static str,
    trouble: Trouble,
    status: u8,
    written: &'static str,
}

const SERVINGS: [Case; 6] = [
    // The second read fails.
    Case {
        stream: CANCEL,
        trouble: Trouble {
            source: 2,
            ..NO_TROUBLE
        },
        status: 2,
        written: "",
    },
    // The end isn't told, but a failure.
    Case {
        stream: CANCEL,
        trouble: Trouble {
            source: 3,
            ..NO_TROUBLE
        },
        status: 2,
        written: NOTHING_BEGUN,
    },
    // A closed sink, and one that is full behind the first reply.
    Case {
        stream: CANCEL,
        trouble: Trouble {
            sink: 1,
            ..NO_TROUBLE
        },
        status: 3,
        written: "",
    },
    Case {
        stream: BEGINS,
        trouble: Trouble {
            sink: 2,
            ..NO_TROUBLE
        },
        status: 3,
        written: "080000000100000000000000",
    },
    // The flash fails in the boot.
    Case {
        stream: CANCEL,
        trouble: Trouble {
            flash: 1,
            ..NO_TROUBLE
        },
        status: 5,
        written: "",
    },
    // Power is lost at the first write, in the third request.
    Case {
        stream: WRITES,
        trouble: Trouble {
            cut: Cut {
                op: 1,
                landed: 0,
                back: false,
            },
            ..NO_TROUBLE
        },
        status: 12,
        written: OPENED,
    },
];

// The program ends as the case says.
fn ends_as(rt: &impl Abort, alloc: Global, case: &Case) {
    let mut source = stream_of(rt, alloc, case.stream, case.trouble.source);
    let mut files = files_of(alloc, Vec::new(alloc), 0).expect(rt, "memory");
    let flash = flash_of(alloc, two_banks(alloc).expect(rt, "memory"), &case.trouble).expect(
        rt, "memory",
    );
    let ran = run_on(
        rt,
        alloc,
        "serve",
        &mut files,
        &mut source,
        &case.trouble,
        flash,
    );
    wrote(rt, alloc, &ran, case.written);
    let is_so = ran.status == case.status && ran.note == Note::Nothing;
    holds(rt, is_so, case.stream);
}

#[test]
fn servings_that_are_stopped(rt: HostRuntime) {
    for case in &SERVINGS {
        ends_as(&rt, rt.alloc(), case);
    }
}

// The boot and the two requests that act: the one that comes again makes no turn.
#[test]
fn a_repeat_is_no_turn(rt: HostRuntime) {
    let alloc = rt.alloc();
    let flash = flash_of(alloc, two_banks(alloc).expect(&rt, "memory"), &NO_TROUBLE).expect(
        &rt, "memory",
    );
    let mut source = stream_of(&rt, alloc, BEGINS, 0);
    let mut sink = MemorySink::new(alloc, Vec::new(alloc), Vec::new(alloc));
    let words = words_of(alloc, "serve").expect(&rt, "memory");
    let mut files = files_of(alloc, Vec::new(alloc), 0).expect(&rt, "memory");
    let done = end_on(alloc, words, &mut files, &mut source, &mut sink, flash);
    holds(&rt, done.journal.len() == 3, BEGINS);
}

// Cancels, numbered from 1 on.
fn cancels(rt: &impl Abort, alloc: Global, count: u32) -> Vec<u8> {
    let mut bytes = Vec::new(alloc);
    for before in 0..count {
        let number = before.wrapping_add(1);
        bytes.extend_from_slice(&[8, 0, 0, 0]).expect(rt, "memory");
        bytes
            .extend_from_slice(&number.to_le_bytes())
            .expect(rt, "memory");
        bytes.extend_from_slice(&[18, 0, 0, 0]).expect(rt, "memory");
    }
    bytes
}

// How many requests a long serving has: more than the writes of an image of 16 MiB.
const MANY: u32 = 5000;

// Memory is found for each of many requests, and each has its reply and its turn.
#[test]
fn a_long_serving(rt: HostRuntime) {
    let alloc = rt.alloc();
    let flash = flash_of(alloc, two_banks(alloc).expect(&rt, "memory"), &NO_TROUBLE).expect(
        &rt, "memory",
    );
    let mut source = MemorySource::new(cancels(&rt, alloc, MANY), Vec::new(alloc));
    let mut sink = MemorySink::new(alloc, Vec::new(alloc), Vec::new(alloc));
    let words = words_of(alloc, "serve").expect(&rt, "memory");
    let mut files = files_of(alloc, Vec::new(alloc), 0).expect(&rt, "memory");
    let done = end_on(alloc, words, &mut files, &mut source, &mut sink, flash);
    let turns = done.journal.len();
    let is_so = done.status == 0 && turns == 5001 && sink.bytes().len() == 60000;
    holds(&rt, is_so, "a long serving");
}
