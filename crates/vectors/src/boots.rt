//! Power is lost at each erase and program of two boots, where they repair, migrate, raise the counter or mark trials.
use crate::runs::{ends_with_one, run_with};
use flash_devices::Cut;
use runs_kit::{
    MANIFEST_5, NO_TROUBLE, Trouble, VERSION_1, on_trial, put, put_metadata, two_banks,
    with_manifest,
};
use std::alloc::Global;
use std::process::Abort;

// The flash that the boots begin with.
#[derive(Clone, Copy)]
enum Start {
    // Replica 0 with one bit changed.
    Torn,
    // Metadata of version 1 in both replicas.
    Old,
    // The manifest has version 5.
    Fifth,
    OnTrial,
}

// 289 bytes without data, as digits.
const FREE: &str =
    "ffffffffffffffffffffffffffffffffffffffffffffffffffffffffffffffffffffffffffffffffffffffffffffffffffffffffffffffffffffffffffffffffffffffffffffffffffffffffffffffffffffffffffffffffffffffffffffffffffffffffffffffffffffffffffffffffffffffffffffffffffffffffffffffffffffffffffffffffffffffffffffffffffffffffffffffffffffffffffffffffffffffffffffffffffffffffffffffffffffffffffffffffffffffffffffffffffffffffffffffffffffffffffffffffffffffffffffffffffffffffffffffffffffffffffffffffffffffffffffffffffffffffffffffffffffffffffffffffffffffffffffffffffffffffffffffffffffffffffffffffffffffffffffffffff";

fn old_metadata(rt: &impl Abort, alloc: Global) -> Vec<u8> {
    let mut image = two_banks(alloc).expect(rt, "memory");
    put_metadata(alloc, &mut image, FREE).expect(rt, "memory");
    put_metadata(alloc, &mut image, VERSION_1).expect(rt, "memory");
    image
}

fn torn(rt: &impl Abort, alloc: Global) -> Vec<u8> {
    let mut image = two_banks(alloc).expect(rt, "memory");
    put(alloc, &mut image, 4096, "fd").expect(rt, "memory");
    image
}

fn image_of(rt: &impl Abort, alloc: Global, start: Start) -> Vec<u8> {
    match start {
        Start::Torn => torn(rt, alloc),
        Start::Old => old_metadata(rt, alloc),
        Start::Fifth => with_manifest(alloc, MANIFEST_5).expect(rt, "memory"),
        Start::OnTrial => on_trial(alloc).expect(rt, "memory"),
    }
}

// Whether two boots with this cut end well, and their last line is one of these.
fn comes_back(rt: &impl Abort, alloc: Global, image: Vec<u8>, cut: Cut, lines: &[&str]) -> bool {
    let trouble = Trouble { cut, ..NO_TROUBLE };
    let files = Vec::new(alloc);
    let ran = run_with(rt, alloc, "run", "boot\nboot\n", files, image, &trouble);
    ran.status == 0 && ends_with_one(rt, alloc, ran.printed.as_slice(), lines)
}

// Stops the test where this does not hold.
fn holds_at(rt: &impl Abort, is_so: bool, cut: Cut) {
    let Cut { op, landed, back } = cut;
    assert!(rt; is_so, "operation {op} after {landed}, {back}");
}

// Two boots with a cut at an erase or program, after so many bytes, with what was dirty kept or not: the last line is one of these.
fn cut_at(rt: &impl Abort, alloc: Global, start: Start, op: u64, lines: &[&str]) {
    for landed in [0, 8, 100, 4096] {
        for back in [false, true] {
            let cut = Cut { op, landed, back };
            let image = image_of(rt, alloc, start);
            holds_at(rt, comes_back(rt, alloc, image, cut, lines), cut);
        }
    }
}

// Flashes, and the last lines of two boots with a cut. The mark of the start that was cut counts or not. A cut at the second mark
// ends the second boot.
const CUTS: [(Start, &[&str]); 4] = [
    (Start::Torn, &["boot bank=0 version=1 trials=0 counter=1\n"]),
    (Start::Old, &["boot bank=0 version=1 trials=0 counter=1\n"]),
    (
        Start::Fifth,
        &["boot bank=0 version=5 trials=0 counter=5\n"],
    ),
    (
        Start::OnTrial,
        &[
            "boot bank=1 version=2 trials=1 counter=1\n",
            "boot bank=1 version=2 trials=2 counter=1\n",
            "boot bank=1 version=2 trials=1 counter=1\nboot lost\n",
        ],
    ),
];

#[test]
fn cuts_at_every_operation(rt: HostRuntime) {
    for (start, lines) in &CUTS {
        for op in 1..7 {
            cut_at(&rt, rt.alloc(), *start, op, lines);
        }
    }
}
