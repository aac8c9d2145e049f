//! Refusals by size come before a payload is read: each command is refused although its next call on the files would fail, and the
//! call before that is needed.

use crate::capsules::many;
use crate::fixtures::{add, ended, ends};
use host_io::MemoryFiles;
use runs_kit::{add_file, files_of};
use std::alloc::Global;
use std::process::Abort;

// How many entries the package has, each with all of its bytes as the payload, and how many items the capsule.
const ENTRIES: u8 = 64;

// Where the payloads of the package end, in bytes. All of them together are more than 64 MiB.
const END: usize = 1_100_000;

// One byte more than an image may have. The images of the capsule have so many, and all of them together more than 64 MiB.
const LONG: usize = 1_048_577;

// Adds an entry of this number.
fn add_entry(rt: &impl Abort, bytes: &mut Vec<u8>, number: u8) {
    add(rt, bytes, &[number; 16]);
    add(rt, bytes, &[0; 8]);
    add(rt, bytes, &(END as u64).to_le_bytes());
    add(rt, bytes, &[0; 8]);
}

// A package whose entries overlap: each is all of it.
fn overlapping(rt: &impl Abort, alloc: Global) -> Vec<u8> {
    let mut bytes = Vec::new(alloc);
    let head = [
        1, 0, 0x64, 0xaa, 0x78, 0x56, 0x34, 0x12, 0, 0, 0, 0, 0, 0, 0, 0,
    ];
    add(rt, &mut bytes, &head);
    for i in 0..ENTRIES {
        add_entry(rt, &mut bytes, i.wrapping_add(1));
    }
    bytes.resize(END, 0).expect(rt, "memory");
    bytes
}

// The call of this number on the files fails.
fn files(rt: &impl Abort, alloc: Global, fails: u64) -> MemoryFiles {
    let mut files = Vec::new(alloc);
    add_file(alloc, &mut files, "p.fip", overlapping(rt, alloc)).expect(rt, "memory");
    let capsule = many(rt, alloc, ENTRIES, LONG as u32);
    add_file(alloc, &mut files, "c.cap", capsule).expect(rt, "memory");
    let long = vec![in alloc; 0; LONG].expect(rt, "memory");
    add_file(alloc, &mut files, "long.bin", long).expect(rt, "memory");
    let hello = Vec::from_slice(alloc, b"hello").expect(rt, "memory");
    add_file(alloc, &mut files, "h.bin", hello).expect(rt, "memory");
    files_of(alloc, files, fails).expect(rt, "memory")
}

// A command, the number of its first call that would read a payload, and what it prints before that, with status 6. The table
// of the package takes a size, a header, 64 entries and the marker, and a size once more. That of the capsule takes a size, two
// headers, and the place and the head of each of 64 items.
const CASES: [(&str, u64, &str); 7] = [
    (
        "manifest m.bin 1 tb-fw,7,h.bin nt-fw,9,long.bin",
        3,
        "manifest too-large\n",
    ),
    ("create --align 3 z.fip tb-fw=h.bin", 2, "pack bad-align\n"),
    (
        "remove p.fip z.fip 01010101-0101-0101-0101-010101010101",
        69,
        "pack too-large\n",
    ),
    (
        "update p.fip z.fip 01010101-0101-0101-0101-010101010101=h.bin",
        70,
        "pack too-large\n",
    ),
    ("capsule p.fip z.cap", 69, "pack too-large\n"),
    ("package c.cap z.fip", 132, "pack too-large\n"),
    (
        "update --align 5 p.fip z.fip 01010101-0101-0101-0101-010101010101=h.bin",
        70,
        "pack bad-align\n",
    ),
];

// The command ends so where the call of this number fails.
fn ends_so(rt: &impl Abort, alloc: Global, line: &str, fails: u64, status: u8, text: &str) {
    let mut files = files(rt, alloc, fails);
    let answer = ended(rt, alloc, line, &mut files);
    ends(rt, &answer, line, status, text);
}

#[test]
fn sizes_are_asked_first(rt: HostRuntime) {
    let alloc = rt.alloc();
    for (line, fails, text) in &CASES {
        ends_so(&rt, alloc, line, *fails, 6, text);
        ends_so(&rt, alloc, line, fails.wrapping_sub(1), 2, "file-fault\n");
    }
}
