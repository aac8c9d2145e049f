//! The commands over files of the system, in a folder that has no file but those that the words name. A file that nobody named
//! is never asked for, since that would be a file fault.

use crate::fixtures::{EMPTY, HELLO, HELLO_CAPSULE, Step, all_end, ended_with, ends, front, holds};
use host_io::{HostFiles, MemorySource};
use std::alloc::{Alloc, Global};
use std::fs;
use std::process::Abort;
use std::rt::Files;

const FOLDER: &str = "fip_test";

// A file that is there at the start, and what it has.
const GIVEN: [(&str, &str); 2] = [
    ("fip_test/abc.bin", "616263"),
    ("fip_test/h.bin", "68656c6c6f"),
];

const LISTED: &str =
    "serial=12345678 flags=0 entries=1 size=101\n5ff9ec0b-4d22-3e4d-a544-c39d81c73f0a offset=96 size=5 flags=0\n";

// Each command, its status and what it prints; and commands that name a file that is not there, or one that cannot be written.
const STEPS: [Step; 13] = [
    (
        "create fip_test/a.fip tb-fw=fip_test/h.bin",
        0,
        "packed entries=1 size=101\n",
    ),
    ("info fip_test/a.fip", 0, LISTED),
    (
        "update fip_test/a.fip fip_test/u.fip tb-fw=fip_test/abc.bin",
        0,
        "packed entries=1 size=99\n",
    ),
    (
        "remove fip_test/a.fip fip_test/e.fip tb-fw",
        0,
        "packed entries=0 size=56\n",
    ),
    (
        "unpack fip_test/a.fip fip_test/x",
        0,
        "5ff9ec0b-4d22-3e4d-a544-c39d81c73f0a size=5 file=fip_test/x5ff9ec0b-4d22-3e4d-a544-c39d81c73f0a.bin\n",
    ),
    (
        "manifest fip_test/m.bin 1 tb-fw,7,fip_test/abc.bin nt-fw,9,fip_test/h.bin",
        0,
        "manifest rows=2 size=160 security=1\n",
    ),
    (
        "capsule fip_test/a.fip fip_test/a.cap",
        0,
        "capsule items=1 size=89\n",
    ),
    (
        "package fip_test/a.cap fip_test/back.fip",
        0,
        "packed entries=1 size=101\n",
    ),
    ("info -", 4, "not-fip short-header\n"),
    ("info fip_test/none.fip", 2, "file-fault\n"),
    ("create fip_test/none/z.fip", 2, "file-fault\n"),
    (
        "create fip_test/z.fip tb-fw=fip_test/none.bin",
        2,
        "file-fault\n",
    ),
    (
        "capsule fip_test/a.fip fip_test/none/z.cap",
        2,
        "file-fault\n",
    ),
];

// A file that the steps leave, and its bytes.
const WRITTEN: [(&str, &str); 5] = [
    ("fip_test/a.fip", HELLO),
    ("fip_test/e.fip", EMPTY),
    ("fip_test/a.cap", HELLO_CAPSULE),
    ("fip_test/back.fip", HELLO),
    (
        "fip_test/x5ff9ec0b-4d22-3e4d-a544-c39d81c73f0a.bin",
        "68656c6c6f",
    ),
];

// Makes the folder, with the given files in it.
fn make_folder<R: Abort + Alloc + Files>(rt: &R, alloc: Global) {
    let _ = fs::remove_dir_all(rt, FOLDER);
    fs::create_dir(rt, FOLDER).expect(rt, "a folder");
    for (name, digits) in &GIVEN {
        let bytes = hex::decode(alloc, *digits).expect(rt, "digits");
        fs::write(rt, *name, bytes).expect(rt, "a file that is written");
    }
}

// Whether a file of the system has these bytes.
fn is_written<R: Alloc + Files>(rt: &R, name: &str, wanted: &[u8]) -> bool {
    match fs::read(rt, name) {
        Ok(found) => found.as_slice() == wanted,
        Err(_) => false,
    }
}

// What the steps leave.
fn have<R: Abort + Alloc + Files>(rt: &R, alloc: Global) {
    for (name, digits) in &WRITTEN {
        let wanted = hex::decode(alloc, *digits).expect(rt, "digits");
        holds(rt, is_written(rt, name, wanted.as_slice()), name);
    }
    holds(rt, fs::metadata(rt, "fip_test/z.fip").is_err(), "z.fip");
}

#[test]
fn commands_over_files_of_the_system(rt: HostRuntime) {
    let alloc = rt.alloc();
    make_folder(&rt, alloc);
    let mut files = HostFiles::new(&rt);
    all_end(&rt, alloc, &mut files, &STEPS);
    have(&rt, alloc);
    fs::remove_dir_all(&rt, FOLDER).expect(&rt, "a folder that is removed");
}

// The source alone is read: no file has a name here.
#[test]
fn a_source_is_listed_without_files(rt: HostRuntime) {
    let alloc = rt.alloc();
    let source = MemorySource::new(front(&rt, alloc, HELLO, 101), Vec::new(alloc));
    let mut files = HostFiles::new(&rt);
    let answer = ended_with(&rt, alloc, "info -", &mut files, source, 0);
    ends(&rt, &answer, "info -", 0, LISTED);
}
