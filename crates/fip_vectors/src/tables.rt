//! Tables of worked packages, whose bytes are written out by hand; checks/model/check_vectors.py makes them
//! again.

ghost use Rattle.std.specs.Prelude.{◌<◌};

use crate::fixtures::{EMPTY, HELLO, add_part, front, holds, holds_at, one_file, tb_fw};
use base_core::Guid;
use fip_tables::{
    Entry, Outline, PackStop, Parts, StreamToc, Toc, TocStop, pack, package_frame, payload_at,
    read_toc,
};
use fwu_formats::FipFault;
use host_io::{Failed, Files, MemoryFiles, Piece};
use std::alloc::Global;
use std::process::Abort;

// The table of bytes that are fed in pieces of a length.
fn fed(bytes: &[u8], step: usize) -> Result<Toc, FipFault>
    requires some { 0 < step }
{
    let mut stream = StreamToc::new();
    let mut at = 0;
    while at < bytes.len() {
        let count = step.min(bytes.len() - at);
        stream.feed(&bytes[at..at + count])?;
        at += count;
    }
    stream.end()
}

// Whether it is the table of `HELLO`.
fn is_of_hello(toc: &Toc) -> bool {
    let entries = toc.entries.as_slice();
    let hello = Entry {
        guid: tb_fw(),
        offset: 96,
        size: 5,
        flags: 0,
    };
    toc.serial == 0x1234_5678 && toc.flags == 0 && entries.len() == 1 && entries[0] == hello
}

// The first five bytes of the payload of `HELLO` in a file.
fn hello_in<H: Files>(files: &mut H, name: &str) -> Result<[u8; 5], Failed> {
    let entry = Entry {
        guid: tb_fw(),
        offset: 96,
        size: 5,
        flags: 0,
    };
    let mut out = [0; 5];
    match files.size(name)? {
        Some(101) => payload_at(files, name, &entry, 0, &mut out)?,
        _ => {}
    }
    Ok(out)
}

// The package of these parts.
fn package(rt: &impl Abort, alloc: Global, named: &[(Guid, &str)], align: u32) -> Vec<u8> {
    let mut parts = Vec::new(alloc);
    for (guid, text) in named {
        add_part(rt, alloc, &mut parts, *guid, 0, text);
    }
    let parts = Parts {
        serial: 0x1234_5678,
        flags: 0,
        parts,
    };
    pack(alloc, &parts, align).expect(rt, "a package")
}

#[test]
fn bytes_of_packages(rt: HostRuntime) {
    let alloc = rt.alloc();
    let empty = package(&rt, alloc, &[], 1);
    holds(&rt, empty == front(&rt, alloc, EMPTY, 56), "no part");
    let hello = package(&rt, alloc, &[(tb_fw(), "hello")], 1);
    holds(&rt, hello == front(&rt, alloc, HELLO, 101), "one part");
}

// Whether it is a table of two entries whose payloads stand there.
fn has_offsets(toc: &Toc, first: u64, second: u64) -> bool {
    let entries = toc.entries.as_slice();
    if entries.len() != 2 {
        return false;
    }
    let (one, other) = (&entries[0], &entries[1]);
    one.offset == first && other.offset == second
}

#[test]
fn aligned_package(rt: HostRuntime) {
    let alloc = rt.alloc();
    let two = [(tb_fw(), "hello"), (Guid::of([7; 16]), "xyz")];
    let bytes = package(&rt, alloc, &two, 16);
    let last = b"xyz\0\0\0\0\0\0\0\0\0\0\0\0\0".as_slice();
    holds(
        &rt,
        bytes.as_slice().get(160..) == Some(last),
        "the last part",
    );
    let toc = fed(bytes.as_slice(), 100).expect(&rt, "a package");
    holds(&rt, has_offsets(&toc, 144, 160), "the table");
}

#[test]
fn tables_in_pieces(rt: HostRuntime) {
    let hello = front(&rt, rt.alloc(), HELLO, 101);
    for step in [101, 7, 1] {
        let toc = fed(hello.as_slice(), step).expect(&rt, "a package");
        holds_at(&rt, is_of_hello(&toc), step);
    }
}

// Why the file of this name has no table, if it has none, or one other than that of `HELLO`.
fn stop_of(files: &mut MemoryFiles, name: &str) -> Result<bool, TocStop> {
    match read_toc(files, name) {
        Ok(toc) => Ok(is_of_hello(&toc)),
        Err(stop) => Err(stop),
    }
}

#[test]
fn package_in_a_file(rt: HostRuntime) {
    let hello = front(&rt, rt.alloc(), HELLO, 101);
    let mut files = one_file(&rt, rt.alloc(), "a.fip", hello, 0);
    holds(&rt, stop_of(&mut files, "a.fip") == Ok(true), "a.fip");
    let stop = stop_of(&mut files, "b.fip");
    holds(&rt, stop == Err(TocStop::ReadFailed), "b.fip");
    let payload = hello_in(&mut files, "a.fip").expect(&rt, "a payload");
    holds(&rt, &payload == b"hello", "the payload");
}

// Makes a package of one file.
fn pack_file(
    alloc: Global,
    files: &mut MemoryFiles,
    name: &str,
    out: &str,
) -> Result<(), PackStop> {
    let Some(bytes) = files.get(name) else {
        return Ok(());
    };
    let size = bytes.len() as u64;
    let outlines = [Outline {
        guid: tb_fw(),
        flags: 0,
        size,
    }];
    let frame = package_frame(alloc, 0x1234_5678, 0, &outlines, 1)?;
    let pieces = [Piece {
        gap: frame.gaps[0],
        file: name,
        at: 0,
        count: size,
    }];
    match files.write_joined(alloc, out, frame.bytes.as_slice(), &pieces) {
        Ok(()) | Err(_) => Ok(()),
    }
}

#[test]
fn package_made_of_a_file(rt: HostRuntime) {
    let alloc = rt.alloc();
    let hello = Vec::from_slice(alloc, b"hello").expect(&rt, "memory");
    let mut files = one_file(&rt, alloc, "hello", hello, 0);
    pack_file(alloc, &mut files, "hello", "a.fip").expect(&rt, "a package");
    let wanted = front(&rt, alloc, HELLO, 101);
    holds(
        &rt,
        files.get("a.fip") == Some(wanted.as_slice()),
        "a package",
    );
}
