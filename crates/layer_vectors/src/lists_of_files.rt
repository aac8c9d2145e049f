//! Lists of digests in files.

use crate::fixtures::{holds, same};
use allow_list::{ListStop, read_list};
use host_io::MemoryFiles;
use runs_kit::{files_of, one_file};
use std::alloc::Global;
use std::process::Abort;
use verify_core::{DigestList, Verifier};

// Of "abc" and of "abcdbcdecdefdefgefghfghighijhijkijkljklmklmnlmnomnopnopq", FIPS 180-4.
const LINES: &[u8] = b"ba7816bf8f01cfea414140de5dae2223b00361a396177a9cb410ff61f20015ad\n\
    248D6A61D20638B8E5C026930C3E6039A33CE45964FF2167F6ECEDD419DB06C1\n";

// The file "list" has these bytes, and this call fails.
fn list_of(rt: &impl Abort, alloc: Global, bytes: &[u8], fails: u64) -> MemoryFiles {
    let bytes = bytes.to_vec(alloc).expect(rt, "memory");
    let files = one_file(alloc, "list", bytes).expect(rt, "memory");
    files_of(alloc, files, fails).expect(rt, "memory")
}

// Why the file "list" of these bytes is not read, if it isn't.
fn stops(rt: &impl Abort, alloc: Global, bytes: &[u8], fails: u64, wanted: Option<ListStop>) {
    let mut files = list_of(rt, alloc, bytes, fails);
    same(rt, read_list(alloc, &mut files, "list").err(), wanted);
}

// The list passes the two messages of FIPS 180-4, and no other.
fn passes_both(rt: &impl Abort, list: &DigestList) {
    let long = b"abcdbcdecdefdefgefghfghighijhijkijkljklmklmnlmnomnopnopq";
    holds(rt, list.accepts(b"abc"), "the first");
    holds(rt, list.accepts(long), "the second");
    holds(rt, !list.accepts(b"abd"), "not listed");
}

#[test]
fn a_list_is_read_from_a_file(rt: HostRuntime) {
    let alloc = rt.alloc();
    let mut files = list_of(&rt, alloc, LINES, 4);
    let list = read_list(alloc, &mut files, "list").expect(&rt, "a list");
    passes_both(&rt, &list);
    same(
        &rt,
        read_list(alloc, &mut files, "other").err(),
        Some(ListStop::Failed),
    );
}

#[test]
fn each_failing_call_ends_a_list(rt: HostRuntime) {
    let alloc = rt.alloc();
    for fails in 1..4 {
        stops(&rt, alloc, LINES, fails, Some(ListStop::Failed));
    }
    stops(&rt, alloc, LINES, 4, None);
    stops(&rt, alloc, b"", 2, Some(ListStop::Failed));
    stops(&rt, alloc, b"", 3, None);
}

#[test]
fn nothing_is_read_behind_a_bad_line(rt: HostRuntime) {
    let alloc = rt.alloc();
    stops(&rt, alloc, &LINES[..129], 4, Some(ListStop::BadLine(2)));
    stops(&rt, alloc, &LINES[1..], 3, Some(ListStop::BadLine(1)));
}
