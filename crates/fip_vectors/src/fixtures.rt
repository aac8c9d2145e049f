//! Packages, words, and a run of the tool.

ghost use Rattle.std.specs.Prelude.{IsTrue};

use base_core::Guid;
use fip_tables::Part;
use fip_tool::fip_top;
use host_io::{Files, MemoryFiles, MemorySink, MemorySource, Source};
use runs_kit::{Named, add_file, files_of, only, words_of};
use std::alloc::Global;
use std::process::Abort;

/// A package of 101 bytes: `hello` as the payload of tb-fw, and no alignment.
pub const HELLO: &str =
    "010064aa7856341200000000000000005ff9ec0b4d223e4da544c39d81c73f0a6000000000000000050000000000000000000000000000000000000000000000000000000000000065000000000000000000000000000000000000000000000068656c6c6f";

/// The capsule of 89 bytes of that package: both headers, the place of its item, the item's 40
/// bytes, and `hello`. It is written out by hand after the UEFI specification, and
/// checks/model/check_vectors.py makes it and both packages again.
pub const HELLO_CAPSULE: &str =
    "edd5cb6d2de8444cbda17194199ad92a1c000000000000005900000001000000000001001000000000000000020000000becf95f224d4d3ea544c39d81c73f0a010000000500000000000000000000000000000068656c6c6f";

/// A package of 56 bytes that has no entry: the header, and the end marker, whose offset is the length.
pub const EMPTY: &str =
    "010064aa78563412000000000000000000000000000000000000000000000000380000000000000000000000000000000000000000000000";

/// Stops the test where this does not hold of the row with this number.
pub fn holds_at(rt: &impl Abort, is_so: bool, row: usize) {
    assert!(rt; is_so, "at {row}");
}

/// The first bytes of a package or a capsule.
pub fn front(rt: &impl Abort, alloc: Global, digits: &str, count: usize) -> Vec<u8> {
    let mut bytes = hex::decode(alloc, digits).expect(rt, "digits");
    bytes.truncate(count);
    bytes
}

/// Adds bytes at the end.
pub fn add(rt: &impl Abort, bytes: &mut Vec<u8>, more: &[u8]) {
    bytes.extend_from_slice(more).expect(rt, "memory");
}

/// The type of the trusted boot firmware.
pub fn tb_fw() -> Guid {
    Guid::of([
        0x5f, 0xf9, 0xec, 0x0b, 0x4d, 0x22, 0x3e, 0x4d, 0xa5, 0x44, 0xc3, 0x9d, 0x81, 0xc7, 0x3f,
        0x0a,
    ])
}

/// Adds a part of this type.
pub fn add_part(
    rt: &impl Abort,
    alloc: Global,
    parts: &mut Vec<Part>,
    guid: Guid,
    flags: u64,
    text: &str,
) {
    let bytes = Vec::from_slice(alloc, text.as_bytes()).expect(rt, "memory");
    let part = Part { guid, flags, bytes };
    parts.push(part).expect(rt, "memory");
}

/// One file alone.
pub fn one_file(
    rt: &impl Abort,
    alloc: Global,
    name: &str,
    bytes: Vec<u8>,
    fails: u64,
) -> MemoryFiles {
    let mut files = Vec::new(alloc);
    add_file(alloc, &mut files, name, bytes).expect(rt, "memory");
    files_of(alloc, files, fails).expect(rt, "memory")
}

/// Adds files of these names and of the bytes that the digits spell.
pub fn add_all(rt: &impl Abort, alloc: Global, files: &mut Vec<Named>, named: &[(&str, &str)]) {
    for (name, digits) in named {
        let bytes = hex::decode(alloc, *digits).expect(rt, "digits");
        add_file(alloc, files, name, bytes).expect(rt, "memory");
    }
}

/// What the tool ended with.
#[derive(Drop)]
pub struct Answer {
    pub status: u8,
    pub text: Vec<u8>,
}

// The status of these words. What the tool promises is left out, so that goals stay small.
fn end<H: Files, I: Source + Drop>(
    alloc: Global,
    words: Vec<String>,
    files: &mut H,
    source: I,
    sink: &mut MemorySink,
) -> u8 {
    let mut source = source;
    fip_top(alloc, words.as_slice(), files, &mut source, sink)
}

/// How a line of words ends over files, with a source, and with a sink of which the call of this number fails.
pub fn ended_with<H: Files, I: Source + Drop>(
    rt: &impl Abort,
    alloc: Global,
    line: &str,
    files: &mut H,
    source: I,
    fails: u64,
) -> Answer {
    let mut sink = MemorySink::new(
        alloc,
        Vec::new(alloc),
        only(alloc, fails).expect(rt, "memory"),
    );
    let status = end(
        alloc,
        words_of(alloc, line).expect(rt, "memory"),
        files,
        source,
        &mut sink,
    );
    let text = Vec::from_slice(alloc, sink.bytes()).expect(rt, "memory");
    Answer { status, text }
}

/// The same with nothing from the source, and a sink that takes all.
pub fn ended<H: Files>(rt: &impl Abort, alloc: Global, line: &str, files: &mut H) -> Answer {
    let source = MemorySource::new(Vec::new(alloc), Vec::new(alloc));
    ended_with(rt, alloc, line, files, source, 0)
}

/// Stops the test where the line ended in another way.
pub fn ends(rt: &impl Abort, answer: &Answer, line: &str, status: u8, text: &str) {
    let is_so = answer.status == status && answer.text.as_slice() == text.as_bytes();
    assert!(rt; is_so, "{line}: {text}");
}

/// A command, its status and what it prints.
pub type Step = (&'static str, u8, &'static str);

/// The commands end so, one after the other over the same files.
pub fn all_end<H: Files>(rt: &impl Abort, alloc: Global, files: &mut H, steps: &[Step]) {
    for (line, status, text) in steps {
        let answer = ended(rt, alloc, line, files);
        ends(rt, &answer, line, *status, text);
    }
}

/// Stops the test where this does not hold, and prints what it is of. A call costs its test's proof less than the macro in its
/// place.
pub fn holds(rt: &impl Abort, is_so: bool, of: &str)
    ensures { IsTrue is_so }
{
    assert!(rt; is_so, "{of}");
}
