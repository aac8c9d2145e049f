//! Want of memory at each text for the sink, and at each file that is written. The tool ends with 9, and no file changes but those
//! that its words name.
ghost use Rattle.std.specs.Prelude.{◌≡◌, ⊤, false, true, refl, None, Some};
ghost use Rattle.host_io.specs.Contents.{bytes_in};

use crate::fixtures::{add_all, holds_at};
use fip_tool::fip_top;
use host_io::{Failed, Files, JoinStop, MemoryFiles, MemorySource, Piece, Sink, WriteStop};
use runs_kit::{files_of, words_of};
use std::alloc::Global;
use std::process::Abort;

// A sink that has memory for so many texts.
#[derive(Drop)]
struct ShortSink {
    texts: u32,
}

impl Sink for ShortSink {
    ghost tells = { false };

    ghost steady = { λ _. refl };

    ghost taken = { λ _. None };

    ghost faults = { λ _. 0 };

    fn put(&mut self, _bytes: &[u8]) -> Result<(), WriteStop> {
        if self.texts == 0 {
            return Err(WriteStop::NoMemory);
        }
        self.texts -= 1;
        Ok(())
    }
}

// Files that have memory for so many writes.
#[derive(Drop)]
struct ShortFiles {
    inner: MemoryFiles,
    writes: u32,
}

impl Files for ShortFiles {
    ghost tells = { true };

    ghost steady = { λ _. refl };

    ghost contents = { λ f. Some (bytes_in f.inner.files) };

    ghost faults = { λ f. f.inner.calls.faults };

    ghost writes = { λ f. f.inner.writes };

    ghost spares = { λ _ _ _. ⊤ };

    ghost at_rest = { λ _ _. tt };

    ghost joins = { λ _ _ _ _ _ _. tt };

    fn size(&mut self, name: &str) -> Result<Option<u64>, Failed> {
        self.inner.size(name)
    }

    fn read_at(&mut self, name: &str, at: u64, out: &mut [u8]) -> Result<(), Failed> {
        self.inner.read_at(name, at, out)
    }

    fn read_onto(
        &mut self,
        name: &str,
        at: u64,
        count: usize,
        out: &mut Vec<u8>,
    ) -> Result<(), Failed> {
        self.inner.read_onto(name, at, count, out)
    }

    fn write_whole(&mut self, name: &str, bytes: &[u8]) -> Result<(), WriteStop> {
        if self.writes == 0 {
            return Err(WriteStop::NoMemory);
        }
        self.writes -= 1;
        self.inner.write_whole(name, bytes)
    }

    fn write_joined(
        &mut self,
        alloc: Global,
        name: &str,
        frame: &[u8],
        pieces: &[Piece<'_>],
    ) -> Result<(), JoinStop> {
        if self.writes == 0 {
            return Err(JoinStop::NoMemory);
        }
        self.writes -= 1;
        self.inner.write_joined(alloc, name, frame, pieces)
    }
}

// A line of words, for how many texts and for how many writes there is memory, and its status. Then whether `a.fip`, `b.fip`,
// and the two files of the payloads of `b.fip` are there.
type Case = (&'static str, u32, u32, u8, [bool; 4]);

const CASES: [Case; 10] = [
    (
        "create a.fip tb-fw=h.bin nt-fw=s3.bin",
        9,
        0,
        9,
        [false, true, false, false],
    ),
    (
        "create a.fip tb-fw=h.bin nt-fw=s3.bin",
        0,
        9,
        9,
        [true, true, false, false],
    ),
    (
        "create a.fip tb-fw=h.bin nt-fw=s3.bin",
        1,
        1,
        0,
        [true, true, false, false],
    ),
    ("info b.fip", 0, 0, 9, [false, true, false, false]),
    ("info b.fip", 1, 0, 0, [false, true, false, false]),
    ("unpack b.fip x", 9, 0, 9, [false, true, false, false]),
    ("unpack b.fip x", 9, 1, 9, [false, true, true, false]),
    ("unpack b.fip x", 0, 9, 9, [false, true, true, false]),
    ("unpack b.fip x", 1, 9, 9, [false, true, true, true]),
    ("unpack b.fip x", 2, 2, 0, [false, true, true, true]),
];

const NAMES: [&str; 4] = [
    "a.fip",
    "b.fip",
    "x5ff9ec0b-4d22-3e4d-a544-c39d81c73f0a.bin",
    "xd6d0eea7-fcea-d54b-9782-9934f234b6e4.bin",
];

// The status of these words. What the tool promises is left out, so that goals stay small.
fn end(alloc: Global, words: Vec<String>, files: &mut ShortFiles, texts: u32) -> u8 {
    let mut source = MemorySource::new(Vec::new(alloc), Vec::new(alloc));
    let mut sink = ShortSink { texts };
    fip_top(alloc, words.as_slice(), files, &mut source, &mut sink)
}

// The payloads.
fn payloads(rt: &impl Abort, alloc: Global) -> MemoryFiles {
    let mut files = Vec::new(alloc);
    let named = [("h.bin", "68656c6c6f"), ("s3.bin", "78797a")];
    add_all(rt, alloc, &mut files, &named);
    files_of(alloc, files, 0).expect(rt, "memory")
}

// The payloads, and `b.fip` of both.
fn with_package(rt: &impl Abort, alloc: Global, writes: u32) -> ShortFiles {
    let mut files = ShortFiles {
        inner: payloads(rt, alloc),
        writes: 1,
    };
    let line = words_of(alloc, "create b.fip tb-fw=h.bin nt-fw=s3.bin").expect(rt, "memory");
    end(alloc, line, &mut files, 1);
    files.writes = writes;
    files
}

// Whether each of these files is there exactly where that is said.
fn are_there(files: &MemoryFiles, there: [bool; 4]) -> bool {
    for i in 0..4 {
        if files.get(NAMES[i]).is_some() != there[i] {
            return false;
        }
    }
    true
}

// Whether the files of the payloads have these, where they are there. Both packages are the same.
fn are_so(files: &MemoryFiles, there: [bool; 4]) -> bool {
    let hello = Some(b"hello".as_slice());
    files.get("h.bin") == hello
        && files.get("s3.bin") == Some(b"xyz".as_slice())
        && (!there[0] || files.get("a.fip") == files.get("b.fip"))
        && (!there[2] || files.get(NAMES[2]) == hello)
}

// Whether the tool ends so, over files as they are said to be.
fn is_so(rt: &impl Abort, alloc: Global, case: &Case) -> bool {
    let (line, texts, writes, status, there) = *case;
    let mut files = with_package(rt, alloc, writes);
    let ended = end(
        alloc,
        words_of(alloc, line).expect(rt, "memory"),
        &mut files,
        texts,
    );
    ended == status && are_there(&files.inner, there) && are_so(&files.inner, there)
}

#[test]
fn want_of_memory_ends_with_nine(rt: HostRuntime) {
    let mut row = 0usize;
    for case in &CASES {
        holds_at(&rt, is_so(&rt, rt.alloc(), case), row);
        row = row.wrapping_add(1);
    }
}
