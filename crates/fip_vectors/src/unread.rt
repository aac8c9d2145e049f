//! A payload that can't be read, and a file that can't be written: the tool ends with 2, and the old file stays.
ghost use Rattle.std.specs.Prelude.{◌≡◌, ⊤};

use crate::fixtures::{add_all, holds, holds_at};
use fip_tool::fip_top;
use host_io::{Failed, Files, JoinStop, MemoryFiles, MemorySink, MemorySource, Piece, WriteStop};
use runs_kit::{add_file, files_of, words_of};
use std::alloc::Global;
use std::process::Abort;

// Files that ask for the size of the first piece's file before they make one. They count the files that they made, and the pieces
// that were not read since that call failed.
#[derive(Drop)]
struct AskingFiles<H: Drop> {
    inner: H,
    made: usize,
    unread: usize,
}

impl<H: Files + Drop> Files for AskingFiles<H> {
    ghost tells = { H.tells };

    ghost steady = { λ f. H.steady f.inner };

    ghost contents = { λ f. H.contents f.inner };

    ghost faults = { λ f. H.faults f.inner };

    ghost writes = { λ f. H.writes f.inner };

    ghost spares = { λ _ _ _. ⊤ };

    ghost at_rest = { λ _ _. tt };

    ghost joins = { λ _ _ _ _ _ _. tt };

    fn size(&mut self, name: &str) -> Result<Option<u64>, Failed> {
        self.inner.size(name)
    }

    fn read_at(&mut self, name: &str, at: u64, out: &mut [u8]) -> Result<(), Failed> {
        self.inner.read_at(name, at, out)
    }

    fn read_onto(
        &mut self,
        name: &str,
        at: u64,
        count: usize,
        out: &mut Vec<u8>,
    ) -> Result<(), Failed> {
        self.inner.read_onto(name, at, count, out)
    }

    fn write_whole(&mut self, name: &str, bytes: &[u8]) -> Result<(), WriteStop> {
        self.inner.write_whole(name, bytes)
    }

    fn write_joined(
        &mut self,
        alloc: Global,
        name: &str,
        frame: &[u8],
        pieces: &[Piece<'_>],
    ) -> Result<(), JoinStop> {
        let asked = pieces.first().map_or(name, |piece| piece.file);
        if self.inner.size(asked).is_err() {
            self.unread = self.unread.wrapping_add(1);
            return Err(JoinStop::Unread);
        }
        self.inner.write_joined(alloc, name, frame, pieces)?;
        self.made = self.made.wrapping_add(1);
        Ok(())
    }
}

// The files of the payloads of `b.fip`, in their order, and what the payloads are.
const NAMES: [&str; 2] = [
    "x5ff9ec0b-4d22-3e4d-a544-c39d81c73f0a.bin",
    "xd6d0eea7-fcea-d54b-9782-9934f234b6e4.bin",
];

const PAYLOADS: [&[u8]; 2] = [b"hello", b"xyz"];

// The status of these words. What the tool promises is left out, so that goals stay small.
fn end(rt: &impl Abort, alloc: Global, line: &str, files: &mut AskingFiles<MemoryFiles>) -> u8 {
    let words = words_of(alloc, line).expect(rt, "memory");
    let mut source = MemorySource::new(Vec::new(alloc), Vec::new(alloc));
    let mut sink = MemorySink::new(alloc, Vec::new(alloc), Vec::new(alloc));
    fip_top(alloc, words.as_slice(), files, &mut source, &mut sink)
}

fn asking(inner: MemoryFiles) -> AskingFiles<MemoryFiles> {
    AskingFiles {
        inner,
        made: 0,
        unread: 0,
    }
}

// A package of both payloads.
fn package(rt: &impl Abort, alloc: Global) -> Vec<u8> {
    let mut named = Vec::new(alloc);
    add_all(
        rt,
        alloc,
        &mut named,
        &[("h.bin", "68656c6c6f"), ("s3.bin", "78797a")],
    );
    let mut files = asking(files_of(alloc, named, 0).expect(rt, "memory"));
    let line = "create b.fip tb-fw=h.bin nt-fw=s3.bin";
    holds_at(rt, end(rt, alloc, line, &mut files) == 0, 0);
    let bytes = files.inner.get("b.fip").unwrap_or_default();
    Vec::from_slice(alloc, bytes).expect(rt, "memory")
}

// The package, and an old file of each payload's name. The call of this number fails.
fn old_files(rt: &impl Abort, alloc: Global, fails: u64) -> AskingFiles<MemoryFiles> {
    let mut named = Vec::new(alloc);
    add_file(alloc, &mut named, "b.fip", package(rt, alloc)).expect(rt, "memory");
    add_all(
        rt,
        alloc,
        &mut named,
        &[(NAMES[0], "6f6c64"), (NAMES[1], "6f6c64")],
    );
    asking(files_of(alloc, named, fails).expect(rt, "memory"))
}

// Whether the files of the payloads that were made have these, and the others are the old ones.
fn are_so(files: &AskingFiles<MemoryFiles>) -> bool {
    for i in 0..2 {
        let wanted = if i < files.made { PAYLOADS[i] } else { b"old" };
        if files.inner.get(NAMES[i]) != Some(wanted) {
            return false;
        }
    }
    true
}

// More calls than the command makes.
const CALLS: u64 = 99;

// Whichever call fails, the command ends at it. Each piece is asked for once, and each file is written by one call, so that two
// of the calls find a piece unread.
#[test]
fn an_unread_payload_leaves_the_old_file(rt: HostRuntime) {
    let mut unread = 0usize;
    for call in 0..CALLS {
        let mut files = old_files(&rt, rt.alloc(), call);
        let status = end(&rt, rt.alloc(), "unpack b.fip x", &mut files);
        let row = call as usize;
        let wanted = if files.made == 2 { 0 } else { 2 };
        holds_at(&rt, are_so(&files), row);
        holds_at(&rt, status == wanted, row);
        unread = unread.wrapping_add(files.unread);
    }
    holds(&rt, unread == 2, "two pieces are unread");
}
