//! A call of the files, the source or the sink fails; and a source that is longer than one may be.
ghost use Rattle.std.specs.Prelude.{⊤, ◌≡◌, false, refl, None};

use crate::fixtures::{EMPTY, HELLO, ended_with, ends, front, holds, one_file};
use host_io::{Failed, MemorySource, Source};
use runs_kit::only;
use std::alloc::Global;
use std::process::Abort;

// A command, over the package of `hello` as a file and as the source, and which call on the files, the source and the sink
// fails. Behind it stand the status and the text that the command ends with.
type Failing = (&'static str, [u64; 3], u8, &'static str);

const FAILING: [Failing; 7] = [
    (
        "info a.fip",
        [1, 0, 0],
        2,
        "file-fault
",
    ),
    (
        "info a.fip",
        [2, 0, 0],
        2,
        "file-fault
",
    ),
    (
        "info -",
        [0, 1, 0],
        2,
        "file-fault
",
    ),
    (
        "info -",
        [0, 2, 0],
        2,
        "file-fault
",
    ),
    ("info a.fip", [0, 0, 1], 3, ""),
    ("info b.fip", [0, 0, 1], 3, ""),
    (
        "create e.fip",
        [1, 0, 0],
        2,
        "file-fault
",
    ),
];

// The package, of which the call of this number fails.
fn source(rt: &impl Abort, alloc: Global, fails: u64) -> MemorySource {
    MemorySource::new(
        front(rt, alloc, HELLO, 101),
        only(alloc, fails).expect(rt, "memory"),
    )
}

fn ends_so(rt: &impl Abort, alloc: Global, failing: &Failing) {
    let (line, fails, status, text) = *failing;
    let hello = front(rt, alloc, HELLO, 101);
    let mut files = one_file(rt, alloc, "a.fip", hello, fails[0]);
    let source = source(rt, alloc, fails[1]);
    let answer = ended_with(rt, alloc, line, &mut files, source, fails[2]);
    ends(rt, &answer, line, status, text);
    holds(rt, files.get("e.fip").is_none(), "e.fip");
}

// A source that gives the same piece again and again, so many bytes in all.
#[derive(Drop)]
struct Repeated {
    piece: Vec<u8>,
    count: usize,
}

impl Source for Repeated {
    ghost tells = { false };

    ghost steady = { λ _. refl };

    ghost left = { λ _. None };

    ghost faults = { λ _. 0 };

    ghost reads = { λ _ _ _. ⊤ };

    ghost at_rest = { λ _. tt };

    ghost joins = { λ _ _ _ _ _ _ _. tt };

    fn read(&mut self, out: &mut [u8]) -> Result<usize, Failed> {
        let given = out.len().min(self.piece.len()).min(self.count);
        out[..given].copy_from_slice(&self.piece[..given]);
        self.count -= given;
        Ok(given)
    }
}

// How many bytes the source gives at a time.
const PIECE: usize = 4096;

// How many bytes the source gives, of which the first are a package without entries, and the status and the text that the command
// ends with.
const LONG: [(usize, u8, &str); 2] = [
    (
        4_294_967_296,
        0,
        "serial=12345678 flags=0 entries=0 size=4294967296\n",
    ),
    (4_294_967_297, 7, "too-long\n"),
];

fn long_ends_so(rt: &impl Abort, alloc: Global, count: usize, status: u8, text: &str) {
    let mut piece = front(rt, alloc, EMPTY, 56);
    piece.resize(PIECE, 0).expect(rt, "memory");
    let source = Repeated { piece, count };
    let mut files = one_file(rt, alloc, "a.fip", Vec::new(alloc), 0);
    let answer = ended_with(rt, alloc, "info -", &mut files, source, 0);
    ends(rt, &answer, "info -", status, text);
}

#[test]
fn a_call_that_fails_ends_the_tool(rt: HostRuntime) {
    for failing in &FAILING {
        ends_so(&rt, rt.alloc(), failing);
    }
}

#[test]
fn a_source_has_at_most_four_gibibytes(rt: HostRuntime) {
    for (count, status, text) in &LONG {
        long_ends_so(&rt, rt.alloc(), *count, *status, text);
    }
}
