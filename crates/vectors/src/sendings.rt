//! A package that is sent by the program's own call: with a sink that has no memory for one of the lines, and by a verifier that is
//! handed in.
ghost use Rattle.std.specs.Prelude.{◌≡◌, false, refl, IsFalse, None};
ghost use Rattle.flash_devices.specs.Memory.{is_on, arming_of};

use crate::packages::packages;
use crate::runs::{Ran, end_by, end_on, ends, holds, ran_of, run, source_of};
use flash_devices::MemoryFlash;
use host_io::{MemorySink, Sink, WriteStop};
use runs_kit::{LIST, NO_TROUBLE, files_of, flash_of, two_banks, words_of};
use std::alloc::Global;
use std::process::Abort;
use verify_core::DigestList;

// A sink that has memory for so many calls.
#[derive(Drop)]
struct ShortSink {
    text: Vec<u8>,
    calls: u32,
}

impl Sink for ShortSink {
    ghost tells = { false };

    ghost steady = { λ _. refl };

    ghost taken = { λ _. None };

    ghost faults = { λ _. 0 };

    fn put(&mut self, bytes: &[u8]) -> Result<(), WriteStop> {
        if self.calls == 0 {
            return Err(WriteStop::NoMemory);
        }
        self.calls -= 1;
        self.text.extend_from_slice(bytes)?;
        Ok(())
    }
}

// The program with these words and this script on a device, with a sink for so many lines.
fn run_on(
    rt: &impl Abort,
    alloc: Global,
    words: &str,
    script: &str,
    calls: u32,
    flash: MemoryFlash,
) -> Ran
    requires off { IsFalse (is_on flash) }
    requires unarmed { arming_of flash ≡ None }
{
    let mut source = source_of(rt, alloc, script, 0);
    let text = Vec::new(alloc);
    let mut sink = ShortSink { text, calls };
    let words = words_of(alloc, words).expect(rt, "memory");
    let mut files = files_of(alloc, packages(rt, alloc), 0).expect(rt, "memory");
    let done = end_on(alloc, words, &mut files, &mut source, &mut sink, flash);
    ran_of(rt, alloc, done, sink.text.as_slice())
}

// Words and their script, for how many lines there was memory, the status, and what a boot prints on the flash that is left. Each
// line comes once its call is done, and that of a soak once all is.
const SHORT: [(&str, &str, u32, u8, &str); 9] = [
    (
        "run",
        "boot\nsend p2.fip trial\nboot\nshow\n",
        0,
        9,
        "boot bank=0 version=1 trials=0 counter=1\n",
    ),
    (
        "run",
        "boot\nsend p2.fip trial\nboot\nshow\n",
        1,
        9,
        "boot bank=1 version=2 trials=1 counter=1\n",
    ),
    (
        "run",
        "boot\nsend p2.fip trial\nboot\nshow\n",
        2,
        9,
        "boot bank=1 version=2 trials=2 counter=1\n",
    ),
    (
        "run",
        "boot\nsend p2.fip trial\nboot\nshow\n",
        3,
        9,
        "boot bank=1 version=2 trials=2 counter=1\n",
    ),
    (
        "run",
        "boot\nsend p2.fip now\nboot\n",
        0,
        9,
        "boot bank=0 version=1 trials=0 counter=1\n",
    ),
    (
        "run",
        "boot\nsend p2.fip now\nboot\n",
        1,
        9,
        "boot bank=1 version=2 trials=0 counter=2\n",
    ),
    (
        "run",
        "boot\nsend p2.fip now\nboot\n",
        2,
        9,
        "boot bank=1 version=2 trials=0 counter=2\n",
    ),
    (
        "run",
        "boot\nsend p2.fip now\nboot\n",
        3,
        0,
        "boot bank=1 version=2 trials=0 counter=2\n",
    ),
    (
        "soak 1 1",
        "",
        0,
        9,
        "boot bank=0 version=1 trials=0 counter=1\n",
    ),
];

// The words and their script end with this status, with a sink for so many lines. What is left.
fn left_after(
    rt: &impl Abort,
    alloc: Global,
    words: &str,
    script: &str,
    calls: u32,
    status: u8,
) -> Vec<u8> {
    let flash = flash_of(alloc, two_banks(alloc).expect(rt, "memory"), &NO_TROUBLE).expect(
        rt, "memory",
    );
    let ran = run_on(rt, alloc, words, script, calls, flash);
    holds(rt, ran.status == status, script);
    ran.image
}

#[test]
fn want_of_memory_for_a_line_leaves_a_flash_that_boots(rt: HostRuntime) {
    let alloc = rt.alloc();
    for (words, script, calls, status, line) in &SHORT {
        let image = left_after(&rt, alloc, words, script, *calls, *status);
        let booted = run(&rt, alloc, "boot", "", image);
        ends(&rt, &booted, 0, line);
    }
}

// The program with this script on a flash with firmware, by a list that is handed in.
fn run_by(rt: &impl Abort, alloc: Global, script: &str, list: &DigestList) -> Ran {
    let mut source = source_of(rt, alloc, script, 0);
    let mut sink = MemorySink::new(alloc, Vec::new(alloc), Vec::new(alloc));
    let flash = flash_of(alloc, two_banks(alloc).expect(rt, "memory"), &NO_TROUBLE).expect(
        rt, "memory",
    );
    let words = words_of(alloc, "run").expect(rt, "memory");
    let mut files = files_of(alloc, packages(rt, alloc), 0).expect(rt, "memory");
    let done = end_by(
        alloc,
        words,
        &mut files,
        &mut source,
        &mut sink,
        flash,
        list,
    );
    ran_of(rt, alloc, done, sink.bytes())
}

// The manifest of the flash is listed, and that of the package isn't.
#[test]
fn a_verifier_that_is_handed_in_refuses_a_package(rt: HostRuntime) {
    let alloc = rt.alloc();
    let list = DigestList::read(alloc, LIST.as_bytes()).expect(&rt, "a list");
    let ran = run_by(&rt, alloc, "boot\nsend p2.fip trial\nboot\n", &list);
    let lines =
        "boot bank=0 version=1 trials=0 counter=1\nsend end AUTH_FAIL\nboot bank=0 version=1 trials=0 counter=1\n";
    ends(&rt, &ran, 0, lines);
}
