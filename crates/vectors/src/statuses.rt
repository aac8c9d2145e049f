//! What a run tells besides its lines: the status where a call fails, its note, and what it leaves of its source and its flash.
use crate::runs::{end_on, ends, holds, run_on, run_with, source_of};
use flash_core::Flash;
use flash_devices::MemoryFlash;
use flash_format::InputFault;
use fwu_formats::LayoutFault;
use fwu_model::NoBoot;
use host_io::{MemorySink, Source};
use runs_kit::{
    LIST, NO_TROUBLE, Named, Trouble, blank, files_of, flash_of, one_file, two_banks, words_of,
};
use script_runs::{NoTable, Note};
use std::alloc::Global;
use std::process::Abort;

// The first call fails: words on a flash with firmware, what fails, and how they end.
const FAILING: [(&str, Trouble, u8, &str); 4] = [
    (
        "run",
        Trouble {
            source: 1,
            ..NO_TROUBLE
        },
        2,
        "read-fault\n",
    ),
    (
        "run",
        Trouble {
            sink: 1,
            ..NO_TROUBLE
        },
        3,
        "",
    ),
    (
        "boot",
        Trouble {
            flash: 1,
            ..NO_TROUBLE
        },
        5,
        "boot fault\n",
    ),
    (
        "show",
        Trouble {
            flash: 1,
            ..NO_TROUBLE
        },
        5,
        "flash-fault\n",
    ),
];

#[test]
fn a_first_call_that_fails_ends_a_run(rt: HostRuntime) {
    let alloc = rt.alloc();
    for (words, trouble, status, line) in &FAILING {
        let (files, image) = (Vec::new(alloc), two_banks(alloc).expect(&rt, "memory"));
        let ran = run_with(&rt, alloc, words, "boot\n", files, image, trouble);
        ends(&rt, &ran, *status, line);
        holds(&rt, ran.note == Note::Nothing, words);
    }
}

// Words on a flash with firmware, the script, and what they note.
const NOTED: [(&str, &str, Note); 6] = [
    ("boot", "", Note::Nothing),
    ("walk", "", Note::Nothing),
    ("run", "boot\n\nbigin\n", Note::BadLine(3)),
    ("boot --gpt", "", Note::NoTable(NoTable::Table)),
    ("--allow none boot", "", Note::Nothing),
    (
        "format manifest:1 none.fip",
        "",
        Note::Input(InputFault::Layout(LayoutFault::BadField)),
    ),
];

// Lists of digests, and what a boot notes by each.
const LISTED: [(&str, Note); 3] = [
    (LIST, Note::Nothing),
    (
        "",
        Note::Boot(NoBoot::Bank {
            active: 0,
            previous: 0,
        }),
    ),
    ("00\n", Note::BadList(1)),
];

// What the words note on a flash with these bytes.
fn note_of(
    rt: &impl Abort,
    alloc: Global,
    words: &str,
    script: &str,
    files: Vec<Named>,
    image: Vec<u8>,
) -> Note {
    run_with(rt, alloc, words, script, files, image, &NO_TROUBLE).note
}

#[test]
fn what_a_run_met_is_noted(rt: HostRuntime) {
    let alloc = rt.alloc();
    for (words, script, note) in &NOTED {
        let (files, image) = (Vec::new(alloc), two_banks(alloc).expect(&rt, "memory"));
        let noted = note_of(&rt, alloc, words, script, files, image);
        holds(&rt, noted == *note, words);
    }
    for (list, note) in &LISTED {
        let list = list.as_bytes().to_vec(alloc).expect(&rt, "memory");
        let (files, image) = (
            one_file(alloc, "list", list).expect(&rt, "memory"),
            two_banks(alloc).expect(&rt, "memory"),
        );
        let noted = note_of(&rt, alloc, "--allow list boot", "", files, image);
        holds(&rt, noted == *note, "a list");
    }
}

#[test]
fn why_nothing_is_booted_or_made_is_noted(rt: HostRuntime) {
    let alloc = rt.alloc();
    for words in ["boot", "serve"] {
        let (files, image) = (Vec::new(alloc), blank(alloc, 8).expect(&rt, "memory"));
        let noted = note_of(&rt, alloc, words, "", files, image);
        let wanted = Note::Boot(NoBoot::Layout(LayoutFault::BadMagic));
        holds(&rt, noted == wanted, words);
    }
    let (files, image) = (Vec::new(alloc), blank(alloc, 21).expect(&rt, "memory"));
    let noted = note_of(&rt, alloc, "soak 1 1", "", files, image);
    let wanted = Note::Input(InputFault::Layout(LayoutFault::BeyondFlash));
    holds(&rt, noted == wanted, "soak");
}

// How many bytes of the source are left once the program with these words ended.
fn unread(rt: &impl Abort, alloc: Global, words: &str) -> usize {
    let mut source = source_of(rt, alloc, "boot\n", 0);
    let mut files = files_of(alloc, Vec::new(alloc), 0).expect(rt, "memory");
    let flash = flash_of(alloc, two_banks(alloc).expect(rt, "memory"), &NO_TROUBLE).expect(
        rt, "memory",
    );
    run_on(
        rt,
        alloc,
        words,
        &mut files,
        &mut source,
        &NO_TROUBLE,
        flash,
    );
    let mut rest = [0; 16];
    source.read(&mut rest).unwrap_or(16)
}

#[test]
fn run_alone_reads_the_source(rt: HostRuntime) {
    for (words, left) in [
        ("run", 0),
        ("boot", 5),
        ("show", 5),
        ("walk", 5),
        ("serve x", 5),
    ] {
        holds(&rt, unread(&rt, rt.alloc(), words) == left, words);
    }
}

// The flash that the program with these words left.
fn flash_after(rt: &impl Abort, alloc: Global, words: &str) -> MemoryFlash {
    let flash = flash_of(alloc, two_banks(alloc).expect(rt, "memory"), &NO_TROUBLE).expect(
        rt, "memory",
    );
    let mut files = files_of(alloc, Vec::new(alloc), 0).expect(rt, "memory");
    let mut source = source_of(rt, alloc, "", 0);
    let mut sink = MemorySink::new(alloc, Vec::new(alloc), Vec::new(alloc));
    let words = words_of(alloc, words).expect(rt, "memory");
    end_on(alloc, words, &mut files, &mut source, &mut sink, flash).flash
}

// Whether two erases are done on a flash that is on.
fn is_erased_twice(flash: MemoryFlash) -> bool {
    let mut flash = flash;
    flash.is_on() && flash.erase(7).is_ok() && flash.is_on() && flash.erase(7).is_ok()
}

#[test]
fn no_command_leaves_an_armed_loss(rt: HostRuntime) {
    for words in ["show", "boot"] {
        holds(
            &rt,
            is_erased_twice(flash_after(&rt, rt.alloc(), words)),
            words,
        );
    }
}
