//! One call of the flash, of the files, of the source or of the sink fails in an update.
use crate::packages::packages;
use crate::runs::{Bench, Ran, holds, run};
use runs_kit::{NO_TROUBLE, Trouble, two_banks};
use std::alloc::Global;
use std::process::Abort;

// What a boot prints on the flash that a failed update left.
const BOOTS: [&str; 4] = [
    "boot bank=0 version=1 trials=0 counter=1\n",
    "boot bank=1 version=2 trials=1 counter=1\n",
    "boot bank=1 version=2 trials=2 counter=1\n",
    "boot bank=1 version=2 trials=3 counter=1\n",
];

const STAGE: &str = "boot\nSTAGE p2\nend\nboot\nboot\n";

const SEND: &str = "boot\nsend p2.fip trial\nboot\nboot\n";

// Whether a boot of this flash is one of those.
fn boots(rt: &impl Abort, alloc: Global, image: Vec<u8>) -> bool {
    let ran = run(rt, alloc, "boot", "", image);
    for line in BOOTS {
        if ran.printed.as_slice() == line.as_bytes() {
            return ran.status == 0;
        }
    }
    false
}

// What fails.
#[derive(Clone, Copy)]
enum Failing {
    Flash,
    Files,
    Source,
    Sink,
}

fn trouble_of(failing: Failing, call: u64) -> Trouble {
    let mut trouble = NO_TROUBLE;
    match failing {
        Failing::Flash => trouble.flash = call,
        Failing::Files => trouble.files = call,
        Failing::Source => trouble.source = call,
        Failing::Sink => trouble.sink = call,
    }
    trouble
}

// Whether a text is the front of what is printed without a failure, up to the space behind the word of a call, and then this end.
fn is_stopped(printed: &[u8], end: &[u8], whole: &[u8]) -> bool {
    match printed.strip_suffix(end) {
        Some(front) => front.ends_with(b" ") && whole.starts_with(front),
        None => false,
    }
}

// Whether a run ended by the failure of a call: by its status and by what was printed. Then the flash boots.
fn is_failure(failing: Failing, ran: &Ran, whole: &[u8]) -> bool {
    let printed = ran.printed.as_slice();
    let (status, is_told) = match failing {
        Failing::Flash => (5, is_stopped(printed, b"fault\n", whole)),
        Failing::Files => (2, is_stopped(printed, b"read-fault\n", whole)),
        Failing::Source => (2, printed == b"read-fault\n".as_slice()),
        Failing::Sink => (3, whole.starts_with(printed)),
    };
    ran.status == status && is_told
}

// Each call fails in turn, until there are no more: no failure is passed over. How many there were.
fn fail_each(rt: &impl Abort, alloc: Global, bench: &Bench, script: &str, failing: Failing) -> u64 {
    let whole = bench.run(rt, alloc, script, &NO_TROUBLE).printed;
    for call in 1..400 {
        let ran = bench.run(rt, alloc, script, &trouble_of(failing, call));
        if ran.status == 0 {
            holds(rt, ran.faults == 0 && ran.printed == whole, script);
            return call - 1;
        }
        let is_so = is_failure(failing, &ran, whole.as_slice());
        let is_so = is_so && boots(rt, alloc, ran.image);
        assert!(rt; is_so, "{script}: call {call}");
    }
    400
}

// What is sent or staged, what fails, and how many calls of it there are, at least and at most. A sending asks for a size and the
// first 16 bytes; the table takes a size, a header, three entries and the marker. Each of three images is read at once. The
// source gives the script and then its end. The sink takes each of 14 lines in one piece.
const FAILURES: [(&str, Failing, u64, u64); 4] = [
    (STAGE, Failing::Flash, 40, 399),
    (SEND, Failing::Files, 11, 11),
    (STAGE, Failing::Source, 2, 2),
    (STAGE, Failing::Sink, 14, 14),
];

#[test]
fn an_update_survives_the_failure_of_each_call(rt: HostRuntime) {
    let alloc = rt.alloc();
    let (files, flash) = (packages(&rt, alloc), two_banks(alloc).expect(&rt, "memory"));
    let bench = Bench { files, flash };
    for (script, failing, least, most) in FAILURES {
        let calls = fail_each(&rt, alloc, &bench, script, failing);
        assert!(rt; calls >= least && calls <= most, "{script}: {calls}");
    }
}
