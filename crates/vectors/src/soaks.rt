//! Soaks that a fault, a loss of power or a sink ends.
use crate::runs::{ends, holds, run, run_with};
use flash_devices::Cut;
use runs_kit::{NO_TROUBLE, Trouble, blank};
use script_runs::Note;
use std::alloc::Global;
use std::process::Abort;

// What a boot prints on a flash that was formatted, and on one without a layout.
const BOOT1: &str = "boot bank=0 version=1 trials=0 counter=1\n";

const NO_LAYOUT: &str = "boot bad-layout 2\n";

// What fails in a soak of a round on a blank flash of 64 blocks, how it ends, and what a boot prints on the flash that is left.
#[derive(Clone, Copy)]
struct Case {
    trouble: Trouble,
    status: u8,
    line: &'static str,
    left: &'static str,
}

const SOAKS: [Case; 4] = [
    // The flash fails, or power is lost, while it is formatted.
    Case {
        trouble: Trouble {
            flash: 1,
            ..NO_TROUBLE
        },
        status: 5,
        line: "flash-fault\n",
        left: NO_LAYOUT,
    },
    Case {
        trouble: Trouble {
            cut: Cut {
                op: 1,
                landed: 0,
                back: false,
            },
            ..NO_TROUBLE
        },
        status: 5,
        line: "flash-fault\n",
        left: NO_LAYOUT,
    },
    // It fails in a turn: a flash that boots was formatted before.
    Case {
        trouble: Trouble {
            flash: 50,
            ..NO_TROUBLE
        },
        status: 5,
        line: "flash-fault\n",
        left: BOOT1,
    },
    Case {
        trouble: Trouble {
            sink: 1,
            ..NO_TROUBLE
        },
        status: 3,
        line: "",
        left: BOOT1,
    },
];

// The program ends as the case says, and leaves such a flash.
fn ends_as(rt: &impl Abort, alloc: Global, case: &Case) {
    let image = blank(alloc, 64).expect(rt, "memory");
    let files = Vec::new(alloc);
    let ran = run_with(rt, alloc, "soak 1 1", "", files, image, &case.trouble);
    ends(rt, &ran, case.status, case.line);
    holds(rt, ran.note == Note::Nothing, "a note");
    let booted = run(rt, alloc, "boot", "", ran.image);
    let is_left = booted.printed.as_slice() == case.left.as_bytes();
    holds(rt, is_left, case.left);
}

#[test]
fn soaks_that_are_stopped(rt: HostRuntime) {
    for case in &SOAKS {
        ends_as(&rt, rt.alloc(), case);
    }
}
