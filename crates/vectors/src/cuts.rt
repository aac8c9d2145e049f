//! Power is lost at each erase and program of an update.
use crate::packages::packages;
use crate::runs::{Bench, ends_with_one, run};
use flash_devices::Cut;
use runs_kit::{NO_TROUBLE, Trouble, formatted, two_banks};
use std::alloc::Global;
use std::process::Abort;

// A script with a loss of power, once at each erase or program up to a number, after each of these numbers of bytes.
#[derive(Clone, Copy)]
struct Sweep {
    /// The line `CUT` stands for a cut of the script's own; else the device has one.
    script: &'static str,
    /// What was dirty before the loss goes back to what was stable.
    back: bool,
    operations: u64,
    /// The lines that come first.
    front: &'static str,
    /// And those behind them, from an operation and a number of bytes on.
    ends: &'static [(u64, u32, &'static str)],
}

const LANDED: [u32; 4] = [0, 8, 100, 4096];

const STAGE: &str = "boot\nSTAGE p2\nend\nboot\nboot\n";

const OLD: &str = "BOOT1\nBOOT1\n";

const NEW: &str =
    "boot bank=1 version=2 trials=1 counter=1\nboot bank=1 version=2 trials=2 counter=1\n";

// The images take six operations, and the end erases and programs one replica and then the other. The loss that leaves the first
// one whole is the first that leaves the new package. Then come two marks; a torn one counts, where some of it landed.
const STAGING: [Sweep; 2] = [
    Sweep {
        script: STAGE,
        back: false,
        operations: 40,
        front: "BOOT1\n",
        ends: &[
            (1, 0, OLD),
            (8, 4096, NEW),
            (
                11,
                0,
                "boot lost\nboot bank=1 version=2 trials=1 counter=1\n",
            ),
            (
                11,
                8,
                "boot lost\nboot bank=1 version=2 trials=2 counter=1\n",
            ),
            (
                12,
                0,
                "boot bank=1 version=2 trials=1 counter=1\nboot lost\n",
            ),
            (13, 0, NEW),
        ],
    },
    // Where the erase goes back, the new metadata's first 100 bytes stand before the old one's rest, which a package on trial
    // shares.
    Sweep {
        script: STAGE,
        back: true,
        operations: 13,
        front: "BOOT1\n",
        ends: &[
            (1, 0, OLD),
            (8, 100, NEW),
            (
                11,
                0,
                "boot lost\nboot bank=1 version=2 trials=1 counter=1\n",
            ),
            (
                11,
                8,
                "boot lost\nboot bank=1 version=2 trials=2 counter=1\n",
            ),
            (
                12,
                0,
                "boot bank=1 version=2 trials=1 counter=1\nboot lost\n",
            ),
            (13, 0, NEW),
        ],
    },
];

const SEND_NOW: &str = "boot\nCUT\nsend p2.fip now\nboot\nshow\nsend p5.fip now\nboot\n";

const SEND_TRIAL: &str =
    "boot\nCUT\nsend p2.fip trial\nboot\nshow\naccept manifest\naccept tb-fw\naccept nt-fw\nsend p5.fip now\nboot\n";

// What follows a sending that is lost, and then a whole one.
const AFTER_NOW: &[(u64, u32, &str)] = &[
    (
        1,
        0,
        "BOOT1\nshow active=0 previous=0 banks=accepted,invalid bits=111,000 trials=0 counter=1\nsend SUCCESS images=3 skipped=0\nboot bank=1 version=5 trials=0 counter=5\n",
    ),
    (
        8,
        4096,
        "boot bank=1 version=2 trials=0 counter=2\nshow active=1 previous=0 banks=accepted,accepted bits=111,111 trials=0 counter=2\nsend SUCCESS images=3 skipped=0\nboot bank=0 version=5 trials=0 counter=5\n",
    ),
];

// The same operations in one call. The next sending is done.
const SENDING: [Sweep; 2] = [
    Sweep {
        script: SEND_NOW,
        back: false,
        operations: 10,
        front: "BOOT1\ncut ok\nsend lost\n",
        ends: AFTER_NOW,
    },
    Sweep {
        script: SEND_TRIAL,
        back: false,
        operations: 10,
        front: "BOOT1\ncut ok\nsend lost\n",
        ends: &[
            (
                1,
                0,
                "BOOT1\nshow active=0 previous=0 banks=accepted,invalid bits=111,000 trials=0 counter=1\naccept SUCCESS\naccept SUCCESS\naccept SUCCESS\nsend SUCCESS images=3 skipped=0\nboot bank=1 version=5 trials=0 counter=5\n",
            ),
            (
                8,
                4096,
                "boot bank=1 version=2 trials=1 counter=1\nshow active=1 previous=0 banks=accepted,valid bits=111,000 trials=1 counter=1\naccept SUCCESS\naccept SUCCESS\naccept SUCCESS\nsend SUCCESS images=3 skipped=0\nboot bank=0 version=5 trials=0 counter=5\n",
            ),
        ],
    },
];

const SEND_AGAIN: &str = "boot\nsend p5.fip now\nboot\nshow\nsend p5.fip now\nboot\n";

// Over a bank that holds a package, behind a trial: first both replicas make it invalid, in operations 1 to 4, and the end clears
// the marks, in operation 11.
const SENDING_AGAIN: [(u64, u32, &str); 3] = [
    (
        1,
        0,
        "boot bank=1 version=2 trials=0 counter=2\nshow active=1 previous=0 banks=accepted,accepted bits=111,111 trials=0 counter=2\nsend SUCCESS images=3 skipped=0\nboot bank=0 version=5 trials=0 counter=5\n",
    ),
    (
        2,
        4096,
        "boot bank=1 version=2 trials=0 counter=2\nshow active=1 previous=0 banks=invalid,accepted bits=000,111 trials=0 counter=2\nsend SUCCESS images=3 skipped=0\nboot bank=0 version=5 trials=0 counter=5\n",
    ),
    (
        13,
        4096,
        "boot bank=0 version=5 trials=0 counter=5\nshow active=0 previous=1 banks=accepted,accepted bits=111,111 trials=0 counter=5\nsend SUCCESS images=3 skipped=0\nboot bank=1 version=5 trials=0 counter=5\n",
    ),
];

const AGAIN: Sweep = Sweep {
    script: SEND_AGAIN,
    back: false,
    operations: 15,
    front: "boot bank=1 version=2 trials=0 counter=2\nsend lost\n",
    ends: &SENDING_AGAIN,
};

const SENDINGS_AGAIN: [Sweep; 3] = [
    AGAIN,
    // The same images, of which the manifest alone is sent.
    Sweep {
        script: "boot\nsend m5.fip now partial\nboot\nshow\nsend p5.fip now\nboot\n",
        ..AGAIN
    },
    Sweep {
        back: true,
        ..AGAIN
    },
];

// The lines behind the first ones, after a loss at an operation.
fn end_at(ends: &[(u64, u32, &'static str)], op: u64, landed: u32) -> &'static str {
    let mut last = "";
    for (from, least, lines) in ends {
        if op > *from || (op == *from && landed >= *least) {
            last = *lines;
        }
    }
    last
}

// The packages, and a flash with these bytes.
fn bench_of(rt: &impl Abort, alloc: Global, flash: Vec<u8>) -> Bench {
    let files = packages(rt, alloc);
    Bench { files, flash }
}

// Whether the script with the loss ends well.
fn survives(rt: &impl Abort, alloc: Global, bench: &Bench, sweep: &Sweep, cut: Cut) -> bool {
    let Cut {
        op,
        landed,
        back: _,
    } = cut;
    let line = format!(in alloc; "cut {op} {landed}").expect(rt, "memory");
    let script = sweep.script.replace(alloc, "CUT", line.as_str());
    let script = script.expect(rt, "memory");
    let trouble = if sweep.script.contains("CUT") {
        NO_TROUBLE
    } else {
        Trouble { cut, ..NO_TROUBLE }
    };
    let end = end_at(sweep.ends, op, landed);
    bench.is_between(rt, alloc, script.as_str(), &trouble, sweep.front, end)
}

fn each_loss(rt: &impl Abort, alloc: Global, bench: &Bench, sweep: &Sweep) {
    let back = sweep.back;
    for op in 1..sweep.operations.saturating_add(1) {
        for landed in LANDED {
            let cut = Cut { op, landed, back };
            let is_so = survives(rt, alloc, bench, sweep, cut);
            holds_at(rt, is_so, sweep.script, cut);
        }
    }
}

// Stops the test where this does not hold.
fn holds_at(rt: &impl Abort, is_so: bool, script: &str, cut: Cut) {
    let Cut { op, landed, back } = cut;
    assert!(rt; is_so, "{script}: operation {op} after {landed}, {back}");
}

#[test]
fn a_staging_survives_each_loss(rt: HostRuntime) {
    let alloc = rt.alloc();
    let bench = bench_of(&rt, alloc, two_banks(alloc).expect(&rt, "memory"));
    for sweep in &STAGING {
        each_loss(&rt, alloc, &bench, sweep);
    }
}

#[test]
fn a_sending_survives_each_loss(rt: HostRuntime) {
    let alloc = rt.alloc();
    let bench = bench_of(&rt, alloc, formatted(alloc).expect(&rt, "memory"));
    for sweep in &SENDING {
        each_loss(&rt, alloc, &bench, sweep);
    }
}

const PARTIAL_NOW: &str = "boot\nCUT\nsend m2.fip now partial\nboot\nshow\nsend p5.fip now\nboot\n";

const PARTIAL_TRIAL: &str =
    "boot\nCUT\nsend m2.fip trial partial\nboot\nshow\naccept manifest\nsend p5.fip now\nboot\n";

// A manifest alone is sent: first both other images are copied, each by an erase and a program. On trial they are accepted already.
const PARTIAL: [Sweep; 2] = [
    Sweep {
        script: PARTIAL_NOW,
        back: false,
        operations: 10,
        front: "BOOT1\ncut ok\nsend lost\n",
        ends: AFTER_NOW,
    },
    Sweep {
        script: PARTIAL_TRIAL,
        back: false,
        operations: 10,
        front: "BOOT1\ncut ok\nsend lost\n",
        ends: &[
            (
                1,
                0,
                "BOOT1\nshow active=0 previous=0 banks=accepted,invalid bits=111,000 trials=0 counter=1\naccept SUCCESS\nsend SUCCESS images=3 skipped=0\nboot bank=1 version=5 trials=0 counter=5\n",
            ),
            (
                8,
                4096,
                "boot bank=1 version=2 trials=1 counter=1\nshow active=1 previous=0 banks=accepted,valid bits=111,011 trials=1 counter=1\naccept SUCCESS\nsend SUCCESS images=3 skipped=0\nboot bank=0 version=5 trials=0 counter=5\n",
            ),
        ],
    },
];

#[test]
fn a_partial_sending_survives_each_loss(rt: HostRuntime) {
    let alloc = rt.alloc();
    let bench = bench_of(&rt, alloc, formatted(alloc).expect(&rt, "memory"));
    for sweep in &PARTIAL {
        each_loss(&rt, alloc, &bench, sweep);
    }
}

// What accepts an update.
const ACCEPTED: &str =
    "boot\nsend p2.fip trial\nboot\naccept manifest\naccept tb-fw\naccept nt-fw\nboot\n";

#[test]
fn a_sending_over_a_package_survives_each_loss(rt: HostRuntime) {
    let alloc = rt.alloc();
    let mut bench = bench_of(&rt, alloc, formatted(alloc).expect(&rt, "memory"));
    bench.flash = bench.run(&rt, alloc, ACCEPTED, &NO_TROUBLE).image;
    for sweep in &SENDINGS_AGAIN {
        each_loss(&rt, alloc, &bench, sweep);
    }
}

// Scripts of whole updates, the last one with a loss of its own besides, and the last lines that may come after a loss at any erase
// or program.
const UPDATES: [(&str, &[&str]); 4] = [
    (
        "boot\nsend p2.fip trial\nboot\nshow\nboot\n",
        &[
            "BOOT1\n",
            "boot bank=1 version=2 trials=1 counter=1\n",
            "boot bank=1 version=2 trials=2 counter=1\n",
            "boot lost\n",
        ],
    ),
    (
        "boot\nsend p2.fip trial\nboot\nshow\naccept manifest\naccept tb-fw\naccept tb-fw\naccept nt-fw\nboot\nprevious\nboot\n",
        &["BOOT1\n", "boot bank=1 version=2 trials=0 counter=2\n"],
    ),
    (
        "boot\nsend p2.fip trial\nTIMES 4 boot\nbegin\nprevious\nboot\nboot\n",
        &[
            "BOOT1\n",
            "boot bank=0 version=1 trials=3 counter=1 fallback\n",
        ],
    ),
    (
        "boot\nsend p5.fip now\ncut 3 8\nboot\nboot\nboot\n",
        &["BOOT1\n", "boot bank=1 version=5 trials=0 counter=5\n"],
    ),
];

// The script with the loss ends well, with one of these lines, and then the flash boots.
fn comes_back(
    rt: &impl Abort,
    alloc: Global,
    bench: &Bench,
    script: &str,
    cut: Cut,
    lines: &[&str],
) -> bool {
    let ran = bench.run(rt, alloc, script, &Trouble { cut, ..NO_TROUBLE });
    let is_allowed = ends_with_one(rt, alloc, ran.printed.as_slice(), lines);
    let is_done = ran.status == 0;
    let booted = run(rt, alloc, "boot", "", ran.image);
    is_done && is_allowed && booted.status == 0
}

// Power is lost at an operation of a script, after several numbers of bytes.
fn each_return(
    rt: &impl Abort,
    alloc: Global,
    bench: &Bench,
    script: &str,
    op: u64,
    lines: &[&str],
) {
    for (landed, back) in [(0, true), (8, false), (100, true), (4096, false)] {
        let cut = Cut { op, landed, back };
        let is_so = comes_back(rt, alloc, bench, script, cut, lines);
        holds_at(rt, is_so, script, cut);
    }
}

#[test]
fn a_whole_update_survives_each_loss(rt: HostRuntime) {
    let alloc = rt.alloc();
    let bench = bench_of(&rt, alloc, formatted(alloc).expect(&rt, "memory"));
    for (script, lines) in &UPDATES {
        // None of them makes more than 40 operations.
        for op in 1..41 {
            each_return(&rt, alloc, &bench, script, op, lines);
        }
    }
}
