//! Scripts, and the lines that they print, with words for the longer parts.
use runs_kit::MANIFEST_2;
use std::alloc::Global;
use std::process::Abort;

// Words, and the text that each stands for, which may have words of those behind it. These are the line of a boot of the
// flash that was formatted, the lines that stage the package of version 2, and a line four times.
const WORDS: [(&str, &str); 4] = [
    ("BOOT1\n", "boot bank=0 version=1 trials=0 counter=1\n"),
    (
        "STAGE p2\n",
        "begin\nopen manifest w\nwrite 1 MANIFEST_2\ncommit 1 trial\nopen tb-fw w\nwrite 1 616263\ncommit 1 trial\nopen nt-fw w\nwrite 1 68656c6c6f\ncommit 1 trial\n",
    ),
    ("MANIFEST_2", MANIFEST_2),
    ("TIMES 4 boot\n", "boot\nboot\nboot\nboot\n"),
];

/// The text with these words put in full.
pub fn expand(rt: &impl Abort, alloc: Global, text: &str) -> String {
    let mut full = String::from_str(alloc, text).expect(rt, "memory");
    for (word, meant) in &WORDS {
        let next = full.as_str().replace(alloc, *word, meant);
        full = next.expect(rt, "memory");
    }
    full
}
