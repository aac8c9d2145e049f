//! The program over files of the system, in a folder that has no file but those that the words and the scripts name. A file that
//! nobody named is never asked for, since that would be a file fault.

use crate::packages::packages;
use crate::runs::{Ran, ends, run_on, source_of};
use host_io::HostFiles;
use runs_kit::{NO_TROUBLE, blank, flash_of};
use std::alloc::{Alloc, Global};
use std::fs;
use std::process::Abort;
use std::rt::Files;

const FOLDER: &str = "fwu_test";

// The manifests of security version 1 and 2, by their SHA-256.
const LIST: &str =
    "6d807d1bea783d90ce1f9ee1bf8667e94ddc31fa6f5474f8a891bcc89d56fb9a\n39fb16e45f5ec40af556a3d5cd140cce1087047c11fb5343fb07f195fedf813a\n";

const FORMAT: &str = "--allow fwu_test/list format manifest:1,tb-fw:2,nt-fw:4 fwu_test/p1.fip";

// The words, the script, the status and what is printed, each on the flash that was formatted.
const RUNS: [(&str, &str, u8, &str); 4] = [
    (
        "--allow fwu_test/list run",
        "boot\nsend fwu_test/p2.fip now\nboot\n",
        0,
        "boot bank=0 version=1 trials=0 counter=1\nsend SUCCESS images=3 skipped=0\nboot bank=1 version=2 trials=0 counter=2\n",
    ),
    (
        "run",
        "boot\nsend fwu_test/none.fip now\nboot\n",
        2,
        "boot bank=0 version=1 trials=0 counter=1\nsend read-fault\n",
    ),
    (
        "--allow fwu_test/list boot",
        "",
        0,
        "boot bank=0 version=1 trials=0 counter=1\n",
    ),
    ("--allow fwu_test/none boot", "", 2, "read-fault\n"),
];

// Makes the folder, with the list and the packages of version 1 and 2 in it.
fn make_folder<R: Abort + Alloc + Files>(rt: &R, alloc: Global) {
    let _ = fs::remove_dir_all(rt, FOLDER);
    fs::create_dir(rt, FOLDER).expect(rt, "a folder");
    fs::write(rt, "fwu_test/list", LIST).expect(rt, "a list that is written");
    for (name, bytes) in &packages(rt, alloc) {
        let place = match name.as_str() {
            "p1.fip" => "fwu_test/p1.fip",
            "p2.fip" => "fwu_test/p2.fip",
            _ => continue,
        };
        fs::write(rt, place, bytes).expect(rt, "a package that is written");
    }
}

// What a run left, over files of the system.
fn ran<R: Files>(
    rt: &impl Abort,
    alloc: Global,
    files: &mut HostFiles<R>,
    words: &str,
    script: &str,
    image: Vec<u8>,
) -> Ran {
    let mut source = source_of(rt, alloc, script, 0);
    let flash = flash_of(alloc, image, &NO_TROUBLE).expect(rt, "memory");
    run_on(rt, alloc, words, files, &mut source, &NO_TROUBLE, flash)
}

#[test]
fn updates_over_files_of_the_system(rt: HostRuntime) {
    let alloc = rt.alloc();
    make_folder(&rt, alloc);
    let mut files = HostFiles::new(&rt);
    let made = ran(
        &rt,
        alloc,
        &mut files,
        FORMAT,
        "",
        blank(alloc, 22).expect(&rt, "memory"),
    );
    let line = "format banks=2 images=3 blocks=22 version=1\n";
    ends(&rt, &made, 0, line);
    for (words, script, status, lines) in &RUNS {
        let image = made.image.as_slice().to_vec(alloc).expect(&rt, "memory");
        let done = ran(&rt, alloc, &mut files, words, script, image);
        ends(&rt, &done, *status, lines);
    }
    fs::remove_dir_all(&rt, FOLDER).expect(&rt, "a folder that is removed");
}
