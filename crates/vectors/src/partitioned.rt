//! A table whose copy is repaired: power is lost at each erase and program, and each read fails.
ghost use Rattle.std.specs.Prelude.{◌≡◌, IsFalse, None};
ghost use Rattle.flash_devices.specs.Memory.{is_on, arming_of};

use crate::runs::{Ran, ends, holds, run_on, source_of};
use crate::tables::{BACKUP, PRIMARY, partitioned};
use flash_devices::{Cut, MemoryFlash};
use runs_kit::{NO_TROUBLE, Trouble, files_of, flash_of};
use script_runs::Note;
use std::alloc::Global;
use std::process::Abort;

const BOOT1: &str = "boot bank=0 version=1 trials=0 counter=1\n";

// The blocks of both headers, and those behind blocks 1 to 7 of the flash.
const GUARDED: [u32; 9] = [1, 6, 7, 8, 9, 10, 25, 26, 39];

// A device with these bytes, off, with nothing armed. Of it no more is told, so that goals stay small.
fn device(rt: &impl Abort, alloc: Global, image: Vec<u8>, trouble: &Trouble) -> MemoryFlash
    ensures off { IsFalse (is_on result) }
    ensures unarmed { arming_of result ≡ None }
{
    let guarded = Vec::from_slice(alloc, &GUARDED).expect(rt, "memory");
    flash_of(alloc, image, trouble)
        .expect(rt, "memory")
        .guard(guarded)
}

// A boot of a device with these bytes.
fn booted(rt: &impl Abort, alloc: Global, image: Vec<u8>, trouble: &Trouble) -> Ran {
    let mut source = source_of(rt, alloc, "", 0);
    let mut files = files_of(alloc, Vec::new(alloc), 0).expect(rt, "memory");
    let flash = device(rt, alloc, image, trouble);
    let words = "boot --gpt";
    run_on(rt, alloc, words, &mut files, &mut source, trouble, flash)
}

// Both headers stand.
fn has_headers(rt: &impl Abort, alloc: Global, image: &[u8]) -> bool {
    let primary = hex::decode(alloc, PRIMARY).expect(rt, "digits");
    let backup = hex::decode(alloc, BACKUP).expect(rt, "digits");
    image.get(4096..4188) == Some(primary.as_slice())
        && image.get(159_744..159_836) == Some(backup.as_slice())
}

// A boot of this device ends well, and then both headers stand.
fn is_repaired(rt: &impl Abort, alloc: Global, image: Vec<u8>) {
    let ran = booted(rt, alloc, image, &NO_TROUBLE);
    ends(rt, &ran, 0, BOOT1);
    holds(rt, has_headers(rt, alloc, ran.image.as_slice()), "headers");
}

// A boot of this device ends by a fault of the flash. What it leaves.
fn fails(rt: &impl Abort, alloc: Global, image: Vec<u8>, trouble: &Trouble) -> Ran {
    let ran = booted(rt, alloc, image, trouble);
    ends(rt, &ran, 5, "flash-fault\n");
    ran
}

// The calls of the device that fail: the reads of both headers and both arrays of entries.
#[test]
fn a_table_that_is_not_read(rt: HostRuntime) {
    let alloc = rt.alloc();
    for flash in 1..5 {
        let trouble = Trouble {
            flash,
            ..NO_TROUBLE
        };
        let image = partitioned(&rt, alloc, true, true);
        let note = fails(&rt, alloc, image, &trouble).note;
        holds(&rt, note == Note::Nothing, "a note");
    }
}

// A loss of power at one of the four operations of a repair, and then a boot.
fn repairs_after(rt: &impl Abort, alloc: Global, primary: bool, cut: Cut) {
    let trouble = Trouble { cut, ..NO_TROUBLE };
    let image = partitioned(rt, alloc, primary, !primary);
    is_repaired(rt, alloc, fails(rt, alloc, image, &trouble).image);
}

// The same at each operation, after so many bytes, with what was dirty kept or not.
fn repairs_after_each(rt: &impl Abort, alloc: Global, primary: bool) {
    for op in 1..5 {
        for landed in [0, 8, 100, 4096] {
            for back in [false, true] {
                repairs_after(rt, alloc, primary, Cut { op, landed, back });
            }
        }
    }
}

#[test]
fn a_repair_of_the_primary_survives_each_loss(rt: HostRuntime) {
    repairs_after_each(&rt, rt.alloc(), false);
}

#[test]
fn a_repair_of_the_backup_survives_each_loss(rt: HostRuntime) {
    repairs_after_each(&rt, rt.alloc(), true);
}
