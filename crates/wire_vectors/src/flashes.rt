//! The bank that a flash starts.
ghost use Rattle.std.specs.Prelude.{IsTrue};

use early_boot::{BootEnd, Booted, boot};
use flash_core::Flash;
use flash_devices::{Cut, MemoryFlash};
use std::alloc::Global;
use std::process::Abort;
use verify_core::AnyManifest;

/// The bank that a flash with these bytes starts, with power lost at these of its operations.
pub fn booted(
    rt: &impl Abort,
    alloc: Global,
    image: Vec<u8>,
    cuts: Vec<Cut>,
) -> Booted<MemoryFlash> {
    let mut flash = MemoryFlash::from_bytes(alloc, image, cuts, Vec::new(alloc)).expect(
        rt, "a flash",
    );
    if !flash.is_on() {
        flash.power_on();
    }
    started(boot(flash, &AnyManifest)).expect(rt, "a bank")
}

fn started(end: BootEnd<MemoryFlash>) -> Option<Booted<MemoryFlash>> {
    match end {
        BootEnd::Booted(booted, _) => Some(booted),
        _ => None,
    }
}

/// Stops the test where this does not hold, and prints what it is of. A call costs its test's proof less than the macro in its
/// place.
pub fn holds(rt: &impl Abort, is_so: bool, of: &str)
    ensures { IsTrue is_so }
{
    assert!(rt; is_so, "{of}");
}
