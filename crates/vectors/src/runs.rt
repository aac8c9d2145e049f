//! Runs of the program on flashes in memory.
ghost use Rattle.std.specs.Prelude.{◌≡◌, IsFalse, None, IsTrue};
ghost use Rattle.flash_devices.specs.Memory.{is_on, arming_of};

use crate::texts::expand;
use flash_core::Flash;
use flash_devices::MemoryFlash;
use host_io::{Files, MemorySink, MemorySource, Sink};
use runs_kit::{NO_TROUBLE, Named, Trouble, files_of, flash_of, only, words_of};
use script_cmd::{fwu_top, fwu_top_with};
use script_runs::{Done, Note};
use std::alloc::Global;
use std::process::Abort;
use verify_core::Verifier;

/// What a run left, on a flash that power came back to.
#[derive(Drop)]
pub struct Ran {
    pub status: u8,
    pub note: Note,
    pub printed: Vec<u8>,
    /// How many calls of the flash failed.
    pub faults: u64,
    pub image: Vec<u8>,
}

/// A source of this script, of which the call of this number fails.
pub fn source_of(rt: &impl Abort, alloc: Global, script: &str, fails: u64) -> MemorySource {
    let bytes = Vec::from_slice(alloc, script.as_bytes()).expect(rt, "memory");
    MemorySource::new(bytes, only(alloc, fails).expect(rt, "memory"))
}

/// The program's end on a flash. What it promises is left out, so that goals stay small.
pub fn end_on<D: Flash, H: Files, O: Sink>(
    alloc: Global,
    words: Vec<String>,
    files: &mut H,
    source: &mut MemorySource,
    sink: &mut O,
    flash: D,
) -> Done<D>
    requires off { IsFalse (D.on flash) }
    requires unarmed { D.arming flash ≡ None }
{
    fwu_top(alloc, words.as_slice(), files, source, sink, flash)
}

/// The same by a verifier that is handed in.
pub fn end_by<D: Flash, H: Files, O: Sink, V: Verifier>(
    alloc: Global,
    words: Vec<String>,
    files: &mut H,
    source: &mut MemorySource,
    sink: &mut O,
    flash: D,
    verifier: &V,
) -> Done<D>
    requires off { IsFalse (D.on flash) }
    requires unarmed { D.arming flash ≡ None }
{
    let words = words.as_slice();
    fwu_top_with(alloc, words, files, source, sink, flash, verifier)
}

// The bytes of a flash once it has power.
fn image_of(rt: &impl Abort, alloc: Global, flash: MemoryFlash) -> Vec<u8> {
    let mut flash = flash;
    if !flash.is_on() {
        flash.power_on();
    }
    Vec::from_slice(alloc, flash.bytes()).expect(rt, "memory")
}

/// What a run left that printed these bytes.
pub fn ran_of(rt: &impl Abort, alloc: Global, done: Done<MemoryFlash>, printed: &[u8]) -> Ran {
    Ran {
        status: done.status,
        note: done.note,
        faults: done.flash.counts().faults,
        printed: Vec::from_slice(alloc, printed).expect(rt, "memory"),
        image: image_of(rt, alloc, done.flash),
    }
}

/// The program with these words, files and source, on a flash, with a sink of which a call fails.
pub fn run_on<H: Files>(
    rt: &impl Abort,
    alloc: Global,
    words: &str,
    files: &mut H,
    source: &mut MemorySource,
    trouble: &Trouble,
    flash: MemoryFlash,
) -> Ran
    requires off { IsFalse (is_on flash) }
    requires unarmed { arming_of flash ≡ None }
{
    let mut sink = MemorySink::new(
        alloc,
        Vec::new(alloc),
        only(alloc, trouble.sink).expect(rt, "memory"),
    );
    let words = words_of(alloc, words).expect(rt, "memory");
    let done = end_on(alloc, words, files, source, &mut sink, flash);
    ran_of(rt, alloc, done, sink.bytes())
}

/// The program with these words, this script and these files, on a flash with these bytes.
pub fn run_with(
    rt: &impl Abort,
    alloc: Global,
    words: &str,
    script: &str,
    files: Vec<Named>,
    image: Vec<u8>,
    trouble: &Trouble,
) -> Ran {
    let mut source = source_of(rt, alloc, script, trouble.source);
    let mut files = files_of(alloc, files, trouble.files).expect(rt, "memory");
    let flash = flash_of(alloc, image, trouble).expect(rt, "memory");
    run_on(rt, alloc, words, &mut files, &mut source, trouble, flash)
}

/// The program with these words and this script, and no files, on a flash with these bytes.
pub fn run(rt: &impl Abort, alloc: Global, words: &str, script: &str, image: Vec<u8>) -> Ran {
    run_with(
        rt,
        alloc,
        words,
        script,
        Vec::new(alloc),
        image,
        &NO_TROUBLE,
    )
}

/// It ended so.
pub fn ends(rt: &impl Abort, ran: &Ran, status: u8, printed: &str) {
    let is_so = ran.status == status && ran.printed.as_slice() == printed.as_bytes();
    assert!(rt; is_so, "{printed}");
}

/// Runs of scripts over these files, each from a flash with these bytes.
#[derive(Drop)]
pub struct Bench {
    pub files: Vec<Named>,
    pub flash: Vec<u8>,
}

impl Bench {
    /// The script on the flash.
    pub fn run(&self, rt: &impl Abort, alloc: Global, script: &str, trouble: &Trouble) -> Ran {
        let script = expand(rt, alloc, script);
        let files = self.files.as_slice().to_vec(alloc).expect(rt, "memory");
        let flash = self.flash.as_slice().to_vec(alloc).expect(rt, "memory");
        run_with(rt, alloc, "run", script.as_str(), files, flash, trouble)
    }

    /// Whether the script on the flash ends with status 0, and prints lines that begin and end so.
    pub fn is_between(
        &self,
        rt: &impl Abort,
        alloc: Global,
        script: &str,
        trouble: &Trouble,
        front: &str,
        end: &str,
    ) -> bool {
        let ran = self.run(rt, alloc, script, trouble);
        let front = expand(rt, alloc, front);
        let end = expand(rt, alloc, end);
        let printed = ran.printed.as_slice();
        ran.status == 0
            && printed.starts_with(front.as_bytes())
            && printed.ends_with(end.as_bytes())
    }
}

/// Whether a text ends with one of these lines.
pub fn ends_with_one(rt: &impl Abort, alloc: Global, text: &[u8], lines: &[&str]) -> bool {
    for line in lines {
        if text.ends_with(expand(rt, alloc, line).as_bytes()) {
            return true;
        }
    }
    false
}

/// Stops the test where this does not hold, and prints what it is of. A call costs its test's proof less than the macro in its
/// place.
pub fn holds(rt: &impl Abort, is_so: bool, of: &str)
    ensures { IsTrue is_so }
{
    assert!(rt; is_so, "{of}");
}
