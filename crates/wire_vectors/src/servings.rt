//! A serving of a flash in memory: what it writes, and how it ends.
use host_io::{MemoryFiles, MemorySink, Source};
use runs_kit::{Trouble, flash_of, only};
use script_turns::Powered;
use serving::{Served, Serving, serve};
use std::alloc::Global;
use std::process::Abort;
use verify_core::AnyManifest;

/// What a serving did.
#[derive(Drop)]
pub struct Did {
    pub status: u8,
    /// How many turns there are, with the boot.
    pub turns: usize,
    pub written: Vec<u8>,
    /// The bytes of the flash.
    pub image: Vec<u8>,
}

/// Serves what a source gives.
pub fn served<I: Source>(
    rt: &impl Abort,
    alloc: Global,
    image: Vec<u8>,
    source: &mut I,
    trouble: &Trouble,
) -> Did {
    let flash = flash_of(alloc, image, trouble).expect(rt, "memory");
    let mut files = MemoryFiles::new(alloc, Vec::new(alloc), Vec::new(alloc));
    let mut sink = MemorySink::new(
        alloc,
        Vec::new(alloc),
        only(alloc, trouble.sink).expect(rt, "memory"),
    );
    let Served { serving, end } = serve(
        alloc,
        Powered::off(flash),
        &mut files,
        source,
        &mut sink,
        &AnyManifest,
    );
    let Serving {
        powered,
        journal,
        ..
    } = serving;
    let flash = powered.into_flash();
    Did {
        status: end.status(),
        turns: journal.len(),
        written: sink.bytes().to_vec(alloc).expect(rt, "memory"),
        image: flash.bytes().to_vec(alloc).expect(rt, "memory"),
    }
}
