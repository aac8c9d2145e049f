//! A command of a row, over files in memory.
ghost use Rattle.std.specs.Prelude.{◌≡◌, IsFalse, None, IfOk};
ghost use Rattle.flash_devices.specs.Memory.{is_on, arming_of};

use crate::stop::{Stop, no_line};
use fip_tool::fip_top;
use flash_core::Flash;
use flash_devices::MemoryFlash;
use host_io::{Files, MemoryFiles, MemorySink, MemorySource};
use script_cmd::fwu_top;
use script_runs::Done;
use std::alloc::Global;

/// How many blocks the blank flash has.
const BLANK_BLOCKS: usize = 64;

/// How a command ended.
#[derive(Drop)]
pub struct Ended {
    pub status: u8,
    pub printed: Vec<u8>,
}

/// `fwu_top` without what it promises, so that goals stay small.
fn end_on(
    alloc: Global,
    words: &[String],
    files: &mut MemoryFiles,
    source: &mut MemorySource,
    sink: &mut MemorySink,
    flash: MemoryFlash,
) -> Done<MemoryFlash>
    requires off { IsFalse (is_on flash) }
    requires unarmed { arming_of flash ≡ None }
{
    fwu_top(alloc, words, files, source, sink, flash)
}

// A flash with these bytes.
fn flash_with(alloc: Global, bytes: &[u8]) -> Result<MemoryFlash, Stop>
    ensures off { IfOk result (λ flash. IsFalse (is_on flash)) }
    ensures unarmed { IfOk result (λ flash. arming_of flash ≡ None) }
{
    let bytes = Vec::from_slice(alloc, bytes)?;
    match MemoryFlash::from_bytes(alloc, bytes, Vec::new(alloc), Vec::new(alloc)) {
        Ok(flash) => Ok(flash),
        Err(_) => Err(no_line(alloc, "no flash")),
    }
}

// The flash in a file, or the blank one.
fn flash_named(alloc: Global, files: &MemoryFiles, name: &str) -> Result<MemoryFlash, Stop>
    ensures off { IfOk result (λ flash. IsFalse (is_on flash)) }
    ensures unarmed { IfOk result (λ flash. arming_of flash ≡ None) }
{
    if name == "-" {
        let blank = vec![in alloc; 0xFF; 4096 * BLANK_BLOCKS]?;
        return flash_with(alloc, blank.as_slice());
    }
    match files.get(name) {
        Some(bytes) => flash_with(alloc, bytes),
        None => Err(no_line(alloc, name)),
    }
}

// Puts the bytes of a flash, once it has power, into its file.
fn keep(files: &mut MemoryFiles, name: &str, flash: MemoryFlash) -> Result<(), Stop> {
    let mut flash = flash;
    if !flash.is_on() {
        flash.power_on();
    }
    put_file(files, name, flash.bytes())
}

/// Puts bytes into the file of a name.
pub fn put_file(files: &mut MemoryFiles, name: &str, bytes: &[u8]) -> Result<(), Stop> {
    match files.write_whole(name, bytes) {
        Ok(()) => Ok(()),
        Err(_) => Err(Stop::NoMemory),
    }
}

// Runs `fwu` with these words, of which the first names the flash.
fn run_fwu(
    alloc: Global,
    words: &[String],
    files: &mut MemoryFiles,
    source: &mut MemorySource,
    sink: &mut MemorySink,
) -> Result<u8, Stop> {
    let Some((name, asked)) = words.split_first() else {
        return Err(no_line(alloc, "fwu"));
    };
    let flash = flash_named(alloc, files, name.as_str())?;
    let Done { status, flash, .. } = end_on(alloc, asked, files, source, sink, flash);
    if name.as_str() != "-" {
        keep(files, name.as_str(), flash)?;
    }
    Ok(status)
}

// Runs the program that the first word names.
fn run_program(
    alloc: Global,
    words: &[String],
    files: &mut MemoryFiles,
    source: &mut MemorySource,
    sink: &mut MemorySink,
) -> Result<u8, Stop> {
    let Some((program, asked)) = words.split_first() else {
        return Err(no_line(alloc, "run"));
    };
    match program.as_str() {
        "fwu" => run_fwu(alloc, asked, files, source, sink),
        "fip" => Ok(fip_top(alloc, asked, files, source, sink)),
        other => Err(no_line(alloc, other)),
    }
}

// The words of a line.
fn words_of(alloc: Global, line: &str) -> Result<Vec<String>, Stop> {
    let mut words = Vec::new(alloc);
    for word in line.split(' ') {
        words.push(String::from_str(alloc, word)?)?;
    }
    Ok(words)
}

/// Runs a command with this standard input.
pub fn run(
    alloc: Global,
    files: &mut MemoryFiles,
    line: &str,
    input: Vec<u8>,
) -> Result<Ended, Stop> {
    let words = words_of(alloc, line)?;
    let mut source = MemorySource::new(input, Vec::new(alloc));
    let mut sink = MemorySink::new(alloc, Vec::new(alloc), Vec::new(alloc));
    let status = run_program(alloc, words.as_slice(), files, &mut source, &mut sink)?;
    let printed = Vec::from_slice(alloc, sink.bytes())?;
    Ok(Ended { status, printed })
}
