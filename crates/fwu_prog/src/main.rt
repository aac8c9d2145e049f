//! The program `fwu`: what its words ask for is done on the flash in a file, and each line goes to the standard output.
//!
//! The first word names an existing file of 8 to 65,536 blocks of 4096 bytes, or is `-`, a blank flash in memory of 64 blocks.
//! Where it is neither, the file can't be opened for reading and writing, or another run uses it, the program prints `flash cannot
//! be used` and ends with 5. The other words are those of `fwu_top`, whose status is the program's. Without any word the program
//! runs the script that it reads from the standard input on a blank flash, as `- run` does. A standard stream that is closed fails
//! at its first use.
#![tactic(auto)]

ghost use Rattle.std.specs.Prelude.{◌≡◌, IfSome, codes};
ghost use Rattle.flash_devices.specs.File.{IsNew};
ghost use Rattle.host_io.specs.Printed.{Prints};

use flash_core::Flash;
use flash_devices::{FileFlash, MemoryFlash};
use host_io::{HostFiles, Sink, Source, StdSink, StdSource};
use script_cmd::fwu_top;
use script_runs::{put_line, put_usage};
use std::alloc::{AllocError, AllocGlobal, Global};
use std::env::Env;
use std::fs::{self, File, Files, OpenOptions, TryLockError};
use std::process::ExitCode;
use std::{env, io};

/// How many blocks the flash in memory has.
const BLANK_BLOCKS: u32 = 64;

/// The root folder, which can be neither read nor written; where it can't be opened, the flash's own file, to be read alone.
fn hold_stream<R: Files>(rt: &R, flash: &str) -> Option<R::File> {
    match fs::open(rt, "/") {
        Ok(folder) => Some(folder),
        Err(_) => fs::open(rt, flash).ok(),
    }
}

/// A file for each standard stream. Where a stream is closed, the system gives its place to the next file that is opened. That is
/// one of these, and not the flash that is written, into which lines would go. A flash that can't be opened so can't be used
/// either.
fn hold_standard_streams<R: Files>(rt: &R, flash: &str) -> [Option<R::File>; 3] {
    [
        hold_stream(rt, flash),
        hold_stream(rt, flash),
        hold_stream(rt, flash),
    ]
}

/// The file of this name, to be read and written.
fn open_file<R: Files>(rt: &R, name: &str) -> io::Result<R::File> {
    let mut how = OpenOptions::new();
    how.read(true).write(true);
    how.open(rt, name)
}

/// Another run holds the lock of the flash's file.
#[derive(Drop)]
struct InUse;

/// The file of the flash with this run's lock on it, which ends with the file. None where the flash is in memory, where there is no
/// such file, or no lock to be had.
fn lock_flash(rt: &HostRuntime, name: &str) -> Result<Option<File>, InUse> {
    if name == "-" {
        return Ok(None);
    }
    let Ok(file) = open_file(rt, name) else {
        return Ok(None);
    };
    match file.try_lock() {
        Ok(()) => Ok(Some(file)),
        Err(TryLockError::WouldBlock) => Err(InUse),
        Err(TryLockError::Error(_)) => Ok(None),
    }
}

/// The file of this name as a flash, or none where it can't be one.
fn open_flash<R: Files>(rt: &R, name: &str) -> Option<FileFlash<R::File>>
    ensures { IfSome result IsNew }
{
    let file = open_file(rt, name).ok()?;
    match FileFlash::open(file) {
        Ok(flash) => Some(flash),
        Err(_) => None,
    }
}

/// Says that the flash can't be used, and gives the status that comes of it.
fn refuse_flash<O: Sink>(sink: &mut O) -> u8
    ensures { Prints (codes "flash cannot be used\n") 5 result
        (O.taken sink.old) (O.taken sink.new) (O.faults sink.old) (O.faults sink.new) }
{
    put_line(sink, b"flash cannot be used\n".as_slice(), 5)
}

/// The words behind the program's name. One that isn't UTF-8 is an error.
fn words_of<R: Env + AllocGlobal>(rt: &R) -> io::Result<Vec<String>> {
    let words = env::args(rt)?.skip(1).collect(rt.alloc())?;
    Ok(words)
}

/// The words that stand for none.
fn words_for_none(alloc: Global) -> Result<Vec<String>, AllocError> {
    let mut words = Vec::new(alloc);
    words.push(String::from_str(alloc, "-")?)?;
    words.push(String::from_str(alloc, "run")?)?;
    Ok(words)
}

/// Does what the words ask for on a blank flash in memory, and gives the status.
fn run_on_memory<R: Files + AllocGlobal, I: Source, O: Sink>(
    rt: &R,
    words: &[String],
    source: &mut I,
    sink: &mut O,
) -> u8 {
    let alloc = rt.alloc();
    match MemoryFlash::new(alloc, BLANK_BLOCKS, Vec::new(alloc), Vec::new(alloc)) {
        Ok(flash) => {
            let mut files = HostFiles::new(rt);
            fwu_top(alloc, words, &mut files, source, sink, flash).status
        }
        Err(_) => 9,
    }
}

/// Does what the words ask for, of which the first names the flash, and gives the status.
fn run<R: Files + AllocGlobal, I: Source, O: Sink>(
    rt: &R,
    words: &[String],
    source: &mut I,
    sink: &mut O,
) -> u8 {
    let Some((name, asked)) = words.split_first() else {
        return refuse_flash(sink);
    };
    if name.as_str() == "-" {
        return run_on_memory(rt, asked, source, sink);
    }
    match open_flash(rt, name.as_str()) {
        Some(flash) => {
            let mut files = HostFiles::new(rt);
            fwu_top(rt.alloc(), asked, &mut files, source, sink, flash).status
        }
        None => refuse_flash(sink),
    }
}

/// The word that names the flash. Where there is none, or none that is UTF-8 and fits, it is the flash in memory.
fn flash_named<'a, R: Env>(rt: &R, bytes: &'a mut [u8]) -> &'a str {
    match rt.arg(1, bytes) {
        Ok(length) => str::from_utf8(&bytes[..length]).unwrap_or("-"),
        Err(_) => "-",
    }
}

/// Answers words of which one isn't UTF-8: a flash that can't be used is told before the words behind it are looked at.
fn refuse_words<R: Files, O: Sink>(rt: &R, flash: &str, sink: &mut O) -> u8 {
    if flash != "-" && open_flash(rt, flash).is_none() {
        return refuse_flash(sink);
    }
    put_usage(sink)
}

fn main(rt: HostRuntime) -> ExitCode {
    let mut bytes = [0; 4096];
    let flash = flash_named(&rt, &mut bytes);
    let _streams = hold_standard_streams(&rt, flash);
    let mut sink = StdSink::new(io::writer(&rt));
    let Ok(_lock) = lock_flash(&rt, flash) else {
        return ExitCode::from(refuse_flash(&mut sink));
    };
    let mut source = StdSource::new(rt.stdin());
    let words = match words_of(&rt) {
        Ok(words) if words.is_empty() => words_for_none(rt.alloc()),
        Ok(words) => Ok(words),
        Err(error) if error.kind() == io::ErrorKind::OutOfMemory => Err(AllocError),
        Err(_) => return ExitCode::from(refuse_words(&rt, flash, &mut sink)),
    };
    match words {
        Ok(words) => ExitCode::from(run(&rt, words.as_slice(), &mut source, &mut sink)),
        Err(_) => ExitCode::from(9),
    }
}
