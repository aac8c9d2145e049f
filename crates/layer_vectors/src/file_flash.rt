//! A flash over a file: of the system, in memory, at a cursor that counts its syncs, with short writes, torn in mid-stream, and
//! broken. Block 3 begins at byte 12288.

use crate::fixtures::{
    are_numbers, arm, ends, erase, gives, holds, image, power_on, put, read, removed, same,
};
use flash_core::{Flash, FlashStop};
use flash_devices::{ByteFile, FileFlash, FlashOpenFault, MemoryFile, MemoryFlash};
use runs_kit::only;
use std::alloc::Global;
use std::cell::Cell;
use std::fs::{self, File, Metadata, OpenFile};
use std::io::{self, Cursor, ErrorKind, Read, Seek, SeekFrom, Write};
use std::process::Abort;
use std::rt::Files;

// A device over a file, on.
fn switched_on<F: ByteFile + Drop>(rt: &impl Abort, file: F) -> FileFlash<F> {
    let mut flash = FileFlash::open(file).ok().expect(rt, "a flash");
    power_on(rt, &mut flash);
    flash
}

// What becomes of a program of a granule of this byte, behind the first blocks of a device of eight.
fn programs<F: ByteFile>(
    rt: &impl Abort,
    flash: &mut FileFlash<F>,
    at: u32,
    byte: u8,
    wanted: Result<(), FlashStop>,
) {
    holds(rt, flash.is_on() && flash.blocks() == 8, "it is ready");
    holds(rt, at >= 12_288 && at <= 28_672 && at % 16 == 0, "a place");
    ends(rt, flash.program(at, &[byte; 16]), wanted);
}

fn settles<D: Flash>(rt: &impl Abort, flash: &mut D, wanted: Result<(), FlashStop>) {
    holds(rt, flash.is_on(), "power is on");
    ends(rt, flash.barrier(), wanted);
}

fn erases<D: Flash>(rt: &impl Abort, flash: &mut D, block: u32, wanted: Result<(), FlashStop>) {
    ends(rt, erase(rt, flash, block), wanted);
}

// A granule of sevens is settled and read, and a loss is armed.
fn settled<D: Flash>(rt: &impl Abort, flash: &mut D) {
    settles(rt, flash, Ok(()));
    let wanted = [0xFF, 7, 7, 7, 7, 7, 7, 7, 7, 7, 7, 7, 7, 7, 7, 7, 7, 0xFF];
    gives(rt, flash, 12303, &wanted);
    arm(rt, flash, 2, 3);
}

// Writes two granules of block 3, and loses power within a third one.
fn programmed<F: ByteFile>(rt: &impl Abort, flash: &mut FileFlash<F>) {
    programs(rt, flash, 12304, 7, Ok(()));
    settled(rt, flash);
    programs(rt, flash, 12320, 6, Ok(()));
    programs(rt, flash, 12288, 5, Err(FlashStop::Lost));
}

// The device is off, and counted so many armings made and reached, and faults.
fn is_off<F: ByteFile + Drop>(rt: &impl Abort, flash: &FileFlash<F>, wanted: (u64, u64, u64)) {
    let counts = flash.counts();
    are_numbers(rt, (counts.made, counts.reached, counts.faults), wanted);
    holds(rt, !flash.is_on(), "power is off");
}

// Erases block 3, writes two granules of it, and loses power within a third one.
fn worked<F: ByteFile + Drop>(rt: &impl Abort, file: F) -> F {
    let mut flash = switched_on(rt, file);
    erases(rt, &mut flash, 3, Ok(()));
    programmed(rt, &mut flash);
    is_off(rt, &flash, (1, 1, 0));
    flash.into_file()
}

// 32768 zero bytes.
fn zeros(rt: &impl Abort, alloc: Global) -> Vec<u8> {
    image(rt, alloc, 0, 32768)
}

// These bytes are what is left of 32768 zero bytes.
fn are_left(rt: &impl Abort, alloc: Global, bytes: &[u8]) {
    let mut left = zeros(rt, alloc);
    let blank = image(rt, alloc, 0xFF, 4096);
    let slice = left.as_mut_slice();
    put(rt, slice, 12288, blank.as_slice());
    put(rt, slice, 12288, &[5; 3]);
    put(rt, slice, 12304, &[7; 16]);
    put(rt, slice, 12320, &[6; 16]);
    holds(rt, bytes == left.as_slice(), "what is left");
}

// Makes a file of zero bytes.
fn make(rt: &(impl Files + Abort), alloc: Global, name: &str) {
    let before = zeros(rt, alloc);
    fs::write(rt, name, before.as_slice()).expect(rt, "written");
}

fn work_on_a_file<R: Files + AllocGlobal + Abort>(rt: &R) {
    let name = "file_flash_test.bin";
    make(rt, rt.alloc(), name);
    let file = File::options().read(true).write(true).open(rt, name);
    worked(rt, file.expect(rt, "opened"));
    let bytes = fs::read(rt, name).expect(rt, "read");
    removed(rt, name);
    are_left(rt, rt.alloc(), bytes.as_slice());
}

#[test]
fn a_file_of_the_system_is_a_flash(rt: HostRuntime) {
    work_on_a_file(&rt);
}

#[test]
fn a_file_in_memory_is_a_flash(rt: HostRuntime) {
    let alloc = rt.alloc();
    let made = MemoryFile::new(alloc, zeros(&rt, alloc), Vec::new(alloc));
    let file = worked(&rt, made.expect(&rt, "memory"));
    are_left(&rt, alloc, file.bytes());
    // an erase, two programs, and one that a loss of power cut short
    let counts = (
        file.times_written(2),
        file.times_written(3),
        file.times_written(4),
    );
    are_numbers(&rt, counts, (0, 4, 0));
}

#[test]
fn a_flash_in_memory_counts_what_is_written(rt: HostRuntime) {
    let alloc = rt.alloc();
    let made = MemoryFlash::from_bytes(alloc, zeros(&rt, alloc), Vec::new(alloc), Vec::new(alloc));
    let mut flash = made.ok().expect(&rt, "a flash");
    power_on(&rt, &mut flash);
    erases(&rt, &mut flash, 3, Ok(()));
    erases(&rt, &mut flash, 3, Ok(()));
    erases(&rt, &mut flash, 7, Ok(()));
    let counts = (
        flash.times_written(0),
        flash.times_written(3),
        flash.times_written(7),
    );
    are_numbers(&rt, counts, (0, 2, 1));
}

// A file that takes few bytes at a time, and after so many bytes fails. It counts its syncs.
#[derive(Drop)]
struct SlowFile {
    inner: Cursor<Vec<u8>>,
    most: usize,
    fails_after: usize,
    syncs: Cell<u32>,
}

impl Read for SlowFile {
    fn read(&mut self, out: &mut [u8]) -> io::Result<usize> {
        let n = out.len().min(self.most);
        self.inner.read(&mut out[..n])
    }
}

impl Write for SlowFile {
    fn write(&mut self, bytes: &[u8]) -> io::Result<usize> {
        if self.fails_after == 0 {
            return Err(io::Error::from(ErrorKind::Other));
        }
        let n = bytes.len().min(self.most).min(self.fails_after);
        let taken = self.inner.write(&bytes[..n])?;
        self.fails_after -= taken;
        Ok(taken)
    }

    fn flush(&mut self) -> io::Result<()> {
        Write::flush(&mut self.inner)
    }
}

impl Seek for SlowFile {
    fn seek(&mut self, to: SeekFrom) -> io::Result<u64> {
        self.inner.seek(to)
    }
}

// What no flash asks of its file.
fn unasked<T>() -> io::Result<T> {
    Err(io::Error::from(ErrorKind::Unsupported))
}

impl OpenFile for SlowFile {
    fn metadata(&self) -> io::Result<Metadata> {
        unasked()
    }

    fn set_len(&self, _size: u64) -> io::Result<()> {
        unasked()
    }

    fn sync_all(&self) -> io::Result<()> {
        unasked()
    }

    fn sync_data(&self) -> io::Result<()> {
        self.syncs.set(self.syncs.get().saturating_add(1));
        Ok(())
    }
}

fn slow(bytes: Vec<u8>, most: usize, fails_after: usize) -> SlowFile {
    SlowFile {
        inner: Cursor::new(bytes),
        most,
        fails_after,
        syncs: Cell::new(0),
    }
}

#[test]
fn a_barrier_is_one_sync(rt: HostRuntime) {
    let alloc = rt.alloc();
    let file = worked(&rt, slow(zeros(&rt, alloc), 100_000, 1_000_000));
    holds(&rt, file.syncs.get() == 1, "one sync");
    let bytes = file.inner.into_inner();
    are_left(&rt, alloc, bytes.as_slice());
}

#[test]
fn short_reads_and_writes_are_gone_on_with(rt: HostRuntime) {
    let alloc = rt.alloc();
    let file = worked(&rt, slow(zeros(&rt, alloc), 7, 1_000_000));
    let bytes = file.inner.into_inner();
    are_left(&rt, alloc, bytes.as_slice());
}

// An erase of block 3 fails.
fn not_erased<F: ByteFile + Drop>(rt: &impl Abort, file: F) -> F {
    let mut flash = switched_on(rt, file);
    erases(rt, &mut flash, 3, Err(FlashStop::Failed));
    is_off(rt, &flash, (0, 0, 1));
    flash.into_file()
}

// These are zero bytes, of which the first hundred of block 3 are erased.
fn are_partly_erased(rt: &impl Abort, alloc: Global, bytes: &[u8]) {
    let mut left = zeros(rt, alloc);
    let erased = image(rt, alloc, 0xFF, 100);
    put(rt, left.as_mut_slice(), 12288, erased.as_slice());
    holds(rt, bytes == left.as_slice(), "what is left");
}

#[test]
fn a_write_that_fails_in_mid_stream_is_a_fault(rt: HostRuntime) {
    let alloc = rt.alloc();
    let file = not_erased(&rt, slow(zeros(&rt, alloc), 64, 100));
    let left = file.inner.into_inner();
    are_partly_erased(&rt, alloc, left.as_slice());
}

// A file of so many bytes, of which nothing can be read or written.
#[derive(Drop)]
struct Broken(u64);

impl Read for Broken {
    fn read(&mut self, _out: &mut [u8]) -> io::Result<usize> {
        Err(io::Error::from(ErrorKind::Other))
    }
}

impl Write for Broken {
    fn write(&mut self, _bytes: &[u8]) -> io::Result<usize> {
        Err(io::Error::from(ErrorKind::Other))
    }

    fn flush(&mut self) -> io::Result<()> {
        Ok(())
    }
}

// Nothing that was written can be synced.
impl OpenFile for Broken {
    fn metadata(&self) -> io::Result<Metadata> {
        unasked()
    }

    fn set_len(&self, _size: u64) -> io::Result<()> {
        unasked()
    }

    fn sync_all(&self) -> io::Result<()> {
        unasked()
    }

    fn sync_data(&self) -> io::Result<()> {
        Err(io::Error::from(ErrorKind::Other))
    }
}

impl Seek for Broken {
    fn seek(&mut self, _to: SeekFrom) -> io::Result<u64> {
        Ok(self.0)
    }
}

#[test]
fn a_file_of_seven_blocks_is_refused_and_given_back(rt: HostRuntime) {
    let refused = match FileFlash::open(Broken(28672)) {
        Ok(_) => None,
        Err(refused) => Some((refused.fault, refused.file.0)),
    };
    let wanted = (FlashOpenFault::BadSize(28672), 28672);
    same(&rt, refused, Some(wanted));
}

// A read, an erase and a barrier fail, each after power came back.
fn fails<D: Flash>(rt: &impl Abort, flash: &mut D) {
    let failed = Err(FlashStop::Failed);
    ends(rt, read(rt, flash, 0, &mut [0; 2]), failed);
    power_on(rt, flash);
    erases(rt, flash, 0, failed);
    power_on(rt, flash);
    settles(rt, flash, failed);
}

#[test]
fn an_error_of_the_file_is_a_fault(rt: HostRuntime) {
    let mut flash = switched_on(&rt, Broken(32768));
    fails(&rt, &mut flash);
    is_off(&rt, &flash, (0, 0, 3));
}
