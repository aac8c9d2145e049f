//! Files of the system, and sources and sinks over streams, with calls that fail and that are interrupted.

ghost use Rattle.std.specs.Prelude.{◌+◌, ◌≤◌, false, refl, vec_capacity, vec_len};

use crate::fixtures::{are_bytes, image, removed, same};
use host_io::{
    Failed, Files, HostFiles, Sink, Source, StdSink, StdSource, SteadyRead, SteadyWrite, WriteStop,
};
use std::alloc::Global;
use std::io::{Cursor, ErrorKind, Read, Write};
use std::process::Abort;
use std::{fs, io};

// Adds what a read of at most four bytes gives, or `!` where it fails. Whether there may be more.
fn take<I: Source>(rt: &impl Abort, source: &mut I, all: &mut Vec<u8>) -> bool {
    let mut room = [0; 4];
    match source.read(&mut room) {
        Ok(0) => return false,
        Ok(count) => all.extend_from_slice(&room[..count]).expect(rt, "memory"),
        Err(Failed) => all.push(b'!').expect(rt, "memory"),
    }
    true
}

// Reads of at most four bytes, one after another, up to the end, give this, with `!` for each that failed.
fn drains<I: Source>(rt: &impl Abort, alloc: Global, source: &mut I, wanted: &[u8]) {
    let mut all = Vec::new(alloc);
    for _ in 0..20 {
        if !take(rt, source, &mut all) {
            break;
        }
    }
    are_bytes(rt, all.as_slice(), wanted);
}

// What becomes of a put of a word.
fn put_word<O: Sink>(rt: &impl Abort, sink: &mut O, word: &[u8], end: Result<(), WriteStop>) {
    same(rt, sink.put(word), end);
}

// What becomes of a put of each word.
fn put_words<O: Sink>(rt: &impl Abort, sink: &mut O, ends: [Result<(), WriteStop>; 3]) {
    put_word(rt, sink, b"one ", ends[0]);
    put_word(rt, sink, b"two ", ends[1]);
    put_word(rt, sink, b"three ", ends[2]);
}

// A reader that gives a byte, fails, and so on.
#[derive(Drop)]
struct Faulty(u8);

impl Read for Faulty {
    fn read(&mut self, out: &mut [u8]) -> io::Result<usize> {
        if out.is_empty() || self.0 >= 4 {
            return Ok(0);
        }
        self.0 += 1;
        if self.0 % 2 == 0 {
            return Err(io::Error::from(ErrorKind::Other));
        }
        out[0] = b'x';
        Ok(1)
    }
}

impl SteadyRead for Faulty {
    ghost tells = { false };

    ghost steady = { λ _. refl };
}

#[test]
fn sources(rt: HostRuntime) {
    let alloc = rt.alloc();
    let mut over = StdSource::new(Cursor::new(b"firmware".as_slice()));
    drains(&rt, alloc, &mut over, b"firmware");
    drains(&rt, alloc, &mut StdSource::new(Faulty(0)), b"x!x!");
}

// A terminal: a reader that gives a byte, then its end, and behind that a byte again, and so on.
#[derive(Drop)]
struct Terminal {
    gave: bool,
}

impl Read for Terminal {
    fn read(&mut self, out: &mut [u8]) -> io::Result<usize> {
        self.gave = !self.gave;
        if out.is_empty() || !self.gave {
            return Ok(0);
        }
        out[0] = b'x';
        Ok(1)
    }
}

impl SteadyRead for Terminal {
    ghost tells = { false };

    ghost steady = { λ _. refl };
}

// Each end is asked for once: what comes behind it is there for the next reads.
#[test]
fn an_end_is_asked_for_once(rt: HostRuntime) {
    let alloc = rt.alloc();
    let mut over = StdSource::new(Terminal { gave: false });
    drains(&rt, alloc, &mut over, b"x");
    drains(&rt, alloc, &mut over, b"x");
}

// A stream of which every other call is interrupted. It gives its bytes from the end, and takes them one at a time.
#[derive(Drop)]
struct Interrupted {
    calls: u32,
    bytes: Vec<u8>,
}

impl Interrupted {
    fn new(bytes: Vec<u8>) -> Interrupted {
        Interrupted { calls: 0, bytes }
    }

    // One more call.
    fn call(&mut self) -> io::Result<()> {
        self.calls = self.calls.saturating_add(1);
        if self.calls % 2 == 1 {
            return Err(io::Error::from(ErrorKind::Interrupted));
        }
        Ok(())
    }
}

impl Read for Interrupted {
    fn read(&mut self, out: &mut [u8]) -> io::Result<usize> {
        self.call()?;
        if out.is_empty() {
            return Ok(0);
        }
        match self.bytes.pop() {
            Some(byte) => {
                out[0] = byte;
                Ok(1)
            }
            None => Ok(0),
        }
    }
}

impl SteadyRead for Interrupted {
    ghost tells = { false };

    ghost steady = { λ _. refl };
}

impl Write for Interrupted {
    fn write(&mut self, bytes: &[u8]) -> io::Result<usize> {
        self.call()?;
        match bytes.first() {
            Some(byte) => {
                self.bytes.push(*byte)?;
                Ok(1)
            }
            None => Ok(0),
        }
    }

    fn flush(&mut self) -> io::Result<()> {
        self.call()
    }
}

impl SteadyWrite for Interrupted {
    ghost tells = { false };

    ghost steady = { λ _. refl };
}

#[test]
fn interrupted_reads_are_made_again(rt: HostRuntime) {
    let alloc = rt.alloc();
    let bytes = b"level".to_vec(alloc).expect(&rt, "memory");
    let mut source = StdSource::new(Interrupted::new(bytes));
    drains(&rt, alloc, &mut source, b"level");
}

// A writer that takes all, and can't send it on.
#[derive(Drop)]
struct Stuck;

impl Write for Stuck {
    fn write(&mut self, bytes: &[u8]) -> io::Result<usize> {
        Ok(bytes.len())
    }

    fn flush(&mut self) -> io::Result<()> {
        Err(io::Error::from(ErrorKind::Other))
    }
}

impl SteadyWrite for Stuck {
    ghost tells = { false };

    ghost steady = { λ _. refl };
}

// A writer one call of which fails, counted from 1. The others are done.
#[derive(Drop)]
struct FailsOnce {
    at: u32,
}

impl FailsOnce {
    // One more call.
    fn call(&mut self) -> io::Result<()> {
        self.at = self.at.wrapping_sub(1);
        if self.at == 0 {
            return Err(io::Error::from(ErrorKind::Other));
        }
        Ok(())
    }
}

impl Write for FailsOnce {
    fn write(&mut self, bytes: &[u8]) -> io::Result<usize> {
        self.call()?;
        Ok(bytes.len())
    }

    fn flush(&mut self) -> io::Result<()> {
        self.call()
    }
}

impl SteadyWrite for FailsOnce {
    ghost tells = { false };

    ghost steady = { λ _. refl };
}

// The words are put into a writer.
fn put_into<W: SteadyWrite + Drop>(rt: &impl Abort, writer: W, ends: [Result<(), WriteStop>; 3]) {
    put_words(rt, &mut StdSink::new(writer), ends);
}

#[test]
fn a_sink_of_bytes(rt: HostRuntime) {
    let mut bytes = Vec::new(rt.alloc());
    put_into(&rt, &mut bytes, [Ok(()); 3]);
    are_bytes(&rt, bytes.as_slice(), b"one two three ");
}

#[test]
fn interrupted_writes_are_made_again(rt: HostRuntime) {
    let mut stream = Interrupted::new(Vec::new(rt.alloc()));
    put_into(&rt, &mut stream, [Ok(()); 3]);
    are_bytes(&rt, stream.bytes.as_slice(), b"one two three ");
}

#[test]
fn sinks_that_fail(rt: HostRuntime) {
    // Room for six bytes: the writer then takes nothing.
    let full = Err(WriteStop::Failed);
    put_into(&rt, Cursor::new([0; 6]), [Ok(()), full, full]);
    put_into(&rt, Stuck, [full; 3]);
    // A write that failed, and a flush, is not made again.
    put_into(&rt, FailsOnce { at: 1 }, [full, Ok(()), Ok(())]);
    put_into(&rt, FailsOnce { at: 2 }, [full, Ok(()), Ok(())]);
}

// Writes a file, and gives its size afterwards.
fn stored<H: Files>(files: &mut H, name: &str, bytes: &[u8]) -> Result<Option<u64>, WriteStop> {
    files.write_whole(name, bytes)?;
    Ok(files.size(name)?)
}

// What becomes of writing a file, and its size afterwards.
fn stores<H: Files>(
    rt: &impl Abort,
    files: &mut H,
    name: &str,
    bytes: &[u8],
    wanted: Result<Option<u64>, WriteStop>,
) {
    same(rt, stored(files, name, bytes), wanted);
}

// The file's size is told so.
fn sized<H: Files>(
    rt: &impl Abort,
    files: &mut H,
    name: &str,
    wanted: Result<Option<u64>, Failed>,
) {
    same(rt, files.size(name), wanted);
}

// A list that begins with `old `, and has the room for so many bytes more.
fn old(rt: &impl Abort, alloc: Global, count: usize) -> Vec<u8>
    ensures { vec_len result + count ≤ vec_capacity result }
{
    let mut list = b"old ".to_vec(alloc).expect(rt, "memory");
    list.reserve(count).expect(rt, "memory");
    list
}

// What becomes of a read from this place on.
fn reads<R: std::rt::Files>(
    rt: &impl Abort,
    files: &mut HostFiles<R>,
    place: (&str, u64),
    out: &mut [u8],
    wanted: Result<(), Failed>,
) {
    let (name, at) = place;
    same(rt, files.read_at(name, at, out), wanted);
}

// A read from this place on gives these four bytes.
fn gives<R: std::rt::Files>(
    rt: &impl Abort,
    files: &mut HostFiles<R>,
    place: (&str, u64),
    wanted: &[u8; 4],
) {
    let mut out = [0; 4];
    reads(rt, files, place, &mut out, Ok(()));
    are_bytes(rt, &out, wanted);
}

// A file is made, and written over by a shorter one.
fn rewritten<R: std::rt::Files>(rt: &impl Abort, files: &mut HostFiles<R>, name: &str) {
    stores(rt, files, name, b"firmware", Ok(Some(8)));
    gives(rt, files, (name, 4), b"ware");
    stores(rt, files, name, b"short", Ok(Some(5)));
    gives(rt, files, (name, 1), b"hort");
}

fn whole_files<R: std::rt::Files + Drop>(rt: &(impl std::rt::Files + Abort), runtime: R) {
    let name = "host_io_whole.tmp";
    rewritten(rt, &mut HostFiles::new(runtime), name);
    removed(rt, name);
}

#[test]
fn files_of_the_system(rt: HostRuntime) {
    whole_files(&rt, &rt);
}

// A file that another takes the name of is read as it was, until its size is asked for.
fn replaced<R: std::rt::Files>(
    rt: &(impl std::rt::Files + Abort),
    files: &mut HostFiles<R>,
    name: &str,
    next: &str,
) {
    stores(rt, files, next, b"next", Ok(Some(4)));
    stores(rt, files, name, b"first", Ok(Some(5)));
    gives(rt, files, (name, 0), b"firs");
    fs::rename(rt, next, name).expect(rt, "renamed");
    gives(rt, files, (name, 1), b"irst");
    sized(rt, files, name, Ok(Some(4)));
    gives(rt, files, (name, 0), b"next");
}

fn replaced_files<R: std::rt::Files + Drop>(rt: &(impl std::rt::Files + Abort), runtime: R) {
    let name = "host_io_open.tmp";
    let mut files = HostFiles::new(runtime);
    replaced(rt, &mut files, name, "host_io_next.tmp");
    removed(rt, name);
}

#[test]
fn a_file_stays_open_between_reads(rt: HostRuntime) {
    replaced_files(&rt, &rt);
}

// No size is told, and nothing is written.
fn refuses<H: Files>(rt: &impl Abort, files: &mut H, name: &str, other: &str) {
    sized(rt, files, name, Err(Failed));
    stores(rt, files, other, b"x", Err(WriteStop::Failed));
}

// Each call on what is no file fails, for an empty range too.
fn is_no_file<R: std::rt::Files>(
    rt: &impl Abort,
    alloc: Global,
    files: &mut HostFiles<R>,
    name: &str,
    other: &str,
) {
    reads(rt, files, (name, 0), &mut [0; 4], Err(Failed));
    reads(rt, files, (name, 0), &mut [], Err(Failed));
    let mut list = old(rt, alloc, 0);
    same(rt, files.read_onto(name, 0, 0, &mut list), Err(Failed));
    are_bytes(rt, list.as_slice(), b"old ");
    refuses(rt, files, name, other);
}

// A range outside a file fails.
fn is_short<R: std::rt::Files>(rt: &impl Abort, files: &mut HostFiles<R>, name: &str) {
    stores(rt, files, name, b"short", Ok(Some(5)));
    reads(rt, files, (name, 2), &mut [0; 4], Err(Failed));
    reads(rt, files, (name, 5), &mut [], Ok(()));
    reads(rt, files, (name, 6), &mut [], Err(Failed));
}

fn short_files<R: std::rt::Files + Drop>(
    rt: &(impl std::rt::Files + Abort),
    alloc: Global,
    runtime: R,
) {
    let name = "host_io_short.tmp";
    let mut files = HostFiles::new(runtime);
    is_short(rt, &mut files, name);
    removed(rt, name);
    is_no_file(rt, alloc, &mut files, name, "host_io_none/file");
}

#[test]
fn short_and_missing_files(rt: HostRuntime) {
    short_files(&rt, rt.alloc(), &rt);
}

// A folder, and a device whose size would be 0.
fn no_files<R: std::rt::Files + Drop>(
    rt: &(impl std::rt::Files + Abort),
    alloc: Global,
    runtime: R,
) {
    let name = "host_io_folder.tmp";
    let mut files = HostFiles::new(runtime);
    fs::create_dir(rt, name).expect(rt, "made");
    is_no_file(rt, alloc, &mut files, name, name);
    fs::remove_dir(rt, name).expect(rt, "removed");
    is_no_file(rt, alloc, &mut files, "/dev/null", "host_io_none/file");
}

#[test]
fn folders_and_devices(rt: HostRuntime) {
    no_files(&rt, rt.alloc(), &rt);
}

// A file of 70,000 bytes, of which the last is 2 and the others are 1.
fn long_file(rt: &impl Abort, alloc: Global) -> Vec<u8> {
    let mut bytes = image(rt, alloc, 1, 69_999);
    bytes.push(2).expect(rt, "memory");
    bytes
}

// Reads 69,998 bytes from this place on, which ends so, onto `old `. The list afterwards.
fn onto<R: std::rt::Files>(
    rt: &impl Abort,
    alloc: Global,
    files: &mut HostFiles<R>,
    place: (&str, u64),
    wanted: Result<(), Failed>,
) -> Vec<u8> {
    let (name, at) = place;
    let mut list = old(rt, alloc, 69_998);
    let end = files.read_onto(name, at, 69_998, &mut list);
    same(rt, end, wanted);
    list
}

// A list of so many bytes, of which the fifth is 1 and the last is 2.
fn is_added(rt: &impl Abort, list: &[u8]) {
    same(rt, list.len(), 70_002);
    same(rt, list.get(4).copied(), Some(1));
    same(rt, list.last().copied(), Some(2));
}

// A range of more than one piece is added, and one outside the file leaves the list as it was.
fn ranges<R: std::rt::Files>(rt: &impl Abort, alloc: Global, files: &mut HostFiles<R>, name: &str) {
    let bytes = long_file(rt, alloc);
    stores(rt, files, name, bytes.as_slice(), Ok(Some(70_000)));
    let list = onto(rt, alloc, files, (name, 3), Err(Failed));
    are_bytes(rt, list.as_slice(), b"old ");
    let list = onto(rt, alloc, files, (name, 2), Ok(()));
    is_added(rt, list.as_slice());
    gives(rt, files, (name, 69_996), &[1, 1, 1, 2]);
    adds_the_end(rt, alloc, files, name);
}

// The last two bytes, behind the first piece of 65,536.
fn adds_the_end<R: std::rt::Files>(
    rt: &impl Abort,
    alloc: Global,
    files: &mut HostFiles<R>,
    name: &str,
) {
    let mut list = old(rt, alloc, 2);
    same(rt, files.read_onto(name, 69_998, 2, &mut list), Ok(()));
    are_bytes(rt, list.as_slice(), b"old \x01\x02");
}

fn long_ranges<R: std::rt::Files + Drop>(
    rt: &(impl std::rt::Files + Abort),
    alloc: Global,
    runtime: R,
) {
    let name = "host_io_range.tmp";
    ranges(rt, alloc, &mut HostFiles::new(runtime), name);
    removed(rt, name);
}

#[test]
fn ranges_of_the_system(rt: HostRuntime) {
    long_ranges(&rt, rt.alloc(), &rt);
}
