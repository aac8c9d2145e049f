ghost use Rattle.std.specs.Prelude.{◌≡◌, ◌+◌, ◌*◌, ◌≤◌, ℕ, Some, IfOk, OnErr, OnOk, is_err, length};
ghost use Rattle.flash_devices.specs.ByteFiles.{FailsAs, FailsWithin, HoldsAt, Lies, WritesBytes};
ghost use Rattle.base_core.specs.Block.{block_bytes};

use crate::byte_file::ByteFile;
use crate::images::put_in;
use crate::writes::count_met;
use base_core::BLOCK_BYTES;
use std::alloc::{AllocError, Global};
use std::io::{self, ErrorKind};

/// A file in memory, which tells its bytes and counts its writes. Its calls of the listed numbers, counted
/// from 1, fail, and so does one on a range outside of it. A call that fails changes no byte.
#[derive(Drop)]
pub struct MemoryFile {
    bytes: Vec<u8>,
    fails: Vec<u64>,
    calls: u64,
    /// For each 4096 bytes, how often they were written to.
    written: Vec<u64>,
    ghost counted: { length bytes.items ≤ block_bytes * length written.items },
}

/// The place as an index, where so many bytes from there on lie in the file.
fn place(bytes: &[u8], at: u64, n: usize) -> io::Result<usize>
    ensures place { IfOk result (λ i. (i ≡ at) × Lies at n bytes.now) }
    ensures outside { OnErr result (Lies at n bytes.now → ⊥) }
{
    let size = bytes.len();
    if at > size as u64 || n > size - at as usize {
        return Err(io::Error::from(ErrorKind::UnexpectedEof));
    }
    Ok(at as usize)
}

impl MemoryFile {
    ghost use Rattle.flash_devices.specs.MemoryFiles.{content_of, calls_made, fails_next, fails_of, writes_of, IsCalledOnce};

    /// A file of these bytes, whose calls of these numbers fail.
    pub fn new(alloc: Global, bytes: Vec<u8>, fails: Vec<u64>) -> Result<MemoryFile, AllocError>
        ensures bytes { IfOk result (λ file. content_of file ≡ bytes.items) }
        ensures fails { IfOk result (λ file. fails_of file ≡ fails.items) }
        ensures calls { IfOk result (λ file. calls_made file ≡ 0) }
        ensures unwritten { IfOk result (λ file. (b : ℕ) → writes_of file b ≡ 0) }
    {
        let written = vec![in alloc; 0; bytes.len().div_ceil(BLOCK_BYTES as usize)]?;
        Ok(MemoryFile {
            bytes,
            fails,
            calls: 0,
            written,
        })
    }

    /// Its bytes.
    pub fn bytes(&self) -> &[u8]
        ensures { result.now ≡ content_of self.now }
    {
        &self.bytes
    }

    /// How often some of the 4096 bytes of this number, counted from 0, were written to.
    pub fn times_written(&self, block: usize) -> u64
        ensures { result ≡ writes_of self.now block }
    {
        self.written.get(block).copied().unwrap_or(0)
    }

    /// One more call, which fails where it is listed.
    fn call(&mut self) -> io::Result<()>
        ensures fails { is_err result ≡ fails_next self.old }
        ensures called { IsCalledOnce self.old self.new }
        ensures same { content_of self.new ≡ content_of self.old }
        ensures writes { writes_of self.new ≡ writes_of self.old }
    {
        self.calls = self.calls.saturating_add(1);
        if self.fails.contains(&self.calls) {
            return Err(io::Error::from(ErrorKind::Other));
        }
        Ok(())
    }
}

impl ByteFile for MemoryFile {
    ghost use Rattle.flash_core.specs.Touches.{TouchesOnly};
    ghost use Rattle.flash_devices.specs.Meters.{CountsMet};
    ghost use Rattle.flash_devices.specs.MemoryFiles.{content_of, fails_next, writes_of, IsCalledOnce};

    ghost content = { λ f. Some (content_of f) };

    ghost size = { λ f. Some (length (content_of f)) };

    ghost writes = { λ f. writes_of f };

    ghost fails = { λ f. Some (fails_next f) };

    ghost called = { λ old new. IsCalledOnce old new };

    ghost flushed = { λ old new. IsCalledOnce old new };

    fn size(&mut self) -> io::Result<u64>
        ensures size { IfOk result (λ n. n ≡ length (content_of self.old)) }
        ensures same { Some (content_of self.new) ≡ Some (content_of self.old) }
        ensures writes { writes_of self.new ≡ writes_of self.old }
        ensures fails { FailsAs (Some (fails_next self.old)) (is_err result) }
        ensures called { IsCalledOnce self.old self.new }
    {
        self.call()?;
        Ok(self.bytes.len() as u64)
    }

    fn read_at(&mut self, at: u64, out: &mut [u8]) -> io::Result<()>
        ensures bytes { OnOk result (HoldsAt at out.new (Some (content_of self.old))) }
        ensures same { Some (content_of self.new) ≡ Some (content_of self.old) }
        ensures writes { writes_of self.new ≡ writes_of self.old }
        ensures fails { FailsWithin (Some (fails_next self.old)) (Some (content_of self.old)) at (length out.old) (is_err result) }
        ensures called { IsCalledOnce self.old self.new }
    {
        self.call()?;
        let from = place(&self.bytes, at, out.len())?;
        out.copy_from_slice(&self.bytes[from..from + out.len()]);
        Ok(())
    }

    fn write_at(&mut self, at: u64, bytes: &[u8]) -> io::Result<()>
        ensures writes { WritesBytes result at bytes.now (Some (content_of self.old)) (Some (content_of self.new)) }
        ensures fails { FailsWithin (Some (fails_next self.old)) (Some (content_of self.old)) at (length bytes.now)
            (is_err result) }
        ensures unchanged { OnErr result (content_of self.new ≡ content_of self.old) }
        ensures inside { OnOk result (Lies at (length bytes.now) (content_of self.old)) }
        ensures called { IsCalledOnce self.old self.new }
        ensures counted { OnOk result (CountsMet at (length bytes.now) (writes_of self.old) (writes_of self.new)) }
        ensures touches { TouchesOnly at (at + length bytes.now) (writes_of self.old) (writes_of self.new) }
    {
        self.call()?;
        let from = place(&self.bytes, at, bytes.len())?;
        count_met(&mut self.written, from, bytes.len());
        put_in(&mut self.bytes, from, bytes);
        Ok(())
    }

    fn flush(&mut self) -> io::Result<()>
        ensures same { Some (content_of self.new) ≡ Some (content_of self.old) }
        ensures writes { writes_of self.new ≡ writes_of self.old }
        ensures fails { FailsAs (Some (fails_next self.old)) (is_err result) }
        ensures called { IsCalledOnce self.old self.new }
    {
        self.call()
    }
}
