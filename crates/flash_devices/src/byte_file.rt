ghost use Rattle.std.specs.Prelude.{None};
ghost use Rattle.flash_devices.specs.ByteFiles.{size_of};

use std::fs::OpenFile;
use std::io::{self, Read, Seek, SeekFrom, Write};

/// A file whose bytes are read and written at places, counted in bytes from its start.
pub trait ByteFile {
    ghost use Rattle.std.specs.Prelude.{◌≡◌, ℕ, ◌+◌, Bool, List, Option, IfOk, IfSome, OnOk, is_err, length};
    ghost use Rattle.flash_core.specs.Touches.{TouchesOnly};
    ghost use Rattle.flash_devices.specs.ByteFiles.{FailsAs, FailsWithin, HoldsAt, WritesBytes};

    /// Its bytes, where they are told.
    ghost content: { Self → Option (List ℕ) };

    /// How many bytes it has, where this is told.
    ghost size: { Self → Option ℕ };

    /// How often each 4096 bytes from its start were written to, on a file that counts that. It need not
    /// tell its bytes, so what is said of these counts holds whatever its reads give.
    ghost writes: { Self → ℕ → ℕ };

    /// Whether its next call fails, where this is told.
    ghost fails: { Self → Option Bool };

    /// Whether one call, which may have failed, made the second of the first.
    ghost called: { Self → Self → Type 0 };

    /// Whether a flush that was done made the second of the first.
    ghost flushed: { Self → Self → Type 0 };

    /// How many bytes it has.
    fn size(&mut self) -> io::Result<u64>
        ensures size { IfOk result (λ n. IfSome (size self.old) (λ known. n ≡ known)) }
        ensures length { IfOk result (λ n. IfSome (content self.old) (λ all. n ≡ length all)) }
        ensures same { content self.new ≡ content self.old }
        ensures writes { writes self.new ≡ writes self.old }
        ensures fails { FailsAs (fails self.old) (is_err result) }
        ensures called { called self.old self.new };

    /// Fills the buffer with the bytes from a place on. A range outside the file is an error.
    fn read_at(&mut self, at: u64, out: &mut [u8]) -> io::Result<()>
        ensures bytes { OnOk result (HoldsAt at out.new (content self.old)) }
        ensures same { content self.new ≡ content self.old }
        ensures writes { writes self.new ≡ writes self.old }
        ensures fails { FailsWithin (fails self.old) (content self.old) at (length out.old) (is_err result) }
        ensures called { called self.old self.new };

    /// Writes over the bytes from a place on. After an error some of the first were written, or none.
    fn write_at(&mut self, at: u64, bytes: &[u8]) -> io::Result<()>
        ensures writes { WritesBytes result at bytes.now (content self.old) (content self.new) }
        ensures touches { TouchesOnly at (at + length bytes.now) (writes self.old) (writes self.new) }
        ensures fails { FailsWithin (fails self.old) (content self.old) at (length bytes.now) (is_err result) }
        ensures called { called self.old self.new };

    /// Puts what was written where a loss of power leaves it.
    fn flush(&mut self) -> io::Result<()>
        ensures same { content self.new ≡ content self.old }
        ensures writes { writes self.new ≡ writes self.old }
        ensures fails { FailsAs (fails self.old) (is_err result) }
        ensures called { called self.old self.new }
        ensures flushed { OnOk result (flushed self.old self.new) };
}

/// Files that are read and written at a position, and can be synced, as those of the system. They tell
/// no bytes and count no writes, since readers and writers don't say where a write went. Each read and
/// write seeks to its place first, and then all bytes are read or written. A flush is a `sync_data`, and
/// its error is the flush's. No clause says so, since none of a file of the system says what a sync did:
/// it is tested.
impl<F: Read + Write + Seek + OpenFile> ByteFile for F {
    ghost use Rattle.std.specs.Prelude.{◌≡◌, ⊤, IfOk, IfSome, OnOk, OnErr};
    ghost use Rattle.std.specs.Io.KnownBytes.{Keeps};
    ghost use Rattle.flash_devices.specs.ByteFiles.{untold, WritesBytes};
    ghost use Rattle.flash_devices.specs.Positions.{ReadsFrom, WritesFrom, FailsFrom};

    ghost content = { λ _. untold };

    ghost size = { λ f. size_of (F.stream_position f) (F.stream_bytes f) };

    // it counts none
    ghost writes = { λ _ _. 0 };

    ghost fails = { λ _. None };

    ghost called = { λ _ _. ⊤ };

    ghost flushed = { λ _ _. ⊤ };

    fn size(&mut self) -> io::Result<u64>
        ensures size { IfOk result (λ n.
            IfSome (size_of (F.stream_position self.old) (F.stream_bytes self.old)) (λ known. n ≡ known)) }
        ensures keeps { Keeps (F.stream_bytes self.old) (F.stream_bytes self.new) }
    {
        self.seek(SeekFrom::End(0))
    }

    fn read_at(&mut self, at: u64, out: &mut [u8]) -> io::Result<()>
        ensures reads { OnOk result (ReadsFrom F.stream_position F.stream_bytes F.remaining at out.new self.old self.new) }
        ensures stops { OnErr result (FailsFrom F.stream_position F.stream_bytes at self.old self.new) }
    {
        self.seek(SeekFrom::Start(at))?;
        self.read_exact(out)
    }

    fn write_at(&mut self, at: u64, bytes: &[u8]) -> io::Result<()>
        ensures writes { WritesBytes result at bytes.now untold untold }
        ensures takes { OnOk result (WritesFrom F.stream_position F.stream_bytes F.contents at bytes.now self.old self.new) }
        ensures stops { OnErr result (FailsFrom F.stream_position F.stream_bytes at self.old self.new) }
    {
        self.seek(SeekFrom::Start(at))?;
        self.write_all(bytes)
    }

    fn flush(&mut self) -> io::Result<()>
        ensures { Keeps (F.contents self.old) (F.contents self.new) }
    {
        Write::flush(self)?;
        self.sync_data()
    }
}
