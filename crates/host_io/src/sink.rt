//! A place for bytes.

ghost use Rattle.std.specs.Prelude.{◌≡◌, ◌<◌, ◌≤◌, ℕ, Bool, true, refl, List, Option, Some, Err, IfOk, OnErr, is_some, length};
ghost use Rattle.std.specs.Io.KnownBytes.{Keeps, WriteAppends};
ghost use Rattle.host_io.specs.Calls.{unused};
ghost use Rattle.host_io.specs.Causes.{CountsFault, CountsWriting, HasCause, HasWriteCause};
ghost use Rattle.host_io.specs.Contents.{TakesBytes};
ghost use Rattle.host_io.specs.declared.stops.WriteStop.TheVariants as stop;

use crate::calls::CallCounter;
use crate::retries::{flush_again, write_again};
use crate::steady::SteadyWrite;
use crate::stops::{Failed, WriteStop};
use std::alloc::Global;
use std::io::Write;
use std::marker::Model;

/// A place for bytes.
pub trait Sink {
    /// Whether sinks of this type tell their bytes.
    ghost tells: { Bool };

    /// The bytes that were taken, where they are told.
    ghost taken: { Self → Option (List ℕ) };

    /// How many calls failed.
    ghost faults: { Self → ℕ };

    /// Adds the bytes at the end. After `Failed` a front of them was added, after `NoMemory` none.
    fn put(&mut self, bytes: &[u8]) -> Result<(), WriteStop>
        ensures bytes { TakesBytes result (taken self.old) (taken self.new) bytes.now }
        ensures cause { HasWriteCause (faults self.old) (faults self.new) result };

    /// The bytes that were taken are told at each time, or never.
    ghost steady: { (s : Self) → is_some (taken s) ≡ tells };
}

/// A sink in memory.
#[derive(Debug, Drop)]
pub struct MemorySink {
    bytes: Vec<u8>,
    calls: CallCounter,
}

impl Model for MemorySink {
    ghost use Rattle.host_io.specs.Held.{HeldSink};

    ghost Value = { HeldSink };

    ghost view = { λ s. record { taken = s.bytes.items; calls = s.calls } };
}

impl MemorySink {
    /// A sink that has these bytes, whose calls of these numbers, counted from 1, fail.
    pub fn new(_alloc: Global, bytes: Vec<u8>, fails: Vec<u64>) -> MemorySink
        ensures { result ≡ record { taken = bytes.items; calls = unused fails.items } }
    {
        MemorySink {
            bytes,
            calls: CallCounter::new(fails),
        }
    }

    /// All bytes that it has.
    pub fn bytes(&self) -> &[u8]
        ensures { result.now ≡ self.now.taken }
    {
        self.bytes.as_slice()
    }
}

impl Sink for MemorySink {
    ghost tells = { true };

    ghost steady = { λ _. refl };

    ghost taken = { λ s. Some s.taken };

    ghost faults = { λ s. s.calls.faults };

    /// Besides what the trait says, it fails exactly at the listed calls, and then takes nothing. A
    /// call that finds no memory has no number.
    fn put(&mut self, bytes: &[u8]) -> Result<(), WriteStop>
        ensures bytes { TakesBytes result (Some self.old.taken) (Some self.new.taken) bytes.now }
        ensures call { CountsWriting result self.old.calls self.new.calls }
        ensures same { OnErr result (self.new.taken ≡ self.old.taken) }
    {
        if self.calls.fails_next() {
            self.calls.fail();
            return Err(WriteStop::Failed);
        }
        self.bytes.extend_from_slice(bytes)?;
        self.calls.pass();
        Ok(())
    }
}

/// A sink over a writer. Each error of the writer, and each time that it takes nothing, is a fault, but
/// for a call that the system interrupted, which is made again.
#[derive(Debug, Drop)]
pub struct StdSink<W> {
    writer: W,
    faults: u64,
}

impl<W> Model for StdSink<W> {
    ghost use Rattle.host_io.specs.Held.{Adapted};

    ghost Value = { Adapted W };

    ghost view = { λ s. record { inner = s.writer; faults = s.faults } };
}

impl<W: Write> StdSink<W> {
    /// A sink that gives all to the writer.
    pub fn new(writer: W) -> StdSink<W>
        ensures { result ≡ record { inner = writer; faults = 0 } }
    {
        StdSink { writer, faults: 0 }
    }

    // Counts a fault.
    fn fail(&mut self) -> Failed
        ensures inner { self.new.inner ≡ self.old.inner }
        ensures fault { CountsFault self.old.faults self.new.faults }
    {
        self.faults = self.faults.saturating_add(1);
        Failed
    }

    // Writes a front of the piece, of one byte at least.
    fn write_some(&mut self, piece: &[u8]) -> Result<usize, Failed>
        ensures some { IfOk result (λ count. (0 < count) × (count ≤ length piece.now)) }
        ensures bytes { WriteAppends (W.contents self.old.inner) (W.contents self.new.inner) result piece.now }
        ensures cause { HasCause self.old.faults self.new.faults result }
    {
        match write_again(&mut self.writer, piece) {
            Ok(count) if count > 0 => Ok(count),
            _ => Err(self.fail()),
        }
    }

    // Sends on what the writer has kept back.
    fn flush(&mut self) -> Result<(), Failed>
        ensures bytes { Keeps (W.contents self.old.inner) (W.contents self.new.inner) }
        ensures cause { HasCause self.old.faults self.new.faults result }
    {
        match flush_again(&mut self.writer) {
            Ok(()) => Ok(()),
            Err(_) => Err(self.fail()),
        }
    }
}

impl<W: SteadyWrite> Sink for StdSink<W> {
    ghost tells = { W.tells };

    ghost steady = { λ s. W.steady s.inner };

    /// What the writer holds, where it tells.
    ghost taken = { λ s. W.contents s.inner };

    ghost faults = { λ s. s.faults };

    /// Besides what the trait says, each `Err` is `Failed`, also where the writer had no memory.
    fn put(&mut self, bytes: &[u8]) -> Result<(), WriteStop>
        ensures bytes { TakesBytes result (W.contents self.old.inner) (W.contents self.new.inner) bytes.now }
        ensures failed { OnErr result (result ≡ Err stop.Failed) }
        ensures cause { HasWriteCause self.old.faults self.new.faults result }
    {
        let mut rest = bytes;
        while !rest.is_empty() {
            let count = self.write_some(rest)?;
            rest = &rest[count..];
        }
        self.flush()?;
        Ok(())
    }
}
