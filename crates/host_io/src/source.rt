//! Bytes that come in pieces.

ghost use Rattle.std.specs.Prelude.{◌≡◌, ◌≤◌, ◌++◌, ◌∷◌, [], ⊤, ℕ, Bool, true, refl, List, Option, Some, drop, is_some, length};
ghost use Rattle.std.specs.Io.{ReadsAtMost};
ghost use Rattle.std.specs.Io.KnownBytes.{ReadConsumes};
ghost use Rattle.host_io.specs.Calls.{gave, unused};
ghost use Rattle.host_io.specs.Causes.{CountsCall, HasCause};

use crate::calls::CallCounter;
use crate::retries::read_again;
use crate::steady::SteadyRead;
use crate::stops::Failed;
use std::io::Read;
use std::marker::Model;

/// Bytes that come in pieces.
pub trait Source {
    /// Whether sources of this type tell their bytes.
    ghost tells: { Bool };

    /// The bytes that are left, where they are told.
    ghost left: { Self → Option (List ℕ) };

    /// How many calls failed.
    ghost faults: { Self → ℕ };

    /// Exactly these reads lead from the first to the second: of each how many bytes it gave, or that it
    /// failed. It is nothing at run time, and an implementation need say no more than that it fits the two
    /// laws below. So code over a source of any type is held to what each read says of it.
    ghost reads: { Self → Self → List (Option ℕ) → Type 0 };

    /// Reads some bytes to the front of `out`, and gives their number. Zero, for a room that is not
    /// empty, is the end. A call that fails reads nothing.
    fn read(&mut self, out: &mut [u8]) -> Result<usize, Failed>
        ensures bound { ReadsAtMost result out.new }
        ensures bytes { ReadConsumes (left self.old) (left self.new) result out.new }
        ensures cause { HasCause (faults self.old) (faults self.new) result }
        ensures made { reads self.old self.new (gave result ∷ []) };

    /// The bytes that are left are told at each time, or never.
    ghost steady: { (s : Self) → is_some (left s) ≡ tells };

    /// Where no read is made there is none.
    ghost at_rest: { (s : Self) → reads s s [] };

    /// Reads that are made one after the other.
    ghost joins: { (s t u : Self) (first next : List (Option ℕ)) → reads s t first → reads t u next → reads s u (first ++ next) };
}

/// A source in memory.
#[derive(Debug, Drop)]
pub struct MemorySource {
    bytes: Vec<u8>,
    at: usize,
    calls: CallCounter,
}

impl Model for MemorySource {
    ghost use Rattle.std.specs.Prelude.{◌≤◌, drop, length};
    ghost use Rattle.host_io.specs.Held.{HeldSource};

    ghost Value = { HeldSource };

    ghost view = { λ s. record { left = drop s.at s.bytes.items; calls = s.calls } };

    ghost invariant = { λ s. s.at ≤ length s.bytes.items };
}

impl MemorySource {
    /// A source of these bytes, whose calls of these numbers, counted from 1, fail.
    pub fn new(bytes: Vec<u8>, fails: Vec<u64>) -> MemorySource
        ensures { result ≡ record { left = bytes.items; calls = unused fails.items } }
    {
        MemorySource {
            bytes,
            at: 0,
            calls: CallCounter::new(fails),
        }
    }
}

impl Source for MemorySource {
    ghost tells = { true };

    ghost steady = { λ _. refl };

    ghost left = { λ s. Some s.left };

    ghost faults = { λ s. s.calls.faults };

    ghost reads = { λ _ _ _. ⊤ };

    ghost at_rest = { λ _. tt };

    ghost joins = { λ _ _ _ _ _ _ _. tt };

    /// Besides what the trait says, it fails exactly at the listed calls.
    fn read(&mut self, out: &mut [u8]) -> Result<usize, Failed>
        ensures bound { ReadsAtMost result out.new }
        ensures bytes { ReadConsumes (Some self.old.left) (Some self.new.left) result out.new }
        ensures call { CountsCall result self.old.calls self.new.calls }
    {
        self.calls.count()?;
        let rest = &self.bytes[self.at..];
        let count = rest.len().min(out.len());
        out[..count].copy_from_slice(&rest[..count]);
        self.at += count;
        Ok(count)
    }
}

/// A source over a reader. Each error of the reader is a fault, but for a read that the system
/// interrupted, which is made again.
#[derive(Debug, Drop)]
pub struct StdSource<R> {
    reader: R,
    faults: u64,
}

impl<R> Model for StdSource<R> {
    ghost use Rattle.host_io.specs.Held.{Adapted};

    ghost Value = { Adapted R };

    ghost view = { λ s. record { inner = s.reader; faults = s.faults } };
}

impl<R: Read> StdSource<R> {
    /// A source of what the reader gives.
    pub fn new(reader: R) -> StdSource<R>
        ensures { result ≡ record { inner = reader; faults = 0 } }
    {
        StdSource { reader, faults: 0 }
    }
}

impl<R: SteadyRead> Source for StdSource<R> {
    ghost tells = { R.tells };

    ghost steady = { λ s. R.steady s.inner };

    /// What the reader has left, where it tells.
    ghost left = { λ s. R.remaining s.inner };

    ghost faults = { λ s. s.faults };

    ghost reads = { λ _ _ _. ⊤ };

    ghost at_rest = { λ _. tt };

    ghost joins = { λ _ _ _ _ _ _ _. tt };

    fn read(&mut self, out: &mut [u8]) -> Result<usize, Failed> {
        match read_again(&mut self.reader, out) {
            Ok(count) => Ok(count),
            Err(_) => {
                self.faults = self.faults.saturating_add(1);
                Err(Failed)
            }
        }
    }
}
