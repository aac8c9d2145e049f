//! Files in memory.

ghost use Rattle.std.specs.Prelude.{◌≡◌, ⊤, ◌≢◌, ◌↔◌, ◌+◌, ◌++◌, ◌≤◌, ℕ, true, refl, List, Some, Err, IsErr, IfOk, OnOk, OnErr, drop, length, map, option_map, take, vec_capacity, vec_len};
ghost use Rattle.std.specs.List.{All};
ghost use Rattle.host_io.specs.Calls.{as_write, unused, writes_after};
ghost use Rattle.host_io.specs.Causes.{CountsWriting};
ghost use Rattle.host_io.specs.Contents.{AddsRange, ChangesOnly, HasRange, Holds, TellsRange, TellsSize, bytes_in, pairs_of, place_in};
ghost use Rattle.host_io.specs.Held.{ReadsHeld, told};
ghost use Rattle.host_io.specs.Joined.{HasPiece, HoldsJoined, chunk_in, joined};
ghost use Rattle.host_io.specs.declared.stops.JoinStop.TheVariants as join;
ghost use Rattle.host_io.specs.declared.stops.WriteStop.TheVariants as stop;

use crate::calls::CallCounter;
use crate::files::Files;
use crate::joining::Piece;
use crate::stops::{Failed, JoinStop, WriteStop};
use crate::writes::Writes;
use std::alloc::{AllocError, Global};
use std::marker::Model;

// The place of a name, or the number of files.
fn place(files: &[(String, Vec<u8>)], name: &str) -> usize
    ensures { result ≡ place_in (pairs_of files.now) name.now }
{
    for (i, file) in files.iter().enumerate() {
        if file.0.as_str() == name {
            return i;
        }
    }
    files.len()
}

// The bytes of a name.
fn bytes_of<'a>(files: &'a [(String, Vec<u8>)], name: &str) -> Option<&'a [u8]>
    ensures { option_map (λ bytes. bytes.now) result ≡ bytes_in (pairs_of files.now) name.now }
{
    let i = place(files, name);
    if i < files.len() {
        Some(files[i].1.as_slice())
    } else {
        None
    }
}

// Puts the bytes in the place of a name's, or at the end. An `Err` changes nothing.
fn put_bytes(
    alloc: Global,
    files: &mut Vec<(String, Vec<u8>)>,
    name: &str,
    bytes: &[u8],
) -> Result<(), AllocError>
    ensures written { OnOk result (bytes_in (pairs_of files.new.items) name.now ≡ Some bytes.now) }
    ensures others { OnOk result ((other : List ℕ) → other ≢ name.now
        → bytes_in (pairs_of files.new.items) other ≡ bytes_in (pairs_of files.old.items) other) }
    ensures err { OnErr result (files.new.items ≡ files.old.items) }
{
    let copy = Vec::from_slice(alloc, bytes)?;
    let key = String::from_str(alloc, name)?;
    let i = place(files, name);
    if i < files.len() {
        files[i] = (key, copy);
    } else {
        files.push((key, copy))?;
    }
    Ok(())
}

// Adds the next piece: as many more of the frame as it says, and its bytes. Gives what is left of the frame.
fn add_piece<'a>(
    files: &[(String, Vec<u8>)],
    frame: &'a [u8],
    piece: &Piece<'_>,
    bytes: &mut Vec<u8>,
) -> Result<&'a [u8], AllocError>
    requires { HasPiece (Some (bytes_in (pairs_of files.now))) piece.now }
    ensures added { OnOk result (bytes.new.items ≡ bytes.old.items ++ (take piece.now.gap frame.now
        ++ (chunk_in (bytes_in (pairs_of files.now)) piece.now).bytes)) }
    ensures left { IfOk result (λ left. left.now ≡ drop piece.now.gap frame.now) }
{
    let (front, left) = frame.split_at(piece.gap.min(frame.len()));
    bytes.extend_from_slice(front)?;
    if let Some(held) = bytes_of(files, piece.file) {
        let start = piece.at as usize;
        bytes.extend_from_slice(&held[start..start + piece.count as usize])?;
    }
    Ok(left)
}

// The frame with the pieces between its bytes.
fn join(
    alloc: Global,
    files: &[(String, Vec<u8>)],
    frame: &[u8],
    pieces: &[Piece<'_>],
) -> Result<Vec<u8>, AllocError>
    requires { All (HasPiece (Some (bytes_in (pairs_of files.now)))) pieces.now }
    ensures { IfOk result (λ v. v.items ≡ joined frame.now (map (chunk_in (bytes_in (pairs_of files.now))) pieces.now)) }
{
    let mut bytes = Vec::new(alloc);
    let mut left = frame;
    for piece in pieces {
        left = add_piece(files, left, piece, &mut bytes)?;
    }
    bytes.extend_from_slice(left)?;
    Ok(bytes)
}

/// Files in memory.
#[derive(Debug, Drop)]
pub struct MemoryFiles {
    alloc: Global,
    files: Vec<(String, Vec<u8>)>,
    calls: CallCounter,
    writes: Writes,
}

impl Model for MemoryFiles {
    ghost use Rattle.host_io.specs.Contents.{pairs_of};
    ghost use Rattle.host_io.specs.Held.{HeldFiles};

    ghost Value = { HeldFiles };

    ghost view = { λ m. record {
      files = pairs_of m.files.items;
      calls = m.calls;
      writes = m.writes;
    } };
}

impl MemoryFiles {
    /// Files of these names and bytes, whose calls of these numbers, counted from 1, fail. The names
    /// should differ: of several files of one name the first is seen.
    pub fn new(alloc: Global, files: Vec<(String, Vec<u8>)>, fails: Vec<u64>) -> MemoryFiles
        ensures { result ≡ record {
          files = pairs_of files.items;
          calls = unused fails.items;
          writes = record { done = 0; failed = 0; torn = 0 };
        } }
    {
        MemoryFiles {
            alloc,
            files,
            calls: CallCounter::new(fails),
            writes: Writes::none(),
        }
    }

    /// The bytes of the file of this name. `None` says that no file has it.
    pub fn get(&self, name: &str) -> Option<&[u8]>
        ensures { option_map (λ bytes. bytes.now) result ≡ bytes_in self.now.files name.now }
    {
        bytes_of(self.files.as_slice(), name)
    }
}

impl Files for MemoryFiles {
    ghost tells = { true };

    ghost steady = { λ _. refl };

    ghost contents = { told };

    ghost faults = { λ m. m.calls.faults };

    ghost writes = { λ m. record m.writes { torn = 0 } };

    ghost spares = { λ _ _ _. ⊤ };

    ghost at_rest = { λ _ _. tt };

    ghost joins = { λ _ _ _ _ _ _. tt };

    /// Besides what the trait says, it fails exactly at the listed calls.
    fn size(&mut self, name: &str) -> Result<Option<u64>, Failed>
        ensures size { IfOk result (TellsSize (told self.old) name.now) }
        ensures reads { ReadsHeld result self.old self.new }
    {
        self.calls.count()?;
        Ok(bytes_of(self.files.as_slice(), name).map(|bytes| bytes.len() as u64))
    }

    /// Besides what the trait says, it fails exactly at the listed calls.
    fn read_at(&mut self, name: &str, at: u64, out: &mut [u8]) -> Result<(), Failed>
        requires { HasRange (told self.old) name.now at (length out.old) }
        ensures bytes { OnOk result (TellsRange (told self.old) name.now at out.new) }
        ensures reads { ReadsHeld result self.old self.new }
    {
        self.calls.count()?;
        if let Some(bytes) = bytes_of(self.files.as_slice(), name) {
            let start = at as usize;
            out.copy_from_slice(&bytes[start..start + out.len()]);
        }
        Ok(())
    }

    /// Besides what the trait says, it fails exactly at the listed calls.
    fn read_onto(
        &mut self,
        name: &str,
        at: u64,
        count: usize,
        out: &mut Vec<u8>,
    ) -> Result<(), Failed>
        requires range { HasRange (told self.old) name.now at count }
        requires room { vec_len out.old + count ≤ vec_capacity out.old }
        ensures bytes { OnOk result (AddsRange (told self.old) name.now at count out.old.items out.new.items) }
        ensures unchanged { OnErr result (out.new.items ≡ out.old.items) }
        ensures capacity { vec_capacity out.old ≤ vec_capacity out.new }
        ensures reads { ReadsHeld result self.old self.new }
    {
        self.calls.count()?;
        if let Some(bytes) = bytes_of(self.files.as_slice(), name) {
            let start = at as usize;
            out.extend_from_slice(&bytes[start..start + count]).unwrap();
        }
        Ok(())
    }

    /// Besides what the trait says, it fails exactly at the listed calls, and then changes nothing. A
    /// call that finds no memory has no number.
    fn write_whole(&mut self, name: &str, bytes: &[u8]) -> Result<(), WriteStop>
        ensures written { OnOk result (Holds (told self.new) name.now bytes.now) }
        ensures others { ChangesOnly (told self.old) (told self.new) name.now }
        ensures memory { result ≡ Err stop.NoMemory → told self.new ≡ told self.old }
        ensures writes { self.new.writes ≡ writes_after result self.old.writes }
        ensures call { CountsWriting result self.old.calls self.new.calls }
        ensures unchanged { OnErr result (self.new.files ≡ self.old.files) }
    {
        if self.calls.fails_next() {
            self.calls.fail();
            self.writes.fail();
            return Err(WriteStop::Failed);
        }
        put_bytes(self.alloc, &mut self.files, name, bytes)?;
        self.calls.pass();
        self.writes.pass();
        Ok(())
    }

    /// Besides what the trait says, it fails exactly at the listed calls, and then changes nothing. A
    /// call that finds no memory has no number. The pieces lie in memory, and each of them is read.
    fn write_joined(
        &mut self,
        _alloc: Global,
        name: &str,
        frame: &[u8],
        pieces: &[Piece<'_>],
    ) -> Result<(), JoinStop>
        requires { All (HasPiece (told self.old)) pieces.now }
        ensures written { OnOk result (HoldsJoined (told self.old) (told self.new) name.now frame.now pieces.now) }
        ensures others { ChangesOnly (told self.old) (told self.new) name.now }
        ensures read { result ≡ Err join.Unread → ⊥ }
        ensures memory { result ≡ Err join.NoMemory → told self.new ≡ told self.old }
        ensures writes { self.new.writes ≡ writes_after (as_write result) self.old.writes }
        ensures call { CountsWriting (as_write result) self.old.calls self.new.calls }
        ensures unchanged { OnErr result (self.new.files ≡ self.old.files) }
    {
        if self.calls.fails_next() {
            self.calls.fail();
            self.writes.fail();
            return Err(JoinStop::Failed);
        }
        let bytes = join(self.alloc, self.files.as_slice(), frame, pieces)?;
        put_bytes(self.alloc, &mut self.files, name, bytes.as_slice())?;
        self.calls.pass();
        self.writes.pass();
        Ok(())
    }
}
