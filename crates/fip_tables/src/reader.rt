//! The table of contents at the front of a package, read group by group.

ghost use Rattle.std.specs.Prelude.{◌≡◌, ◌≢◌, ◌+◌, ◌*◌, ◌<◌, ◌≤◌, ◌^◌, ◌++◌, ℕ, List, [], Option, IsTrue, IsNone, OnOk, ◌↔◌, length, take, position, MatchResult, Ok, Err};
ghost use Rattle.fwu_formats.specs.Package.{is_beyond, toc_of, unless_beyond};
ghost use Rattle.fip_tables.specs.Stream.{IsHeaderOf, ReaderHoldsAt, IsGroup};
ghost use Rattle.fip_tables.specs.declared.reader.Stage.TheVariants as stage;

use crate::entries::{Entries, Entry};
use crate::toc::Toc;
use base_core::{le32_at, le64_at};
use fwu_formats::FipFault;
use std::marker::Model;

const NAME: u32 = 0xAA64_0001;

// How far the table is read.
#[derive(Clone, Copy, Debug, PartialEq, Eq)]
pub enum Stage {
    Header,
    Table,
    Whole,
    Faulty(FipFault),
}

// Reads a table from the front of a package. It keeps the entries that it has read, and the bytes of
// a group (the header's 16, or an entry's 40) that is not whole yet.
#[derive(Drop)]
pub struct TableReader {
    stage: Stage,
    group: [u8; 40],
    held: usize,
    toc: Toc,
}

impl Model for TableReader {
    ghost use Rattle.std.specs.Prelude.{◌≤◌, take};
    ghost use Rattle.fip_tables.specs.Stream.{Reader};

    ghost Value = { Reader };

    ghost view = { λ s.
        record { stage = s.stage; pending = take s.held s.group; toc = s.toc } };

    ghost invariant = { λ s. s.held ≤ 40 };
}

// The serial number and the flags of a header, or its fault.
fn header_in(group: &[u8]) -> Result<(u32, u64), FipFault>
    requires { length group.now ≡ 16 }
    ensures { IsHeaderOf group.now result }
{
    if le32_at(group, 0) != NAME {
        return Err(FipFault::BadName);
    }
    let serial = le32_at(group, 4);
    if serial == 0 {
        return Err(FipFault::ZeroSerial);
    }
    Ok((serial, le64_at(group, 8)))
}

// Takes in the bytes of the header, and says how far the table is then.
fn take_header(toc: &mut Toc, group: &[u8]) -> Stage
    requires { length group.now ≡ 16 }
    ensures { (bytes : List ℕ) → ReaderHoldsAt stage.Header toc.old group.now bytes → ReaderHoldsAt result toc.new [] bytes }
{
    match header_in(group) {
        Ok((serial, flags)) => {
            toc.serial = serial;
            toc.flags = flags;
            Stage::Table
        }
        Err(fault) => Stage::Faulty(fault),
    }
}

// Takes in the bytes of an entry, and says how far the table is then.
fn take_entry(toc: &mut Toc, group: &[u8]) -> Stage
    requires { length group.now ≡ 40 }
    ensures { (bytes : List ℕ) → ReaderHoldsAt stage.Table toc.old group.now bytes → ReaderHoldsAt result toc.new [] bytes }
{
    let entry = Entry::at(group, 0);
    let count = toc.entries.len();
    if entry.is_marker() {
        return Stage::Whole;
    }
    if count == 64 {
        return Stage::Faulty(FipFault::TooMany);
    }
    if toc.entries.has(&entry.guid) {
        return Stage::Faulty(FipFault::Duplicate(count as u32));
    }
    toc.entries.push(entry);
    Stage::Table
}

// How many entries a table has.
fn count_of(toc: &Toc) -> u32
    ensures { result ≡ length toc.now.entries }
{
    toc.entries.len() as u32
}

// The fault of a table whose marker was read, in a package of so many bytes.
fn check_ends(toc: &Toc, size: u64) -> Result<(), FipFault>
    ensures { (bytes : List ℕ) → size ≡ length bytes → MatchResult result
        (λ _. unless_beyond bytes toc.now (position (is_beyond bytes) toc.now.entries) ≡ Ok toc.now)
        (λ fault. unless_beyond bytes toc.now (position (is_beyond bytes) toc.now.entries) ≡ Err fault) }
{
    match toc.entries.first_beyond(size) {
        Some(i) => Err(FipFault::Beyond(i as u32)),
        None => Ok(()),
    }
}

impl TableReader {
    ghost use Rattle.fip_tables.specs.Stream.{ReaderHolds, HoldsPartOfGroup, ReadsOn, group_size, met};

    pub fn new() -> TableReader
        ensures partial { HoldsPartOfGroup result }
        ensures holds { ReaderHolds result [] }
    {
        TableReader {
            stage: Stage::Header,
            group: [0; 40],
            held: 0,
            toc: Toc {
                serial: 0,
                flags: 0,
                entries: Entries::new(),
            },
        }
    }

    // Reads on in the table, as far as it and the piece go.
    pub fn read_on(&mut self, piece: &[u8])
        requires { HoldsPartOfGroup self.old }
        ensures partial { HoldsPartOfGroup self.new }
        ensures holds { (bytes : List ℕ) → ReaderHolds self.old bytes → ReaderHolds self.new (bytes ++ piece.now) }
    {
        let mut at = 0;
        while at < piece.len() && self.reads_on() {
            at += self.take_some(&piece[at..]);
        }
    }

    // Takes in a group, which is whole.
    fn take_group(&mut self)
        requires { IsGroup self.old.stage self.old.pending }
        ensures empty { self.new.pending ≡ [] }
        ensures holds { (bytes : List ℕ) → ReaderHolds self.old bytes → ReaderHolds self.new bytes }
    {
        let group = &self.group[..self.held];
        match self.stage {
            Stage::Header => self.stage = take_header(&mut self.toc, group),
            Stage::Table => self.stage = take_entry(&mut self.toc, group),
            _ => {}
        }
        self.held = 0;
    }

    // The bytes that are to be held before a group is whole.
    fn wanted(&self) -> usize
        ensures { result ≡ group_size self.now.stage }
    {
        match self.stage {
            Stage::Header => 16,
            _ => 40,
        }
    }

    // Whether more of the table is to be read.
    fn reads_on(&self) -> bool
        ensures { IsTrue result ↔ ReadsOn self.now.stage }
    {
        matches!(self.stage, Stage::Header | Stage::Table)
    }

    // Takes in some of the bytes, at most to the end of a group, and says how many.
    fn take_some(&mut self, rest: &[u8]) -> usize
        requires some { 0 < length rest.now }
        requires partial { HoldsPartOfGroup self.old }
        requires reads { ReadsOn self.old.stage }
        ensures some { (0 < result) × (result ≤ length rest.now) }
        ensures partial { HoldsPartOfGroup self.new }
        ensures holds { (bytes : List ℕ) → ReaderHolds self.old bytes → ReaderHolds self.new (bytes ++ take result rest.now) }
    {
        let wanted = self.wanted();
        let taken = rest.len().min(wanted - self.held);
        self.hold(&rest[..taken]);
        if self.held == wanted {
            self.take_group();
        }
        taken
    }

    // Holds more bytes of a group.
    fn hold(&mut self, piece: &[u8])
        requires room { length self.old.pending + length piece.now ≤ 40 }
        ensures stage { self.new.stage ≡ self.old.stage }
        ensures toc { self.new.toc ≡ self.old.toc }
        ensures pending { self.new.pending ≡ self.old.pending ++ piece.now }
    {
        let end = self.held + piece.len();
        self.group[self.held..end].copy_from_slice(piece);
        self.held = end;
    }

    // The fault that was met.
    pub fn fault(&self) -> Result<(), FipFault>
        ensures { result ≡ met self.now.stage }
    {
        match self.stage {
            Stage::Faulty(fault) => Err(fault),
            _ => Ok(()),
        }
    }

    pub fn is_whole(&self) -> bool
        ensures { IsTrue result ↔ (self.now.stage ≡ stage.Whole) }
    {
        matches!(self.stage, Stage::Whole)
    }

    // The first fault of a package of so many bytes. Where there is none, its table is the one so far.
    fn check(&self, size: u64) -> Result<(), FipFault>
        requires { HoldsPartOfGroup self.now }
        ensures { (bytes : List ℕ) → size ≡ length bytes → ReaderHolds self.now bytes
            → MatchResult result (λ _. toc_of bytes ≡ Ok self.now.toc) (λ fault. toc_of bytes ≡ Err fault) }
    {
        match self.stage {
            Stage::Faulty(fault) => Err(fault),
            Stage::Header => Err(FipFault::ShortHeader),
            Stage::Table => Err(FipFault::NoEnd(count_of(&self.toc))),
            Stage::Whole => check_ends(&self.toc, size),
        }
    }

    // The table of a package of so many bytes, or the fault.
    pub fn toc(&self, size: u64) -> Result<&Toc, FipFault>
        requires { HoldsPartOfGroup self.now }
        ensures { (bytes : List ℕ) → size ≡ length bytes → ReaderHolds self.now bytes
            → MatchResult result (λ toc. toc_of bytes ≡ Ok toc.now) (λ fault. toc_of bytes ≡ Err fault) }
    {
        self.check(size)?;
        Ok(&self.toc)
    }

    // The same, with the table itself.
    pub fn end(self, size: u64) -> Result<Toc, FipFault>
        requires { HoldsPartOfGroup self }
        ensures { (bytes : List ℕ) → size ≡ length bytes → ReaderHolds self bytes → result ≡ toc_of bytes }
    {
        self.check(size)?;
        let TableReader {
            stage: _,
            group: _,
            held: _,
            toc,
        } = self;
        Ok(toc)
    }
}
