//! The entries of a table of contents.

ghost use Rattle.std.specs.Prelude.{◌≡◌, ◌+◌, ◌≤◌, ◌<◌, ◌++◌, ◌∷◌, [], Option, Some, None, IfSome, find, length, position, nat_lt};
ghost use Rattle.std.specs.List.{list_any};
ghost use Rattle.base_core.specs.Bytes.{same_bytes};
ghost use Rattle.base_core.specs.Guid.{nil_guid};
ghost use Rattle.fwu_formats.specs.Package.{has_guid};
ghost use Rattle.fip_tables.specs.Stream.{entry_from};

use base_core::{Guid, le64_at};
use std::marker::Model;

/// One payload of a package. Offset (from the package's first byte) and size are in bytes.
#[derive(Clone, Copy, Debug, PartialEq, Eq)]
pub struct Entry {
    pub guid: Guid,
    pub offset: u64,
    pub size: u64,
    pub flags: u64,
}

impl Model for Entry {
    ghost use Rattle.fwu_formats.specs.Package.{Entry as Payload};

    ghost Value = { Payload };

    ghost view = { λ e. record { guid = e.guid; offset = e.offset; size = e.size; flags = e.flags } };

    ghost inverse = { λ e. record { guid = e.guid; offset = e.offset; size = e.size; flags = e.flags } };
}

impl Entry {
    /// The entry whose forty bytes begin at a place.
    pub fn at(bytes: &[u8], at: usize) -> Entry
        requires { at + 40 ≤ length bytes.now }
        ensures { result ≡ entry_from bytes.now at }
    {
        Entry {
            guid: Guid::at(bytes, at),
            offset: le64_at(bytes, at + 16),
            size: le64_at(bytes, at + 24),
            flags: le64_at(bytes, at + 32),
        }
    }

    /// Whether it is the end marker, which has the nil UUID.
    pub fn is_marker(&self) -> bool
        ensures { result ≡ same_bytes self.now.guid nil_guid }
    {
        self.guid.is(&Guid::nil())
    }

    /// Whether the payload's end lies beyond so many bytes.
    pub fn is_beyond(&self, size: u64) -> bool
        ensures { result ≡ nat_lt size (self.now.offset + self.now.size) }
    {
        u128::from(size) < u128::from(self.offset) + u128::from(self.size)
    }
}

/// At most 64 entries, which contracts see as their list.
#[derive(Drop)]
pub struct Entries {
    items: [Entry; 64],
    count: usize,
}

impl Model for Entries {
    ghost use Rattle.std.specs.Prelude.{◌≤◌, List, take};
    ghost use Rattle.fwu_formats.specs.Package.{Entry as Payload};

    ghost Value = { List Payload };

    ghost view = { λ e. take e.count e.items };

    ghost invariant = { λ e. e.count ≤ 64 };
}

impl Entries {
    pub fn new() -> Entries
        ensures { result ≡ [] }
    {
        let none = Entry {
            guid: Guid::nil(),
            offset: 0,
            size: 0,
            flags: 0,
        };
        Entries {
            items: [none; 64],
            count: 0,
        }
    }

    pub fn len(&self) -> usize
        ensures length { result ≡ length self.now }
        ensures few { length self.now ≤ 64 }
    {
        let _open = &self.count;
        self.as_slice().len()
    }

    pub fn as_slice(&self) -> &[Entry]
        ensures { result.now ≡ self.now }
    {
        &self.items[..self.count]
    }

    /// Adds an entry at the end.
    pub fn push(&mut self, entry: Entry)
        requires { length self.old < 64 }
        ensures { self.new ≡ self.old ++ entry ∷ [] }
    {
        self.items[self.count] = entry;
        self.count += 1;
    }

    /// Whether an entry has the type.
    pub fn has(&self, guid: &Guid) -> bool
        ensures { result ≡ list_any (has_guid guid.now) self.now }
    {
        self.as_slice().iter().any(|entry| entry.guid.is(guid))
    }

    /// The first entry of the type.
    pub fn find(&self, guid: &Guid) -> Option<Entry>
        ensures { result ≡ find (has_guid guid.now) self.now }
    {
        self.as_slice()
            .iter()
            .copied()
            .find(|entry| entry.guid.is(guid))
    }

    /// The first entry whose payload's end lies beyond so many bytes.
    pub fn first_beyond(&self, size: u64) -> Option<usize>
        ensures first { result ≡ position (λ e. nat_lt size (e.offset + e.size)) self.now }
        ensures few { IfSome result (λ i. i < 64) }
    {
        let _open = &self.count;
        self.as_slice()
            .iter()
            .position(|entry| entry.is_beyond(size))
    }
}
