//! A table of contents that is read from a stream.

ghost use Rattle.std.specs.Prelude.{◌≡◌, ◌+◌, ◌<◌, ◌^◌, ◌++◌, ◌↔◌, ℕ, List, [], IsTrue, MatchResult, Ok, Err, length};
ghost use Rattle.fwu_formats.specs.Package.{toc_of};
ghost use Rattle.fip_tables.specs.Answers.{decided, has_marker};

use crate::reader::TableReader;
use crate::toc::Toc;
use fwu_formats::FipFault;
use std::marker::Model;

/// A table of contents that is read from the front of a package, in pieces of any lengths. It takes
/// no memory.
#[derive(Drop)]
pub struct StreamToc {
    reader: TableReader,
    count: u64,
}

impl Model for StreamToc {
    ghost use Rattle.fip_tables.specs.Stream.{HoldsPartOfGroup, Stream};

    ghost Value = { Stream };

    ghost view = { λ s. record { reader = s.reader; count = s.count } };

    ghost invariant = { λ s. HoldsPartOfGroup s.reader };
}

impl StreamToc {
    ghost use Rattle.fip_tables.specs.Stream.{Fed, IsWholeStream};

    /// A reader that was given nothing yet.
    pub fn new() -> StreamToc
        ensures { Fed result [] }
    {
        StreamToc {
            reader: TableReader::new(),
            count: 0,
        }
    }

    /// Takes in the next bytes. A fault that no further bytes mend is answered as soon as it is
    /// decided, and at every later call.
    pub fn feed(&mut self, piece: &[u8]) -> Result<(), FipFault>
        requires room { self.old.count + length piece.now < 2 ^ 64 }
        ensures fed { (bytes : List ℕ) → Fed self.old bytes → Fed self.new (bytes ++ piece.now) }
        ensures fault { (bytes : List ℕ) → Fed self.old bytes → result ≡ decided (toc_of (bytes ++ piece.now)) }
        ensures count { self.new.count ≡ self.old.count + length piece.now }
    {
        self.reader.read_on(piece);
        self.count += piece.len() as u64;
        self.reader.fault()
    }

    /// Counts bytes behind the table that are not fed, whatever they are.
    pub fn skip(&mut self, n: u64)
        requires whole { IsWholeStream self.old }
        requires room { self.old.count + n < 2 ^ 64 }
        ensures fed { (bytes gap : List ℕ) → Fed self.old bytes → length gap ≡ n → Fed self.new (bytes ++ gap) }
        ensures whole { IsWholeStream self.new }
        ensures count { self.new.count ≡ self.old.count + n }
    {
        self.count += n;
    }

    /// Whether the end marker was fed, and no fault before it.
    pub fn is_whole(&self) -> bool
        ensures seen { IsTrue result ↔ IsWholeStream self.now }
        ensures bytes { (bytes : List ℕ) → Fed self.now bytes → result ≡ has_marker (toc_of bytes) }
    {
        self.reader.is_whole()
    }

    /// The table of contents of the bytes so far, or their first fault.
    pub fn toc(&self) -> Result<&Toc, FipFault>
        ensures { (bytes : List ℕ) → Fed self.now bytes
            → MatchResult result (λ toc. toc_of bytes ≡ Ok toc.now) (λ fault. toc_of bytes ≡ Err fault) }
    {
        self.reader.toc(self.count)
    }

    /// The same, with the table itself.
    pub fn end(self) -> Result<Toc, FipFault>
        ensures { (bytes : List ℕ) → Fed self bytes → result ≡ toc_of bytes }
    {
        let StreamToc { reader, count } = self;
        reader.end(count)
    }
}
