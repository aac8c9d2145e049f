//! Files by their names.

use crate::joining::Piece;
use crate::stops::{Failed, JoinStop, WriteStop};
use std::alloc::Global;

/// Files by their names.
pub trait Files {
    ghost use Rattle.std.specs.Prelude.{◌≡◌, ◌≢◌, ◌⊎◌, ◌+◌, ◌≤◌, ℕ, Bool, Option, Err, IfOk, OnOk, OnErr, is_some, length, vec_capacity, vec_len};
    ghost use Rattle.base_core.specs.Counts.{Rose};
    ghost use Rattle.host_io.specs.Access.{Access, Asks, Makes, Overwrites};
    ghost use Rattle.host_io.specs.Calls.{CountsJoin, CountsWrite, as_write};
    ghost use Rattle.host_io.specs.Causes.{HasCause, HasWriteCause};
    ghost use Rattle.std.specs.List.{All};
    ghost use Rattle.host_io.specs.Contents.{AddsRange, ChangesOnly, Directory, HasRange, Holds, TellsRange, TellsSize};
    ghost use Rattle.host_io.specs.Joined.{AsksNoPiece, HasPiece, HoldsJoined};
    ghost use Rattle.host_io.specs.declared.stops.JoinStop.TheVariants as join;
    ghost use Rattle.host_io.specs.declared.stops.WriteStop.TheVariants as stop;
    ghost use Rattle.host_io.specs.declared.writes.Writes.{Writes};

    /// Whether files of this type tell their contents.
    ghost tells: { Bool };

    /// The bytes of each name, where they are told.
    ghost contents: { Self → Option Directory };

    /// How many calls failed.
    ghost faults: { Self → ℕ };

    /// How many files were written whole, how many writes failed, and how many of these may have torn
    /// their file.
    ghost writes: { Self → Writes };

    /// No call from the first to the second makes this access. It is nothing at run time, and an
    /// implementation need say no more than that it fits the two laws below. So code over files of any
    /// type is held to what each call says of it. Making a file of pieces asks for the files in which
    /// they lie.
    ghost spares: { Self → Self → Access → Type 0 };

    /// How many bytes the file has. `None` says that no file has the name, which files that are not told
    /// never say.
    fn size(&mut self, name: &str) -> Result<Option<u64>, Failed>
        ensures size { IfOk result (TellsSize (contents self.old) name.now) }
        ensures same { contents self.new ≡ contents self.old }
        ensures cause { HasCause (faults self.old) (faults self.new) result }
        ensures unwritten { writes self.new ≡ writes self.old }
        ensures spares { (access : Access) → access ≢ Asks name.now → spares self.old self.new access };

    /// Fills `out` with the bytes of the file from place `at` on.
    fn read_at(&mut self, name: &str, at: u64, out: &mut [u8]) -> Result<(), Failed>
        requires { HasRange (contents self.old) name.now at (length out.old) }
        ensures bytes { OnOk result (TellsRange (contents self.old) name.now at out.new) }
        ensures same { contents self.new ≡ contents self.old }
        ensures cause { HasCause (faults self.old) (faults self.new) result }
        ensures unwritten { writes self.new ≡ writes self.old }
        ensures spares { (access : Access) → access ≢ Asks name.now → spares self.old self.new access };

    /// Adds `count` bytes of the file, from place `at` on, at the end of `out`, which has the room for
    /// them, so that no memory is taken. After `Failed` it is as it was.
    fn read_onto(
        &mut self,
        name: &str,
        at: u64,
        count: usize,
        out: &mut Vec<u8>,
    ) -> Result<(), Failed>
        requires range { HasRange (contents self.old) name.now at count }
        requires room { vec_len out.old + count ≤ vec_capacity out.old }
        ensures bytes { OnOk result (AddsRange (contents self.old) name.now at count out.old.items out.new.items) }
        ensures unchanged { OnErr result (out.new.items ≡ out.old.items) }
        ensures capacity { vec_capacity out.old ≤ vec_capacity out.new }
        ensures same { contents self.new ≡ contents self.old }
        ensures cause { HasCause (faults self.old) (faults self.new) result }
        ensures unwritten { writes self.new ≡ writes self.old }
        ensures spares { (access : Access) → access ≢ Asks name.now → spares self.old self.new access };

    /// Makes the file anew, of these bytes, or writes over all of an old one. After `Failed` no other
    /// name has changed, and this one is as it was, unless a file may have been torn, which is counted.
    /// Files that are not told stay so.
    fn write_whole(&mut self, name: &str, bytes: &[u8]) -> Result<(), WriteStop>
        ensures written { OnOk result (Holds (contents self.new) name.now bytes.now) }
        ensures others { ChangesOnly (contents self.old) (contents self.new) name.now }
        ensures memory { result ≡ Err stop.NoMemory → contents self.new ≡ contents self.old }
        ensures cause { HasWriteCause (faults self.old) (faults self.new) result }
        ensures writes { CountsWrite result (writes self.old) (writes self.new) }
        ensures stands { result ≡ Err stop.Failed → (contents self.new ≡ contents self.old)
            ⊎ Rose (writes self.old).torn (writes self.new).torn }
        ensures spares { (access : Access) → access ≢ Overwrites name.now → spares self.old self.new access };

    /// Makes the file anew, of a frame's bytes with pieces of files between them. Each stands behind as
    /// many more of the frame as it says (or as there are), and last comes what is left of the frame.
    /// The pieces are those that the files had before, also where the made file is one of them. Files
    /// that are not told stay so.
    ///
    /// `Unread` is for a piece that can't be read: the files are as they were, and no write is counted.
    /// `Failed` is for a file that can't be written. No other name has changed then, and this one is as it
    /// was, unless a file may have been torn, which is counted. Want of memory, which may be taken from
    /// `alloc`, leaves the files as they were.
    fn write_joined(
        &mut self,
        alloc: Global,
        name: &str,
        frame: &[u8],
        pieces: &[Piece<'_>],
    ) -> Result<(), JoinStop>
        requires { All (HasPiece (contents self.old)) pieces.now }
        ensures written { OnOk result (HoldsJoined (contents self.old) (contents self.new) name.now frame.now pieces.now) }
        ensures others { ChangesOnly (contents self.old) (contents self.new) name.now }
        ensures unread { result ≡ Err join.Unread → contents self.new ≡ contents self.old }
        ensures memory { result ≡ Err join.NoMemory → contents self.new ≡ contents self.old }
        ensures cause { HasWriteCause (faults self.old) (faults self.new) (as_write result) }
        ensures writes { CountsJoin result (writes self.old) (writes self.new) }
        ensures stands { result ≡ Err join.Failed → (contents self.new ≡ contents self.old)
            ⊎ Rose (writes self.old).torn (writes self.new).torn }
        ensures spares { (access : Access) → access ≢ Makes name.now → AsksNoPiece pieces.now access
            → spares self.old self.new access };

    /// The contents are told at each time, or never.
    ghost steady: { (f : Self) → is_some (contents f) ≡ tells };

    /// Where no call is made each access is spared.
    ghost at_rest: { (f : Self) (access : Access) → spares f f access };

    /// Where calls are made one after the other, an access that all of them spare.
    ghost joins: { (f g h : Self) (access : Access) → spares f g access → spares g h access → spares f h access };
}
