//! The files of the system.

ghost use Rattle.std.specs.Prelude.{◌≡◌, ◌+◌, ◌≤◌, false, refl, None, Err, IfOk, OnErr, OnOk, drop, length, take, vec_capacity, vec_len};
ghost use Rattle.std.proofs.Common.{◌∙◌};
ghost use Rattle.std.specs.Io.KnownBytes.{Appends};
ghost use Rattle.host_io.specs.Calls.{CountsJoin, CountsWrite, as_write};
ghost use Rattle.host_io.specs.Causes.{CountsFault, HasWriteCause};
ghost use Rattle.host_io.specs.Joined.{AppendsJoined, AppendsPiece, AppendsSome};
ghost use Rattle.host_io.specs.declared.stops.WriteStop.TheVariants as stop;

use crate::files::Files;
use crate::joining::Piece;
use crate::kept_file::KeptFile;
use crate::stops::{Failed, JoinStop, WriteStop};
use crate::writes::Writes;
use std::alloc::{AllocError, Global};
use std::fs::{File, Metadata, OpenFile, OpenOptions};
use std::io::{Read, Seek, SeekFrom, Write};
use std::marker::Model;
use std::os::unix::fs::MetadataExt;
use std::path::Path;
use std::{fs, io};

// How many bytes are read at a time to be added to others, or written: few enough that they are still
// in the processor's cache then. To add them costs less than a first fill of their place with zeros.
const ROOM: usize = 65536;

// How many names a new file may have before it takes its place. The first is taken that no file has; what
// a killed run leaves is never written over.
const FRESH: u32 = 1000;

// Fills the piece with the next bytes of the file, and adds them to those that were read.
fn read_piece<F: Read>(file: &mut F, piece: &mut [u8], out: &mut Vec<u8>) -> io::Result<()>
    requires { vec_len out.old + length piece.old ≤ vec_capacity out.old }
    ensures front { take (vec_len out.old) out.new.items ≡ out.old.items }
    ensures grown { OnOk result (vec_len out.new ≡ vec_len out.old + length piece.old) }
    ensures longer { vec_len out.old ≤ vec_len out.new }
    ensures capacity { vec_capacity out.old ≤ vec_capacity out.new }
{
    file.read_exact(piece)?;
    out.extend_from_slice(piece)?;
    Ok(())
}

// Writes bytes of a file that is made.
fn put<W: Write>(bytes: &[u8], into: &mut W) -> Result<(), JoinStop>
    ensures { OnOk result (Appends (W.contents into.old) (W.contents into.new) bytes.now) }
{
    into.write_all(bytes).map_err(|_| JoinStop::Failed)
}

// Fills the room with the next bytes of the file, and writes them.
fn copy_piece<F: Read, W: Write>(
    file: &mut F,
    room: &mut [u8],
    into: &mut W,
) -> Result<(), JoinStop>
    ensures copied { OnOk result (AppendsSome (W.contents into.old) (W.contents into.new) (length room.old)) }
{
    file.read_exact(room).map_err(|_| JoinStop::Unread)?;
    put(room, into)
}

// How many bytes a file that is made has.
fn size_of(frame: &[u8], pieces: &[Piece<'_>]) -> usize {
    let mut size = frame.len();
    for piece in pieces {
        size = size.saturating_add(piece.count as usize);
    }
    size
}

// A name for a new file that is to take the place of one of this name: with `.new` behind it, `.new1`
// and so on.
fn fresh_name(alloc: Global, name: &str, number: u32) -> Result<String, AllocError> {
    if number == 0 {
        return format!(in alloc; "{name}.new");
    }
    format!(in alloc; "{name}.new{number}")
}

// The folder that a file of this name stands in.
fn folder_of(name: &str) -> &str {
    match Path::new(name).parent() {
        Some(folder) if !folder.as_os_str().is_empty() => folder.as_os_str(),
        _ => ".",
    }
}

// Where a file ends that ended here, behind this piece and its gap, counted around the greatest usize.
fn end_behind(end: usize, piece: &Piece<'_>) -> usize {
    end.wrapping_add(piece.gap)
        .wrapping_add(piece.count as usize)
}

// Whether a file is a regular one of no other name, which a new file may replace.
fn is_alone(found: &Metadata) -> bool {
    found.is_file() && found.nlink() == 1
}

// Whether both files belong to the same user and group.
fn same_owner(one: &Metadata, other: &Metadata) -> bool {
    one.uid() == other.uid() && one.gid() == other.gid()
}

/// The files of the system. They tell nothing of their contents. Each error is a fault, and so is a
/// name that no file has, and a range outside the file. So is a name that a folder, a pipe or a
/// device has, whose size says nothing of what it would give.
///
/// The file that `read_at` read last stays open for the next such read of its name, until a size is asked
/// for, or a file is written. So a file that takes its name meanwhile is not read before that.
#[derive(Drop)]
pub struct HostFiles<R: std::rt::Files> {
    rt: R,
    faults: u64,
    writes: Writes,
    kept: Option<KeptFile<R::File>>,
}

impl<R: std::rt::Files> Model for HostFiles<R> {
    ghost use Rattle.host_io.specs.Held.{AdaptedFiles};

    ghost Value = { AdaptedFiles R };

    ghost view = { λ f. record { inner = f.rt; faults = f.faults; writes = f.writes } };
}

impl<R: std::rt::Files> HostFiles<R> {
    /// The files that this runtime reaches.
    pub fn new(rt: R) -> HostFiles<R>
        ensures { result ≡ record { inner = rt; faults = 0; writes = record { done = 0; failed = 0; torn = 0 } } }
    {
        HostFiles {
            rt,
            faults: 0,
            writes: Writes::none(),
            kept: None,
        }
    }

    // Counts a fault.
    fn fail(&mut self) -> Failed
        ensures faults { self.new ≡ record self.old { faults = self.new.faults } }
        ensures fault { CountsFault self.old.faults self.new.faults }
    {
        self.faults = self.faults.saturating_add(1);
        Failed
    }

    // Counts a joined write that ended so, and tore no file.
    fn count_write(&mut self, end: Result<(), JoinStop>) -> Result<(), JoinStop>
        ensures end { result ≡ end }
        ensures cause { HasWriteCause self.old.faults self.new.faults (as_write result) }
        ensures writes { CountsJoin result self.old.writes self.new.writes }
        ensures inner { self.new.inner ≡ self.old.inner }
    {
        match end {
            Ok(()) => self.writes.pass(),
            Err(JoinStop::Unread) => {
                self.fail();
            }
            Err(JoinStop::Failed) => {
                self.fail();
                self.writes.fail();
            }
            Err(JoinStop::NoMemory) => {}
        }
        end
    }

    // The file, at this place. What is no regular file, and a place behind its end, is an error.
    fn open_at(&self, name: &str, at: u64) -> io::Result<R::File> {
        let mut file = fs::open(&self.rt, name)?;
        let found = file.metadata()?;
        if !found.is_file() || at > found.len() {
            return Err(io::Error::from(io::ErrorKind::InvalidInput));
        }
        file.seek(SeekFrom::Start(at))?;
        Ok(file)
    }

    // Fills `out` with the bytes from place `at` on, of the file that is kept where it has this name. A
    // range outside the file is an error, an empty one too.
    fn fill(&mut self, name: &str, at: u64, out: &mut [u8]) -> io::Result<()>
        ensures same { self.new ≡ self.old }
    {
        if out.is_empty() {
            let _file = self.open_at(name, at)?;
            return Ok(());
        }
        if let Some(kept) = &mut self.kept {
            if kept.is_named(name) {
                return kept.read_at(at, out);
            }
        }
        let mut file = self.open_at(name, at)?;
        file.read_exact(out)?;
        self.kept = KeptFile::new(file, name);
        Ok(())
    }

    // Adds the bytes from place `at` on at the end of a list that has the room for them. A range
    // outside the file is an error, which leaves some of the bytes there.
    fn append(&self, name: &str, at: u64, count: usize, out: &mut Vec<u8>) -> io::Result<()>
        requires { vec_len out.old + count ≤ vec_capacity out.old }
        ensures front { take (vec_len out.old) out.new.items ≡ out.old.items }
        ensures grown { OnOk result (vec_len out.new ≡ vec_len out.old + count) }
        ensures longer { vec_len out.old ≤ vec_len out.new }
        ensures capacity { vec_capacity out.old ≤ vec_capacity out.new }
    {
        let mut file = self.open_at(name, at)?;
        let mut piece = [0; ROOM];
        let mut left = count;
        while left > 0 {
            let size = left.min(ROOM);
            read_piece(&mut file, &mut piece[..size], out)?;
            left -= size;
        }
        Ok(())
    }

    // Writes a piece behind what ends at this place. Each write but the last ends at a multiple of the
    // room, so that no block of the system's is written in two halves.
    fn copy<W: Write>(
        &self,
        piece: &Piece<'_>,
        end: usize,
        room: &mut [u8; ROOM],
        into: &mut W,
    ) -> Result<(), JoinStop>
        ensures copied { OnOk result (AppendsSome (W.contents into.old) (W.contents into.new) piece.now.count) }
    {
        let mut file = self
            .open_at(piece.file, piece.at)
            .map_err(|_| JoinStop::Unread)?;
        let mut left = piece.count;
        let mut most = ROOM - end % ROOM;
        while left > 0 {
            let size = left.min(most as u64);
            copy_piece(&mut file, &mut room[..size as usize], into)?;
            left -= size;
            most = ROOM;
        }
        Ok(())
    }

    // Writes the next bytes of the frame, and the piece behind them, behind what ends at this place. Gives
    // what is left of the frame.
    fn add_piece<'a, W: Write>(
        &self,
        frame: &'a [u8],
        piece: &Piece<'_>,
        end: usize,
        room: &mut [u8; ROOM],
        into: &mut W,
    ) -> Result<&'a [u8], JoinStop>
        ensures added { OnOk result (AppendsPiece (W.contents into.old) (W.contents into.new) frame.now piece.now) }
        ensures left { IfOk result (λ left. left.now ≡ drop piece.now.gap frame.now) }
    {
        let (front, rest) = frame.split_at(piece.gap.min(frame.len()));
        put(front, into)?;
        self.copy(piece, end.wrapping_add(front.len()), room, into)?;
        Ok(rest)
    }

    // Writes the frame with the pieces between its bytes.
    fn join<W: Write>(
        &self,
        frame: &[u8],
        pieces: &[Piece<'_>],
        into: &mut W,
    ) -> Result<(), JoinStop>
        ensures joined { OnOk result (AppendsJoined (W.contents into.old) (W.contents into.new) frame.now pieces.now) }
    {
        let mut room = [0; ROOM];
        let mut left = frame;
        let mut end = 0;
        for piece in pieces {
            left = self.add_piece(left, piece, end, &mut room, into)?;
            end = end_behind(end, piece);
        }
        put(left, into)
    }

    // Gives a new file the mode of the one that it is to replace, where both have the same owner and
    // group and may have the same mode. It says whether. That the old one can't be written is an
    // error.
    fn give_mode(&self, name: &str, file: &R::File, old: &Metadata) -> io::Result<bool> {
        let found = file.metadata()?;
        if !same_owner(&found, old) {
            return Ok(false);
        }
        let _old = OpenOptions::new().write(true).open(&self.rt, name)?;
        Ok(found.mode() == old.mode() || file.set_permissions(old.permissions()).is_ok())
    }

    // Whether a new file may take this name: no file has it, or one that may be replaced.
    fn is_replaceable(&self, name: &str) -> bool {
        match fs::symlink_metadata(&self.rt, name) {
            Ok(old) => is_alone(&old),
            Err(e) => e.kind() == io::ErrorKind::NotFound,
        }
    }

    // Whether the new file may take this name. It has the mode of the old one then.
    fn prepare(&self, name: &str, file: &R::File) -> io::Result<bool> {
        match fs::symlink_metadata(&self.rt, name) {
            Ok(old) if is_alone(&old) => self.give_mode(name, file, &old),
            Ok(_) => Ok(false),
            Err(e) => Ok(e.kind() == io::ErrorKind::NotFound),
        }
    }

    // Puts the new name of a file on the disk. Where its folder can't be opened or synced, a loss of power
    // may leave the old file, as whole as the new one.
    fn sync_folder(&self, name: &str) {
        if let Ok(folder) = fs::open(&self.rt, folder_of(name)) {
            let _ = folder.sync_all();
        }
    }

    // Fills the new file `fresh`, and gives it the name of the old one, where it may have that. An error
    // that the system tells only when the file is on the disk comes before the old file goes.
    fn complete(
        &self,
        name: &str,
        fresh: &str,
        file: &mut R::File,
        frame: &[u8],
        pieces: &[Piece<'_>],
    ) -> Result<bool, JoinStop> {
        if !self.prepare(name, file).map_err(|_| JoinStop::Failed)? {
            return Ok(false);
        }
        self.join(frame, pieces, file)?;
        file.sync_data().map_err(|_| JoinStop::Failed)?;
        if fs::rename(&self.rt, fresh, name).is_err() {
            return Ok(false);
        }
        self.sync_folder(name);
        Ok(true)
    }

    // Makes the file by a new one, `fresh`, that takes its place, or says that none can. Where it does
    // not, the new file is removed, if that can be done.
    fn replace(
        &self,
        name: &str,
        fresh: &str,
        file: &mut R::File,
        frame: &[u8],
        pieces: &[Piece<'_>],
    ) -> Result<bool, JoinStop> {
        let replaced = self.complete(name, fresh, file, frame, pieces);
        if !matches!(replaced, Ok(true)) {
            let _ = fs::remove_file(&self.rt, fresh);
        }
        replaced
    }

    // Writes over all of a file where it stands, or makes it, and counts that. One that was opened and not
    // filled may be torn.
    fn write_over(&mut self, name: &str, bytes: &[u8]) -> Result<(), WriteStop>
        ensures failed { OnErr result (result ≡ Err stop.Failed) }
        ensures cause { HasWriteCause self.old.faults self.new.faults result }
        ensures writes { CountsWrite result self.old.writes self.new.writes }
        ensures inner { self.new.inner ≡ self.old.inner }
    {
        let Ok(mut file) = fs::create(&self.rt, name) else {
            self.fail();
            self.writes.fail();
            return Err(WriteStop::Failed);
        };
        match self.fill_whole(&mut file, bytes) {
            Ok(()) => {
                self.writes.pass();
                Ok(())
            }
            Err(_) => {
                self.fail();
                self.writes.tear();
                Err(WriteStop::Failed)
            }
        }
    }

    // Writes the bytes of a new file. A regular one is put on the disk, so that an error that the system
    // tells only then comes here.
    fn fill_whole(&self, file: &mut R::File, bytes: &[u8]) -> io::Result<()> {
        file.write_all(bytes)?;
        if file.metadata()?.is_file() {
            file.sync_data()?;
        }
        Ok(())
    }

    // The frame with the pieces between its bytes, in memory.
    fn joined(
        &self,
        alloc: Global,
        frame: &[u8],
        pieces: &[Piece<'_>],
    ) -> Result<Vec<u8>, JoinStop> {
        let mut bytes = Vec::with_capacity(alloc, size_of(frame, pieces))?;
        self.join(frame, pieces, &mut bytes)?;
        Ok(bytes)
    }

    // A new file beside one of this name, and its own name, or none where none can be made. That all names
    // are taken is an error: the old file is not to be torn since runs were killed.
    fn fresh_file(&self, alloc: Global, name: &str) -> Result<Option<(String, R::File)>, JoinStop> {
        for number in 0..FRESH {
            let fresh = fresh_name(alloc, name, number)?;
            match File::create_new(&self.rt, fresh.as_str()) {
                Ok(file) => return Ok(Some((fresh, file))),
                Err(e) if e.kind() == io::ErrorKind::AlreadyExists => {}
                Err(_) => return Ok(None),
            }
        }
        Err(JoinStop::Failed)
    }

    // Makes the file by a new one, or says that none can take its place.
    fn make_beside(
        &self,
        alloc: Global,
        name: &str,
        frame: &[u8],
        pieces: &[Piece<'_>],
    ) -> Result<bool, JoinStop> {
        if !self.is_replaceable(name) {
            return Ok(false);
        }
        let Some((fresh, mut file)) = self.fresh_file(alloc, name)? else {
            return Ok(false);
        };
        self.replace(name, fresh.as_str(), &mut file, frame, pieces)
    }

    // Makes the file by a new one. Where none can take its place, gives the bytes that it is to be made of
    // where it stands: from memory, since it may be among those of the pieces.
    fn make(
        &self,
        alloc: Global,
        name: &str,
        frame: &[u8],
        pieces: &[Piece<'_>],
    ) -> Result<Option<Vec<u8>>, JoinStop> {
        if self.make_beside(alloc, name, frame, pieces)? {
            return Ok(None);
        }
        Ok(Some(self.joined(alloc, frame, pieces)?))
    }
}

impl<R: std::rt::Files> Files for HostFiles<R> {
    ghost tells = { false };

    ghost steady = { λ _. refl };

    ghost contents = { λ _. None };

    ghost faults = { λ f. f.faults };

    ghost writes = { λ f. f.writes };

    /// What a call asks of the system no clause can tell. So of each access this alone is said: the runtime
    /// stays. The calls below promise that by it.
    ghost spares = { λ old new _. new.inner ≡ old.inner };

    ghost at_rest = { λ _ _. refl };

    ghost joins = { λ _ _ _ _ first next. next ∙ first };

    /// `Ok` always holds a size.
    fn size(&mut self, name: &str) -> Result<Option<u64>, Failed> {
        self.kept = None;
        match fs::metadata(&self.rt, name) {
            Ok(found) if found.is_file() => Ok(Some(found.len())),
            _ => Err(self.fail()),
        }
    }

    fn read_at(&mut self, name: &str, at: u64, out: &mut [u8]) -> Result<(), Failed> {
        match self.fill(name, at, out) {
            Ok(()) => Ok(()),
            Err(_) => Err(self.fail()),
        }
    }

    fn read_onto(
        &mut self,
        name: &str,
        at: u64,
        count: usize,
        out: &mut Vec<u8>,
    ) -> Result<(), Failed> {
        let before = out.len();
        match self.append(name, at, count, out) {
            Ok(()) => Ok(()),
            Err(_) => {
                out.truncate(before);
                Err(self.fail())
            }
        }
    }

    /// Besides what the trait says, each `Err` is `Failed`. A file that could be opened may be torn then.
    fn write_whole(&mut self, name: &str, bytes: &[u8]) -> Result<(), WriteStop>
        ensures failed { OnErr result (result ≡ Err stop.Failed) }
        ensures cause { HasWriteCause self.old.faults self.new.faults result }
        ensures writes { CountsWrite result self.old.writes self.new.writes }
        ensures inner { self.new.inner ≡ self.old.inner }
    {
        self.kept = None;
        self.write_over(name, bytes)
    }

    /// By tests, and by no clause: a new file takes the name once it is whole and on the disk. Its own
    /// name has `.new` behind, or `.new1` up to `.new999` where files of these names are there. It has the
    /// old one's mode, and no other rights of it. So where this fails the old file is still there; that
    /// it can't be written, or that all names are taken, is an error.
    ///
    /// A link, a file of two names or of another user or group, and what is no regular file is written
    /// where it stands, once all is read. So is one beside which no new file can be made or that can't be
    /// replaced. It may be torn then, where it was opened and not filled. So a piece that can't be read
    /// tears no file. Such a piece is one whose file can't be opened or is no regular one, whose place is
    /// behind the file's end, or whose bytes can't all be read.
    fn write_joined(
        &mut self,
        alloc: Global,
        name: &str,
        frame: &[u8],
        pieces: &[Piece<'_>],
    ) -> Result<(), JoinStop> {
        self.kept = None;
        match self.make(alloc, name, frame, pieces) {
            Ok(None) => self.count_write(Ok(())),
            Ok(Some(bytes)) => self
                .write_over(name, bytes.as_slice())
                .map_err(|_| JoinStop::Failed),
            Err(stop) => self.count_write(Err(stop)),
        }
    }
}
