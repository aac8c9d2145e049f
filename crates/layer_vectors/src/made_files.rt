//! Files that are made of a frame and of pieces of others, by the system.

use crate::fixtures::{are_bytes, holds, removed, same};
use host_io::{Files, HostFiles, JoinStop, Piece};
use std::alloc::Global;
use std::fs::{self, Permissions};
use std::os::unix::fs::{PermissionsExt, symlink};
use std::process::Abort;

// The bytes that stand in the pieces' file.
const FROM: &[u8] = b"firmware";

const FROM_NAME: &str = "host_io_from.tmp";

// Three bytes from place 2 on behind the first byte of the frame, and one behind as many as there are.
const PIECES: [Piece<'static>; 2] = [
    Piece {
        gap: 1,
        file: FROM_NAME,
        at: 2,
        count: 3,
    },
    Piece {
        gap: 9,
        file: FROM_NAME,
        at: 7,
        count: 1,
    },
];

const MADE: &[u8] = b"<rmw|>e";

// Pieces that can't be read: one that ends behind the file's end, one that begins there, one of no file, and one of a directory.
const UNREAD: [Piece<'static>; 4] = [
    Piece {
        gap: 1,
        file: FROM_NAME,
        at: 7,
        count: 2,
    },
    Piece {
        gap: 1,
        file: FROM_NAME,
        at: 9,
        count: 0,
    },
    Piece {
        gap: 1,
        file: "host_io_no_file.tmp",
        at: 0,
        count: 1,
    },
    Piece {
        gap: 1,
        file: ".",
        at: 0,
        count: 1,
    },
];

// What becomes of a file that is made of these pieces, by the system.
fn makes<R: std::rt::Files>(
    rt: &impl Abort,
    alloc: Global,
    files: &mut HostFiles<R>,
    name: &str,
    pieces: &[Piece<'_>],
    wanted: Result<(), JoinStop>,
) {
    let made = files.write_joined(alloc, name, b"<|>", pieces);
    same(rt, made, wanted);
}

// The file holds this.
fn is_there<R: std::rt::Files>(
    rt: &impl Abort,
    alloc: Global,
    files: &mut HostFiles<R>,
    name: &str,
    wanted: &[u8],
) {
    let count = wanted.len();
    same(rt, files.size(name), Ok(Some(count as u64)));
    let mut bytes = Vec::with_capacity(alloc, count).expect(rt, "memory");
    same(rt, files.read_onto(name, 0, count, &mut bytes), Ok(()));
    are_bytes(rt, bytes.as_slice(), wanted);
}

// Nothing of this name is there.
fn is_gone(rt: &(impl std::rt::Files + Abort), name: &str) {
    holds(rt, fs::metadata(rt, name).is_err(), name);
}

// No file is made of a piece that can't be read, also behind one that can.
fn stays_unread<R: std::rt::Files>(
    rt: &impl Abort,
    alloc: Global,
    files: &mut HostFiles<R>,
    name: &str,
) {
    for piece in &UNREAD {
        let pieces = [PIECES[0], *piece];
        makes(rt, alloc, files, name, &pieces, Err(JoinStop::Unread));
    }
}

fn writes<R: std::rt::Files>(rt: &impl Abort, files: &mut HostFiles<R>, name: &str, bytes: &[u8]) {
    same(rt, files.write_whole(name, bytes), Ok(()));
}

// A new file, one that is written over, and one that is made of itself. A piece that is not there leaves the old file.
fn replaces<R: std::rt::Files>(
    rt: &(impl std::rt::Files + Abort),
    alloc: Global,
    files: &mut HostFiles<R>,
) {
    stays_unread(rt, alloc, files, "host_io_made.tmp");
    is_gone(rt, "host_io_made.tmp");
    makes(rt, alloc, files, "host_io_made.tmp", &PIECES, Ok(()));
    stays_unread(rt, alloc, files, "host_io_made.tmp");
    is_there(rt, alloc, files, "host_io_made.tmp", MADE);
    is_gone(rt, "host_io_made.tmp.new");
    makes(rt, alloc, files, FROM_NAME, &PIECES, Ok(()));
    is_there(rt, alloc, files, FROM_NAME, MADE);
}

fn made_files<R: std::rt::Files + Drop>(
    rt: &(impl std::rt::Files + Abort),
    alloc: Global,
    runtime: R,
) {
    let mut files = HostFiles::new(runtime);
    writes(rt, &mut files, FROM_NAME, FROM);
    replaces(rt, alloc, &mut files);
    removed(rt, "host_io_made.tmp");
    removed(rt, FROM_NAME);
}

#[test]
fn made_by_the_system(rt: HostRuntime) {
    made_files(&rt, rt.alloc(), &rt);
}

// A file of two names, and one whose place for a new file is taken, are written where they stand.
fn stand<R: std::rt::Files>(
    rt: &(impl std::rt::Files + Abort),
    alloc: Global,
    files: &mut HostFiles<R>,
) {
    fs::hard_link(rt, FROM_NAME, "host_io_name.tmp").expect(rt, "a second name");
    makes(rt, alloc, files, "host_io_name.tmp", &PIECES, Ok(()));
    is_there(rt, alloc, files, FROM_NAME, MADE);
    writes(rt, files, FROM_NAME, FROM);
    writes(rt, files, "host_io_kept.tmp.new", b"another's");
    makes(rt, alloc, files, "host_io_kept.tmp", &PIECES, Ok(()));
    is_there(rt, alloc, files, "host_io_kept.tmp", MADE);
    is_there(rt, alloc, files, "host_io_kept.tmp.new", b"another's");
    makes(
        rt,
        alloc,
        files,
        "host_io_none/file",
        &PIECES,
        Err(JoinStop::Failed),
    );
}

fn standing_files<R: std::rt::Files + Drop>(
    rt: &(impl std::rt::Files + Abort),
    alloc: Global,
    runtime: R,
) {
    let mut files = HostFiles::new(runtime);
    writes(rt, &mut files, FROM_NAME, FROM);
    stand(rt, alloc, &mut files);
    removed(rt, "host_io_kept.tmp");
    removed(rt, "host_io_kept.tmp.new");
    removed(rt, "host_io_name.tmp");
    removed(rt, FROM_NAME);
}

#[test]
fn made_where_they_stand(rt: HostRuntime) {
    standing_files(&rt, rt.alloc(), &rt);
}

// The rights of a file.
fn rights(rt: &(impl std::rt::Files + Abort), name: &str) -> u32 {
    let found = fs::metadata(rt, name).expect(rt, "a file");
    found.permissions().mode() & 0o777
}

// A link stays, and what it names is written, unless a piece can't be read; a new file has the rights of the old one.
fn keeps<R: std::rt::Files>(
    rt: &(impl std::rt::Files + Abort),
    alloc: Global,
    files: &mut HostFiles<R>,
) {
    symlink(rt, FROM_NAME, "host_io_link.tmp").expect(rt, "a link");
    stays_unread(rt, alloc, files, "host_io_link.tmp");
    is_there(rt, alloc, files, FROM_NAME, FROM);
    makes(rt, alloc, files, "host_io_link.tmp", &PIECES, Ok(()));
    let link = fs::symlink_metadata(rt, "host_io_link.tmp").expect(rt, "a link");
    holds(rt, link.is_symlink(), "a link");
    is_there(rt, alloc, files, FROM_NAME, MADE);
    writes(rt, files, FROM_NAME, FROM);
    writes(rt, files, "host_io_old.tmp", b"old");
    fs::set_permissions(rt, "host_io_old.tmp", Permissions::from_mode(0o640)).expect(rt, "rights");
    makes(rt, alloc, files, "host_io_old.tmp", &PIECES, Ok(()));
    same(rt, rights(rt, "host_io_old.tmp"), 0o640);
}

fn kept_files<R: std::rt::Files + Drop>(
    rt: &(impl std::rt::Files + Abort),
    alloc: Global,
    runtime: R,
) {
    let mut files = HostFiles::new(runtime);
    writes(rt, &mut files, FROM_NAME, FROM);
    keeps(rt, alloc, &mut files);
    removed(rt, "host_io_link.tmp");
    removed(rt, "host_io_old.tmp");
    removed(rt, FROM_NAME);
}

#[test]
fn made_with_links_and_rights(rt: HostRuntime) {
    kept_files(&rt, rt.alloc(), &rt);
}
