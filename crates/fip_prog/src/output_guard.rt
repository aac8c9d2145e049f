//! The files of the system, where nothing writes over what the standard output prints.

use std::alloc::Allocator;
use std::fs::{Metadata, OpenOptions};
use std::io;
use std::io::ErrorKind;
use std::os::unix::fs::MetadataExt;
use std::rt::Files;

// The name by which the system tells where the standard output goes.
const OUTPUT: &str = "/dev/stdout";

// Whether both are the same regular file.
fn is_same_file(one: &Metadata, other: &Metadata) -> bool {
    one.is_file() && one.dev() == other.dev() && one.ino() == other.ino()
}

/// The files of a runtime. To open the regular file that the standard output goes to for writing is an
/// error, by whichever name. A line that is printed would lie over what was written, or be lost with the
/// old file. It may be read.
#[derive(Drop)]
pub struct OutputGuard<'a, R: Files> {
    rt: &'a R,
}

impl<'a, R: Files> OutputGuard<'a, R> {
    /// The files of this runtime.
    pub fn new(rt: &'a R) -> OutputGuard<'a, R> {
        OutputGuard { rt }
    }

    // Whether the standard output goes to this file. Where the system doesn't tell, it doesn't.
    fn is_output(&self, path: &str) -> bool {
        match (self.rt.metadata(OUTPUT), self.rt.metadata(path)) {
            (Ok(output), Ok(found)) => is_same_file(&output, &found),
            _ => false,
        }
    }
}

impl<R: Files> Files for OutputGuard<'_, R> {
    type File = R::File;

    type Dir = R::Dir;

    fn open_file(&self, how: &OpenOptions, path: &str) -> io::Result<R::File> {
        if (how.asks_write() || how.asks_append()) && self.is_output(path) {
            return Err(io::Error::from(ErrorKind::PermissionDenied));
        }
        self.rt.open_file(how, path)
    }

    fn open_dir(&self, path: &str) -> io::Result<R::Dir> {
        self.rt.open_dir(path)
    }

    fn metadata(&self, path: &str) -> io::Result<Metadata> {
        self.rt.metadata(path)
    }

    fn symlink_metadata(&self, path: &str) -> io::Result<Metadata> {
        self.rt.symlink_metadata(path)
    }

    fn copy(&self, from: &str, to: &str) -> io::Result<u64> {
        self.rt.copy(from, to)
    }

    fn rename(&self, from: &str, to: &str) -> io::Result<()> {
        self.rt.rename(from, to)
    }

    fn remove_file(&self, path: &str) -> io::Result<()> {
        self.rt.remove_file(path)
    }

    fn create_dir(&self, path: &str) -> io::Result<()> {
        self.rt.create_dir(path)
    }

    fn remove_dir(&self, path: &str) -> io::Result<()> {
        self.rt.remove_dir(path)
    }

    fn remove_dir_all<B: Allocator>(&self, alloc: B, path: &str) -> io::Result<()> {
        self.rt.remove_dir_all(alloc, path)
    }
}
