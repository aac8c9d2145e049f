//! What stops a run, and the words, files and flashes that one begins with.
ghost use Rattle.std.specs.Prelude.{◌≡◌, IfOk, IsFalse, None};
ghost use Rattle.flash_devices.specs.Memory.{is_on, arming_of};

use crate::stops::NotMade;
use flash_devices::{Cut, MemoryFlash};
use host_io::MemoryFiles;
use std::alloc::Global;

/// What stops a run: a cut, or the failure of one call, each by its number from 1 on. Number 0 is none.
#[derive(Clone, Copy)]
pub struct Trouble {
    pub cut: Cut,
    pub flash: u64,
    pub files: u64,
    pub source: u64,
    pub sink: u64,
}

const NO_CUT: Cut = Cut {
    op: 0,
    landed: 0,
    back: false,
};

/// Nothing stops the run.
pub const NO_TROUBLE: Trouble = Trouble {
    cut: NO_CUT,
    flash: 0,
    files: 0,
    source: 0,
    sink: 0,
};

/// The words of a line.
pub fn words_of(alloc: Global, line: &str) -> Result<Vec<String>, NotMade> {
    let mut words = Vec::new(alloc);
    for word in line.split(' ') {
        let word = String::from_str(alloc, word)?;
        if words.push(word).is_err() {
            return Err(NotMade);
        }
    }
    Ok(words)
}

/// The list of one.
pub fn only<T: Copy>(alloc: Global, one: T) -> Result<Vec<T>, NotMade> {
    let mut list = Vec::new(alloc);
    match list.push(one) {
        Ok(()) => Ok(list),
        Err(_) => Err(NotMade),
    }
}

/// A file, by its name.
pub type Named = (String, Vec<u8>);

/// Adds a file.
pub fn add_file(
    alloc: Global,
    files: &mut Vec<Named>,
    name: &str,
    bytes: Vec<u8>,
) -> Result<(), NotMade> {
    let name = String::from_str(alloc, name)?;
    match files.push((name, bytes)) {
        Ok(()) => Ok(()),
        Err(_) => Err(NotMade),
    }
}

/// This file and no other.
pub fn one_file(alloc: Global, name: &str, bytes: Vec<u8>) -> Result<Vec<Named>, NotMade> {
    let mut files = Vec::new(alloc);
    add_file(alloc, &mut files, name, bytes)?;
    Ok(files)
}

/// These files in memory, of which the call of this number fails.
pub fn files_of(alloc: Global, files: Vec<Named>, fails: u64) -> Result<MemoryFiles, NotMade> {
    Ok(MemoryFiles::new(alloc, files, only(alloc, fails)?))
}

/// A flash with these bytes, off.
pub fn flash_of(alloc: Global, image: Vec<u8>, trouble: &Trouble) -> Result<MemoryFlash, NotMade>
    ensures off { IfOk result (λ flash. IsFalse (is_on flash)) }
    ensures unarmed { IfOk result (λ flash. arming_of flash ≡ None) }
{
    let cuts = Vec::from_slice(alloc, &[trouble.cut])?;
    let faults = only(alloc, trouble.flash)?;
    match MemoryFlash::from_bytes(alloc, image, cuts, faults) {
        Ok(flash) => Ok(flash),
        Err(_) => Err(NotMade),
    }
}
