//! One file whose bytes lie in memory.
ghost use Rattle.std.specs.Prelude.{◌≡◌, ⊤, true, refl, Some, option_map};
ghost use Rattle.package_files.specs.OneFile.{package_directory};

use host_io::{Failed, Files, JoinStop, Piece, WriteStop};
use std::alloc::Global;

/// Files of which there is one. Its bytes are read where they lie in memory, and no memory is taken.
///
/// No call fails. A write finds no memory, and changes nothing.
#[derive(Drop)]
pub struct PackageFiles<'a> {
    name: &'a str,
    bytes: &'a [u8],
}

impl<'a> PackageFiles<'a> {
    ghost use Rattle.package_files.specs.OneFile.{one_file};

    /// The files that have these bytes under this name, and no other file.
    pub fn new(name: &'a str, bytes: &'a [u8]) -> PackageFiles<'a>
        ensures { package_directory result ≡ one_file name.now bytes.now }
    {
        PackageFiles { name, bytes }
    }

    /// The bytes of a name.
    fn find(&self, name: &str) -> Option<&'a [u8]>
        ensures { option_map (λ bytes. bytes.now) result ≡ package_directory self.now name.now }
    {
        if self.name == name {
            Some(self.bytes)
        } else {
            None
        }
    }
}

impl<'a> Files for PackageFiles<'a> {
    ghost tells = { true };

    ghost steady = { λ _. refl };

    ghost contents = { λ f. Some (package_directory f) };

    ghost faults = { λ _. 0 };

    ghost writes = { λ _. record { done = 0; failed = 0; torn = 0 } };

    ghost spares = { λ _ _ _. ⊤ };

    ghost at_rest = { λ _ _. tt };

    ghost joins = { λ _ _ _ _ _ _. tt };

    fn size(&mut self, name: &str) -> Result<Option<u64>, Failed> {
        Ok(self.find(name).map(|bytes| bytes.len() as u64))
    }

    fn read_at(&mut self, name: &str, at: u64, out: &mut [u8]) -> Result<(), Failed> {
        if let Some(bytes) = self.find(name) {
            let start = at as usize;
            out.copy_from_slice(&bytes[start..start + out.len()]);
        }
        Ok(())
    }

    fn read_onto(
        &mut self,
        name: &str,
        at: u64,
        count: usize,
        out: &mut Vec<u8>,
    ) -> Result<(), Failed> {
        if let Some(bytes) = self.find(name) {
            let start = at as usize;
            out.extend_from_slice(&bytes[start..start + count]).unwrap();
        }
        Ok(())
    }

    fn write_whole(&mut self, _name: &str, _bytes: &[u8]) -> Result<(), WriteStop> {
        Err(WriteStop::NoMemory)
    }

    fn write_joined(
        &mut self,
        _alloc: Global,
        _name: &str,
        _frame: &[u8],
        _pieces: &[Piece<'_>],
    ) -> Result<(), JoinStop> {
        Err(JoinStop::NoMemory)
    }
}
