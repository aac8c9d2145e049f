//! One file in memory, none of whose calls fails.
ghost use Rattle.std.specs.Prelude.{◌≡◌, ◌⊎◌, ◌+◌, ◌≤◌, true, refl, [], ◌∷◌, Some, Err, IfOk, OnOk, OnErr, length, ⊤};
ghost use Rattle.std.specs.Prelude.{string_bytes, vec_capacity, vec_len};
ghost use Rattle.base_core.specs.Counts.{Rose};
ghost use Rattle.host_io.specs.Calls.{CountsWrite, failures, write_failures};
ghost use Rattle.host_io.specs.Causes.{HasCause, HasWriteCause};
ghost use Rattle.host_io.specs.Contents.{AddsRange, ChangesOnly, HasRange, Holds, TellsRange, TellsSize, bytes_in};
ghost use Rattle.host_io.specs.Joined.{HasPiece, HoldsJoined};
ghost use Rattle.host_io.specs.declared.stops.WriteStop.TheVariants as stop;

use host_io::{Failed, Files, JoinStop, Piece, WriteStop};
use std::alloc::Global;

/// One file in memory. It is read alone: there is no room for another.
#[derive(Drop)]
pub struct OneFile {
    pub name: String,
    pub bytes: Vec<u8>,
}

impl Files for OneFile {
    ghost tells = { true };

    ghost steady = { λ _. refl };

    ghost contents = { λ f. Some (bytes_in ((string_bytes f.name, f.bytes.items) ∷ [])) };

    ghost faults = { λ _. 0 };

    ghost writes = { λ _. record { done = 0; failed = 0; torn = 0 } };

    ghost spares = { λ _ _ _. ⊤ };

    ghost at_rest = { λ _ _. tt };

    ghost joins = { λ _ _ _ _ _ _. tt };

    fn size(&mut self, name: &str) -> Result<Option<u64>, Failed> {
        if self.name.as_str() == name {
            Ok(Some(self.bytes.len() as u64))
        } else {
            Ok(None)
        }
    }

    fn read_at(&mut self, _name: &str, at: u64, out: &mut [u8]) -> Result<(), Failed> {
        let start = at as usize;
        let count = out.len();
        out.copy_from_slice(&self.bytes[start..start + count]);
        Ok(())
    }

    fn read_onto(
        &mut self,
        _name: &str,
        at: u64,
        count: usize,
        out: &mut Vec<u8>,
    ) -> Result<(), Failed> {
        let start = at as usize;
        out.extend_from_slice(&self.bytes[start..start + count])
            .unwrap();
        Ok(())
    }

    fn write_whole(&mut self, _name: &str, _bytes: &[u8]) -> Result<(), WriteStop> {
        Err(WriteStop::NoMemory)
    }

    fn write_joined(
        &mut self,
        _alloc: Global,
        _name: &str,
        _frame: &[u8],
        _pieces: &[Piece<'_>],
    ) -> Result<(), JoinStop> {
        Err(JoinStop::NoMemory)
    }
}
