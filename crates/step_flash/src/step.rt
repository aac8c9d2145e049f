//! Steps, and the noting of one.
ghost use Rattle.std.specs.Prelude.{◌≡◌, ◌++◌, ◌∷◌, [], ◌≤◌, length, IsTrue, IsFalse};
ghost use Rattle.step_flash.specs.Steps.{NotesBytes, barrier_step, copy_step, erase_step, program_step};

use crate::lent_file::LentFile;
use base_core::BLOCK_BYTES;

/// The kind of an erase.
pub const ERASE: u32 = 1;

/// The kind of a program.
pub const PROGRAM: u32 = 2;

/// The kind of a barrier: what stands before it has to outlive a loss of power before what stands behind it is begun.
pub const BARRIER: u32 = 3;

/// The kind of a copy: a program whose bytes stand in the package.
pub const COPY: u32 = 4;

/// What is to be done to a flash, as it is told to C. Places and lengths are bytes.
#[repr(C)]
#[derive(Clone, Copy)]
pub struct Step {
    /// `ERASE`, `PROGRAM`, `BARRIER` or `COPY`.
    pub kind: u32,
    /// The place in the flash, the start of a block at an erase and of a granule at a program or a copy. 0 at a barrier.
    pub at: u32,
    /// How many bytes: 4096 at an erase, whole granules of 16 bytes at a program or a copy, 0 at a barrier.
    pub length: u32,
    /// Where the bytes of a program stand in the room, or those of a copy in the package. Else 0.
    pub from: u32,
}

/// Notes an erase: whether there was room for it.
pub(crate) fn note_erase(steps: &mut Vec<Step>, most: usize, at: u32) -> bool
    ensures noted { IsTrue result → steps.new.items ≡ steps.old.items ++ erase_step at ∷ [] }
    ensures few { length steps.old.items ≤ most → length steps.new.items ≤ most }
    ensures same { IsFalse result → steps.new.items ≡ steps.old.items }
{
    if steps.len() >= most {
        return false;
    }
    steps
        .push(Step {
            kind: ERASE,
            at,
            length: BLOCK_BYTES,
            from: 0,
        })
        .is_ok()
}

/// Notes a program whose bytes stand in the package from a place on: whether there was room for it.
fn note_copy(steps: &mut Vec<Step>, most: usize, at: u32, from: u32, bytes: &[u8]) -> bool
    ensures noted { IsTrue result → steps.new.items ≡ steps.old.items ++ copy_step at (length bytes.now) from ∷ [] }
    ensures few { length steps.old.items ≤ most → length steps.new.items ≤ most }
    ensures same { IsFalse result → steps.new.items ≡ steps.old.items }
{
    if steps.len() >= most {
        return false;
    }
    let Ok(length) = u32::try_from(bytes.len()) else {
        return false;
    };
    steps
        .push(Step {
            kind: COPY,
            at,
            length,
            from,
        })
        .is_ok()
}

/// Notes a program whose bytes are put into the room: whether there was room for it and them.
fn note_bytes(steps: &mut Vec<Step>, room: &mut Vec<u8>, most: usize, at: u32, bytes: &[u8]) -> bool
    ensures noted { IsTrue result →
        (steps.new.items ≡ steps.old.items ++ program_step at (length bytes.now) (length room.old.items) ∷ [])
        × (room.new.items ≡ room.old.items ++ bytes.now) }
    ensures few { length steps.old.items ≤ most → length steps.new.items ≤ most }
    ensures same { IsFalse result → (steps.new.items ≡ steps.old.items) × (room.new.items ≡ room.old.items) }
{
    if steps.len() >= most {
        return false;
    }
    let start = room.len();
    let (Ok(length), Ok(from)) = (u32::try_from(bytes.len()), u32::try_from(start)) else {
        return false;
    };
    if room.extend_from_slice(bytes).is_err() {
        return false;
    }
    let step = Step {
        kind: PROGRAM,
        at,
        length,
        from,
    };
    if steps.push(step).is_err() {
        room.truncate(start);
        return false;
    }
    true
}

/// Notes a program, as a copy where its bytes are found in the package: whether there was room for it and its bytes.
pub(crate) fn note_program(
    steps: &mut Vec<Step>,
    room: &mut Vec<u8>,
    file: &mut LentFile<'_>,
    most: usize,
    at: u32,
    bytes: &[u8],
) -> bool
    ensures noted { IsTrue result →
        NotesBytes file.old.bytes.now at bytes.now steps.old.items room.old.items steps.new.items room.new.items }
    ensures few { length steps.old.items ≤ most → length steps.new.items ≤ most }
    ensures same { IsFalse result → (steps.new.items ≡ steps.old.items) × (room.new.items ≡ room.old.items) }
    ensures file { file.new.bytes.now ≡ file.old.bytes.now }
{
    match file.find(bytes) {
        Some(from) => note_copy(steps, most, at, from, bytes),
        None => note_bytes(steps, room, most, at, bytes),
    }
}

/// Notes a barrier: whether there was room for it.
pub(crate) fn note_barrier(steps: &mut Vec<Step>, most: usize) -> bool
    ensures noted { IsTrue result → steps.new.items ≡ steps.old.items ++ barrier_step ∷ [] }
    ensures few { length steps.old.items ≤ most → length steps.new.items ≤ most }
    ensures same { IsFalse result → steps.new.items ≡ steps.old.items }
{
    if steps.len() >= most {
        return false;
    }
    steps
        .push(Step {
            kind: BARRIER,
            at: 0,
            length: 0,
            from: 0,
        })
        .is_ok()
}
