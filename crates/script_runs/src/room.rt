//! The room for the turns of a run and for their lines.
ghost use Rattle.std.specs.Prelude.{◌≡◌, [], IfOk, length};
ghost use Rattle.fwu_journal.specs.Room.{HasRoom};
ghost use Rattle.fwu_journal.specs.Shown.{HasRoomFor, turns};
ghost use Rattle.fwu_journal.specs.declared.line.TheConstants.{LINE_ROOM};

use fwu_journal::{Journal, LINE_ROOM};
use script_text::Script;
use std::alloc::{AllocError, Global};

/// An empty journal with room for so many turns, and an empty text with room for the line of each.
#[derive(Drop)]
pub struct Room {
    pub journal: Journal,
    pub text: Vec<u8>,
    ghost no_turns: { turns journal ≡ [] },
    ghost no_text: { text.items ≡ [] },
    ghost line_fits: { HasRoom text LINE_ROOM },
}

impl Room {
    /// Takes the memory for all.
    pub fn make(alloc: Global, count: usize) -> Result<Room, AllocError>
        ensures { IfOk result (λ room. HasRoomFor room.journal count) }
    {
        Ok(Room {
            journal: Journal::with_room(alloc, count)?,
            text: Vec::with_capacity(alloc, LINE_ROOM)?,
        })
    }
}

/// A script, and the room for all its turns.
#[derive(Drop)]
pub struct Ready {
    pub script: Script,
    pub room: Room,
    ghost turns_fit: { HasRoomFor room.journal (length script) },
}
