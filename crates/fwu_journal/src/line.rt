//! The printed line of a turn, in room that was made before. Nothing here takes memory.
ghost use Rattle.fwu_model.specs.Text.{line};
ghost use Rattle.fwu_journal.specs.Room.{Grows, HasRoom};
ghost use Rattle.fwu_journal.specs.Shown.{IsShortReply, reply, turn};

use crate::adding::add;
use crate::journal::Turn;
use crate::replies::add_reply;
use crate::words::add_call;

/// Bytes that are enough for each line whose reply is short.
pub const LINE_ROOM: usize = 8_228;

/// Adds a turn's line: the word of its call, a space, the reply, and 0x0A.
#[tactic(auto, unfolding(fwu_model::specs::Text::line))]
pub fn add_line(text: &mut Vec<u8>, next: &Turn)
    requires room { HasRoom text.old LINE_ROOM }
    requires short { IsShortReply (turn next.now).reply }
    ensures { Grows text.old text.new (line (turn next.now).call (turn next.now).reply) }
{
    add_call(text, &next.call);
    add(text, b" ");
    add_reply(text, &next.reply);
    add(text, b"\n")
}
