//! Printed lines that no script gets.

ghost use Rattle.fwu_journal.specs.Shown.{IsShortReply, reply as shown_reply};

use crate::fixtures::are_bytes;
use fwu_journal::{LINE_ROOM, Reply, Turn, add_line};
use fwu_model::Status;
use script_text::Call;
use std::alloc::Global;
use std::process::Abort;

// The call and its reply have this line.
fn has_line(rt: &impl Abort, alloc: Global, call: Call, reply: Reply, wanted: &str)
    requires { IsShortReply (shown_reply reply) }
{
    let mut text = Vec::with_capacity(alloc, LINE_ROOM).expect(rt, "memory");
    let turn = Turn {
        call,
        reply,
        numbers: None,
    };
    add_line(&mut text, &turn);
    are_bytes(rt, text.as_slice(), wanted.as_bytes());
}

#[test]
fn replies_that_no_script_gets_have_their_lines(rt: HostRuntime) {
    let alloc = rt.alloc();
    let none = Reply::NotUnderstood;
    has_line(&rt, alloc, Call::NoCall, none, "no-call NOT_UNDERSTOOD\n");
    let refused = Reply::Refused(Status::NotAvailable);
    let begin = Call::Begin { partial_count: 1 };
    has_line(&rt, alloc, begin, refused, "begin NOT_AVAILABLE\n");
}
