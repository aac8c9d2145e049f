//! The side that answers: which request acts, and the reply that is kept.
ghost use Rattle.std.specs.Prelude.{◌≡◌, ◌≤◌, length};
ghost use Rattle.wire_frames.specs.Exchange.{admission, none_yet};
ghost use Rattle.wire_frames.specs.Frames.{PutsFront};

use crate::kept::KeptFrame;
use std::marker::Model;

/// What becomes of a request, by its number.
#[derive(Clone, Copy, Debug, PartialEq, Eq)]
pub enum Admission {
    /// Its number is the next one.
    Acts,
    /// It has the number of the last one that acted, which isn't 0.
    Repeats,
    /// It has another number.
    Ignored,
}

/// The number of the last request that acted, and the frame of its reply: at first 0, and no frame. Behind request
/// 4,294,967,295 no other acts.
#[derive(Drop)]
pub struct Exchange {
    last: u32,
    reply: KeptFrame,
}

impl Model for Exchange {
    ghost use Rattle.wire_frames.specs.Exchange.{LastAnswer};

    ghost Value = { LastAnswer };

    ghost view = { λ e. record { last = e.last; reply = e.reply } };
}

impl Exchange {
    /// No request acted yet.
    pub fn new() -> Exchange
        ensures { result ≡ none_yet }
    {
        Exchange {
            last: 0,
            reply: KeptFrame::new(),
        }
    }

    /// What becomes of a request of this number. Nothing is changed by it: `keep` is called once the request has acted.
    pub fn admit(&self, number: u32) -> Admission
        ensures { result ≡ admission self.now.last number }
    {
        if number as u64 == self.last as u64 + 1 {
            Admission::Acts
        } else if number == self.last && number != 0 {
            Admission::Repeats
        } else {
            Admission::Ignored
        }
    }

    /// Copies the frame of the last reply to the front of `out`, and gives its length in bytes.
    pub fn repeat(&self, out: &mut [u8]) -> usize
        requires { 4112 ≤ length out.old }
        ensures puts { PutsFront result self.now.reply out.old out.new }
        ensures few { result ≤ 4112 }
    {
        self.reply.copy_to(out)
    }

    /// Keeps the frame of the reply to the request of this number, which acted.
    pub fn keep(&mut self, number: u32, reply: &[u8])
        requires { length reply.now ≤ 4112 }
        ensures { self.new ≡ record { last = number; reply = reply.now } }
    {
        self.last = number;
        self.reply.keep(reply);
    }
}
