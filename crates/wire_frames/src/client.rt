//! The side that asks.
ghost use Rattle.std.specs.Prelude.{◌≡◌, ◌≤◌, IsTrue, length};
ghost use Rattle.wire_frames.specs.Exchange.{AsksFrame, with_request, asked_none, closed, fits, may_ask};
ghost use Rattle.wire_frames.specs.Frames.{PutsFront};

use crate::frames::{number_of, put_message};
use crate::kept::KeptFrame;
use std::marker::Model;

/// What came of asking.
#[derive(Clone, Copy, Debug, PartialEq, Eq)]
pub enum Asked {
    /// The frame of the request, of so many bytes, is to be sent.
    Frame(u32),
    /// A request is open, or the numbers are used up.
    Waiting,
}

/// The side that asks: one request at a time, numbered from 1 to 4,294,967,295. It keeps the frame of the last one.
#[derive(Drop)]
pub struct Client {
    last: u32,
    waits: bool,
    request: KeptFrame,
}

impl Model for Client {
    ghost use Rattle.std.specs.Prelude.{◌≡◌, ◌<◌, ◌≤◌, ℕ, true};
    ghost use Rattle.wire_frames.specs.Exchange.{Asking};

    ghost Value = { Asking };

    ghost view = { λ c. record { last = c.last; is_open = c.waits; request = c.request } };
}

impl Client {
    /// No request was asked yet.
    pub fn new() -> Client
        ensures { result ≡ asked_none }
    {
        Client {
            last: 0,
            waits: false,
            request: KeptFrame::new(),
        }
    }

    /// Whether a request is open: it was asked, and its reply wasn't taken yet.
    pub fn is_open(&self) -> bool
        ensures { result ≡ self.now.is_open }
    {
        self.waits
    }

    /// Asks with a message, which is a function and its arguments: the frame of the request goes to the front of `out`. The answer
    /// is `Waiting` exactly while a request is open, or once number 4,294,967,295 was used.
    pub fn ask(&mut self, request: &[u8], out: &mut [u8]) -> Asked
        requires some { 4 ≤ length request.now }
        requires few { length request.now ≤ 4104 }
        requires room { 4112 ≤ length out.old }
        ensures { AsksFrame result self.old self.new request.now out.old out.new }
    {
        if self.waits || self.last == u32::MAX {
            return Asked::Waiting;
        }
        self.last += 1;
        let size = put_message(out, self.last, request);
        self.request.keep(&out[..size]);
        self.waits = true;
        Asked::Frame(size as u32)
    }

    /// Writes the frame of the open request again, the same bytes, and gives its length in bytes.
    pub fn again(&self, out: &mut [u8]) -> u32
        requires asked { IsTrue self.now.is_open }
        requires room { 4112 ≤ length out.old }
        ensures { PutsFront result self.now.request out.old out.new }
    {
        self.request.copy_to(out) as u32
    }

    /// Takes the body of a reply, and says whether it closed the open request: exactly where it has that one's number. A reply of
    /// fewer than four bytes has no number.
    pub fn take(&mut self, reply: &[u8]) -> bool
        ensures value { result ≡ fits self.old reply.now }
        ensures closes { self.new ≡ closed self.old reply.now }
    {
        if self.waits && reply.len() >= 4 && number_of(reply) == self.last {
            self.waits = false;
            return true;
        }
        false
    }
}
