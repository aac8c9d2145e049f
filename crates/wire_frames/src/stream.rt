//! Frames that come from a source.
ghost use Rattle.std.specs.Prelude.{◌≡◌, ◌<◌, ◌≤◌, ◌+◌, ℕ, IfOk, IfErr, OnOk, Err, [], false, length, take};
ghost use Rattle.std.specs.Result.{result_map_both};
ghost use Rattle.std.specs.Io.KnownBytes.{Consumes};
ghost use Rattle.base_core.specs.Bytes.{le, num_at};
ghost use Rattle.wire_frames.specs.Frames.{PutsFront};
ghost use Rattle.wire_frames.specs.Stream.{CutsShort, ReadsFrame, ReadsSource, StopsReading, most_bytes, stop_by};

use crate::frames::{FEWEST_BODY_BYTES, LENGTH_BYTES, MOST_BODY_BYTES};
use base_core::le32_at;
use host_io::Source;
use std::marker::Model;

/// The most bytes that are taken from a source: 1 GiB.
pub const MOST_SOURCE_BYTES: u64 = 1_073_741_824;

/// Why no frame was read.
#[derive(Clone, Copy, Debug, PartialEq, Eq)]
pub enum FrameStop {
    /// The source is at its end, and nothing was taken of another frame.
    End,
    /// A length outside 8 to 4,108, or an end inside a frame.
    BadFrame,
    /// The source gave byte 1,073,741,825.
    TooLong,
    /// A read failed.
    Failed,
}

/// Why bytes did not all come.
#[derive(Clone, Copy)]
enum Cut {
    Ended,
    TooLong,
    Failed,
}

/// Bytes that did not all come: how many did, and why.
#[derive(Clone, Copy)]
struct Short {
    count: usize,
    why: Cut,
}

/// Reads frames from a source. It takes no byte that is not of the next frame, so it never waits for more than that. Contracts see
/// how many bytes it took.
#[derive(Drop)]
pub struct FrameReader {
    taken: u64,
}

impl Model for FrameReader {
    ghost use Rattle.std.specs.Prelude.{◌≤◌, ℕ};

    ghost Value = { ℕ };

    ghost view = { λ r. r.taken };

    ghost invariant = { λ r. r.taken ≤ 1073741824 };
}

/// Whether the source goes on behind the most bytes that are taken.
fn past_the_most<I: Source>(source: &mut I) -> Cut
    ensures ends { CutsShort result [] most_bytes most_bytes (I.left source.old) (I.left source.new) }
    ensures reads { ReadsSource {T = ℕ} I.Source source.old source.new (Err (stop_by result false)) }
{
    let mut one = [0; 1];
    match source.read(&mut one) {
        Ok(0) => Cut::Ended,
        Ok(_) => Cut::TooLong,
        Err(_) => Cut::Failed,
    }
}

/// The length that stands in four bytes.
fn length_in(head: &[u8]) -> usize
    requires { length head.now ≡ 4 }
    ensures value { result ≡ num_at 4 head.now 0 }
    ensures spelled { le 4 result ≡ head.now }
{
    le32_at(head, 0) as usize
}

/// Why no frame was read: the end is none within one.
fn stop_of(why: Cut, between: bool) -> FrameStop
    ensures { result ≡ stop_by why between }
{
    match why {
        Cut::Ended if between => FrameStop::End,
        Cut::Ended => FrameStop::BadFrame,
        Cut::TooLong => FrameStop::TooLong,
        Cut::Failed => FrameStop::Failed,
    }
}

impl FrameReader {
    /// A reader that took nothing yet.
    pub fn new() -> FrameReader
        ensures { result ≡ 0 }
    {
        FrameReader { taken: 0 }
    }

    /// How many bytes were taken of the source, the one behind the most that are taken not among them.
    pub fn taken(&self) -> u64
        ensures { result ≡ self.now }
    {
        self.taken
    }

    /// Reads some bytes to the front of a buffer.
    fn read_some<I: Source>(&mut self, source: &mut I, out: &mut [u8]) -> Result<usize, Cut>
        requires { 0 < length out.old }
        ensures some { IfOk result (λ n. 0 < n) }
        ensures few { IfOk result (λ n. n ≤ length out.old) }
        ensures bytes { IfOk result (λ n. Consumes (I.left source.old) (I.left source.new)
            (take n out.new)) }
        ensures taken { IfOk result (λ n. self.new ≡ self.old + n) }
        ensures cut { IfErr result (λ why. CutsShort why [] self.old self.new
            (I.left source.old) (I.left source.new)) }
        ensures within { self.new ≤ most_bytes }
        ensures reads { ReadsSource I.Source source.old source.new
            (result_map_both (λ n. n) (λ why. stop_by why false) result) }
    {
        let room = (MOST_SOURCE_BYTES - self.taken).min(out.len() as u64) as usize;
        if room == 0 {
            return Err(past_the_most(source));
        }
        match source.read(&mut out[..room]) {
            Ok(0) => Err(Cut::Ended),
            Ok(count) => {
                self.taken += count as u64;
                Ok(count)
            }
            Err(_) => Err(Cut::Failed),
        }
    }

    /// Reads until a buffer is full.
    fn fill<I: Source>(&mut self, source: &mut I, out: &mut [u8]) -> Result<(), Short>
        ensures bytes { OnOk result (Consumes (I.left source.old) (I.left source.new) out.new) }
        ensures taken { OnOk result (self.new ≡ self.old + length out.new) }
        ensures short { IfErr result (λ s. s.count < length out.old) }
        ensures cut { IfErr result (λ s. CutsShort s.why (take s.count out.new) self.old self.new
            (I.left source.old) (I.left source.new)) }
        ensures within { self.new ≤ most_bytes }
        ensures reads { ReadsSource I.Source source.old source.new
            (result_map_both (λ v. v) (λ s. stop_by s.why false) result) }
    {
        // what is known of each reader is known of this one from here on
        let _ = &self.taken;
        let mut at = 0;
        while at < out.len() {
            match self.read_some(source, &mut out[at..]) {
                Ok(count) => at += count,
                Err(why) => return Err(Short { count: at, why }),
            }
        }
        Ok(())
    }

    /// Reads the next frame, whose body goes to the front of `body`, and gives the body's length in bytes. It waits for no byte
    /// behind it. Of a bad length it takes the four bytes alone.
    ///
    /// Behind byte 1,073,741,824 one byte more is asked for only where a frame goes on there, or where another would begin.
    /// So `TooLong` comes exactly where the source gave that byte, however it was cut into pieces.
    pub fn next<I: Source>(&mut self, source: &mut I, body: &mut [u8]) -> Result<usize, FrameStop>
        requires room { 4108 ≤ length body.old }
        ensures frame { IfOk result (λ n. ReadsFrame (take n body.new) self.old self.new
            (I.left source.old) (I.left source.new)) }
        ensures puts { IfOk result (λ n. PutsFront n (take n body.new) body.old body.new) }
        ensures stops { IfErr result (λ why. StopsReading why self.old self.new
            (I.left source.old) (I.left source.new)) }
        ensures within { self.new ≤ most_bytes }
        ensures reads { ReadsSource I.Source source.old source.new result }
    {
        let mut head = [0; LENGTH_BYTES];
        if let Err(short) = self.fill(source, &mut head) {
            return Err(stop_of(short.why, short.count == 0));
        }
        let length = length_in(&head);
        if length < FEWEST_BODY_BYTES || length > MOST_BODY_BYTES {
            return Err(FrameStop::BadFrame);
        }
        match self.fill(source, &mut body[..length]) {
            Ok(()) => Ok(length),
            Err(short) => Err(stop_of(short.why, false)),
        }
    }
}
