//! Laws of frames and of their numbers: functions that do nothing, whose contract is the law.
ghost use Rattle.std.specs.Prelude.{◌≡◌, ℕ, List, Option, Some, length};
ghost use Rattle.std.specs.Io.KnownBytes.{Consumes};
ghost use Rattle.wire_frames.specs.Frames.{AreBodies, Splits, frames};
ghost use Rattle.wire_frames.specs.Events.{ActsAtMostOnce, Event, run, start_world};
ghost use Rattle.wire_frames.specs.Stream.{StopsReading, StopsStream};
ghost use Rattle.wire_frames.specs.declared.stream.FrameStop.{FrameStop};

/// No two readings of one stream differ: its frames, and what follows them, are one.
pub fn one_reading()
    ensures { (stream : List ℕ) (bodies others : List (List ℕ)) (rest left : List ℕ)
        → Splits stream bodies rest → Splits stream others left → (bodies ≡ others) × (rest ≡ left) }
{}

/// Why reading stops, and behind which frames, is said by the bytes of the stream, however they came in pieces. It stops at its
/// end, or at a length that no body has, or at an end inside a frame. `TooLong` says that it has more than 1,073,741,824 bytes.
pub fn stops_by_the_bytes()
    ensures { (stream : List ℕ) (bodies : List (List ℕ)) (mid left : Option (List ℕ)) (now : ℕ) (why : FrameStop)
        → AreBodies bodies → Consumes (Some stream) mid (frames bodies)
        → StopsReading why (length (frames bodies)) now mid left → StopsStream why stream bodies }
{}

/// Within one power cycle, whatever is lost, repeated or comes out of order, each request acts at most once. A reply that the
/// client takes is that of its request.
pub fn each_request_acts_at_most_once()
    ensures { (events : List Event) → ActsAtMostOnce (run events start_world) }
{}
