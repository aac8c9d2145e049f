//! The requests of a source, one after the other.
ghost use Rattle.std.specs.Prelude.{◌≡◌, IfErr};
ghost use Rattle.host_io.specs.Once.{ReadsOnce};
ghost use Rattle.script_turns.specs.Powered.{device, has_power};
ghost use Rattle.wire_frames.specs.Frames.{IsBody, message_of, request_number_of};
ghost use Rattle.serving.specs.Ends.{IsEarlyEnd};
ghost use Rattle.serving.specs.Going.{GoesOn};
ghost use Rattle.serving.specs.Scene.{LeavesServing, at, scene_of, sink_port, source_port};
ghost use Rattle.serving.specs.Written.{called};
ghost use Rattle.serving.specs.Serving.{Puts, ServesNew, ServesOne};

use crate::acting::act_on;
use crate::ends::{ServeEnd, end_of_stop};
use flash_core::Flash;
use fwu_journal::Journal;
use fwu_wire::{Admission, Exchange, FRAME_BYTES, number_of, put_head};
use host_io::{Files, Sink, Source, WriteStop};
use script_turns::Powered;
use std::alloc::Global;
use verify_core::Verifier;
use wire_frames::{FrameReader, MOST_BODY_BYTES};

/// A serving between two requests: the flash, its turns so far, and the number and the reply of the last request that acted.
#[derive(Drop)]
pub struct Serving<D: Flash> {
    pub powered: Powered<D>,
    pub journal: Journal,
    pub exchange: Exchange,
}

/// Puts a frame into the sink.
fn put<O: Sink>(sink: &mut O, frame: &[u8]) -> Result<(), ServeEnd>
    ensures puts { Puts frame.now result (sink_port O.Sink sink.old) (sink_port O.Sink sink.new) }
    ensures ends { IfErr result IsEarlyEnd }
{
    match sink.put(frame) {
        Ok(()) => Ok(()),
        Err(WriteStop::Failed) => Err(ServeEnd::SinkFailed),
        Err(WriteStop::NoMemory) => Err(ServeEnd::NoMemory),
    }
}

/// Serves a request that acts: its turn is made, and its reply is kept, and put into the sink.
fn serve_new<D: Flash, H: Files, O: Sink, V: Verifier>(
    alloc: Global,
    serving: &mut Serving<D>,
    body: &[u8],
    files: &mut H,
    sink: &mut O,
    verifier: &V,
) -> Result<(), ServeEnd>
    requires powered { D.on (device serving.old.powered) ≡ has_power serving.old.powered }
    requires body { IsBody body.now }

    ensures serves { ServesNew (scene_of V.Verifier D.Flash H.Files verifier.now files.old)
        (request_number_of body.now) (called (message_of body.now))
        (at serving.old (sink_port O.Sink sink.old)) (at serving.new (sink_port O.Sink sink.new)) result }
    ensures ends { IfErr result IsEarlyEnd }
    ensures leaves { LeavesServing result serving.old serving.new files.old files.new }
{
    let mut out = [0; FRAME_BYTES];
    let number = number_of(body);
    let acted = act_on(alloc, serving, &body[4..], &mut out[8..], files, verifier);
    let size = match acted {
        Ok(size) => size,
        Err(end) => return Err(end),
    };
    put_head(&mut out, number, size);
    serving.exchange.keep(number, &out[..8 + size]);
    put(sink, &out[..8 + size])
}

/// Serves one request, by its number.
fn serve_one<D: Flash, H: Files, O: Sink, V: Verifier>(
    alloc: Global,
    serving: &mut Serving<D>,
    body: &[u8],
    files: &mut H,
    sink: &mut O,
    verifier: &V,
) -> Result<(), ServeEnd>
    requires powered { D.on (device serving.old.powered) ≡ has_power serving.old.powered }
    requires body { IsBody body.now }

    ensures serves { ServesOne (scene_of V.Verifier D.Flash H.Files verifier.now files.old) body.now
        (at serving.old (sink_port O.Sink sink.old)) (at serving.new (sink_port O.Sink sink.new)) result }
    ensures ends { IfErr result IsEarlyEnd }
    ensures leaves { LeavesServing result serving.old serving.new files.old files.new }
{
    match serving.exchange.admit(number_of(body)) {
        Admission::Acts => serve_new(alloc, serving, body, files, sink, verifier),
        Admission::Repeats => {
            let mut out = [0; FRAME_BYTES];
            let size = serving.exchange.repeat(&mut out);
            put(sink, &out[..size])
        }
        Admission::Ignored => Ok(()),
    }
}

/// Serves the requests of a source, up to its end or to what ends the serving first.
pub fn serve_all<D: Flash, H: Files, I: Source, O: Sink, V: Verifier>(
    alloc: Global,
    serving: &mut Serving<D>,
    files: &mut H,
    source: &mut I,
    sink: &mut O,
    verifier: &V,
) -> ServeEnd
    requires powered { D.on (device serving.old.powered) ≡ has_power serving.old.powered }

    ensures goes { GoesOn (scene_of V.Verifier D.Flash H.Files verifier.now files.old)
        (at serving.old (sink_port O.Sink sink.old)) (at serving.new (sink_port O.Sink sink.new)) result
        (source_port I.Source source.old) (source_port I.Source source.new) }
    ensures once { ReadsOnce I.Source source.old source.new }
    ensures size { D.blocks (device serving.new.powered)
        ≡ D.blocks (device serving.old.powered) }
    ensures files { files.new ≡ files.old }
{
    let mut reader = FrameReader::new();
    let mut body = [0; MOST_BODY_BYTES];
    loop {
        let size = match reader.next(source, &mut body) {
            Ok(size) => size,
            Err(why) => return end_of_stop(why),
        };
        let served = serve_one(alloc, serving, &body[..size], files, sink, verifier);
        if let Err(end) = served {
            return end;
        }
    }
}
