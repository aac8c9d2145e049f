//! Lines that are put into the sink.
ghost use Rattle.std.specs.Prelude.{◌≡◌};
ghost use Rattle.fwu_model.specs.Wrote.{usage_line};
ghost use Rattle.script_runs.specs.Ways.{PrintsTo};

use host_io::{Sink, WriteStop};

/// Puts a line into the sink in one piece, and gives the exit status that comes of it. That is the planned one, or 3 where the sink
/// failed, or 9 where it found no memory.
pub fn put_line<O: Sink>(sink: &mut O, bytes: &[u8], planned: u8) -> u8
    ensures { PrintsTo O.Sink bytes.now planned result sink.old sink.new }
{
    match sink.put(bytes) {
        Ok(()) => planned,
        Err(WriteStop::Failed) => 3,
        Err(WriteStop::NoMemory) => 9,
    }
}

/// Puts the line of usage into the sink in one piece, and gives the exit status that comes of it, where 1 is planned.
pub fn put_usage<O: Sink>(sink: &mut O) -> u8
    ensures { PrintsTo O.Sink usage_line 1 result sink.old sink.new }
{
    let line =
        b"usage: fwu FLASH run|boot|show|format [--banks N] LAYOUT PACKAGE|soak SEED N|serve\n";
    put_line(sink, line.as_slice(), 1)
}
