//! Texts for the sink.
ghost use Rattle.std.specs.Prelude.{◌≡◌, ◌≤◌, IfErr};
ghost use Rattle.fip_tool.specs.Done.{PrintedIn};
ghost use Rattle.fip_making.specs.Stops.{IsLate};
ghost use Rattle.fip_tool.specs.Steps.{sink_failures};

use fip_making::Stop;
use host_io::{Sink, WriteStop};

/// Prints a text.
pub fn print<O: Sink>(sink: &mut O, text: &[u8]) -> Result<(), Stop>
    ensures printed { PrintedIn O.Sink text.now sink.old sink.new result }
    ensures late { IfErr result IsLate }
    ensures later { O.faults sink.old ≤ O.faults sink.new }
    ensures count { O.faults sink.new ≡ sink_failures result (O.faults sink.old) }
{
    match sink.put(text) {
        Ok(()) => Ok(()),
        Err(WriteStop::Failed) => Err(Stop::SinkFault),
        Err(WriteStop::NoMemory) => Err(Stop::NoMemory),
    }
}
