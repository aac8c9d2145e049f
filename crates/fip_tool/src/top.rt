//! The tool: it reads its words, does the command, and tells how it ended.
ghost use Rattle.std.specs.Prelude.{◌==◌, if◌then◌else◌, ◌≡◌, ◌≢◌, ◌≤◌, ◌⊎◌, IsFalse, List, Some, None, Ok, Err, ℕ, false, map, string_bytes};
ghost use Rattle.base_core.specs.Counts.{Rose};
ghost use Rattle.fip_tool.specs.Names.{IsUnnamedBy};
ghost use Rattle.host_io.specs.Access.{Access};
ghost use Rattle.host_io.specs.Calls.{raised};
ghost use Rattle.host_io.specs.Contents.{Directory};
ghost use Rattle.host_io.specs.Once.{ReadsOnce};
ghost use Rattle.host_io.specs.Reads.{ReadsFile};
ghost use Rattle.fip_words.specs.Order.{FipAsked, asked, info_of_source, view};
ghost use Rattle.fip_words.specs.Values.{is_unpacked};
ghost use Rattle.fip_tool.specs.Converted.{Converts};
ghost use Rattle.fip_tool.specs.Done.{CommandDone, DoneWithFiles, DoneWithSource, ToolEnded};
ghost use Rattle.fip_tool.specs.Lines.{Reported, StopTold};
ghost use Rattle.fip_tool.specs.Steps.{line_failures, sink_failed};
ghost use Rattle.fip_tool.specs.Tool.{asks_files};
ghost use Rattle.fip_making.specs.declared.stops.Stop.TheVariants.{SinkFault};

use crate::capsules::{run_capsule, run_package};
use crate::info::{file_info, source_info};
use crate::making::{Remade, run_create, run_remove, run_update};
use crate::manifest::run_manifest;
use crate::printing::print;
use crate::stop_lines::stop_line;
use crate::unpack::run_unpack;
use fip_making::Stop;
use fip_words::{FipOrder, UsageStop, fip_order};
use host_io::{Files, Sink, Source};
use std::alloc::Global;

fn info<H: Files, O: Sink>(
    alloc: Global,
    files: &mut H,
    sink: &mut O,
    name: &str,
) -> Result<(), Stop>
    ensures done { DoneWithFiles H.Files O.Sink ⊥ (Some (FipAsked.info name.now)) result files.old files.new sink.old sink.new }
    ensures files { ReadsFile H.Files name.now files.old files.new }
{
    let text = file_info(alloc, files, name)?;
    print(sink, text.as_slice())
}

fn info_of_source<I: Source, O: Sink>(
    alloc: Global,
    source: &mut I,
    sink: &mut O,
) -> Result<(), Stop>
    ensures { DoneWithSource I.Source O.Sink result source.old source.new sink.old sink.new }
{
    let text = source_info(alloc, source)?;
    print(sink, text.as_slice())
}

// Tells why a command ended, and says why the tool ends then.
fn tell<O: Sink>(alloc: Global, sink: &mut O, stop: Stop) -> Stop
    ensures told { StopTold (O.taken sink.old) (O.taken sink.new) (Rose (O.faults sink.old) (O.faults sink.new)) stop result }
    ensures later { O.faults sink.old ≤ O.faults sink.new }
    ensures sink_count { (stop ≡ SinkFault → ⊥) → O.faults sink.new ≡ sink_failed result (O.faults sink.old) }
{
    match stop_line(alloc, &stop) {
        Ok(line) => match print(sink, line.as_slice()) {
            Ok(()) => stop,
            Err(failed) => failed,
        },
        Err(_) => Stop::NoMemory,
    }
}

// Where the sink takes no more, and for want of memory, nothing is told.
fn report<O: Sink>(alloc: Global, sink: &mut O, stop: Stop) -> Stop
    ensures reported { Reported (O.taken sink.old) (O.taken sink.new) (Rose (O.faults sink.old) (O.faults sink.new)) stop result }
    ensures later { O.faults sink.old ≤ O.faults sink.new }
    ensures sink_count { O.faults sink.new ≡ line_failures stop result (O.faults sink.old) }
{
    match stop {
        Stop::SinkFault | Stop::NoMemory => stop,
        _ => tell(alloc, sink, stop),
    }
}

// The command of an order.
fn command<H: Files, I: Source, O: Sink>(
    alloc: Global,
    order: &FipOrder,
    files: &mut H,
    source: &mut I,
    sink: &mut O,
) -> Result<(), Stop>
    requires other { (from prefix : List ℕ) → (names : List (List ℕ))
        → view order.now ≡ FipAsked.unpack from prefix names → is_unpacked prefix from ≡ false }
    ensures { CommandDone H.Files I.Source O.Sink (Some (view order.now)) result
        files.old files.new source.old source.new sink.old sink.new }
{
    match order {
        FipOrder::Info { file } => info(alloc, files, sink, file),
        FipOrder::InfoOfSource => info_of_source(alloc, source, sink),
        FipOrder::Create { align, out, parts } => {
            run_create(alloc, files, sink, *align, out, parts.as_slice())
        }
        FipOrder::Update {
            align,
            from,
            out,
            parts,
        } => {
            let remade = Remade::new(*align, from, out);
            run_update(alloc, files, sink, &remade, parts.as_slice())
        }
        FipOrder::Remove {
            align,
            from,
            out,
            names,
        } => {
            let remade = Remade::new(*align, from, out);
            run_remove(alloc, files, sink, &remade, names.as_slice())
        }
        FipOrder::Unpack {
            from,
            prefix,
            names,
        } => run_unpack(alloc, files, sink, from, prefix, names.as_slice()),
        FipOrder::Manifest {
            out,
            security,
            rows,
        } => run_manifest(alloc, files, sink, out, *security, rows.as_slice()),
        FipOrder::Capsule { from, out } => run_capsule(alloc, files, sink, from, out),
        FipOrder::Package { align, from, out } => {
            run_package(alloc, files, sink, *align, from, out)
        }
    }
}

// What the words ask for.
fn run<H: Files, I: Source, O: Sink>(
    alloc: Global,
    words: &[String],
    files: &mut H,
    source: &mut I,
    sink: &mut O,
) -> Result<(), Stop>
    ensures { CommandDone H.Files I.Source O.Sink (asked (map string_bytes words.now)) result
        files.old files.new source.old source.new sink.old sink.new }
{
    match fip_order(alloc, words) {
        Ok(order) => command(alloc, &order, files, source, sink),
        Err(UsageStop::Usage) => Err(Stop::Usage),
        Err(UsageStop::NoMemory) => Err(Stop::NoMemory),
    }
}

/// The tool with its words, which are without the program's name. It gives the exit status: 0 where all was done; 1 usage; 2 a
/// file, or the source, failed; 3 the sink failed. It is 4 where a file is no package; 5 the package has no entry of a named type;
/// 6 what was to be made cannot be. It is 7 where the source gave more than 4,294,967,296 bytes; 8 a file is no capsule; 9 want of
/// memory. A status other than 0 has a line of its own at the end, save 3 and 9.
pub fn fip_top<H: Files, I: Source, O: Sink>(
    alloc: Global,
    words: &[String],
    files: &mut H,
    source: &mut I,
    sink: &mut O,
) -> u8
    // What the command did and told till it ended, and the line that tells why it stopped. Each fact of it goes by its result,
    // of which the status comes: 3 and 9 may also be told in the place of a stop whose line was cut or found no memory.
    ensures ended { ToolEnded H.Files I.Source O.Sink (asked (map string_bytes words.now)) result
        files.old files.new source.old source.new sink.old sink.new }
    // Both conversions keep the types and the payloads, in their order.
    ensures converts { (told : Directory) → H.contents files.old ≡ Some told → result ≡ 0
        → Converts (asked (map string_bytes words.now)) told (H.contents files.new) }
    ensures sink { result ≡ 3 → Rose (O.faults sink.old) (O.faults sink.new) }
    // Whatever files and sink there are: the sink fails once at status 3 and is not asked again, and never at another status.
    ensures sink_count { O.faults sink.new ≡ (if result == 3 then raised (O.faults sink.old) else O.faults sink.old) }
    ensures cause { result ≡ 2 → H.contents files.old ≡ None → Rose (H.faults files.old) (H.faults files.new)
        ⊎ Rose (I.faults source.old) (I.faults source.new) }
    // Usage is answered exactly by the words, whatever files there are.
    ensures usage { result ≡ 1 → asked (map string_bytes words.now) ≡ None }
    ensures words { asked (map string_bytes words.now) ≡ None → (result ≡ 1) ⊎ (result ≡ 3) ⊎ (result ≡ 9) }
    // Nothing but a listing of the source reads it.
    ensures source_stays { asked (map string_bytes words.now) ≢ Some info_of_source → source.new ≡ source.old }
    // No read of the source is made behind one that gave no bytes or failed, whatever source there is.
    ensures once { ReadsOnce I.Source source.old source.new }
    // Neither usage nor a listing of the source asks for a file, whatever files there are.
    ensures files_stay { IsFalse (asks_files (asked (map string_bytes words.now))) → files.new ≡ files.old }
    // Whatever files there are: no file is asked for or made but those that the words name. A file in which a piece of a made one
    // lies counts as asked for.
    ensures spares { (access : Access) → IsUnnamedBy (asked (map string_bytes words.now)) access
        → H.spares files.old files.new access }
{
    match run(alloc, words, files, source, sink) {
        Ok(()) => 0,
        Err(stop) => report(alloc, sink, stop).status(),
    }
}
