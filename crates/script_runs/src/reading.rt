//! The script that is to run, with the room for its turns. It is there before the flash is touched.
ghost use Rattle.std.specs.Prelude.{◌≡◌, ◌≤◌, ℕ, List, [], Some, Err, IfOk, length, false};
ghost use Rattle.base_core.specs.Counts.{Rose};
ghost use Rattle.fwu_model.specs.Script.{is_too_long};
ghost use Rattle.host_io.specs.Once.{ReadsOnce};
ghost use Rattle.fwu_words.specs.declared.orders.ScriptFrom.TheVariants as origin;
ghost use Rattle.script_runs.specs.Sourced.{FailsOnce, MakesScript, StarvesScript, TakesScript, status_read};

use crate::refusing::Refusal;
use crate::room::{Ready, Room};
use fwu_words::ScriptFrom;
use host_io::Source;
use script_text::{Script, ScriptFault, TextLimit, read_script};
use std::alloc::Global;

/// Why a script's text was not read.
#[derive(Clone, Copy)]
pub enum SourceStop {
    /// A read failed.
    Failed,
    /// The text is longer than a script may be.
    TooLong,
    NoMemory,
}

/// How many bytes of a script are read at most: with the last of them it is too long.
const MOST_READ: usize = 4_194_305;

/// Reads a script's text to the source's end, or to where it is too long: by its bytes at the first byte too many, and by its lines
/// at the end of the piece that has it.
pub fn read_source<I: Source>(alloc: Global, source: &mut I) -> Result<Vec<u8>, SourceStop>
    ensures whole { IfOk result (λ text. (rest : List ℕ) → I.left source.old ≡ Some rest → text.items ≡ rest) }
    ensures short { IfOk result (λ text. (is_too_long text.items ≡ false) × (length text.items ≤ 4194304)) }
    ensures failed { result ≡ Err SourceStop.Failed → Rose (I.faults source.old) (I.faults source.new) }
    ensures takes { TakesScript [] (status_read result) (I.left source.old) (I.left source.new) }
    ensures count { FailsOnce [] (status_read result) (I.faults source.old) (I.faults source.new) }
    ensures starved { result ≡ Err SourceStop.NoMemory
        → StarvesScript (I.left source.old) (I.left source.new) (I.faults source.old) (I.faults source.new) }
    ensures later { I.faults source.old ≤ I.faults source.new }
    ensures once { ReadsOnce I.Source source.old source.new }
{
    let mut text = Vec::new(alloc);
    let mut limit = TextLimit::new();
    let mut buffer = [0u8; 4096];
    loop {
        let room = buffer.len().min(MOST_READ - text.len());
        let window = &mut buffer[..room];
        let count = match source.read(window) {
            Ok(count) => count,
            Err(_) => return Err(SourceStop::Failed),
        };
        if count == 0 {
            return Ok(text);
        }
        let piece = &window[..count];
        if limit.feed(piece) < count {
            return Err(SourceStop::TooLong);
        }
        if text.extend_from_slice(piece).is_err() {
            return Err(SourceStop::NoMemory);
        }
    }
}

/// Reads a script from the source, and parses it.
fn read_whole<I: Source>(alloc: Global, source: &mut I) -> Result<Script, Refusal>
    ensures { MakesScript I.Source origin.Source (λ script. script) result source.old source.new }
{
    let text = match read_source(alloc, source) {
        Ok(text) => text,
        Err(SourceStop::Failed) => return Err(Refusal::Unread),
        Err(SourceStop::TooLong) => return Err(Refusal::TooLong),
        Err(SourceStop::NoMemory) => return Err(Refusal::NoMemory),
    };
    match read_script(alloc, text.as_slice()) {
        Ok(script) => Ok(script),
        Err(ScriptFault::BadLine(line)) => Err(Refusal::BadScript(line)),
        Err(ScriptFault::NoMemory) => Err(Refusal::NoMemory),
    }
}

/// The calls of a run: those of the script that the source gives, or one boot, for which the source is not read.
fn calls_asked<I: Source>(
    alloc: Global,
    from: ScriptFrom,
    source: &mut I,
) -> Result<Script, Refusal>
    ensures { MakesScript I.Source from (λ script. script) result source.old source.new }
{
    match from {
        ScriptFrom::Source => read_whole(alloc, source),
        ScriptFrom::Boot => match Script::boot(alloc) {
            Ok(script) => Ok(script),
            Err(_) => Err(Refusal::NoMemory),
        },
    }
}

/// The script of a run, with the room for its turns. `Unread` says that a read of the source failed, `TooLong` that its text is
/// longer than a script may be, and `BadScript` which line is none. The flash is not touched before.
pub fn script_of<I: Source>(
    alloc: Global,
    from: ScriptFrom,
    source: &mut I,
) -> Result<Ready, Refusal>
    ensures { MakesScript I.Source from (λ ready. ready.script) result source.old source.new }
{
    let script = match calls_asked(alloc, from, source) {
        Ok(script) => script,
        Err(why) => return Err(why),
    };
    match Room::make(alloc, script.len()) {
        Ok(room) => Ok(Ready { script, room }),
        Err(_) => Err(Refusal::NoMemory),
    }
}
