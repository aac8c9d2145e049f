//! Runs that end before their first turn.
ghost use Rattle.std.specs.Prelude.{◌≡◌, []};
ghost use Rattle.fwu_journal.specs.Shown.{turns};
ghost use Rattle.fwu_model.specs.Wrote.{bad_list_line, bad_script_line};
ghost use Rattle.script_runs.specs.Ways.{PrintsTo};
ghost use Rattle.script_runs.specs.ByTable.{no_table_line};
ghost use Rattle.script_runs.specs.Sourced.{plan_of};

use crate::done::{Done, NoTable, Note};
use crate::printing::{put_line, put_usage};
use flash_core::Flash;
use fwu_journal::Journal;
use host_io::Sink;
use std::alloc::Global;

/// Why a run has no first turn.
#[derive(Clone, Copy, Debug, PartialEq, Eq)]
pub enum Refusal {
    /// The words ask for nothing.
    Usage,
    /// The source, or the file of a list of digests, was not read.
    Unread,
    /// The script is longer than a script may be.
    TooLong,
    /// The first line of the script that is none, from 1.
    BadScript(u32),
    /// The first line of the list of digests that is none, from 1.
    BadList(u64),
    /// The partition table gives no flash.
    NoTable(NoTable),
    /// Power was lost or the flash failed while the partition table was read or repaired.
    Stopped,
    /// Memory is wanting. There is no line of it.
    NoMemory,
}

/// What is noted of a refusal.
fn note_of(why: Refusal) -> Note
    ensures { result ≡ (plan_of why).note }
{
    match why {
        Refusal::BadScript(line) => Note::BadLine(line),
        Refusal::BadList(line) => Note::BadList(line),
        Refusal::NoTable(lack) => Note::NoTable(lack),
        _ => Note::Nothing,
    }
}

/// Puts the line of a script whose first bad line this is.
fn put_bad_script<O: Sink>(alloc: Global, sink: &mut O, line: u32) -> u8
    ensures { PrintsTo O.Sink (bad_script_line line) 4 result sink.old sink.new }
{
    match format!(in alloc; "bad-script {line}\n") {
        Ok(text) => put_line(sink, text.as_bytes(), 4),
        Err(_) => 9,
    }
}

/// Puts the line of a list of digests whose first bad line this is.
fn put_bad_list<O: Sink>(alloc: Global, sink: &mut O, line: u64) -> u8
    ensures { PrintsTo O.Sink (bad_list_line line) 13 result sink.old sink.new }
{
    match format!(in alloc; "bad-list {line}\n") {
        Ok(text) => put_line(sink, text.as_bytes(), 13),
        Err(_) => 9,
    }
}

/// Puts the line of a device without a flash behind its partition table.
fn put_no_table<O: Sink>(alloc: Global, sink: &mut O, lack: NoTable) -> u8
    ensures { PrintsTo O.Sink (no_table_line lack) 10 result sink.old sink.new }
{
    match lack {
        NoTable::Table => put_line(sink, b"gpt no-table\n", 10),
        NoTable::Store => put_line(sink, b"gpt no-store\n", 10),
        NoTable::Replicas(count) => match format!(in alloc; "gpt replicas {count}\n") {
            Ok(text) => put_line(sink, text.as_bytes(), 10),
            Err(_) => 9,
        },
        NoTable::TooSmall => put_line(sink, b"gpt too-small\n", 10),
    }
}

/// Puts the line of a refusal, and gives the exit status that comes of it. It is 1 for usage, 2 for what was not read, 4 for a bad
/// script, 5 for a stop, 8 for a script that is too long. It is 10 without a flash behind the table, 13 for a bad list, and 3
/// where the sink failed. Where memory is wanting, for the line too, nothing is put and it is 9.
fn put_refusal<O: Sink>(alloc: Global, sink: &mut O, why: Refusal) -> u8
    ensures prints { PrintsTo O.Sink (plan_of why).line (plan_of why).status result sink.old sink.new }
    ensures starved { why ≡ Refusal.NoMemory → (result ≡ 9) × (sink.new ≡ sink.old) }
{
    match why {
        Refusal::Usage => put_usage(sink),
        Refusal::Unread => put_line(sink, b"read-fault\n", 2),
        Refusal::TooLong => put_line(sink, b"too-long\n", 8),
        Refusal::BadScript(line) => put_bad_script(alloc, sink, line),
        Refusal::BadList(line) => put_bad_list(alloc, sink, line),
        Refusal::NoTable(lack) => put_no_table(alloc, sink, lack),
        Refusal::Stopped => put_line(sink, b"flash-fault\n", 5),
        Refusal::NoMemory => 9,
    }
}

/// Ends a run that has no first turn: puts the line of the refusal, and does nothing else.
pub fn refuse<D: Flash, O: Sink>(alloc: Global, sink: &mut O, why: Refusal, flash: D) -> Done<D>
    ensures prints { PrintsTo O.Sink (plan_of why).line (plan_of why).status result.status sink.old sink.new }
    ensures starved { why ≡ Refusal.NoMemory → (result.status ≡ 9) × (sink.new ≡ sink.old) }
    ensures note { result.note ≡ (plan_of why).note }
    ensures flash { result.flash ≡ flash }
    ensures no_turns { turns result.journal ≡ [] }
{
    let status = put_refusal(alloc, sink, why);
    Done {
        status,
        note: note_of(why),
        flash,
        journal: Journal::new(alloc),
    }
}
