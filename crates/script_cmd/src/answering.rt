//! What the words ask for is done, in one of the ways that it may end.
ghost use Rattle.std.specs.Prelude.{◌≡◌, Some, None, map, string_bytes, true, IsFalse};
ghost use Rattle.host_io.specs.Once.{ReadsOnce};
ghost use Rattle.host_io.specs.Reads.{ReadsFiles};
ghost use Rattle.fwu_words.specs.Order.{asked};
ghost use Rattle.script_cmd.specs.Here.{Answered};
ghost use Rattle.script_cmd.specs.Handed.{by_list, unlisted, inputs_of};
ghost use Rattle.script_cmd.specs.Serves.{IsUnasked, ServesByList, ServesFor};
ghost use Rattle.script_runs.specs.Ending.{ending};
ghost use Rattle.script_runs.specs.Ways.{described, world};

use crate::serving_command::serve_source;
use allow_list::{ListStop, read_list};
use flash_commands::{format_flash, show, soak};
use flash_core::Flash;
use fwu_words::{Allow, Order, UsageStop, allow_of, fwu_order};
use host_io::{Files, Sink, Source};
use script_runs::{Board, Done, Refusal, refuse, run_turns};
use std::alloc::Global;
use verify_core::{AnyManifest, Verifier};

/// Does what the words behind the name of the flash, and behind a list, ask for.
pub fn answer_with<D: Flash, H: Files, I: Source, O: Sink, V: Verifier>(
    alloc: Global,
    words: &[String],
    files: &mut H,
    source: &mut I,
    sink: &mut O,
    flash: D,
    verifier: &V,
) -> Done<D>
    requires off { IsFalse (D.on flash) }
    requires unarmed { D.arming flash ≡ None }
    ensures answers { Answered (V.passes verifier.now) (described D.Flash flash)
        (unlisted H.Files I.Source (map string_bytes words.now) files.old source.old) (ending result)
        (world D.Flash H.Files I.Source O.Sink flash files.old source.old sink.old)
        (world D.Flash H.Files I.Source O.Sink result.flash files.new source.new sink.new)
        (I.left source.new) files.old files.new source.old source.new }
    ensures reads { ReadsFiles H.Files (IsUnasked (unlisted H.Files I.Source (map string_bytes words.now) files.old source.old)
        (ending result).journal) files.old files.new }
    ensures once { ReadsOnce I.Source source.old source.new }
    ensures size { D.blocks result.flash ≡ D.blocks flash }
{
    match fwu_order(alloc, words) {
        Ok(Order::Turns(order)) => {
            let board = Board { flash, verifier };
            run_turns(alloc, order, files, source, sink, board)
        }
        Ok(Order::Show) => show(alloc, sink, flash),
        Ok(Order::Format(wanted)) => format_flash(alloc, wanted, files, sink, flash, verifier),
        Ok(Order::Soak { seed, rounds }) => soak(alloc, seed, rounds, sink, flash),
        Ok(Order::Serve) => serve_source(alloc, files, source, sink, flash, verifier),
        Err(UsageStop::Usage) => refuse(alloc, sink, Refusal::Usage, flash),
        Err(UsageStop::NoMemory) => refuse(alloc, sink, Refusal::NoMemory, flash),
    }
}

/// Does what the words behind the name of a list of digests ask for, for the manifests that it lists.
fn run_listed<D: Flash, H: Files, I: Source, O: Sink>(
    alloc: Global,
    name: &str,
    rest: &[String],
    files: &mut H,
    source: &mut I,
    sink: &mut O,
    flash: D,
) -> Done<D>
    requires off { IsFalse (D.on flash) }
    requires unarmed { D.arming flash ≡ None }
    ensures serves { ServesFor true (described D.Flash flash)
        (inputs_of H.Files I.Source (asked (map string_bytes rest.now)) (Some name.now) files.old source.old)
        (ending result) (world D.Flash H.Files I.Source O.Sink flash files.old source.old sink.old)
        (world D.Flash H.Files I.Source O.Sink result.flash files.new source.new sink.new)
        (I.left source.new) files.old files.new source.old source.new }
    ensures reads { ReadsFiles H.Files (IsUnasked
        (inputs_of H.Files I.Source (asked (map string_bytes rest.now)) (Some name.now) files.old source.old)
        (ending result).journal) files.old files.new }
    ensures once { ReadsOnce I.Source source.old source.new }
    ensures size { D.blocks result.flash ≡ D.blocks flash }
{
    match read_list(alloc, files, name) {
        Ok(list) => {
            let verifier = &list;
            answer_with(alloc, rest, files, source, sink, flash, verifier)
        }
        Err(ListStop::Failed) => refuse(alloc, sink, Refusal::Unread, flash),
        Err(ListStop::BadLine(line)) => refuse(alloc, sink, Refusal::BadList(line), flash),
        Err(ListStop::NoMemory) => refuse(alloc, sink, Refusal::NoMemory, flash),
    }
}

/// `answer_with` for any manifest, or where the words begin with `--allow FILE` for those whose digests the file lists.
pub fn answer<D: Flash, H: Files, I: Source, O: Sink>(
    alloc: Global,
    words: &[String],
    files: &mut H,
    source: &mut I,
    sink: &mut O,
    flash: D,
) -> Done<D>
    requires off { IsFalse (D.on flash) }
    requires unarmed { D.arming flash ≡ None }
    ensures serves { ServesByList (map string_bytes words.now) (described D.Flash flash)
        (by_list H.Files I.Source (map string_bytes words.now) files.old source.old) (ending result)
        (world D.Flash H.Files I.Source O.Sink flash files.old source.old sink.old)
        (world D.Flash H.Files I.Source O.Sink result.flash files.new source.new sink.new)
        (I.left source.new) files.old files.new source.old source.new }
    ensures reads { ReadsFiles H.Files (IsUnasked (by_list H.Files I.Source (map string_bytes words.now) files.old source.old)
        (ending result).journal) files.old files.new }
    ensures once { ReadsOnce I.Source source.old source.new }
    ensures size { D.blocks result.flash ≡ D.blocks flash }
{
    match allow_of(words) {
        Allow::No => {
            let verifier = &AnyManifest;
            answer_with(alloc, words, files, source, sink, flash, verifier)
        }
        Allow::Usage => refuse(alloc, sink, Refusal::Usage, flash),
        Allow::File { name, rest } => run_listed(alloc, name, rest, files, source, sink, flash),
    }
}
