//! The program as one call.
ghost use Rattle.std.specs.Prelude.{◌≡◌, None, map, string_bytes, IsFalse};
ghost use Rattle.host_io.specs.Once.{ReadsOnce};
ghost use Rattle.host_io.specs.Reads.{ReadsFiles};
ghost use Rattle.script_runs.specs.Ending.{ending};
ghost use Rattle.script_cmd.specs.Handed.{by_list, unlisted};
ghost use Rattle.script_cmd.specs.Serves.{IsUnasked, Serves, ServesByList};
ghost use Rattle.script_runs.specs.Ways.{described, world};

use crate::answering::{answer, answer_with};
use flash_core::Flash;
use host_io::{Files, Sink, Source};
use script_runs::Done;
use std::alloc::Global;
use verify_core::Verifier;

/// Does what the words behind the name of the flash ask for, by a verifier that says whose manifests pass.
///
/// This is how the body goes; what is promised of it, the clauses say. `run` reads the source to its end, reads the script, and
/// only then does its lines in order; `boot` is the script of the one line `boot`. Each line that is a call is one turn, which is
/// kept in the journal and printed in one piece. A line of `send` reads the file that it names, and no other line reads one. Where
/// that file can't be read, the flash failed or nothing could be booted, the run ends after the line of that turn, by the status 2,
/// 5 or 6, or by 3 where the sink fails at that line. `show` prints what the flash shows. `format` makes a layout and stores a
/// package. The room for all turns and for the longest line is made before the first turn; where there is none the status is 9, and
/// no turn is done. `soak` formats the flash and does rounds of updates and power cuts that are drawn from a number, by any
/// manifest, and prints one line. It makes room for its turns round by round. `serve` boots, and then answers each request of the
/// source by a frame before it reads on; it makes room for its turns one by one, and prints no line but that of a refused list.
pub fn fwu_top_with<D: Flash, H: Files, I: Source, O: Sink, V: Verifier>(
    alloc: Global,
    words: &[String],
    files: &mut H,
    source: &mut I,
    sink: &mut O,
    flash: D,
    verifier: &V,
) -> Done<D>
    requires off { IsFalse (D.on flash) }
    requires unarmed { D.arming flash ≡ None }

    ensures serves { Serves (V.passes verifier.now) (described D.Flash flash)
        (unlisted H.Files I.Source (map string_bytes words.now) files.old source.old) (ending result)
        (world D.Flash H.Files I.Source O.Sink flash files.old source.old sink.old)
        (world D.Flash H.Files I.Source O.Sink result.flash files.new source.new sink.new)
        (I.left source.new) files.old files.new source.old source.new }
    // No file is asked for but the list that the words name, the package of `format` and what turns send. None is written. (Of the
    // system's files only the second is a clause.)
    ensures reads { ReadsFiles H.Files (IsUnasked (unlisted H.Files I.Source (map string_bytes words.now) files.old source.old)
        (ending result).journal) files.old files.new }
    // No read of the source is made behind one that gave no bytes or failed. (Of the standard input it is no clause.)
    ensures once { ReadsOnce I.Source source.old source.new }
    ensures size { D.blocks result.flash ≡ D.blocks flash }
{
    answer_with(alloc, words, files, source, sink, flash, verifier)
}

/// `fwu_top_with` for any manifest, or where the words begin with `--allow FILE`, for those whose digests that file lists. A list
/// that isn't there or can't be read is answered by status 2, and one with a bad line by 13, before the other words are looked at;
/// by 3 or 9 where the sink fails at the line of that, or memory is wanting. (Where the files tell what they hold it is a clause
/// that one that they lack ends with 2, 3 or 9, and a bad one with 13, 3 or 9, or with 2 where a failure was counted.)
pub fn fwu_top<D: Flash, H: Files, I: Source, O: Sink>(
    alloc: Global,
    words: &[String],
    files: &mut H,
    source: &mut I,
    sink: &mut O,
    flash: D,
) -> Done<D>
    requires off { IsFalse (D.on flash) }
    requires unarmed { D.arming flash ≡ None }

    // By the manifests that the list has; where one is named and none was read nothing was done, and it holds whichever pass.
    ensures serves { ServesByList (map string_bytes words.now) (described D.Flash flash)
        (by_list H.Files I.Source (map string_bytes words.now) files.old source.old) (ending result)
        (world D.Flash H.Files I.Source O.Sink flash files.old source.old sink.old)
        (world D.Flash H.Files I.Source O.Sink result.flash files.new source.new sink.new)
        (I.left source.new) files.old files.new source.old source.new }
    // No file is asked for but the list that the words name, the package of `format` and what turns send. None is written. (Of the
    // system's files only the second is a clause.)
    ensures reads { ReadsFiles H.Files (IsUnasked (by_list H.Files I.Source (map string_bytes words.now) files.old source.old)
        (ending result).journal) files.old files.new }
    // No read of the source is made behind one that gave no bytes or failed. (Of the standard input it is no clause.)
    ensures once { ReadsOnce I.Source source.old source.new }
    ensures size { D.blocks result.flash ≡ D.blocks flash }
{
    answer(alloc, words, files, source, sink, flash)
}
