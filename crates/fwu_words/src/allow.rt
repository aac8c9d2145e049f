//! The list of the manifests that pass, where the words begin with one.
ghost use Rattle.std.specs.Prelude.{map, string_bytes};
ghost use Rattle.fwu_words.specs.Allow.{Begins};

use words_core::{is_file_name, is_word};

/// Whether words begin with `--allow FILE`.
#[derive(Clone, Copy)]
pub enum Allow<'a> {
    /// They begin with another word, or there is none.
    No,
    /// `--allow` stands there without a name that a file may have.
    Usage,
    /// The list's name, and the words behind it.
    File { name: &'a str, rest: &'a [String] },
}

/// Whether the words begin with a list of the manifests that pass.
pub fn allow_of<'a>(words: &'a [String]) -> Allow<'a>
    ensures { Begins result (map string_bytes words.entry.now) }
{
    match words {
        [] => Allow::No,
        [first] => {
            if is_word(first.as_bytes(), b"--allow") {
                Allow::Usage
            } else {
                Allow::No
            }
        }
        [first, name, rest @ ..] => {
            if !is_word(first.as_bytes(), b"--allow") {
                Allow::No
            } else if is_file_name(name.as_bytes()) {
                Allow::File { name, rest }
            } else {
                Allow::Usage
            }
        }
    }
}
