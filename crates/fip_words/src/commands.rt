//! The command set, built for `clap`.
ghost use Rattle.std.specs.Prelude.{◌≡◌, IfOk, true};
ghost use Rattle.clap.specs.Faults.{is_simple_and_free};
ghost use Rattle.clap.specs.Words.{App};
ghost use Rattle.clap_words.specs.Words.{AddsRule, IsApp};
ghost use Rattle.fip_words.specs.Arguments.{AddsArguments, argument_rule, with_leaves};
ghost use Rattle.fip_words.specs.Commands.{fip_app};

use clap::Command;
use clap_words::{top, with_command, with_option, with_some_words, with_word, with_words};
use std::alloc::{AllocError, Global};

/// An argument of a command, by its name.
#[derive(Clone, Copy)]
enum Argument<'a> {
    /// An option with a value.
    Setting(&'a str),
    /// A word that has to be there.
    Word(&'a str),
    /// Any number of words.
    Words(&'a str),
    /// One word or more.
    SomeWords(&'a str),
}

/// A command below its program.
#[derive(Clone, Copy)]
struct Leaf<'a> {
    name: &'a str,
    arguments: &'a [Argument<'a>],
}

// The command with one more argument.
fn with_argument<'a>(
    alloc: Global,
    command: Command<'a>,
    argument: &Argument<'a>,
) -> Result<Command<'a>, AllocError>
    ensures { IfOk result (λ r. AddsRule command.entry r (argument_rule argument.now)) }
{
    match argument {
        Argument::Setting(id) => with_option(alloc, command, id),
        Argument::Word(id) => with_word(alloc, command, id),
        Argument::Words(id) => with_words(alloc, command, id),
        Argument::SomeWords(id) => with_some_words(alloc, command, id),
    }
}

// The command with these arguments, in this order.
fn with_arguments<'a>(
    alloc: Global,
    mut command: Command<'a>,
    arguments: &[Argument<'a>],
) -> Result<Command<'a>, AllocError>
    ensures { IfOk result (λ r. AddsArguments command.entry r arguments.now) }
{
    for argument in arguments {
        command = with_argument(alloc, command, argument)?;
    }
    Ok(command)
}

// The command with each of these below it.
fn with_leaves<'a>(
    alloc: Global,
    mut command: Command<'a>,
    leaves: &[Leaf<'a>],
) -> Result<Command<'a>, AllocError>
    ensures { (a : App) → IsApp command.entry a
        → IfOk result (λ c. IsApp c (with_leaves a leaves.now)) }
{
    for leaf in leaves {
        let below = with_arguments(alloc, Command::new(alloc, leaf.name), leaf.arguments);
        command = with_command(command, below)?;
    }
    Ok(command)
}

const INFO: [Argument<'static>; 1] = [Argument::Word("file")];

const CREATE: [Argument<'static>; 3] = [
    Argument::Setting("align"),
    Argument::Word("out"),
    Argument::Words("parts"),
];

// `update` and `remove` have the same arguments.
const CHANGE: [Argument<'static>; 4] = [
    Argument::Setting("align"),
    Argument::Word("in"),
    Argument::Word("out"),
    Argument::SomeWords("parts"),
];

const UNPACK: [Argument<'static>; 3] = [
    Argument::Word("in"),
    Argument::Word("prefix"),
    Argument::Words("names"),
];

const MANIFEST: [Argument<'static>; 3] = [
    Argument::Word("out"),
    Argument::Word("security"),
    Argument::SomeWords("rows"),
];

const CAPSULE: [Argument<'static>; 2] = [Argument::Word("in"), Argument::Word("out")];

const PACKAGE: [Argument<'static>; 3] = [
    Argument::Setting("align"),
    Argument::Word("in"),
    Argument::Word("out"),
];

const COMMANDS: [Leaf<'static>; 8] = [
    Leaf {
        name: "info",
        arguments: &INFO,
    },
    Leaf {
        name: "create",
        arguments: &CREATE,
    },
    Leaf {
        name: "update",
        arguments: &CHANGE,
    },
    Leaf {
        name: "remove",
        arguments: &CHANGE,
    },
    Leaf {
        name: "unpack",
        arguments: &UNPACK,
    },
    Leaf {
        name: "manifest",
        arguments: &MANIFEST,
    },
    Leaf {
        name: "capsule",
        arguments: &CAPSULE,
    },
    Leaf {
        name: "package",
        arguments: &PACKAGE,
    },
];

/// `fip` with its eight commands.
pub fn fip_command<'a>(alloc: Global) -> Result<Command<'a>, AllocError>
    ensures { IfOk result (λ c. IsApp c fip_app) }
{
    with_leaves(alloc, top(alloc, "fip"), &COMMANDS)
}

/// The command set is one of those that `clap`'s exact clauses are about.
pub fn fip_is_simple()
    ensures { is_simple_and_free fip_app ≡ true }
{}
