//! Command sets, built for `clap`.
ghost use Rattle.std.specs.Prelude.{◌≡◌, IfOk, false};
ghost use Rattle.clap.specs.declared.builder.Command.TheViews.{out-Command};
ghost use Rattle.clap.specs.Words.{App};
ghost use Rattle.clap_words.specs.Words.{AddsLeaf, AddsRule, IsApp, option, some_words, top_app, with_leaf, word, words};

use clap::{Arg, ArgAction, Command};
use std::alloc::{AllocError, Global};

/// The command with an argument that has to be there.
pub fn with_word<'a>(
    alloc: Global,
    command: Command<'a>,
    id: &'a str,
) -> Result<Command<'a>, AllocError>
    ensures { IfOk result (λ r. AddsRule command.entry r (word id.entry.now)) }
{
    command.arg(Arg::new(alloc, id).action(ArgAction::Set).required(true))
}

/// The command with an option that has a value.
pub fn with_option<'a>(
    alloc: Global,
    command: Command<'a>,
    id: &'a str,
) -> Result<Command<'a>, AllocError>
    ensures { IfOk result (λ r. AddsRule command.entry r (option id.entry.now)) }
{
    command.arg(Arg::new(alloc, id).long(id).action(ArgAction::Set))
}

/// The command with an argument that may come any number of times.
pub fn with_words<'a>(
    alloc: Global,
    command: Command<'a>,
    id: &'a str,
) -> Result<Command<'a>, AllocError>
    ensures { IfOk result (λ r. AddsRule command.entry r (words id.entry.now)) }
{
    command.arg(Arg::new(alloc, id).action(ArgAction::Append))
}

/// The command with an argument that comes once or more.
pub fn with_some_words<'a>(
    alloc: Global,
    command: Command<'a>,
    id: &'a str,
) -> Result<Command<'a>, AllocError>
    ensures { IfOk result (λ r. AddsRule command.entry r (some_words id.entry.now)) }
{
    command.arg(Arg::new(alloc, id).action(ArgAction::Append).required(true))
}

/// A command with none below it yet. Its words have no program's name before them.
pub fn top<'a>(alloc: Global, name: &'a str) -> Command<'a>
    ensures { IsApp result (top_app name.entry.now) }
{
    Command::new(alloc, name)
        .no_binary_name(true)
        .disable_help_subcommand(true)
        .subcommand_required(true)
}

/// The command with one more below it.
pub fn with_leaf_command<'a>(
    command: Command<'a>,
    leaf: Command<'a>,
) -> Result<Command<'a>, AllocError>
    requires { (out-Command leaf).has_globals ≡ false }
    ensures { IfOk result (λ r. AddsLeaf command.entry leaf.entry r) }
{
    command.subcommand(leaf)
}

/// The command with one more below it, where that one could be made.
pub fn with_command<'a>(
    command: Command<'a>,
    leaf: Result<Command<'a>, AllocError>,
) -> Result<Command<'a>, AllocError>
    requires { IfOk leaf (λ l. (out-Command l).has_globals ≡ false) }
    ensures { (a b : App) → IsApp command.entry a → IfOk leaf.entry (λ l. IsApp l b)
        → IfOk result (λ r. IsApp r (with_leaf a b)) }
{
    with_leaf_command(command, leaf?)
}
