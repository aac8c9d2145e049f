//! The command set, built for `clap`.
ghost use Rattle.std.specs.Prelude.{◌≡◌, IfOk, true};
ghost use Rattle.clap.specs.Faults.{is_simple_and_free};
ghost use Rattle.clap_words.specs.Words.{AddsRule, IsApp};
ghost use Rattle.fwu_words.specs.Commands.{flag, format_app, fwu_app, soak_app, turns_app};

use clap::{Arg, ArgAction, Command};
use clap_words::{top, with_command, with_leaf_command, with_option, with_word};
use std::alloc::{AllocError, Global};

/// The command with an option that has no value.
fn with_flag<'a>(
    alloc: Global,
    command: Command<'a>,
    id: &'a str,
) -> Result<Command<'a>, AllocError>
    ensures { IfOk result (λ r. AddsRule command.entry r (flag id.entry.now)) }
{
    command.arg(Arg::new(alloc, id).long(id).action(ArgAction::SetTrue))
}

/// A command that does turns, on the flash or on the one behind its partition table.
fn turns_command<'a>(alloc: Global, name: &'a str) -> Result<Command<'a>, AllocError>
    ensures { IfOk result (λ c. IsApp c (turns_app name.entry.now)) }
{
    with_flag(alloc, Command::new(alloc, name), "gpt")
}

fn format_command<'a>(alloc: Global) -> Result<Command<'a>, AllocError>
    ensures { IfOk result (λ c. IsApp c format_app) }
{
    let command = with_option(alloc, Command::new(alloc, "format"), "banks")?;
    let command = with_word(alloc, command, "layout")?;
    with_word(alloc, command, "package")
}

fn soak_command<'a>(alloc: Global) -> Result<Command<'a>, AllocError>
    ensures { IfOk result (λ c. IsApp c soak_app) }
{
    let command = with_word(alloc, Command::new(alloc, "soak"), "seed")?;
    with_word(alloc, command, "rounds")
}

/// `fwu` with its six commands.
pub fn fwu_command<'a>(alloc: Global) -> Result<Command<'a>, AllocError>
    ensures { IfOk result (λ c. IsApp c fwu_app) }
{
    let command = with_command(top(alloc, "fwu"), turns_command(alloc, "run"))?;
    let command = with_command(command, turns_command(alloc, "boot"))?;
    let command = with_leaf_command(command, Command::new(alloc, "show"))?;
    let command = with_command(command, format_command(alloc))?;
    let command = with_command(command, soak_command(alloc))?;
    with_leaf_command(command, Command::new(alloc, "serve"))
}

/// The command set is one of those that `clap`'s exact clauses are about.
pub fn fwu_is_simple()
    ensures { is_simple_and_free fwu_app ≡ true }
{}
