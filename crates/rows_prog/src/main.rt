//! The program `rows_prog`: it tries worked rows of `fwu` and `fip` in memory.
//!
//! Its words name files of rows in the folder that it runs in, beside `common.rows`; the README of this crate says what they
//! have. It prints the name of each row that holds, and of each other row what was expected and what was found. It ends with 0
//! where all rows hold.
#![tactic(auto)]

mod bytes;
mod line;
mod row;
mod running;
mod stop;

use row::try_row;
use std::alloc::{AllocGlobal, Global};
use std::env::Env;
use std::fs::Files;
use std::process::ExitCode;
use std::{env, fs, io};

/// The file whose lines come first in each row.
const COMMON: &str = "common.rows";

/// Tries a row: its name, and the lines of it. Says whether it holds.
fn tell<R: Print>(rt: &R, alloc: Global, common: &str, front: &str, row: &str) -> io::Result<bool> {
    let (name, lines) = row.split_once('\n').unwrap_or((row, ""));
    match try_row(alloc, [common, front, lines]) {
        Ok(()) => {
            println!(rt; "{name}")?;
            Ok(true)
        }
        Err(stop) => {
            println!(rt; "DIFFERS: {name}\n{stop}")?;
            Ok(false)
        }
    }
}

/// Tries each row of a file. Says whether they hold.
fn tell_all<R: Print>(rt: &R, alloc: Global, common: &str, text: &str) -> io::Result<bool> {
    let mut pieces = text.split("\nrow ");
    let front = pieces.next().unwrap_or("");
    let mut all = true;
    for row in pieces {
        let holds = tell(rt, alloc, common, front, row)?;
        all = all && holds;
    }
    Ok(all)
}

/// Tries the files that the words name. Says whether all their rows hold.
fn run<R: Env + Files + Print + AllocGlobal>(rt: &R) -> io::Result<bool> {
    let alloc = rt.alloc();
    let names: Vec<String> = env::args(rt)?.skip(1).collect(alloc)?;
    let common = fs::read_to_string(rt, COMMON)?;
    let mut all = true;
    for name in &names {
        let text = fs::read_to_string(rt, name.as_str())?;
        let hold = tell_all(rt, alloc, common.as_str(), text.as_str())?;
        all = all && hold;
    }
    Ok(all)
}

fn main(rt: HostRuntime) -> ExitCode {
    match run(&rt) {
        Ok(true) => ExitCode::SUCCESS,
        Ok(false) | Err(_) => ExitCode::FAILURE,
    }
}
