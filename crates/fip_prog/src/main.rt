//! The program `fip`: it lists, makes, changes and unpacks firmware image packages, turns them into UEFI capsules and back, and
//! makes manifests.
//!
//! Its words are those of `fip_top`, whose status is the program's. Without any word it lists the package that it reads from the
//! standard input, as `info -` does. Each line goes to the standard output.
#![tactic(auto)]

mod output_guard;

use fip_tool::fip_top;
use host_io::{HostFiles, StdSink, StdSource};
use output_guard::OutputGuard;
use std::alloc::{AllocError, AllocGlobal, Global};
use std::env::Env;
use std::process::ExitCode;
use std::{env, io};

/// The words behind the program's name. One that isn't UTF-8 is an error.
fn words_of<R: Env + AllocGlobal>(rt: &R) -> io::Result<Vec<String>> {
    let words = env::args(rt)?.skip(1).collect(rt.alloc())?;
    Ok(words)
}

/// The words that stand for none.
fn list_source(alloc: Global) -> Result<Vec<String>, AllocError> {
    let mut words = Vec::new(alloc);
    words.push(String::from_str(alloc, "info")?)?;
    words.push(String::from_str(alloc, "-")?)?;
    Ok(words)
}

/// The words, or a faulty line where one isn't UTF-8: no command has the name of an empty word.
fn asked<R: Env + AllocGlobal>(rt: &R) -> Result<Vec<String>, AllocError> {
    match words_of(rt) {
        Ok(words) if words.is_empty() => list_source(rt.alloc()),
        Ok(words) => Ok(words),
        Err(error) if error.kind() == io::ErrorKind::OutOfMemory => Err(AllocError),
        Err(_) => {
            let mut words = Vec::new(rt.alloc());
            words.push(String::from_str(rt.alloc(), "")?)?;
            Ok(words)
        }
    }
}

fn main(rt: HostRuntime) -> ExitCode {
    let mut sink = StdSink::new(io::writer(&rt));
    let mut source = StdSource::new(rt.stdin());
    let words = match asked(&rt) {
        Ok(words) => words,
        Err(_) => return ExitCode::from(9),
    };
    let alloc = rt.alloc();
    let mut files = HostFiles::new(OutputGuard::new(&rt));
    let status = fip_top(alloc, words.as_slice(), &mut files, &mut source, &mut sink);
    ExitCode::from(status)
}
