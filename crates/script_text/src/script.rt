//! Scripts.
ghost use Rattle.std.specs.Prelude.{◌≡◌, ◌<◌, ◌≤◌, ◌==◌, ◌++◌, ◌∷◌, [], Ok, Some, IfOk, IfErr, IfSome, OnOk, All, length, map, option_map, slice_get, slice_set};
ghost use Rattle.std.specs.List.{cons_option};
ghost use Rattle.fwu_model.specs.Call as call;
ghost use Rattle.fwu_model.specs.Script.{script_lines, script_of};
ghost use Rattle.script_text.specs.Armable.{IsArmable};
ghost use Rattle.script_text.specs.Shown.{HasBuffer, IsScriptFault, shown};

use crate::call::Call;
use crate::line::{Line, read_line};
use crate::split::split;
use base_core::NoMemory;
use std::alloc::{AllocError, Global};
use std::marker::Model;
use std::mem;
use thiserror::Error;

/// Why a text is no script: the first line, from 1, that is none of a script.
#[derive(Clone, Copy, Debug, PartialEq, Eq, Error)]
pub enum ScriptFault {
    #[error("line {0} is none of a script")]
    BadLine(u32),
    #[error("no memory")]
    NoMemory,
}

/// The calls of a script, in turn. A contract sees the list of the model's calls.
#[derive(Debug, Drop)]
pub struct Script {
    calls: Vec<Call>,
}

impl Model for Script {
    ghost use Rattle.std.specs.Prelude.{List, All, map};
    ghost use Rattle.fwu_model.specs.Call.{Call as ModelCall};
    ghost use Rattle.script_text.specs.Armable.{IsArmable};
    ghost use Rattle.script_text.specs.Shown.{HasBuffer, shown};

    ghost Value = { List ModelCall };

    ghost view = { λ s. map shown s.calls.items };

    ghost invariant = { λ s. All IsArmable (map shown s.calls.items)
        × All HasBuffer s.calls.items };
}

impl Script {
    /// The script of one boot.
    pub fn boot(alloc: Global) -> Result<Script, NoMemory>
        ensures { IfOk result (λ script. script ≡ call.Boot ∷ []) }
    {
        let mut calls = Vec::new(alloc);
        push_call(&mut calls, Some(Call::Boot))?;
        Ok(Script { calls })
    }

    /// The number of calls.
    pub fn len(&self) -> usize
        ensures { result ≡ length self.now }
    {
        self.calls.len()
    }

    pub fn is_empty(&self) -> bool
        ensures { result ≡ (length self.now == 0) }
    {
        self.calls.is_empty()
    }

    /// Takes the call at an index, with its memory, and leaves `show` in its place.
    pub fn take(&mut self, index: usize) -> Call
        requires { index < length self.old }
        ensures call { slice_get self.old index ≡ Some (shown result) }
        ensures left { self.new ≡ slice_set self.old index call.Show }
        ensures armable { IsArmable (shown result) }
        ensures buffer { HasBuffer result }
    {
        mem::replace(&mut self.calls[index], Call::Show)
    }
}

/// The first line, and what follows it.
fn split_line(text: &[u8]) -> (&[u8], &[u8])
    requires { 0 < length text.now }
    ensures lines { script_lines text.now ≡ result.0.now ∷ script_lines result.1.now }
    ensures shorter { length result.1.now < length text.now }
{
    match split(text, b'\n') {
        Some((line, behind)) => (line, behind),
        None => (text, &[]),
    }
}

/// One call more, where a line has one.
fn push_call(calls: &mut Vec<Call>, call: Option<Call>) -> Result<(), AllocError>
    requires buffers { All HasBuffer calls.old.items }
    requires buffer { IfSome call HasBuffer }
    ensures calls { OnOk result (map shown calls.new.items
        ≡ map shown calls.old.items ++ cons_option (option_map shown call) []) }
    ensures buffers { All HasBuffer calls.new.items }
{
    if let Some(call) = call {
        calls.push(call)?;
    }
    Ok(())
}

/// The calls of a script's text. The first line that is no line of a script is the fault; a last line without its end is
/// a line, and the empty text is the empty script. Lines are counted from 1. Time grows with the text's length alone.
pub fn read_script(alloc: Global, bytes: &[u8]) -> Result<Script, ScriptFault>
    requires { length bytes.now ≤ 4194304 }
    ensures ok { IfOk result (λ calls. script_of bytes.now ≡ Ok calls) }
    ensures fault { IfErr result (λ fault. IsScriptFault (script_of bytes.now) fault) }
    ensures few { IfOk result (λ calls. length calls ≤ length (script_lines bytes.now)) }
    ensures armable { IfOk result (All IsArmable) }
{
    let mut calls = Vec::new(alloc);
    let mut rest = bytes;
    let mut number = 1u32;
    while !rest.is_empty() {
        let (line, behind) = split_line(rest);
        let call = match read_line(alloc, line) {
            Ok(Line::Nothing) => None,
            Ok(Line::Call(call)) => Some(call),
            Ok(Line::Bad) => return Err(ScriptFault::BadLine(number)),
            Err(_) => return Err(ScriptFault::NoMemory),
        };
        if push_call(&mut calls, call).is_err() {
            return Err(ScriptFault::NoMemory);
        }
        rest = behind;
        number += 1;
    }
    Ok(Script { calls })
}
