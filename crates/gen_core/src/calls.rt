//! The calls of a round.
ghost use Rattle.std.specs.Prelude.{◌≡◌, ◌++◌, IfOk, OnOk, map, string_bytes};
ghost use Rattle.gen_core.specs.Calls.{accept_calls, cut_calls, ending_calls, file_name, round_calls, shown};

use crate::rounds::{Cut, Ending, Round};
use base_core::{Guid, ImageRow, NoMemory};
use std::alloc::{AllocError, Global};

/// A call of a soak.
#[derive(Clone, Copy, Debug, PartialEq, Eq)]
pub enum SoakCall {
    Boot,
    /// A loss of power is armed.
    Cut(Cut),
    /// The package of the round of this number is sent, accepted at once (0) or on trial (1).
    Send { number: u32, acceptance: u32 },
    /// The image of this type is accepted.
    Accept { guid: Guid },
    /// Back to the previous bank.
    Previous,
}

/// The name of the package of a round: `g` and its number, as `g1`. The error comes where memory is
/// wanting.
pub fn file_name(alloc: Global, number: u32) -> Result<String, NoMemory>
    ensures { IfOk result (λ name. string_bytes name ≡ file_name number) }
{
    Ok(format!(in alloc; "g{number}")?)
}

fn add_accepts(calls: &mut Vec<SoakCall>, rows: &[ImageRow]) -> Result<(), AllocError>
    ensures { OnOk result (map shown calls.new.items
        ≡ map shown calls.old.items ++ accept_calls rows.now) }
{
    for row in rows {
        calls.push(SoakCall::Accept { guid: row.guid })?;
    }
    Ok(())
}

fn add_ending(
    calls: &mut Vec<SoakCall>,
    rows: &[ImageRow],
    ending: Ending,
) -> Result<(), AllocError>
    ensures { OnOk result (map shown calls.new.items
        ≡ map shown calls.old.items ++ ending_calls rows.now ending) }
{
    match ending {
        Ending::Nothing => return Ok(()),
        Ending::Boot => {}
        Ending::Accept => add_accepts(calls, rows)?,
        Ending::Previous => calls.push(SoakCall::Previous)?,
    }
    calls.push(SoakCall::Boot)?;
    Ok(())
}

fn add_cut(calls: &mut Vec<SoakCall>, cut: Option<Cut>) -> Result<(), AllocError>
    ensures { OnOk result (map shown calls.new.items
        ≡ map shown calls.old.items ++ cut_calls cut) }
{
    match cut {
        Some(cut) => calls.push(SoakCall::Cut(cut))?,
        None => {}
    }
    Ok(())
}

fn add_calls(calls: &mut Vec<SoakCall>, rows: &[ImageRow], round: &Round) -> Result<(), AllocError>
    ensures { OnOk result (map shown calls.new.items
        ≡ map shown calls.old.items ++ round_calls rows.now round.now) }
{
    add_cut(calls, round.cut)?;
    calls.push(SoakCall::Send {
        number: round.number,
        acceptance: round.acceptance,
    })?;
    calls.push(SoakCall::Boot)?;
    add_ending(calls, rows, round.ending)?;
    Ok(())
}

/// The calls of a round, in their order: a cut where there is one, the package, a boot, and what the
/// round ends with. Every image of these rows is accepted where it ends so. The error comes where
/// memory is wanting.
pub fn round_calls(
    alloc: Global,
    rows: &[ImageRow],
    round: &Round,
) -> Result<Vec<SoakCall>, NoMemory>
    ensures { IfOk result (λ calls. map shown calls.items ≡ round_calls rows.now round.now) }
{
    let mut calls = Vec::new(alloc);
    add_calls(&mut calls, rows, round)?;
    Ok(calls)
}
