//! What a soak prints.
ghost use Rattle.std.specs.Prelude.{◌≡◌, ◌++◌, IfOk, OnOk};
ghost use Rattle.gen_core.specs.Line.{counts_text, field, last_text, totals_line};

use base_core::NoMemory;
use itoa::Buffer;
use std::alloc::{AllocError, Global};

/// What the line of a soak tells, beside its number of rounds.
#[derive(Clone, Copy)]
pub struct Totals {
    /// All turns that were done.
    pub turns: u64,
    /// Boots that were answered with a bank.
    pub boots: u64,
    /// Turns in which power was lost.
    pub losses: u64,
    /// Boots of a bank that isn't the active one.
    pub fallbacks: u64,
    /// Packages that were sent and installed.
    pub sends: u64,
    /// The bank of the last boot that was answered with one, the security version of its package, and
    /// the counter, each 0 where there was none.
    pub bank: u32,
    pub version: u32,
    pub counter: u32,
}

/// Adds a name and the decimal digits of a number.
fn add_field(text: &mut Vec<u8>, name: &[u8], n: u64) -> Result<(), AllocError>
    ensures { OnOk result (text.new.items ≡ text.old.items ++ field name.now n) }
{
    text.extend_from_slice(name)?;
    let mut digits = Buffer::new();
    let spelled = digits.format(n);
    text.extend_from_slice(spelled.as_bytes())?;
    Ok(())
}

impl Totals {
    /// Adds how many turns of each kind there were.
    fn add_counts(&self, text: &mut Vec<u8>) -> Result<(), AllocError>
        ensures { OnOk result (text.new.items ≡ text.old.items ++ counts_text self.now) }
    {
        add_field(text, b" turns=", self.turns)?;
        add_field(text, b" boots=", self.boots)?;
        add_field(text, b" losses=", self.losses)?;
        add_field(text, b" fallbacks=", self.fallbacks)?;
        add_field(text, b" sends=", self.sends)?;
        Ok(())
    }

    /// Adds what the last boot told.
    fn add_last(&self, text: &mut Vec<u8>) -> Result<(), AllocError>
        ensures { OnOk result (text.new.items ≡ text.old.items ++ last_text self.now) }
    {
        add_field(text, b" bank=", u64::from(self.bank))?;
        add_field(text, b" version=", u64::from(self.version))?;
        add_field(text, b" counter=", u64::from(self.counter))?;
        Ok(())
    }

    /// The line, with its end, for so many rounds that were asked for. The error comes where memory
    /// is wanting.
    pub fn line(&self, alloc: Global, rounds: u32) -> Result<Vec<u8>, NoMemory>
        ensures { IfOk result (λ line. line.items ≡ totals_line rounds self.now) }
    {
        let mut text = Vec::new(alloc);
        add_field(&mut text, b"soak rounds=", u64::from(rounds))?;
        self.add_counts(&mut text)?;
        self.add_last(&mut text)?;
        text.extend_from_slice(b"\n")?;
        Ok(text)
    }
}
