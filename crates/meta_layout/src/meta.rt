//! The metadata of a firmware store as a value: its parts, told and set.
ghost use Rattle.std.specs.Prelude.{◌≡◌, ◌<◌, ◌==◌, [], length, slice_index_or, slice_set, ◌↔◌, IsTrue};
ghost use Rattle.fwu_formats.specs.Layout.{Layout as LaidOut};
ghost use Rattle.fwu_formats.specs.Metadata.{fits_meta, state_at, bit_at};

use crate::lists::{BankBits, Bits, States};
use fwu_formats::BankState;
use std::marker::Model;

/// The metadata of a firmware store (DEN0118): which bank is active and which was before, the state of each bank, and for
/// each image in it whether it was accepted. Beside it stands the version, 2 or 1, of the block that it was read from.
#[derive(Clone, Copy, PartialEq, Eq)]
pub struct Meta {
    form: u32,
    active: u32,
    previous: u32,
    states: States,
    bits: BankBits,
}

impl Model for Meta {
    ghost use Rattle.fwu_formats.specs.Metadata.{MetaRead};

    ghost Value = { MetaRead };

    ghost view = { λ m.
        record { form = m.form; meta = record { active = m.active; previous = m.previous; states = m.states; bits = m.bits } } };

    ghost inverse = { λ m.
        record { form = m.form; active = m.meta.active; previous = m.meta.previous; states = m.meta.states; bits = m.meta.bits } };
}

fn are_equal(one: u32, other: u32) -> bool
    ensures { result ≡ (one == other) }
{
    one == other
}

impl Meta {
    /// The metadata of these parts.
    pub fn of(form: u32, active: u32, previous: u32, states: States, bits: BankBits) -> Meta
        ensures { result ≡
            record { form = form; meta = record { active = active; previous = previous; states = states; bits = bits } } }
    {
        Meta {
            form,
            active,
            previous,
            states,
            bits,
        }
    }

    /// The version of the block that it was read from, 2 or 1. `first` has 2.
    pub fn form(&self) -> u32
        ensures { result ≡ self.now.form }
    {
        self.form
    }

    /// How many banks it speaks of.
    pub fn banks(&self) -> u32
        ensures { result ≡ length self.now.meta.states }
    {
        self.states.len() as u32
    }

    /// The active bank.
    pub fn active(&self) -> u32
        ensures { result ≡ self.now.meta.active }
    {
        self.active
    }

    /// The bank that was active before.
    pub fn previous(&self) -> u32
        ensures { result ≡ self.now.meta.previous }
    {
        self.previous
    }

    /// The states of all banks.
    pub fn states(&self) -> &States
        ensures { result.now ≡ self.now.meta.states }
    {
        &self.states
    }

    /// The bits of all banks.
    pub fn bits(&self) -> &BankBits
        ensures { result.now ≡ self.now.meta.bits }
    {
        &self.bits
    }

    /// The state of a bank.
    pub fn state(&self, bank: u32) -> BankState
        requires { bank < length self.now.meta.states }
        ensures { result ≡ state_at self.now.meta bank }
    {
        self.states.get(bank as usize)
    }

    /// Whether an image in a bank was accepted.
    pub fn bit(&self, bank: u32, image: u32) -> bool
        requires below { bank < length self.now.meta.bits }
        requires within { image < length (slice_index_or self.now.meta.bits bank []) }
        ensures { result ≡ bit_at self.now.meta bank image }
    {
        self.bits.get(bank as usize).get(image as usize)
    }

    /// Whether two are one, their versions too.
    pub fn is(&self, other: &Meta) -> bool
        ensures { IsTrue result ↔ (self.now ≡ other.now) }
    {
        let versions = are_equal(self.form(), other.form());
        let active = are_equal(self.active(), other.active());
        let previous = are_equal(self.previous(), other.previous());
        let states = self.states().is(other.states());
        let bits = self.bits().is(other.bits());
        versions && active && previous && states && bits
    }

    /// Makes it that of a block of version 2.
    pub fn migrate(&mut self)
        ensures { self.new ≡ record self.old { form = 2 } }
    {
        self.form = 2;
    }

    /// Sets the active bank, and changes nothing else. It stays metadata of a layout that has the bank.
    pub fn set_active(&mut self, bank: u32)
        ensures set { self.new ≡ record self.old { meta = record self.old.meta { active = bank } } }
        ensures fits { (L : LaidOut) → bank < L.banks → IsTrue (fits_meta L self.old.meta) → IsTrue (fits_meta L self.new.meta) }
    {
        self.active = bank;
    }

    /// Sets the bank that was active before, and changes nothing else. It stays metadata of a layout that has the bank.
    pub fn set_previous(&mut self, bank: u32)
        ensures set { self.new ≡ record self.old { meta = record self.old.meta { previous = bank } } }
        ensures fits { (L : LaidOut) → bank < L.banks → IsTrue (fits_meta L self.old.meta) → IsTrue (fits_meta L self.new.meta) }
    {
        self.previous = bank;
    }

    /// Sets the state of a bank, and changes nothing else.
    pub fn set_state(&mut self, bank: u32, state: BankState)
        requires { bank < length self.old.meta.states }
        ensures set { let states = slice_set self.old.meta.states bank state in
            self.new ≡ record self.old { meta = record self.old.meta { states = states } } }
        ensures fits { (L : LaidOut) → IsTrue (fits_meta L self.old.meta) → IsTrue (fits_meta L self.new.meta) }
    {
        self.states.set(bank as usize, state);
    }

    /// Sets whether an image in a bank was accepted, and changes nothing else.
    pub fn set_bit(&mut self, bank: u32, image: u32, on: bool)
        requires below { bank < length self.old.meta.bits }
        requires within { image < length (slice_index_or self.old.meta.bits bank []) }
        ensures set { let row = slice_set (slice_index_or self.old.meta.bits bank []) image on in
            self.new ≡ record self.old { meta = record self.old.meta { bits = slice_set self.old.meta.bits bank row } } }
        ensures fits { (L : LaidOut) → IsTrue (fits_meta L self.old.meta) → IsTrue (fits_meta L self.new.meta) }
    {
        self.bits.set(bank as usize, image as usize, on);
    }

    /// Sets, for each image in a bank, whether it was accepted, and changes nothing else.
    pub fn set_bits(&mut self, bank: u32, bits: Bits)
        requires { bank < length self.old.meta.bits }
        ensures set { self.new ≡ record self.old { meta = record self.old.meta { bits = slice_set self.old.meta.bits bank bits } } }
        ensures fits { (L : LaidOut) → length bits ≡ length L.rows → IsTrue (fits_meta L self.old.meta)
            → IsTrue (fits_meta L self.new.meta) }
    {
        self.bits.set_bank(bank as usize, bits);
    }
}
