//! Lists of few elements that take no memory: bits, bank states, rows of bits, image rows.
ghost use Rattle.std.specs.Prelude.{◌≡◌, ◌+◌, ◌<◌, ◌≤◌, ◌++◌, [], ◌∷◌, false, length, map, slice_index_or, slice_set, ◌↔◌, IsTrue};
ghost use Rattle.std.specs.List.{list_all};
ghost use Rattle.base_core.specs.Limits.{most_banks, most_images};
ghost use Rattle.fwu_formats.specs.declared.kinds.BankState.TheVariants.{Invalid};

use base_core::{Guid, ImageRow, MOST_BANKS, MOST_IMAGES};
use fwu_formats::BankState;
use std::marker::Model;

const BANKS: usize = MOST_BANKS as usize;

/// A list of at most 16 bits, one for each image. A contract sees the list.
#[derive(Clone, Copy, PartialEq, Eq)]
pub struct Bits {
    count: usize,
    bits: [bool; MOST_IMAGES],
}

impl Model for Bits {
    ghost use Rattle.std.specs.Prelude.{◌-◌, ◌++◌, List, Bool, false, length, take, replicate};
    ghost use Rattle.base_core.specs.Limits.{most_images};
    ghost use Rattle.meta_layout.specs.Padded.{IsPadded, padded-made};

    ghost Value = { List Bool };

    ghost view = { λ b. take b.count b.bits };

    ghost invariant = { λ b. IsPadded most_images false b.count b.bits };

    ghost inverse = { λ bits. record { count = length bits; bits = bits ++ replicate (most_images - length bits) false } };

    ghost inverse_ok = { λ b is. padded-made (λ n l. record { count = n; bits = l }) is };
}

impl Bits {
    /// No bits.
    pub fn new() -> Bits
        ensures { result ≡ [] }
    {
        Bits {
            count: 0,
            bits: [false; MOST_IMAGES],
        }
    }

    pub fn len(&self) -> usize
        ensures value { result ≡ length self.now }
        ensures few { result ≤ most_images }
    {
        self.count
    }

    pub fn push(&mut self, bit: bool)
        requires { length self.old < most_images }
        ensures { self.new ≡ self.old ++ bit ∷ [] }
    {
        self.bits[self.count] = bit;
        self.count += 1;
    }

    pub fn get(&self, image: usize) -> bool
        requires { image < length self.now }
        ensures { result ≡ slice_index_or self.now image false }
    {
        self.bits[image]
    }

    pub fn set(&mut self, image: usize, bit: bool)
        requires { image < length self.old }
        ensures { self.new ≡ slice_set self.old image bit }
    {
        self.bits[image] = bit;
    }

    /// Whether two lists are one.
    pub fn is(&self, other: &Bits) -> bool
        ensures { IsTrue result ↔ (self.now ≡ other.now) }
    {
        self == other
    }

    /// As many clear bits.
    pub fn cleared(&self) -> Bits
        ensures { result ≡ map (λ bit. false) self.now }
    {
        Bits {
            count: self.count,
            bits: [false; MOST_IMAGES],
        }
    }

    /// Whether every bit is set.
    pub fn are_all_set(&self) -> bool
        ensures { result ≡ list_all (λ bit. bit) self.now }
    {
        self.bits[..self.count].iter().all(|bit| *bit)
    }
}

/// A list of at most 4 bank states. A contract sees the list.
#[derive(Clone, Copy, PartialEq, Eq)]
pub struct States {
    count: usize,
    states: [BankState; BANKS],
}

impl Model for States {
    ghost use Rattle.std.specs.Prelude.{◌-◌, ◌++◌, List, length, take, replicate};
    ghost use Rattle.fwu_formats.specs.declared.kinds.BankState.{BankState};
    ghost use Rattle.fwu_formats.specs.declared.kinds.BankState.TheVariants.{Invalid};
    ghost use Rattle.base_core.specs.Limits.{most_banks};
    ghost use Rattle.meta_layout.specs.Padded.{IsPadded, padded-made};

    ghost Value = { List BankState };

    ghost view = { λ s. take s.count s.states };

    ghost invariant = { λ s. IsPadded most_banks Invalid s.count s.states };

    ghost inverse = { λ list. record { count = length list; states = list ++ replicate (most_banks - length list) Invalid } };

    ghost inverse_ok = { λ s is. padded-made (λ n l. record { count = n; states = l }) is };
}

impl States {
    /// No states.
    pub fn new() -> States
        ensures { result ≡ [] }
    {
        States {
            count: 0,
            states: [BankState::Invalid; BANKS],
        }
    }

    pub fn len(&self) -> usize
        ensures value { result ≡ length self.now }
        ensures few { result ≤ most_banks }
    {
        self.count
    }

    /// Whether two lists are one.
    pub fn is(&self, other: &States) -> bool
        ensures { IsTrue result ↔ (self.now ≡ other.now) }
    {
        self == other
    }

    pub fn push(&mut self, state: BankState)
        requires { length self.old < most_banks }
        ensures { self.new ≡ self.old ++ state ∷ [] }
    {
        self.states[self.count] = state;
        self.count += 1;
    }

    pub fn get(&self, bank: usize) -> BankState
        requires { bank < length self.now }
        ensures { result ≡ slice_index_or self.now bank Invalid }
    {
        self.states[bank]
    }

    pub fn set(&mut self, bank: usize, state: BankState)
        requires { bank < length self.old }
        ensures { self.new ≡ slice_set self.old bank state }
    {
        self.states[bank] = state;
    }
}

/// A list of the bits of at most 4 banks. A contract sees the list of lists.
#[derive(Clone, Copy, PartialEq, Eq)]
pub struct BankBits {
    count: usize,
    banks: [Bits; BANKS],
}

impl Model for BankBits {
    ghost use Rattle.std.specs.Prelude.{◌-◌, ◌++◌, List, [], Bool, length, take, replicate};
    ghost use Rattle.base_core.specs.Limits.{most_banks};
    ghost use Rattle.meta_layout.specs.Padded.{IsPadded, padded-made};

    ghost Value = { List (List Bool) };

    ghost view = { λ b. take b.count b.banks };

    ghost invariant = { λ b. IsPadded most_banks [] b.count b.banks };

    ghost inverse = { λ banks. record { count = length banks; banks = banks ++ replicate (most_banks - length banks) [] } };

    ghost inverse_ok = { λ b is. padded-made (λ n l. record { count = n; banks = l }) is };
}

impl BankBits {
    /// No banks.
    pub fn new() -> BankBits
        ensures { result ≡ [] }
    {
        BankBits {
            count: 0,
            banks: [Bits::new(); BANKS],
        }
    }

    pub fn len(&self) -> usize
        ensures value { result ≡ length self.now }
        ensures few { result ≤ most_banks }
    {
        self.count
    }

    /// Whether two lists are one.
    pub fn is(&self, other: &BankBits) -> bool
        ensures { IsTrue result ↔ (self.now ≡ other.now) }
    {
        self == other
    }

    pub fn push(&mut self, bits: Bits)
        requires { length self.old < most_banks }
        ensures { self.new ≡ self.old ++ bits ∷ [] }
    {
        self.banks[self.count] = bits;
        self.count += 1;
    }

    /// A bank's bits.
    pub fn get(&self, bank: usize) -> &Bits
        requires { bank < length self.now }
        ensures { result.now ≡ slice_index_or self.now bank [] }
    {
        let _count = self.count;
        &self.banks[bank]
    }

    /// Sets an image's bit in a bank.
    pub fn set(&mut self, bank: usize, image: usize, bit: bool)
        requires below { bank < length self.old }
        requires within { image < length (slice_index_or self.old bank []) }
        ensures { self.new ≡ slice_set self.old bank (slice_set (slice_index_or self.old bank []) image bit) }
    {
        let mut bits = *self.get(bank);
        bits.set(image, bit);
        self.banks[bank] = bits;
    }

    /// Sets all bits of a bank.
    pub fn set_bank(&mut self, bank: usize, bits: Bits)
        requires { bank < length self.old }
        ensures { self.new ≡ slice_set self.old bank bits }
    {
        let _count = self.count;
        self.banks[bank] = bits;
    }
}

/// A list of at most 16 image rows. A contract sees the list.
#[derive(Clone, Copy)]
pub struct Rows {
    count: usize,
    rows: [ImageRow; MOST_IMAGES],
}

impl Model for Rows {
    ghost use Rattle.std.specs.Prelude.{◌-◌, ◌++◌, List, length, take, replicate};
    ghost use Rattle.base_core.specs.declared.rows.ImageRow.{ImageRow};
    ghost use Rattle.base_core.specs.Limits.{most_images};
    ghost use Rattle.meta_layout.specs.Padded.{IsPadded, padded-made};
    ghost use Rattle.meta_layout.specs.Rows.{unused_row};

    ghost Value = { List ImageRow };

    ghost view = { λ r. take r.count r.rows };

    ghost invariant = { λ r. IsPadded most_images unused_row r.count r.rows };

    ghost inverse = { λ rows. record { count = length rows; rows = rows ++ replicate (most_images - length rows) unused_row } };

    ghost inverse_ok = { λ r is. padded-made (λ n l. record { count = n; rows = l }) is };
}

impl Rows {
    pub fn new() -> Rows
        ensures { result ≡ [] }
    {
        let none = ImageRow {
            guid: Guid::nil(),
            slots: 0,
        };
        Rows {
            count: 0,
            rows: [none; MOST_IMAGES],
        }
    }

    pub fn push(&mut self, row: ImageRow)
        requires { length self.old < most_images }
        ensures { self.new ≡ self.old ++ row ∷ [] }
    {
        self.rows[self.count] = row;
        self.count += 1;
    }

    pub fn as_slice(&self) -> &[ImageRow]
        ensures value { result.now ≡ self.now }
        ensures few { length self.now ≤ most_images }
    {
        &self.rows[..self.count]
    }
}
