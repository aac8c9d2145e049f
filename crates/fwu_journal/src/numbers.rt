//! The printed numbers of a flash.
ghost use Rattle.std.specs.Prelude.{◌≡◌, ◌≤◌, ◌<◌, ◌+◌, ◌∷◌, ◌++◌, [], if◌then◌else◌, length, map, codes, decimal};
ghost use Rattle.std.specs.List.{join_with_byte};
ghost use Rattle.fwu_model.specs.Text.{bank_state_text, bits_text, comma, numbers_text};
ghost use Rattle.early_boot.specs.Numbers.{numbers as shown_numbers};
ghost use Rattle.fwu_journal.specs.Room.{Grows, HasRoom};
ghost use Rattle.fwu_journal.specs.Joined.{comma_before};

use crate::adding::{add, add_number};
use early_boot::Numbers;
use fwu_formats::BankState;
use meta_layout::{BankBits, Bits, States};

/// Bytes that are enough for the numbers of each flash.
pub const NUMBERS_ROOM: usize = 192;

/// Adds a comma, but none before the first.
fn add_comma(text: &mut Vec<u8>, index: usize)
    requires { HasRoom text.old 1 }
    ensures grows { Grows text.old text.new (comma_before index) }
    ensures short { length (comma_before index) ≤ 1 }
{
    if index > 0 {
        add(text, b",")
    }
}

/// Adds the word for a bank's state.
fn add_state(text: &mut Vec<u8>, state: BankState)
    requires { HasRoom text.old 8 }
    ensures grows { Grows text.old text.new (bank_state_text state) }
    ensures short { length (bank_state_text state) ≤ 8 }
{
    match state {
        BankState::Invalid => add(text, b"invalid"),
        BankState::Valid => add(text, b"valid"),
        BankState::Accepted => add(text, b"accepted"),
    }
}

/// Adds the states of the banks, with commas between them.
fn add_states(text: &mut Vec<u8>, states: &States)
    requires { HasRoom text.old 36 }
    ensures grows { Grows text.old text.new (join_with_byte comma (map bank_state_text states.now)) }
    ensures short { length (join_with_byte comma (map bank_state_text states.now)) ≤ 36 }
{
    for bank in 0..states.len() {
        add_comma(text, bank);
        add_state(text, states.get(bank));
    }
}

/// Adds the digit of a bit.
fn add_bit(text: &mut Vec<u8>, bit: bool)
    requires { HasRoom text.old 1 }
    ensures { Grows text.old text.new ((if bit then 49 else 48) ∷ []) }
{
    if bit {
        add(text, b"1")
    } else {
        add(text, b"0")
    }
}

/// Adds the digits of a bank's bits.
fn add_bits(text: &mut Vec<u8>, bits: &Bits)
    requires { HasRoom text.old 16 }
    ensures grows { Grows text.old text.new (bits_text bits.now) }
    ensures short { length (bits_text bits.now) ≤ 16 }
{
    for image in 0..bits.len() {
        add_bit(text, bits.get(image));
    }
}

/// Adds the bits of the banks, with commas between them.
fn add_bank_bits(text: &mut Vec<u8>, banks: &BankBits)
    requires { HasRoom text.old 68 }
    ensures grows { Grows text.old text.new (join_with_byte comma (map bits_text banks.now)) }
    ensures short { length (join_with_byte comma (map bits_text banks.now)) ≤ 68 }
{
    for bank in 0..banks.len() {
        add_comma(text, bank);
        add_bits(text, banks.get(bank));
    }
}

/// Adds a name and a number.
pub fn add_named(text: &mut Vec<u8>, name: &[u8], n: u32)
    requires { HasRoom text.old (length name.now + 10) }
    ensures grows { Grows text.old text.new (name.now ++ decimal n) }
    ensures short { length (name.now ++ decimal n) ≤ length name.now + 10 }
{
    add(text, name);
    add_number(text, n)
}

/// Adds the active and the previous bank, behind a name.
pub(crate) fn add_banks(text: &mut Vec<u8>, name: &[u8], active: u32, previous: u32)
    requires { HasRoom text.old (length name.now + 30) }
    ensures grows { Grows text.old text.new (name.now ++ decimal active ++ codes " previous=" ++ decimal previous) }
    ensures short { length (name.now ++ decimal active ++ codes " previous=" ++ decimal previous) ≤ length name.now + 30 }
{
    add_named(text, name, active);
    add_named(text, b" previous=", previous)
}

/// Adds the trials and the counter.
pub(crate) fn add_counts(text: &mut Vec<u8>, trials: u32, counter: u32)
    requires { HasRoom text.old 37 }
    ensures grows { Grows text.old text.new (codes " trials=" ++ decimal trials ++ codes " counter=" ++ decimal counter) }
    ensures short { length (codes " trials=" ++ decimal trials ++ codes " counter=" ++ decimal counter) ≤ 37 }
{
    add_named(text, b" trials=", trials);
    add_named(text, b" counter=", counter)
}

/// Adds the numbers of a flash, as `active=A previous=P banks=S,S bits=B,B trials=T counter=C`. S is the state of each
/// bank, and B of each bank a digit for each image, 1 where it was accepted.
pub fn add_numbers(text: &mut Vec<u8>, numbers: &Numbers)
    requires { HasRoom text.old NUMBERS_ROOM }
    ensures grows { Grows text.old text.new (numbers_text (shown_numbers numbers.now)) }
    ensures short { length (numbers_text (shown_numbers numbers.now)) ≤ NUMBERS_ROOM }
{
    add_banks(text, b"active=", numbers.active, numbers.previous);
    add(text, b" banks=");
    add_states(text, &numbers.states);
    add(text, b" bits=");
    add_bank_bits(text, &numbers.bits);
    add_counts(text, numbers.trials, numbers.counter)
}
