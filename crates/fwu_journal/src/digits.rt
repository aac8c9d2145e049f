//! Bytes in lower-case hexadecimal. The time grows with their number alone.
ghost use Rattle.std.specs.Prelude.{◌≡◌, ◌≤◌, ◌<◌, ◌+◌, ◌*◌, ◌∷◌, [], length, slice_index};
ghost use Rattle.hex.specs.Hex.{encode_lower, lower_digits};
ghost use Rattle.fwu_model.specs.Text.{hex_text};
ghost use Rattle.fwu_journal.specs.Room.{Grows, HasRoom};

use crate::adding::add;

const DIGITS: &[u8; 16] = b"0123456789abcdef";

/// The digit of a value.
fn digit(value: u8) -> u8
    requires { value < 16 }
    ensures { result ≡ slice_index lower_digits value }
{
    DIGITS[usize::from(value)]
}

/// Adds the two digits of a byte, that of its high four bits first.
#[tactic(auto, unfolding(hex::specs::Hex::encode_with))]
fn add_byte(text: &mut Vec<u8>, byte: u8)
    requires { HasRoom text.old 2 }
    ensures { Grows text.old text.new (encode_lower (byte ∷ [])) }
{
    add(text, &[digit(byte / 16), digit(byte % 16)])
}

/// Adds the digits of bytes, two for each.
fn add_digits(text: &mut Vec<u8>, bytes: &[u8])
    requires { HasRoom text.old (2 * length bytes.now) }
    ensures grows { Grows text.old text.new (encode_lower bytes.now) }
    ensures short { length (encode_lower bytes.now) ≤ 2 * length bytes.now }
{
    for byte in bytes {
        add_byte(text, *byte);
    }
}

/// Adds the digits of bytes, or `-` for no bytes.
pub fn add_bytes(text: &mut Vec<u8>, bytes: &[u8])
    requires { HasRoom text.old (2 * length bytes.now + 1) }
    ensures grows { Grows text.old text.new (hex_text bytes.now) }
    ensures short { length (hex_text bytes.now) ≤ 2 * length bytes.now + 1 }
{
    if bytes.is_empty() {
        add(text, b"-")
    } else {
        add_digits(text, bytes)
    }
}
