//! Pieces of a line, added in room that was made before. Nothing here takes memory.
ghost use Rattle.std.specs.Prelude.{◌≤◌, ◌++◌, length, codes, decimal};
ghost use Rattle.fwu_journal.specs.Room.{Grows, HasRoom};

use itoa::Buffer;

/// Adds bytes to a text that has room for them.
pub fn add(text: &mut Vec<u8>, bytes: &[u8])
    requires { HasRoom text.old (length bytes.now) }
    ensures { Grows text.old text.new bytes.now }
{
    text.extend_from_slice(bytes).unwrap()
}

/// Adds the decimal digits of a number.
pub fn add_number(text: &mut Vec<u8>, n: u32)
    requires { HasRoom text.old 10 }
    ensures grows { Grows text.old text.new (decimal n) }
    ensures short { length (decimal n) ≤ 10 }
{
    let mut digits = Buffer::new();
    let spelled = digits.format(n);
    add(text, spelled.as_bytes())
}
