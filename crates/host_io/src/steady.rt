//! Readers and writers whose bytes are known at each time or never.

ghost use Rattle.std.specs.Prelude.{◌≡◌, Bool, true, false, is_some, refl};

use std::io::{Cursor, Print, Printer, Read, Stdin, Write};

/// A reader whose bytes that are left are known at each time, or never.
pub trait SteadyRead: Read {
    /// Whether they are known.
    ghost tells: { Bool };

    /// They are at each time, or never.
    ghost steady: { (r : Self) → is_some (Self.remaining r) ≡ tells };
}

/// A writer whose bytes that it holds are known at each time, or never.
pub trait SteadyWrite: Write {
    /// Whether they are known.
    ghost tells: { Bool };

    /// They are at each time, or never.
    ghost steady: { (w : Self) → is_some (Self.contents w) ≡ tells };
}

impl SteadyRead for Stdin {
    ghost tells = { false };

    ghost steady = { λ _. refl };
}

impl SteadyRead for Cursor<&[u8]> {
    ghost tells = { true };

    ghost steady = { λ _. refl };
}

impl<R: SteadyRead> SteadyRead for &mut R {
    ghost tells = { R.tells };

    ghost steady = { λ r. R.steady r.now };
}

impl<P: Print> SteadyWrite for Printer<'_, P> {
    ghost tells = { false };

    ghost steady = { λ _. refl };
}

impl SteadyWrite for Vec<u8> {
    ghost tells = { true };

    ghost steady = { λ _. refl };
}

impl<const N: usize> SteadyWrite for Cursor<[u8; N]> {
    ghost tells = { false };

    ghost steady = { λ _. refl };
}

impl<W: SteadyWrite> SteadyWrite for &mut W {
    ghost tells = { W.tells };

    ghost steady = { λ w. W.steady w.now };
}
