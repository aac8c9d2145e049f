//! The metadata after a format.
ghost use Rattle.std.specs.Prelude.{◌≡◌, ◌-◌, ◌≤◌, ◌∷◌, true, false, length, replicate, IsTrue};
ghost use Rattle.base_core.specs.Limits.{most_images};
ghost use Rattle.fwu_formats.specs.Metadata.{first_meta, fits_meta};
ghost use Rattle.fwu_formats.specs.declared.kinds.BankState.TheVariants.{Invalid, Accepted};

use crate::layout::Layout;
use crate::lists::{BankBits, Bits, States};
use crate::meta::Meta;
use fwu_formats::BankState;

fn same_bits(count: usize, bit: bool) -> Bits
    requires { count ≤ most_images }
    ensures { result ≡ replicate count bit }
{
    let mut bits = Bits::new();
    for done in 0..count {
        bits.push(bit);
    }
    bits
}

fn first_states(layout: &Layout) -> States
    ensures { result ≡ Accepted ∷ replicate (layout.now.banks - 1) Invalid }
{
    let banks = layout.banks();
    let mut states = States::new();
    states.push(BankState::Accepted);
    for done in 0..banks - 1 {
        states.push(BankState::Invalid);
    }
    states
}

fn first_bits(layout: &Layout) -> BankBits
    ensures { let images = length layout.now.rows in
        result ≡ replicate images true ∷ replicate (layout.now.banks - 1) (replicate images false) }
{
    let banks = layout.banks();
    let images = layout.rows().len();
    let mut bits = BankBits::new();
    bits.push(same_bits(images, true));
    for done in 0..banks - 1 {
        bits.push(same_bits(images, false));
    }
    bits
}

impl Meta {
    /// The metadata after a format, in version 2: bank 0 is active and before, accepted with all bits set, and the others are
    /// invalid with all bits clear.
    pub fn first(layout: &Layout) -> Meta
        ensures value { result ≡ record { form = 2; meta = first_meta layout.now } }
        ensures fits { IsTrue (fits_meta layout.now result.meta) }
    {
        layout.fits();
        Meta::of(2, 0, 0, first_states(layout), first_bits(layout))
    }
}
