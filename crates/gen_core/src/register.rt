//! The register that all numbers of a soak come from.
ghost use Rattle.std.specs.Prelude.{◌≡◌, ◌<◌, ◌≤◌};
ghost use Rattle.gen_core.specs.Draws.{drawn, step};

use std::marker::Model;

/// A linear congruential generator of 32 bits, with the constants of the C standard's example of
/// `rand`.
#[derive(Clone, Copy)]
pub struct Lcg {
    register: u32,
}

impl Model for Lcg {
    ghost use Rattle.std.specs.Prelude.{ℕ};

    ghost Value = { ℕ };

    ghost view = { λ g. g.register };

    ghost inverse = { λ n. record { register = n } };
}

/// The register after one more draw.
fn step(register: u32) -> u32
    ensures { result ≡ step register }
{
    ((u64::from(register) * 1_103_515_245 + 12345) % 4_294_967_296) as u32
}

impl Lcg {
    /// A generator that begins with this register.
    pub fn new(seed: u32) -> Lcg
        ensures { result ≡ seed }
    {
        Lcg { register: seed }
    }

    /// Moves the register on, and draws a number below n from it: of its bits 16 to 30.
    pub fn draw(&mut self, n: u32) -> u32
        requires some { 1 ≤ n }
        requires few { n ≤ 32768 }
        ensures moves_on { self.new ≡ step self.old }
        ensures value { result ≡ drawn self.new n }
        ensures below { result < n }
    {
        self.register = step(self.register);
        self.register / 65536 % 32768 % n
    }
}
