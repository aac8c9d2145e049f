//! What each round of a soak draws.
ghost use Rattle.std.specs.Prelude.{◌≡◌, ◌<◌, ◌≤◌, ◌==◌, if◌then◌else◌, IsTrue};
ghost use Rattle.gen_core.specs.Draws.{draw, register_after};
ghost use Rattle.gen_core.specs.Generated.{fit_sizes};
ghost use Rattle.gen_core.specs.Rounds.{cut_of, draws_of, ending_of, round_of, security_in_round, sizes_in_round};
ghost use Rattle.gen_core.specs.Setup.{soak_layout};

use crate::register::Lcg;

/// A loss of power: at the n-th erase or program from there on, after the first k bytes of its range.
/// A round draws n from 1 to 31, and k from 0 to 4096.
#[derive(Clone, Copy, Debug, PartialEq, Eq)]
pub struct Cut {
    pub n: u32,
    pub k: u32,
}

/// How a round ends, behind the boot that follows its package.
#[derive(Clone, Copy, Debug, PartialEq, Eq)]
pub enum Ending {
    Nothing,
    /// One more boot.
    Boot,
    /// Each image is accepted, and then a boot.
    Accept,
    /// Back to the previous bank, and then a boot.
    Previous,
}

/// A round: a package is sent, maybe with a power cut, and booted.
#[derive(Clone, Copy, Debug, PartialEq, Eq)]
pub struct Round {
    /// From 1 on. It is the image version of the round's package, and in its file's name.
    pub number: u32,
    /// The sizes in bytes of the images behind the manifest.
    pub sizes: [u32; 2],
    /// The security version of the round's package.
    pub security: u32,
    /// 0 where the package is accepted with its installation (`now`), and 1 where it is on trial.
    pub acceptance: u32,
    /// A loss of power that is armed before the package is sent.
    pub cut: Option<Cut>,
    pub ending: Ending,
}

/// Draws the sizes in bytes of two images: at most 8192 and 16384, the slots of `soak_rows`.
pub fn draw_sizes(register: &mut Lcg) -> [u32; 2]
    ensures sizes { result ≡ sizes_in_round register.old }
    ensures moves_on { register.new ≡ register_after 2 register.old }
    ensures fit { IsTrue (fit_sizes soak_layout.rows result) }
{
    let first = register.draw(8193);
    let second = register.draw(16385);
    [first, second]
}

/// The security version of a round's package: at most 223.
fn security(number: u32, lower: u32) -> u32
    requires { lower < 2 }
    ensures value { result ≡ security_in_round number lower }
    ensures least { result ≤ 223 }
{
    (1 + number / 8).min(223) - lower
}

/// Draws a cut, or none. The length is drawn only where there is one.
fn draw_cut(register: &mut Lcg) -> Option<Cut>
    ensures cut { result ≡ cut_of register.old }
    ensures moves_on { let draws = if draw register.old 1 32 == 0 then 1 else 2 in
        register.new ≡ register_after draws register.old }
{
    let n = register.draw(32);
    if n == 0 {
        return None;
    }
    let k = register.draw(4097);
    Some(Cut { n, k })
}

fn ending_by(drawn: u32) -> Ending
    requires { drawn < 4 }
    ensures { result ≡ ending_of drawn }
{
    match drawn {
        0 => Ending::Nothing,
        1 => Ending::Boot,
        2 => Ending::Accept,
        _ => Ending::Previous,
    }
}

impl Round {
    /// Draws the round of this number, in six draws, or seven where it has a cut.
    pub fn draw(register: &mut Lcg, number: u32) -> Round
        ensures drawn { result ≡ round_of register.old number }
        ensures moves_on { register.new ≡ register_after (draws_of register.old) register.old }
        ensures fit { IsTrue (fit_sizes soak_layout.rows result.sizes) }
        ensures version { result.security ≤ 223 }
    {
        let sizes = draw_sizes(register);
        let security = security(number, register.draw(2));
        let acceptance = if register.draw(4) == 0 { 0 } else { 1 };
        let cut = draw_cut(register);
        let ending = ending_by(register.draw(4));
        Round {
            number,
            sizes,
            security,
            acceptance,
            cut,
            ending,
        }
    }
}
