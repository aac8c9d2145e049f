//! The CRC-32 with the reflected polynomial 0xEDB88320.
ghost use Rattle.std.specs.Prelude.{◌≡◌};
ghost use Rattle.base_core.specs.Crc.{crc, halved, crc_step};

const POLYNOMIAL: u32 = 0xEDB8_8320;

fn halve(register: u32) -> u32
    ensures { result ≡ halved register }
{
    if register % 2 == 1 {
        (register / 2) ^ POLYNOMIAL
    } else {
        register / 2
    }
}

#[tactic(auto, unfolding(crate::specs::Crc::crc_step))]
fn take_in(register: u32, byte: u8) -> u32
    ensures { result ≡ crc_step register byte }
{
    let four = halve(halve(halve(halve(register ^ byte as u32))));
    halve(halve(halve(halve(four))))
}

/// The checksum of bytes.
#[tactic(auto, unfolding(crate::specs::Crc::crc))]
pub fn crc32(bytes: &[u8]) -> u32
    ensures { result ≡ crc bytes.now }
{
    u32::MAX
        - bytes
            .iter()
            .fold(u32::MAX, |register, byte| take_in(register, *byte))
}
