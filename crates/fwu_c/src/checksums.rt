//! Checksums.
ghost use Rattle.std.specs.Prelude.{◌≡◌};
ghost use Rattle.base_core.specs.Crc.{crc};
ghost use Rattle.base_core.specs.Seal.{is_sealed};

/// The CRC-32 of bytes, that of IEEE 802.3 and of UEFI (2.10, section 4.2).
#[unsafe(no_mangle)]
pub extern "C" fn fwu_crc32(bytes: &[u8]) -> u32
    ensures { result ≡ crc bytes.now }
{
    base_core::crc32(bytes)
}

/// Whether a block is sealed.
#[unsafe(no_mangle)]
pub extern "C" fn fwu_sealed(block: &[u8]) -> bool
    ensures { result ≡ is_sealed block.now }
{
    base_core::sealed(block)
}
