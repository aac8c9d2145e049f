//! Ranges of a file whose size is known.

ghost use Rattle.std.specs.Prelude.{◌≡◌, ◌+◌, ◌≤◌, ℕ, List, Some, IfErr, OnOk, length, take, drop};
ghost use Rattle.host_io.specs.Causes.{HasCause};
ghost use Rattle.host_io.specs.Contents.{TellsSize};
ghost use Rattle.host_io.specs.Reads.{ReadsFile};
ghost use Rattle.fip_tables.specs.Files.{Tells};
ghost use Rattle.base_core.specs.Bytes.{num_at};

use host_io::{Failed, Files};

/// Fills `out` with the bytes of a file of a known size, from place `at` on.
pub fn read_range<H: Files>(
    files: &mut H,
    name: &str,
    size: u64,
    at: u64,
    out: &mut [u8],
) -> Result<(), Failed>
    requires known { TellsSize (H.contents files.old) name.now (Some size) }
    requires inside { at + length out.old ≤ size }
    ensures bytes { OnOk result ((bytes : List ℕ) → Tells (H.contents files.old) name.now bytes
        → out.new ≡ take (length out.old) (drop at bytes)) }
    ensures reads { ReadsFile H.Files name.now files.old files.new }
    ensures cause { HasCause (H.faults files.old) (H.faults files.new) result }
{
    files.read_at(name, at, out)
}

/// The number of two bytes at a place.
pub fn le16_at(bytes: &[u8], at: usize) -> u16
    requires { at + 2 ≤ length bytes.now }
    ensures { result ≡ num_at 2 bytes.now at }
{
    u16::from_le_bytes([bytes[at], bytes[at + 1]])
}
