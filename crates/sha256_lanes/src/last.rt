// The end of a message (FIPS 180-4, 5.1.1): what is left of it after its whole blocks, a one bit, zeros, and the length in bits.

ghost use Rattle.std.specs.Prelude.{◌≡◌, ◌+◌, ◌-◌, ◌++◌, ◌%◌, ◌<◌, ◌≤◌, length, take, drop};
ghost use Rattle.sha2.specs.Sha256.{digest_bytes, padding};

/// How many bytes the last blocks have, where so many are left: the one bit and the length want nine more.
fn size_of_last(left: usize) -> usize
    requires { left < 64 }
    ensures { result ≡ left + 1 + (119 - left) % 64 + 8 }
{
    if left < 56 { 64 } else { 128 }
}

/// Writes the bytes over those from this place on.
fn put(out: &mut [u8], at: usize, bytes: &[u8])
    requires { at + length bytes.now ≤ length out.old }
    ensures { out.new ≡ take at out.old ++ bytes.now ++ drop (at + length bytes.now) out.old }
{
    let end = at + bytes.len();
    out[at..end].copy_from_slice(bytes);
}

/// The last blocks of a message of this many bytes, and how many bytes they have.
pub(crate) fn last_blocks(left: &[u8], total: u64) -> ([u8; 128], usize)
    requires { length left.now < 64 }
    ensures whole { result.1 % 64 ≡ 0 }
    ensures fits { result.1 ≤ 128 }
    ensures padded { total % 64 ≡ length left.now → take result.1 result.0 ≡ left.now ++ padding total }
{
    let size = size_of_last(left.len());
    let mut end = [0u8; 128];
    put(&mut end, 0, left);
    put(&mut end, left.len(), &[0x80]);
    put(&mut end, size - 8, &total.wrapping_mul(8).to_be_bytes());
    (end, size)
}

/// The bytes of a hash value, each word high byte first.
pub(crate) fn digest_bytes(words: &[u32; 8]) -> [u8; 32]
    ensures { result ≡ digest_bytes words.now 8 }
{
    let mut digest = [0u8; 32];
    for k in 0..8 {
        digest[4 * k..4 * k + 4].copy_from_slice(&words[k].to_be_bytes());
    }
    digest
}
