//! Little-endian numbers of four bytes.
ghost use Rattle.std.specs.Prelude.{◌≡◌, ◌*◌, ◌≤◌, length, take, drop};
ghost use Rattle.fwu_wire.specs.Replies.{le_words};

use base_core::put_le32;

/// Writes numbers at the front, and gives how many bytes they take.
pub fn put_words(out: &mut [u8], numbers: &[u32]) -> usize
    requires room { 4 * length numbers.now ≤ length out.old }
    requires few { length numbers.now ≤ 16 }
    ensures size { result ≡ 4 * length numbers.now }
    ensures front { take result out.new ≡ le_words numbers.now }
    ensures behind { drop result out.new ≡ drop result out.old }
{
    for (index, number) in numbers.iter().enumerate() {
        put_le32(out, 4 * index, *number);
    }
    4 * numbers.len()
}
