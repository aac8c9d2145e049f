//! Devices with a flash of 22 blocks behind a GUID partition table.
ghost use Rattle.std.specs.Prelude.{◌+◌, ◌≤◌};

use runs_kit::{blank, put, two_banks};
use std::alloc::Global;
use std::process::Abort;

// The tables of four entries come from checks/model/make_table.py, which writes them from UEFI's layout by
// Python's struct, uuid and zlib: checks/model/check_vectors.py makes them again.

/// The header of the primary copy, in block 1.
pub const PRIMARY: &str =
    "4546492050415254000001005c000000da5b96c40000000001000000000000002700000000000000030000000000000025000000000000000403020106050807090a0b0c0d0e0f100200000000000000040000008000000099a65b29";

/// The header of the backup copy, in block 39.
pub const BACKUP: &str =
    "4546492050415254000001005c0000001907eee10000000027000000000000000100000000000000030000000000000025000000000000000403020106050807090a0b0c0d0e0f102600000000000000040000008000000099a65b29";

// The first three entries: the store in blocks 3 to 24, and the metadata partitions, blocks 25 and 26. The fourth is free.
const ENTRIES: &str =
    "535557464f544552504152540000000111111111222233334444555555555555030000000000000018000000000000000000000000000000000000000000000000000000000000000000000000000000000000000000000000000000000000000000000000000000000000000000000000000000000000000000000000000000a0847a8a8783f640ab41a8b9a5a60d2311111111222233334444555555555556190000000000000019000000000000000000000000000000000000000000000000000000000000000000000000000000000000000000000000000000000000000000000000000000000000000000000000000000000000000000000000000000a0847a8a8783f640ab41a8b9a5a60d23111111112222333344445555555555571a000000000000001a000000000000000000000000000000000000000000000000000000000000000000000000000000000000000000000000000000000000000000000000000000000000000000000000000000000000000000000000000000";

// Puts zeros over so many bytes.
fn put_zeros(image: &mut Vec<u8>, at: usize, count: usize)
    requires { at + count ≤ 163840 }
{
    if let Some(bytes) = image.as_mut_slice().get_mut(at..at + count) {
        bytes.fill(0);
    }
}

// Puts the blocks of a flash into its partitions: the store, from block 3 on, and the replicas behind it.
fn put_flash(image: &mut Vec<u8>, flash: &[u8]) {
    for block in 0..22 {
        let place = match block {
            1 => 25,
            2 => 26,
            _ => 3 + block,
        };
        if let (Some(from), Some(to)) = (
            flash.get(4096 * block..4096 * block + 4096),
            image
                .as_mut_slice()
                .get_mut(4096 * place..4096 * place + 4096),
        ) {
            to.copy_from_slice(from);
        }
    }
}

/// The flash of `two_banks` in a device of 40 blocks with these copies of a table.
pub fn partitioned(rt: &impl Abort, alloc: Global, primary: bool, backup: bool) -> Vec<u8> {
    let mut image = blank(alloc, 40).expect(rt, "memory");
    for place in [2, 38] {
        put_zeros(&mut image, 4096 * place, 512);
        put(alloc, &mut image, 4096 * place as u32, ENTRIES).expect(rt, "memory");
    }
    if primary {
        put(alloc, &mut image, 4096, PRIMARY).expect(rt, "memory");
    }
    if backup {
        put(alloc, &mut image, 39 * 4096, BACKUP).expect(rt, "memory");
    }
    put_flash(&mut image, two_banks(alloc).expect(rt, "memory").as_slice());
    image
}
