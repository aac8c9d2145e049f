//! The partitions of a table, and the places that they give.

ghost use Rattle.std.specs.Prelude.{◌≡◌, ◌⊎◌, ◌+◌, ◌*◌, ◌<◌, ◌≤◌, ◌&&◌, ◌||◌, [], ◌∷◌, ◌++◌, cond, Ok, Err, length, nat_le, IfOk, OnOk};
ghost use Rattle.base_core.specs.Block.{fewest_blocks, most_blocks};
ghost use Rattle.base_core.specs.Bytes.{num_at, same_bytes};
ghost use Rattle.gpt_core.specs.Table.{Table as Said, FitsTable, blocks_of, entry_number_of};
ghost use Rattle.gpt_core.specs.Places.{Fit};
ghost use Rattle.gpt_core.specs.PlacesOf.{in_text_order, store_type, metadata_type, partition_at, of_type as of_type_in, is_usable, are_apart, partition_blocks, are_large, placed, places_of};
ghost use Rattle.gpt_core.specs.declared.layout.PlaceFault.{PlaceFault};
ghost use Rattle.gpt_core.specs.declared.layout.PlaceFault.TheVariants as fault;

use crate::headers::blocks_for;
use crate::layout::{PlaceFault, Places};
use crate::reading::{Table, is_same_list};
use base_core::{NoMemory, le64_at};
use std::alloc::Global;

/// A partition: its type, and its first and last block.
#[derive(Clone, Copy)]
pub struct Partition {
    pub kind: [u8; 16],
    pub first: u64,
    pub last: u64,
}

/// The type of the partition that is the store, 46575553-544f-5245-5041-525400000001, in the order of a
/// GUID's text. It is this project's own.
const STORE: [u8; 16] = *b"FWUSTOREPART\0\0\0\x01";

/// The type of a partition for metadata, 8a7a84a0-8387-40f6-ab41-a8b9a5a60d23 (DEN0118).
const METADATA: [u8; 16] = [
    0x8a, 0x7a, 0x84, 0xa0, 0x83, 0x87, 0x40, 0xf6, 0xab, 0x41, 0xa8, 0xb9, 0xa5, 0xa6, 0x0d, 0x23,
];

/// Sixteen bytes of a table in the order of a GUID's text.
fn text_order(b: &[u8; 16]) -> [u8; 16]
    ensures { result ≡ in_text_order b.now }
{
    [
        b[3], b[2], b[1], b[0], b[5], b[4], b[7], b[6], b[8], b[9], b[10], b[11], b[12], b[13],
        b[14], b[15],
    ]
}

/// The partition of an entry.
fn partition_of(entries: &[u8], i: usize) -> Partition
    requires { 128 * i + 128 ≤ length entries.now }
    ensures { result ≡ partition_at entries.now i }
{
    let at = 128 * i;
    let mut guid = [0; 16];
    guid.copy_from_slice(&entries[at..at + 16]);
    Partition {
        kind: text_order(&guid),
        first: le64_at(entries, at + 32),
        last: le64_at(entries, at + 40),
    }
}

/// Adds a partition, if it has this type.
fn add_if(found: &mut Vec<Partition>, partition: Partition, kind: &[u8]) -> Result<(), NoMemory>
    ensures { OnOk result (found.new.items ≡ found.old.items ++ cond (same_bytes partition.kind kind.now) (partition ∷ []) []) }
{
    if !is_same_list(&partition.kind, kind) {
        return Ok(());
    }
    match found.push(partition) {
        Ok(()) => Ok(()),
        Err(_) => Err(NoMemory),
    }
}

/// The partitions of a type, in the order of their entries.
fn of_type(alloc: Global, table: &Table, kind: &[u8]) -> Result<Vec<Partition>, NoMemory>
    ensures { IfOk result (λ v. v.items ≡ of_type_in kind.now table.now) }
{
    let entries = table.entries.as_slice();
    let mut found = Vec::new(alloc);
    for i in 0..entries.len() / 128 {
        let partition = partition_of(entries, i);
        add_if(&mut found, partition, kind)?;
    }
    Ok(found)
}

/// Whether its first block isn't after its last one, and both are usable.
fn is_usable_in(blocks: u32, entry_blocks: u32, partition: &Partition) -> bool
    ensures { result ≡ is_usable blocks entry_blocks partition.now }
{
    let Partition { first, last, .. } = *partition;
    if last >= blocks as u64 {
        return false;
    }
    let beside = 2 + entry_blocks as u64;
    first <= last && beside <= first && last + beside <= blocks as u64
}

/// Whether two partitions have no block in common.
fn are_apart_from(partition: &Partition, other: &Partition) -> bool
    ensures { result ≡ are_apart partition.now other.now }
{
    partition.last < other.first || other.last < partition.first
}

/// Whether no two of the three have a block in common.
fn are_all_apart(store: &Partition, zero: &Partition, one: &Partition) -> bool
    ensures { result ≡ (are_apart store.now zero.now && are_apart store.now one.now && are_apart zero.now one.now) }
{
    are_apart_from(store, zero) && are_apart_from(store, one) && are_apart_from(zero, one)
}

/// Whether it has 8 to 65,536 blocks.
fn is_sized(store: &Partition) -> bool
    ensures { result ≡ (nat_le fewest_blocks (partition_blocks store.now) && nat_le (partition_blocks store.now) most_blocks) }
{
    if store.last < store.first {
        return false;
    }
    let more = store.last - store.first;
    7 <= more && more <= 65535
}

/// Whether each of the three is usable, no two share a block, and the store has a size that a flash may have.
#[tactic(auto, unfolding(crate::specs::PlacesOf::are_large))]
fn are_large_in(
    blocks: u32,
    entry_blocks: u32,
    store: &Partition,
    zero: &Partition,
    one: &Partition,
) -> bool
    ensures { result ≡ are_large blocks entry_blocks store.now zero.now one.now }
{
    is_usable_in(blocks, entry_blocks, store)
        && is_usable_in(blocks, entry_blocks, zero)
        && is_usable_in(blocks, entry_blocks, one)
        && are_all_apart(store, zero, one)
        && is_sized(store)
}

/// The places that these partitions are.
fn places_at(store: &Partition, zero: &Partition, one: &Partition) -> Places
    requires forward { store.now.first ≤ store.now.last }
    requires small { (store.now.last < most_blocks) × (zero.now.first < most_blocks) × (one.now.first < most_blocks) }
    ensures { result ≡ record {
      store_first = store.now.first;
      store_blocks = partition_blocks store.now;
      replicas = zero.now.first ∷ one.now.first ∷ [];
    } }
{
    Places {
        store_first: store.first as u32,
        store_blocks: (store.last - store.first + 1) as u32,
        replicas: [zero.first as u32, one.first as u32],
    }
}

/// The places by the partitions of both types, or the first fault.
fn place(
    blocks: u32,
    entry_blocks: u32,
    stores: &[Partition],
    replicas: &[Partition],
) -> Result<Places, PlaceFault>
    requires device { blocks ≤ most_blocks }
    requires counted { length replicas.now ≤ 128 }
    ensures { result ≡ placed blocks entry_blocks stores.now replicas.now }
{
    if stores.len() != 1 {
        return Err(PlaceFault::NoStore);
    }
    if replicas.len() != 2 {
        return Err(PlaceFault::Replicas(replicas.len() as u32));
    }
    if !are_large_in(blocks, entry_blocks, &stores[0], &replicas[0], &replicas[1]) {
        return Err(PlaceFault::TooSmall);
    }
    Ok(places_at(&stores[0], &replicas[0], &replicas[1]))
}

/// The places that a table gives in a device of so many blocks, or the first fault.
pub fn places(alloc: Global, table: &Table, blocks: u32) -> Result<Places, PlaceFault>
    requires fits { FitsTable blocks table.now }
    requires device { blocks ≤ most_blocks }
    ensures places { (result ≡ Err fault.NoMemory) ⊎ (result ≡ places_of blocks table.now) }
    ensures fit { IfOk result (λ places. Fit blocks places) }
{
    let Ok(stores) = of_type(alloc, table, &STORE) else {
        return Err(PlaceFault::NoMemory);
    };
    let Ok(replicas) = of_type(alloc, table, &METADATA) else {
        return Err(PlaceFault::NoMemory);
    };
    let number = (table.entries.len() / 128) as u32;
    place(
        blocks,
        blocks_for(number),
        stores.as_slice(),
        replicas.as_slice(),
    )
}
