//! Capsules of worked parts, and hostile ones. Each of these is the capsule of `hello` with some of
//! its bytes changed, or its front. The fault is the first one by the order of the tests.
//! checks/model/check_vectors.py finds the same ones.

use crate::fixtures::{HELLO_CAPSULE, add, add_part, front, holds, holds_at, one_file, tb_fw};
use base_core::Guid;
use capsule_tables::{CapsuleFault, CapsuleStop, make_capsule, read_capsule};
use fip_tables::{PackFault, PackStop, Part, Parts};
use host_io::MemoryFiles;
use std::alloc::Global;
use std::process::Abort;

// Bytes that are changed: where each stands, and what stands there instead.
type Change<'a> = &'a [(usize, u8)];

// How many bytes of the capsule there are, what is changed in them, and the fault.
const HEADERS: [(usize, Change, CapsuleFault); 22] = [
    (0, &[], CapsuleFault::ShortHeader),
    (27, &[], CapsuleFault::ShortHeader),
    (27, &[(0, 0)], CapsuleFault::ShortHeader),
    (28, &[], CapsuleFault::BadSize),
    (89, &[(0, 0x6d)], CapsuleFault::NotFmp),
    (89, &[(15, 0x2b)], CapsuleFault::NotFmp),
    (28, &[(15, 0x2b)], CapsuleFault::NotFmp),
    (88, &[], CapsuleFault::BadSize),
    (89, &[(16, 27)], CapsuleFault::BadSize),
    (89, &[(16, 90)], CapsuleFault::BadSize),
    (89, &[(19, 1)], CapsuleFault::BadSize),
    (89, &[(24, 90)], CapsuleFault::BadSize),
    (89, &[(24, 27)], CapsuleFault::BadSize),
    (89, &[(16, 89)], CapsuleFault::ShortFmp),
    (89, &[(24, 28)], CapsuleFault::ShortFmp),
    (89, &[(24, 35), (28, 2)], CapsuleFault::ShortFmp),
    (89, &[(24, 36), (28, 2)], CapsuleFault::BadVersion),
    (89, &[(28, 0), (34, 65)], CapsuleFault::BadVersion),
    (89, &[(24, 36), (34, 65)], CapsuleFault::TooMany),
    (89, &[(34, 0xff), (35, 0xff)], CapsuleFault::TooMany),
    (89, &[(34, 64)], CapsuleFault::ShortFmp),
    (89, &[(24, 43)], CapsuleFault::ShortFmp),
];

// The same of its item, whose place is the number at 36, and whose version, type, sizes of image and vendor's code stand at 44, 48,
// 68 and 72.
const ITEMS: [(usize, Change, CapsuleFault); 18] = [
    (89, &[(24, 44)], CapsuleFault::BadItem(0)),
    (89, &[(24, 88)], CapsuleFault::BadItem(0)),
    (89, &[(36, 15)], CapsuleFault::BadItem(0)),
    (89, &[(36, 17)], CapsuleFault::BadItem(0)),
    (89, &[(36, 61)], CapsuleFault::BadItem(0)),
    (89, &[(36, 62)], CapsuleFault::BadItem(0)),
    (89, &[(43, 0xff)], CapsuleFault::BadItem(0)),
    (89, &[(32, 1)], CapsuleFault::BadItem(0)),
    (89, &[(44, 0)], CapsuleFault::BadItem(0)),
    (89, &[(44, 4)], CapsuleFault::BadItem(0)),
    (89, &[(44, 3)], CapsuleFault::BadItem(0)),
    (89, &[(68, 6)], CapsuleFault::BadItem(0)),
    (89, &[(72, 1)], CapsuleFault::BadItem(0)),
    // The image and the vendor's code end at 2 ^ 32 + 88.
    (
        89,
        &[(72, 0xff), (73, 0xff), (74, 0xff), (75, 0xff)],
        CapsuleFault::BadItem(0),
    ),
    (89, &NIL, CapsuleFault::BadItem(0)),
    // The capsule ends within the item's head: behind 31 of 32 bytes of version 1, and behind 32 and 39 of 40 of version 2.
    (75, &[(24, 75), (44, 1), (68, 0)], CapsuleFault::BadItem(0)),
    (76, &[(24, 76), (68, 0)], CapsuleFault::BadItem(0)),
    (83, &[(24, 83), (68, 0)], CapsuleFault::BadItem(0)),
];

const NIL: [(usize, u8); 16] = [
    (48, 0),
    (49, 0),
    (50, 0),
    (51, 0),
    (52, 0),
    (53, 0),
    (54, 0),
    (55, 0),
    (56, 0),
    (57, 0),
    (58, 0),
    (59, 0),
    (60, 0),
    (61, 0),
    (62, 0),
    (63, 0),
];

// What is changed in the capsule, and where its image stands then, and how many bytes that has.
const TAKEN: [(Change, u64, u64); 9] = [
    (&[], 84, 5),
    // The flags, the index and the number behind the sizes are passed over.
    (&[(20, 0xff), (64, 9), (65, 9), (76, 9)], 84, 5),
    (&[(44, 1)], 76, 5),
    (&[(44, 1), (68, 13)], 76, 13),
    (&[(68, 4), (72, 1)], 84, 4),
    (&[(68, 0)], 84, 0),
    (&[(68, 0), (72, 5)], 84, 0),
    // The capsule ends with the item's head, of version 1 and of version 2.
    (&[(24, 76), (44, 1), (68, 0)], 76, 0),
    (&[(24, 84), (68, 0)], 84, 0),
];

fn change(bytes: &mut Vec<u8>, changes: Change) {
    for (at, value) in changes {
        if let Some(byte) = bytes.get_mut(*at) {
            *byte = *value;
        }
    }
}

// The first bytes of the capsule of `hello`, with these changes, as the file `a.cap`.
fn changed(rt: &impl Abort, alloc: Global, count: usize, changes: Change) -> MemoryFiles {
    let mut bytes = front(rt, alloc, HELLO_CAPSULE, count);
    change(&mut bytes, changes);
    one_file(rt, alloc, "a.cap", bytes, 0)
}

// How many items the file has as a capsule, or why it is none.
fn items_in(files: MemoryFiles, name: &str) -> Result<usize, CapsuleStop> {
    let mut files = files;
    match read_capsule(&mut files, name) {
        Ok(toc) => Ok(toc.entries.len()),
        Err(stop) => Err(stop),
    }
}

// Each of these has its fault.
fn have_faults(rt: &impl Abort, alloc: Global, cases: &[(usize, Change, CapsuleFault)]) {
    let mut row = 0usize;
    for (count, changes, fault) in cases {
        let found = items_in(changed(rt, alloc, *count, changes), "a.cap");
        holds_at(rt, found == Err(CapsuleStop::Fault(*fault)), row);
        row = row.wrapping_add(1);
    }
}

#[test]
fn faults_come_in_order(rt: HostRuntime) {
    have_faults(&rt, rt.alloc(), &HEADERS);
    have_faults(&rt, rt.alloc(), &ITEMS);
}

// Adds the heads of so many items with images of this size, whose types are sixteen times 1, 2 and so on.
fn add_items(rt: &impl Abort, bytes: &mut Vec<u8>, count: u8, size: u32) {
    for i in 0..count {
        add(rt, bytes, &[2, 0, 0, 0]);
        add(rt, bytes, &[i.wrapping_add(1); 16]);
        add(rt, bytes, &[0; 4]);
        add(rt, bytes, &size.to_le_bytes());
        add(rt, bytes, &[0; 12]);
    }
}

/// A capsule of so many of these items. Each image begins behind its own head, so they overlap, and the last one ends the capsule.
pub fn many(rt: &impl Abort, alloc: Global, count: u8, size: u32) -> Vec<u8> {
    let items = u32::from(count);
    let end = size.wrapping_add(36 + 48 * items);
    let mut bytes = front(rt, alloc, HELLO_CAPSULE, 24);
    add(rt, &mut bytes, &end.to_le_bytes());
    add(rt, &mut bytes, &[1, 0, 0, 0, 0, 0, count, 0]);
    for i in 0..items {
        add(
            rt,
            &mut bytes,
            &u64::from(8 + 8 * items + 40 * i).to_le_bytes(),
        );
    }
    add_items(rt, &mut bytes, count, size);
    bytes.resize(end as usize, 0).expect(rt, "memory");
    bytes
}

// The types of the second item, at 104, are made that of the first.
const SAME_TYPE: [(usize, u8); 16] = [
    (104, 1),
    (105, 1),
    (106, 1),
    (107, 1),
    (108, 1),
    (109, 1),
    (110, 1),
    (111, 1),
    (112, 1),
    (113, 1),
    (114, 1),
    (115, 1),
    (116, 1),
    (117, 1),
    (118, 1),
    (119, 1),
];

// The same but for the last byte, and the version before it is made a bad one.
const BAD_VERSION: [(usize, u8); 16] = [
    (104, 1),
    (105, 1),
    (106, 1),
    (107, 1),
    (108, 1),
    (109, 1),
    (110, 1),
    (111, 1),
    (112, 1),
    (113, 1),
    (114, 1),
    (115, 1),
    (116, 1),
    (117, 1),
    (118, 1),
    (100, 9),
];

// How many items a capsule has, what is changed in it, and how many are read, or the fault. The version of the third item is at
// 140.
const SEVERAL: [(u8, Change, Result<usize, CapsuleStop>); 6] = [
    (64, &[], Ok(64)),
    (65, &[], Err(CapsuleStop::Fault(CapsuleFault::TooMany))),
    (0, &[], Ok(0)),
    (
        3,
        &SAME_TYPE,
        Err(CapsuleStop::Fault(CapsuleFault::Duplicate(1))),
    ),
    (
        3,
        &BAD_VERSION,
        Err(CapsuleStop::Fault(CapsuleFault::BadItem(1))),
    ),
    (
        3,
        &[(140, 9)],
        Err(CapsuleStop::Fault(CapsuleFault::BadItem(2))),
    ),
];

// The capsule of so many items with these changes, as the file `m.cap`.
fn many_changed(rt: &impl Abort, alloc: Global, count: u8, changes: Change) -> MemoryFiles {
    let mut bytes = many(rt, alloc, count, 0);
    change(&mut bytes, changes);
    one_file(rt, alloc, "m.cap", bytes, 0)
}

#[test]
fn faults_of_several_items(rt: HostRuntime) {
    let mut row = 0usize;
    for (count, changes, wanted) in &SEVERAL {
        let found = items_in(many_changed(&rt, rt.alloc(), *count, changes), "m.cap");
        holds_at(&rt, found == *wanted, row);
        row = row.wrapping_add(1);
    }
}

// The capsule of `hello` under this type, and then of `xyz` under these types.
fn capsule(
    rt: &impl Abort,
    alloc: Global,
    first: Guid,
    others: &[Guid],
) -> Result<Vec<u8>, PackStop> {
    let mut parts = Vec::new(alloc);
    add_part(rt, alloc, &mut parts, first, 7, "hello");
    for other in others {
        add_part(rt, alloc, &mut parts, *other, 7, "xyz");
    }
    let parts = Parts {
        serial: 9,
        flags: 8,
        parts,
    };
    make_capsule(alloc, &parts)
}

// How many bytes a capsule has whose one part has so many.
fn size_with(rt: &impl Abort, alloc: Global, count: usize) -> Result<usize, PackStop> {
    let bytes = vec![in alloc; 0; count].expect(rt, "memory");
    let part = Part {
        guid: tb_fw(),
        flags: 0,
        bytes,
    };
    let mut parts = Vec::new(alloc);
    parts.push(part).expect(rt, "memory");
    let parts = Parts {
        serial: 9,
        flags: 8,
        parts,
    };
    match make_capsule(alloc, &parts) {
        Ok(made) => Ok(made.len()),
        Err(stop) => Err(stop),
    }
}

#[test]
fn capsules_of_parts(rt: HostRuntime) {
    let alloc = rt.alloc();
    let made = capsule(&rt, alloc, tb_fw(), &[]).expect(&rt, "a capsule");
    let hello = front(&rt, alloc, HELLO_CAPSULE, 89);
    holds(&rt, made == hello, "the capsule of hello");
    let size = size_with(&rt, alloc, 67_108_780);
    holds(&rt, size == Ok(67_108_864), "the longest capsule");
}

// Whether no capsule of these types is made, for this fault.
fn is_refused(
    rt: &impl Abort,
    alloc: Global,
    first: Guid,
    others: &[Guid],
    fault: PackFault,
) -> bool {
    capsule(rt, alloc, first, others).err() == Some(PackStop::Fault(fault))
}

#[test]
fn parts_of_no_capsule(rt: HostRuntime) {
    let alloc = rt.alloc();
    let is_so = is_refused(&rt, alloc, tb_fw(), &[tb_fw()], PackFault::Duplicate(1));
    holds(&rt, is_so, "twice");
    let is_so = is_refused(&rt, alloc, Guid::nil(), &[], PackFault::NilGuid(0));
    holds(&rt, is_so, "nil");
    let is_so = is_refused(&rt, alloc, tb_fw(), &[tb_fw(); 63], PackFault::Duplicate(1));
    holds(&rt, is_so, "64 of a type");
    let is_so = is_refused(&rt, alloc, tb_fw(), &[tb_fw(); 64], PackFault::TooMany);
    holds(&rt, is_so, "65 of a type");
    let size = size_with(&rt, alloc, 67_108_781);
    let is_so = size == Err(PackStop::Fault(PackFault::TooLarge));
    holds(&rt, is_so, "a capsule that is too long");
}

// Whether the first entry of the capsule has its image there.
fn is_taken(files: MemoryFiles, offset: u64, size: u64) -> bool {
    let mut files = files;
    let Ok(toc) = read_capsule(&mut files, "a.cap") else {
        return false;
    };
    match toc.entries.as_slice().first() {
        Some(entry) => entry.guid == tb_fw() && entry.offset == offset && entry.size == size,
        None => false,
    }
}

#[test]
fn images_of_capsules(rt: HostRuntime) {
    let mut row = 0usize;
    for (changes, offset, size) in &TAKEN {
        let files = changed(&rt, rt.alloc(), 89, changes);
        holds_at(&rt, is_taken(files, *offset, *size), row);
        row = row.wrapping_add(1);
    }
}
