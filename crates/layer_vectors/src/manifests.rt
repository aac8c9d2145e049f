//! A manifest that is read, and the first fault of one that is changed.

use crate::fixtures::{put, same};
use base_core::{Guid, ImageRow};
use fwu_formats::ManifestFault;
use manifest_core::{Manifest, Row, test};
use std::alloc::Global;
use std::process::Abort;

// A manifest of one image, "abc" of the type `image_type`, of version 9, with security version 7,
// as Python's struct and hashlib make it: checks/model/check_vectors.py makes it again.
const MANIFEST: [u8; 104] = [
    0x46, 0x57, 0x4D, 0x46, 0x01, 0x00, 0x00, 0x00, 0x07, 0x00, 0x00, 0x00, 0x01, 0x00, 0x00, 0x00,
    0x01, 0x02, 0x03, 0x04, 0x05, 0x06, 0x07, 0x08, 0x09, 0x0A, 0x0B, 0x0C, 0x0D, 0x0E, 0x0F, 0x10,
    0x03, 0x00, 0x00, 0x00, 0x09, 0x00, 0x00, 0x00, 0xBA, 0x78, 0x16, 0xBF, 0x8F, 0x01, 0xCF, 0xEA,
    0x41, 0x41, 0x40, 0xDE, 0x5D, 0xAE, 0x22, 0x23, 0xB0, 0x03, 0x61, 0xA3, 0x96, 0x17, 0x7A, 0x9C,
    0xB4, 0x10, 0xFF, 0x61, 0xF2, 0x00, 0x15, 0xAD, 0xD6, 0x74, 0xF6, 0x6D, 0x3F, 0xC3, 0xCE, 0x3C,
    0x53, 0xB4, 0x3C, 0xA7, 0xBE, 0xCD, 0x04, 0x1C, 0x9E, 0xFE, 0x0A, 0x87, 0x73, 0xA0, 0x04, 0xC8,
    0xE1, 0xE6, 0x7B, 0x59, 0x77, 0xFD, 0x2B, 0xB9,
];

// The type of the image in `MANIFEST`.
fn image_type() -> Guid {
    Guid::of([1, 2, 3, 4, 5, 6, 7, 8, 9, 10, 11, 12, 13, 14, 15, 16])
}

// A manifest and the image of `MANIFEST`, of a block each.
fn image_rows() -> [ImageRow; 2] {
    [
        ImageRow {
            guid: Guid::of([0xAA; 16]),
            slots: 1,
        },
        ImageRow {
            guid: image_type(),
            slots: 1,
        },
    ]
}

// What these bytes are tested to be.
fn is_tested(rt: &impl Abort, bytes: &[u8], wanted: Result<u32, ManifestFault>) {
    same(rt, test(bytes, &image_rows()), wanted);
}

// With this byte at a place, the bytes have this fault.
fn has_fault(rt: &impl Abort, bytes: &mut [u8], at: usize, byte: u8, fault: ManifestFault) {
    put(rt, bytes, at, &[byte]);
    is_tested(rt, bytes, Err(fault));
}

// From the last fault to the first, each before those behind it.
#[test]
fn faults(rt: HostRuntime) {
    let mut bytes = MANIFEST.to_vec(rt.alloc()).expect(&rt, "memory");
    have_faults(&rt, bytes.as_mut_slice());
    have_first_faults(&rt, bytes.as_mut_slice());
    is_short(&rt, bytes.as_slice());
}

fn have_faults(rt: &impl Abort, bytes: &mut [u8]) {
    has_fault(rt, bytes, 103, 0xB8, ManifestFault::BadDigest);
    has_fault(rt, bytes, 33, 0x10, ManifestFault::TooLarge);
    has_fault(rt, bytes, 16, 0, ManifestFault::WrongOrder);
    has_fault(rt, bytes, 12, 2, ManifestFault::BadCount);
    has_fault(rt, bytes, 8, 224, ManifestFault::VersionTooHigh);
}

fn have_first_faults(rt: &impl Abort, bytes: &mut [u8]) {
    put(rt, bytes, 4, &[2]);
    has_fault(rt, bytes, 8, 223, ManifestFault::BadForm);
    has_fault(rt, bytes, 0, 0, ManifestFault::BadMagic);
}

fn is_short(rt: &impl Abort, bytes: &[u8]) {
    let short = bytes.get(..103).expect(rt, "so many");
    is_tested(rt, short, Err(ManifestFault::Short));
}

// `MANIFEST` is read as a manifest of its row.
fn is_read(rt: &impl Abort, alloc: Global) {
    let read = Manifest::read(alloc, &MANIFEST, &image_rows()).expect(rt, "a manifest");
    let abc = Row::of(image_type(), 9, b"abc");
    same(rt, read.security(), 7);
    same(rt, read.rows(), [abc].as_slice());
}

#[test]
fn a_manifest_is_read(rt: HostRuntime) {
    is_tested(&rt, &MANIFEST, Ok(7));
    is_read(&rt, rt.alloc());
}
