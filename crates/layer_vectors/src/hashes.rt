//! SHA-256 of messages side by side.

use crate::fixtures::are_bytes;
use sha256_lanes::{Lanes, digests};
use std::process::Abort;

// Of "abc" (FIPS 180-4's example of one block)
const OF_ABC: [u8; 32] = [
    0xba, 0x78, 0x16, 0xbf, 0x8f, 0x01, 0xcf, 0xea, 0x41, 0x41, 0x40, 0xde, 0x5d, 0xae, 0x22, 0x23,
    0xb0, 0x03, 0x61, 0xa3, 0x96, 0x17, 0x7a, 0x9c, 0xb4, 0x10, 0xff, 0x61, 0xf2, 0x00, 0x15, 0xad,
];

// Of the standard's example of 448 bits, which the padding carries into a second block
const OF_TWO_BLOCKS: [u8; 32] = [
    0x24, 0x8d, 0x6a, 0x61, 0xd2, 0x06, 0x38, 0xb8, 0xe5, 0xc0, 0x26, 0x93, 0x0c, 0x3e, 0x60, 0x39,
    0xa3, 0x3c, 0xe4, 0x59, 0x64, 0xff, 0x21, 0x67, 0xf6, 0xec, 0xed, 0xd4, 0x19, 0xdb, 0x06, 0xc1,
];

// Lengths, and the first bytes of the digests of so many of the bytes 0, 1, 2, … modulo 251, as Python's hashlib gives them.
const DIGESTS: [(usize, [u8; 8]); 17] = [
    (0, [0xe3, 0xb0, 0xc4, 0x42, 0x98, 0xfc, 0x1c, 0x14]),
    (1, [0x6e, 0x34, 0x0b, 0x9c, 0xff, 0xb3, 0x7a, 0x98]),
    (55, [0x46, 0x3e, 0xb2, 0x8e, 0x72, 0xf8, 0x2e, 0x0a]),
    (56, [0xda, 0x2a, 0xe4, 0xd6, 0xb3, 0x67, 0x48, 0xf2]),
    (57, [0x2f, 0xe7, 0x41, 0xaf, 0x80, 0x1c, 0xc2, 0x38]),
    (63, [0x29, 0xaf, 0x26, 0x86, 0xfd, 0x53, 0x37, 0x4a]),
    (64, [0xfd, 0xea, 0xb9, 0xac, 0xf3, 0x71, 0x03, 0x62]),
    (65, [0x4b, 0xfd, 0x2c, 0x8b, 0x6f, 0x1e, 0xec, 0x7a]),
    (119, [0xda, 0x18, 0x79, 0x7e, 0xd7, 0xc3, 0xa7, 0x77]),
    (120, [0xf5, 0x2b, 0x23, 0xdb, 0x1f, 0xbb, 0x6d, 0xed]),
    (127, [0x92, 0xca, 0x0f, 0xa6, 0x65, 0x1e, 0xe2, 0xf9]),
    (128, [0x47, 0x1f, 0xb9, 0x43, 0xaa, 0x23, 0xc5, 0x11]),
    (129, [0x50, 0x99, 0xc6, 0xa5, 0x62, 0x03, 0xf9, 0x68]),
    (183, [0xb1, 0x45, 0x93, 0x45, 0x16, 0x3a, 0xed, 0x1c]),
    (184, [0x82, 0xf6, 0x3a, 0x1d, 0x00, 0x7f, 0xd9, 0x79]),
    (192, [0x8b, 0x4a, 0x54, 0x48, 0x37, 0xa1, 0xa0, 0x28]),
    (1000, [0x4e, 0x4c, 0x29, 0x4b, 0x33, 0x1f, 0x7a, 0x20]),
];

// Lengths of messages side by side: about the edges of blocks, alone and beside others, in each lane.
const SIDE_BY_SIDE: [[usize; 4]; 8] = [
    [0, 1, 55, 56],
    [57, 63, 64, 65],
    [119, 120, 127, 128],
    [129, 183, 184, 1000],
    [1000, 55, 64, 119],
    [56, 1000, 63, 0],
    [120, 64, 1000, 55],
    [65, 56, 128, 64],
];

// The bytes 0, 1, 2, … modulo 251.
fn text() -> [u8; 1000] {
    let mut bytes = [0u8; 1000];
    for i in 0..1000 {
        bytes[i] = (i % 251) as u8;
    }
    bytes
}

#[test]
fn examples_of_the_standard(rt: HostRuntime) {
    let long = b"abcdbcdecdefdefgefghfghighijhijkijkljklmklmnlmnomnopnopq";
    let found = digests(b"abc", long, long, b"abc");
    assert_eq!(rt; found[0], OF_ABC);
    assert_eq!(rt; found[1], OF_TWO_BLOCKS);
    assert_eq!(rt; found[2], OF_TWO_BLOCKS);
    assert_eq!(rt; found[3], OF_ABC);
}

// The first bytes of the digest of so many bytes of the text, as they stand above.
fn digest_of(length: usize) -> [u8; 8] {
    for (count, digest) in &DIGESTS {
        if *count == length {
            return *digest;
        }
    }
    [0; 8]
}

// So many bytes of the text.
fn front(text: &[u8], length: usize) -> &[u8] {
    text.get(..length).unwrap_or(&[])
}

// The digests of messages of these lengths, side by side.
fn have_digests(rt: &impl Abort, text: &[u8], lengths: [usize; 4]) {
    let [first, second, third, fourth] = lengths;
    let found = digests(
        front(text, first),
        front(text, second),
        front(text, third),
        front(text, fourth),
    );
    for j in 0..4 {
        are_bytes(rt, &found[j][..8], &digest_of(lengths[j]));
    }
}

#[test]
fn lengths_side_by_side(rt: HostRuntime) {
    let text = text();
    for lengths in SIDE_BY_SIDE {
        have_digests(&rt, &text, lengths);
    }
}

// The same message cut at different places.
#[test]
fn in_pieces(rt: HostRuntime) {
    let text = text();
    let mut lanes = Lanes::new();
    lanes.absorb(&text[..64], &text[..64], &text[64..128], &text[..64]);
    lanes.absorb(
        &text[64..192],
        &text[..128],
        &text[128..256],
        &text[64..192],
    );
    let whole = lanes.finish(0, &text[192..], 1000);
    are_bytes(&rt, &whole[..8], &digest_of(1000));
    let short = lanes.finish(3, &text[192..192], 192);
    are_bytes(&rt, &short[..8], &digest_of(192));
    let mut longer = lanes;
    longer.absorb(
        &text[192..960],
        &text[192..960],
        &text[192..960],
        &text[192..960],
    );
    let again = longer.finish(3, &text[960..], 1000);
    assert_eq!(rt; again, whole);
}
