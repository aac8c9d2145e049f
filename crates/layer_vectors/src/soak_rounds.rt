//! Draws, rounds and packages, against other values: the numbers of the C standard's example of `rand`, and
//! rounds and packages as Python draws and makes them. checks/model/check_vectors.py makes them again.

use crate::fixtures::same;
use gen_core::{Cut, Ending, Lcg, Round, draw_sizes, package, soak_rows};
use sha2::{Digest, Sha256};
use std::process::Abort;

// The SHA-256 of the package that a soak of seed 1 formats a flash with, of 6546 bytes.
const FIRST_DIGEST: [u8; 32] = [
    0x3D, 0x60, 0x53, 0xF2, 0xB5, 0x3F, 0x31, 0x7C, 0x50, 0x41, 0xA0, 0x8B, 0xEB, 0x0D, 0xAB, 0x13,
    0xE5, 0xFD, 0x8A, 0x4A, 0x9D, 0x30, 0xBD, 0xDB, 0x85, 0x9D, 0x1C, 0x4D, 0x8C, 0x36, 0xBA, 0x9F,
];

// The SHA-256 of the package of its first round, of 3386 bytes.
const ROUND_DIGEST: [u8; 32] = [
    0x00, 0x8B, 0x71, 0x57, 0x40, 0x8E, 0x3F, 0x3C, 0xC7, 0x0C, 0x3F, 0xB4, 0x1F, 0x14, 0x1D, 0xF3,
    0x17, 0xB6, 0xA8, 0xEC, 0x8D, 0xA8, 0xFD, 0xD2, 0x31, 0x48, 0xC2, 0x4C, 0xC9, 0xCA, 0x33, 0x10,
];

// The SHA-256 of the package of the greatest number, with an image of no bytes and one of three, and security version 223.
const GREATEST_DIGEST: [u8; 32] = [
    0xDE, 0xCD, 0x41, 0xB8, 0x74, 0xF5, 0x02, 0xCF, 0xA2, 0xDA, 0xDD, 0xC6, 0x32, 0x3D, 0x80, 0xF7,
    0xCB, 0x1D, 0xBB, 0xA8, 0xAE, 0xC1, 0x12, 0x7B, 0x5F, 0xF9, 0x8D, 0x35, 0x5D, 0xC5, 0x46, 0x83,
];

#[test]
fn draws_are_those_of_the_standard(rt: HostRuntime) {
    let mut register = Lcg::new(1);
    for want in [
        16838, 5758, 10113, 17515, 31051, 5627, 23010, 7419, 16212, 4086,
    ] {
        assert_eq!(rt; register.draw(32768), want);
    }
}

// The 26th and 27th rounds are the first without a cut.
#[test]
fn rounds_are_drawn_in_order(rt: HostRuntime) {
    let mut register = Lcg::new(1);
    assert_eq!(rt; draw_sizes(&mut register), [452, 5758]);
    let first = Round {
        number: 1,
        sizes: [1920, 1130],
        security: 0,
        acceptance: 1,
        cut: Some(Cut { n: 2, k: 3322 }),
        ending: Ending::Nothing,
    };
    assert_eq!(rt; Round::draw(&mut register, 1), first);
    for number in 2..27 {
        let _round = Round::draw(&mut register, number);
    }
    let later = Round {
        number: 27,
        sizes: [7392, 5363],
        security: 3,
        acceptance: 1,
        cut: None,
        ending: Ending::Previous,
    };
    assert_eq!(rt; Round::draw(&mut register, 27), later);
}

// The package of this number, by these lengths, has so many bytes and this SHA-256.
fn has_digest(rt: &impl Abort, file: &[u8], len: usize, digest: [u8; 32]) {
    same(rt, file.len(), len);
    same(rt, Sha256::digest(file), digest);
}

#[test]
fn packages_of_seed_one(rt: HostRuntime) {
    let alloc = rt.alloc();
    let rows = soak_rows();
    let mut register = Lcg::new(1);
    let file = package(alloc, &rows, &draw_sizes(&mut register), 0, 1).ok();
    has_digest(
        &rt,
        file.expect(&rt, "memory").as_slice(),
        6546,
        FIRST_DIGEST,
    );
    let round = Round::draw(&mut register, 1);
    let file = package(alloc, &rows, &round.sizes, round.number, round.security).ok();
    has_digest(
        &rt,
        file.expect(&rt, "memory").as_slice(),
        3386,
        ROUND_DIGEST,
    );
}

// The sum for a byte passes 32 bits.
#[test]
#[tactic(auto, unfolding(gen_core::specs::Generated::fit_sizes))]
fn package_of_the_greatest_number(rt: HostRuntime) {
    let file = package(rt.alloc(), &soak_rows(), &[0, 3], 4_294_967_295, 223).ok();
    has_digest(
        &rt,
        file.expect(&rt, "memory").as_slice(),
        339,
        GREATEST_DIGEST,
    );
}
