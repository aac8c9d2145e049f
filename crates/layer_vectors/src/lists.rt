//! A verifier of two others, which no program asks.

use crate::fixtures::holds;
use std::process::Abort;
use verify_core::{AnyManifest, Both, DigestList, Verifier};

// Of "abc", FIPS 180-4.
const ABC: &[u8] = b"BA7816BF8f01cfea414140de5dae2223b00361a396177a9cb410ff61f20015ad\n";

fn asks<V: Verifier>(verifier: &V, manifest: &[u8]) -> bool {
    verifier.accepts(manifest)
}

// "abc" passes this list and any, and not these and one of none.
fn both_pass(rt: &impl Abort, first: DigestList, empty: DigestList) {
    let second = AnyManifest;
    let one = Both { first, second };
    holds(rt, asks(&one, b"abc"), "of both");
    holds(rt, !asks(&one, b"abd"), "of the second alone");
    one_passes(rt, one, empty);
}

fn one_passes(rt: &impl Abort, first: Both<DigestList, AnyManifest>, second: DigestList) {
    let none = Both { first, second };
    holds(rt, !asks(&none, b"abc"), "of the first alone");
}

#[test]
fn a_manifest_passes_both(rt: HostRuntime) {
    let alloc = rt.alloc();
    let list = DigestList::read(alloc, ABC).expect(&rt, "a list");
    let empty = DigestList::read(alloc, b"").expect(&rt, "a list");
    both_pass(&rt, list, empty);
}
