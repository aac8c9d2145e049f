//! The bytes of packages. They come from checks/model/make_packages.py, which writes them from docs/FORMATS.md by Python's
//! struct, uuid and hashlib: checks/model/check_vectors.py makes them again.
use runs_kit::{MANIFEST, MANIFEST_2, MANIFEST_5, Named};
use std::alloc::Global;
use std::process::Abort;

// The header and the table of a package of a manifest, `abc` and `hello`, which follow.
const TABLE: &str =
    "010064aa7856341200000000000000004657554d414e49464553540000000001b000000000000000a00000000000000000000000000000005ff9ec0b4d223e4da544c39d81c73f0a500100000000000003000000000000000000000000000000d6d0eea7fcead54b97829934f234b6e453010000000000000500000000000000000000000000000000000000000000000000000000000000580100000000000000000000000000000000000000000000";

// The header and the table of a package of a manifest alone, which follows.
const TABLE_OF_ONE: &str =
    "010064aa7856341200000000000000004657554d414e494645535400000000016000000000000000a000000000000000000000000000000000000000000000000000000000000000000100000000000000000000000000000000000000000000";

// The files, each with its parts.
const FILES: [(&str, &[&str]); 5] = [
    ("p1.fip", &[TABLE, MANIFEST, "61626368656c6c6f"]),
    ("p2.fip", &[TABLE, MANIFEST_2, "61626368656c6c6f"]),
    ("p5.fip", &[TABLE, MANIFEST_5, "61626368656c6c6f"]),
    ("m2.fip", &[TABLE_OF_ONE, MANIFEST_2]),
    ("m5.fip", &[TABLE_OF_ONE, MANIFEST_5]),
];

/// The packages of versions 1, 2 and 5, and those of the manifests alone.
pub fn packages(rt: &impl Abort, alloc: Global) -> Vec<Named> {
    let mut files = Vec::new(alloc);
    for (name, parts) in &FILES {
        let digits = parts.concat(alloc).expect(rt, "memory");
        let bytes = hex::decode(alloc, digits.as_str()).expect(rt, "digits");
        let name = String::from_str(alloc, name).expect(rt, "memory");
        files.push((name, bytes)).expect(rt, "memory");
    }
    files
}
