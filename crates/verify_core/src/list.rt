//! Lists of the SHA-256 (FIPS 180-4) of the manifests that pass, an own format.
ghost use Rattle.std.specs.Prelude.{◌≡◌, ◌==◌, ◌∷◌, ◌++◌, ◌≤◌, ℕ, List, [], Ok, Err, None, IfOk, IfErr, IsSomeAnd, OnErr, OnOk, drop, length, position};
ghost use Rattle.std.specs.List.{list_any};
ghost use Rattle.base_core.specs.Bytes.{same_bytes};
ghost use Rattle.fwu_formats.specs.Digests.{digests_of, digest_of, passes_listed};
ghost use Rattle.verify_core.specs.Shown.{IsListFault, first_digest};

use crate::verifier::Verifier;
use hex::FromHex;
use sha2::{Digest, Sha256};
use std::alloc::Global;
use std::marker::Model;
use thiserror::Error;

/// How many bytes a line of a list has: 64 hexadecimal digits and its end.
pub const LINE_BYTES: usize = 65;

/// Why no digest was added.
#[derive(Clone, Copy, Debug, PartialEq, Eq, Error)]
pub enum LineFault {
    /// The text does not begin with 64 hexadecimal digits and a line end.
    #[error("the line is not 64 hexadecimal digits and a line end")]
    NoDigest,
    #[error("no memory")]
    NoMemory,
}

/// Why bytes are no list: the first line, from 1, that is not 64 hexadecimal digits and a line end.
#[derive(Clone, Copy, Debug, PartialEq, Eq, Error)]
pub enum ListFault {
    #[error("line {0} is not 64 hexadecimal digits and a line end")]
    BadLine(u64),
    #[error("no memory")]
    NoMemory,
}

/// The manifests pass whose SHA-256 is listed. A contract sees the list of the digests.
#[derive(Drop)]
pub struct DigestList {
    digests: Vec<[u8; 32]>,
}

impl Model for DigestList {
    ghost use Rattle.std.specs.Prelude.{List, ℕ};

    ghost Value = { List (List ℕ) };

    ghost view = { λ list. list.digests.items };
}

/// The digest of a line of 64 hexadecimal digits, letters of either case.
fn digest_in(line: &[u8]) -> Option<[u8; 32]>
    ensures { result ≡ digest_of line.now }
{
    match <[u8; 32] as FromHex>::from_hex(line) {
        Ok(digest) => Some(digest),
        Err(_) => None,
    }
}

/// The place of the first line end.
fn line_end(text: &[u8]) -> Option<usize>
    ensures { result ≡ position (λ b. b == 10) text.now }
{
    text.iter().position(|byte| *byte == b'\n')
}

/// What follows a text's first line, of the length of a list's lines.
fn after_line(text: &[u8]) -> &[u8]
    requires { 65 ≤ length text.now }
    ensures { result.now ≡ drop 65 text.now }
{
    &text[LINE_BYTES..]
}

fn is_same(bytes: &[u8], other: &[u8]) -> bool
    ensures { result ≡ same_bytes bytes.now other.now }
{
    bytes == other
}

fn is_listed(digest: &[u8], digests: &[[u8; 32]]) -> bool
    ensures { result ≡ list_any (same_bytes digest.now) digests.now }
{
    digests.iter().any(|listed| is_same(digest, listed))
}

impl DigestList {
    /// The list of no digests.
    pub fn new(alloc: Global) -> DigestList
        ensures { result ≡ [] }
    {
        DigestList {
            digests: Vec::new(alloc),
        }
    }

    /// Adds the digest that the first line of a text is: 64 hexadecimal digits, letters of either case, and behind
    /// them a byte 0x0A. What stands behind the line is not looked at. An `Err` leaves the list as it was.
    pub fn add_first_line(&mut self, text: &[u8]) -> Result<(), LineFault>
        ensures added { OnOk result (IsSomeAnd (first_digest text.now)
            (λ digest. self.new ≡ self.old ++ digest ∷ [])) }
        ensures bad { result ≡ Err LineFault.NoDigest → first_digest text.now ≡ None }
        ensures unchanged { OnErr result (self.new ≡ self.old) }
    {
        let Some(end) = line_end(text) else {
            return Err(LineFault::NoDigest);
        };
        let Some(digest) = digest_in(&text[..end]) else {
            return Err(LineFault::NoDigest);
        };
        if self.digests.push(digest).is_err() {
            return Err(LineFault::NoMemory);
        }
        Ok(())
    }

    /// The digests of a file whose lines are 64 hexadecimal digits, letters of either case, each ended by a byte 0x0A.
    /// The first other line is the fault, and so is a last line without its end. The empty file is the empty list.
    pub fn read(alloc: Global, bytes: &[u8]) -> Result<DigestList, ListFault>
        ensures ok { IfOk result (λ list. digests_of bytes.now ≡ Ok list) }
        ensures fault { IfErr result (λ fault. IsListFault (digests_of bytes.now) fault) }
    {
        let mut list = DigestList::new(alloc);
        let mut rest = bytes;
        let mut line = 1u64;
        while !rest.is_empty() {
            match list.add_first_line(rest) {
                Ok(()) => {}
                Err(LineFault::NoDigest) => return Err(ListFault::BadLine(line)),
                Err(LineFault::NoMemory) => return Err(ListFault::NoMemory),
            }
            rest = after_line(rest);
            line += 1;
        }
        Ok(list)
    }
}

impl Verifier for DigestList {
    ghost passes = { λ list manifest. passes_listed list manifest };

    #[tactic(auto, unfolding(fwu_formats::specs::Digests::passes_listed))]
    fn accepts(&self, manifest: &[u8]) -> bool {
        is_listed(&Sha256::digest(manifest), self.digests.as_slice())
    }
}
