//! The parts of a package to come, by their sizes, and why they cannot be packed.

ghost use Rattle.std.specs.Prelude.{◌≡◌, ◌<◌, ◌+◌, ◌*◌, ℕ, Option, Some, None, IsFalse, IsTrue, IsNone, IfErr, IfSome, OnOk, Ok, Err, not, nat_le, ◌&&◌, length, take, position};
ghost use Rattle.std.specs.List.{list_any, list_all, range_with_len};
ghost use Rattle.base_core.specs.Bytes.{same_bytes};
ghost use Rattle.fip_tables.specs.Packing.{AreOutlines, HasNoFault, IsOutline, MayFit, first_repeat, is_alignment, is_nil, is_repeat, pack_fault, parts_fault};

use crate::faults::PackFault;
use base_core::Guid;
use std::marker::Model;

/// A part of a package to come: its type, its flags, and how many bytes its payload has. Contracts
/// see it as the part with as many zeros.
#[derive(Debug, Drop)]
pub struct Outline {
    pub guid: Guid,
    pub flags: u64,
    pub size: u64,
}

impl Model for Outline {
    ghost use Rattle.std.specs.Prelude.{replicate};
    ghost use Rattle.fwu_formats.specs.Package.{Part};

    ghost Value = { Part };

    ghost view = { λ o. record { guid = o.guid; flags = o.flags; bytes = replicate o.size 0 } };
}

impl Outline {
    // Whether its type is the nil UUID.
    fn is_nil(&self) -> bool
        ensures value { result ≡ is_nil self.now }
        ensures outlines { IsOutline self.now }
    {
        let _sixteen = self.guid.bytes();
        let _flags = self.flags;
        self.guid.is(&Guid::nil())
    }
}

fn has_type(parts: &[Outline], guid: &Guid) -> bool
    ensures { result ≡ list_any (λ p. same_bytes guid.now p.guid) parts.now }
{
    parts.iter().any(|part| guid.is(&part.guid))
}

// Whether an earlier part has its type.
fn repeats(parts: &[Outline], i: usize) -> bool
    requires { i < length parts.now }
    ensures { result ≡ is_repeat parts.now i }
{
    let part = &parts[i];
    has_type(&parts[..i], &part.guid)
}

// The lowest part that has the type of an earlier one.
fn first_repeat(parts: &[Outline]) -> Option<usize>
    ensures value { result ≡ first_repeat parts.now }
    ensures bound { IfSome result (λ i. i < length parts.now) }
{
    for i in 0..parts.len() {
        if repeats(parts, i) {
            return Some(i);
        }
    }
    None
}

// The lowest part that has the nil UUID.
fn first_nil(parts: &[Outline]) -> Option<usize>
    ensures value { result ≡ position is_nil parts.now }
    ensures bound { IfSome result (λ i. i < length parts.now) }
    ensures outlines { IsNone result → AreOutlines parts.now }
{
    for i in 0..parts.len() {
        let part = &parts[i];
        if part.is_nil() {
            return Some(i);
        }
    }
    None
}

fn is_alignment(align: u32) -> bool
    ensures { result ≡ is_alignment align }
{
    align.is_power_of_two() && align <= 4096
}

/// Whether parts can be made into anything, whatever they add up to, or the first fault that they
/// have as a package and as a capsule. It is one of too many, a type twice, the nil UUID.
pub fn check_parts(parts: &[Outline]) -> Result<(), PackFault>
    ensures ok { OnOk result (HasNoFault parts.now) }
    ensures err { IfErr result (λ f. parts_fault parts.now ≡ Some f) }
{
    if parts.len() > 64 {
        return Err(PackFault::TooMany);
    }
    match first_repeat(parts) {
        Some(i) => return Err(PackFault::Duplicate(i as u32)),
        None => {}
    }
    match first_nil(parts) {
        Some(i) => return Err(PackFault::NilGuid(i as u32)),
        None => {}
    }
    Ok(())
}

/// Whether parts can be packed, whatever they add up to, or their first fault.
pub fn check(parts: &[Outline], align: u32) -> Result<(), PackFault>
    ensures ok { OnOk result (MayFit parts.now align) }
    ensures err { IfErr result (λ f. pack_fault parts.now align ≡ Some f) }
{
    check_parts(parts)?;
    if !is_alignment(align) {
        return Err(PackFault::BadAlign);
    }
    Ok(())
}
