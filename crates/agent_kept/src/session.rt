//! What an agent keeps between its calls.
ghost use Rattle.std.specs.Prelude.{◌≡◌, ◌+◌, ◌<◌, ◌≤◌, ◌++◌, ℕ, length, take, slice_index_or};
ghost use Rattle.manifest_core.specs.Sizes.{most_manifest_bytes};
ghost use Rattle.agent_kept.specs.Sound.{IsSoundKept, FrontGrows};

use crate::parts::{Handle, Part};
use base_core::{BLOCK_BYTES, Guid, ImageRow};
use manifest_core::MOST_MANIFEST_BYTES;
use sha2::{Digest, Sha256};
use std::{array, mem};

/// How many handles there are.
pub const HANDLES: usize = 32;

/// The images that are staged and the handles that are open.
#[derive(Drop)]
pub struct Session {
    images: usize,
    rows: [ImageRow; 16],
    staging: bool,
    parts: [Part; 16],
    front: [u8; MOST_MANIFEST_BYTES],
    handles: [Handle; 32],
    ghost few: { images ≤ 16 },
    ghost sound: { IsSoundKept staging (take images rows) parts handles },
}

/// Puts bytes behind the first ones.
fn put_front(front: &mut [u8; MOST_MANIFEST_BYTES], at: usize, bytes: &[u8])
    requires { at + length bytes.now ≤ most_manifest_bytes }
    ensures { take (at + length bytes.now) front.new ≡ take at front.old ++ bytes.now }
{
    front[at..at + bytes.len()].copy_from_slice(bytes);
}

/// Keeps bytes behind the first ones, as far as there is room.
fn keep_front(front: &mut [u8; MOST_MANIFEST_BYTES], size: usize, bytes: &[u8])
    requires { size ≤ 1048576 }
    ensures { FrontGrows size bytes.now front.old front.new }
{
    let at = size.min(MOST_MANIFEST_BYTES);
    let count = bytes.len().min(MOST_MANIFEST_BYTES - at);
    put_front(front, at, &bytes[..count]);
}

/// Nothing of each image.
fn no_parts() -> [Part; 16]
    ensures { (image : ℕ) → slice_index_or result image Part.Nothing ≡ Part.Nothing }
{
    array::from_fn(|_image| Part::Nothing)
}

impl Session {
    ghost use Rattle.std.specs.Prelude.{replicate, slice_set, ◌≢◌, ◌+◌, IsTrue, ℕ, ◌-◌, List, Option, Some, None, false, true, length, take, slice_index_or, IfSome};
    ghost use Rattle.fwu_formats.specs.Layout.{find_image};
    ghost use Rattle.agent_kept.specs.Kept.{kept, part_at, handle_kept, is_free_kept, HasNothing, size_of, committed_size, is_part_open, slot_room_of, IsSoundKept, AppendsPart, Restarts, with_handle, OpensPart, CommitsPart};
    /// Nothing is staged of the images of a layout, and no handle is open.
    pub fn new(rows: &[ImageRow]) -> Session
        requires few { length rows.now ≤ 16 }
        requires slots { (image : ℕ) → slot_room_of rows.now image ≤ 1048576 }
        ensures rows { (kept result).rows ≡ rows.now }
        ensures nothing { HasNothing (kept result) }
        ensures idle { (kept result).staging ≡ false }
        ensures closed { (kept result).handles ≡ replicate 32 Handle.Free }
    {
        let none = ImageRow {
            guid: Guid::nil(),
            slots: 0,
        };
        let mut own = [none; 16];
        own[..rows.len()].copy_from_slice(rows);
        Session {
            images: rows.len(),
            rows: own,
            staging: false,
            parts: no_parts(),
            front: [0; MOST_MANIFEST_BYTES],
            handles: [Handle::Free; 32],
        }
    }

    /// The images, in the order of their slots.
    pub fn rows(&self) -> &[ImageRow]
        ensures value { result.now ≡ (kept self.now).rows }
        ensures few { length result.now ≤ 16 }
    {
        &self.rows[..self.images]
    }

    /// Whether a package is staged.
    pub fn is_staging(&self) -> bool
        ensures { result ≡ (kept self.now).staging }
    {
        self.staging
    }

    /// What is kept of an image.
    pub fn part(&self, image: usize) -> &Part
        requires { image < 16 }
        ensures { result.now ≡ part_at (kept self.now) image }
    {
        &self.parts[image]
    }

    /// The first bytes of image 0, as many as the largest manifest has, of which as many count as were written.
    pub fn front(&self) -> &[u8]
        ensures value { result.now ≡ (kept self.now).front }
        ensures size { length result.now ≡ most_manifest_bytes }
    {
        &self.front
    }

    /// The handles, from number 1 on.
    pub fn handles(&self) -> &[Handle]
        ensures value { result.now ≡ (kept self.now).handles }
        ensures count { length result.now ≡ 32 }
    {
        &self.handles
    }

    /// The number of the image of a type.
    pub fn find(&self, guid: &Guid) -> Option<usize>
        ensures value { result ≡ find_image (kept self.now).rows guid.now }
        ensures within { IfSome result (λ image. image < length (kept self.now).rows) }
    {
        self.rows().iter().position(|row| row.guid.is(guid))
    }

    /// The handle of a number from 1 on, and a free one for another number.
    pub fn handle(&self, number: u32) -> Handle
        ensures zero { number ≡ 0 → result ≡ Handle.Free }
        ensures at { 0 < number → result ≡ handle_kept (kept self.now) (number - 1) }
        ensures opened { is_free_kept result ≡ false → (1 ≤ number) × (number ≤ 32) }
    {
        if number == 0 || number > 32 {
            return Handle::Free;
        }
        self.handles[number as usize - 1]
    }

    /// How many bytes were written of an image that is committed.
    pub fn staged(&self, image: u32) -> Option<u32>
        requires { image < 16 }
        ensures { result ≡ committed_size (kept self.now) image }
    {
        if !self.staging {
            return None;
        }
        match &self.parts[image as usize] {
            Part::Committed { size, .. } => Some(*size),
            Part::Nothing | Part::Open { .. } => None,
        }
    }

    /// Counts and hashes bytes that were written behind an open image.
    pub fn append(&mut self, image: usize, bytes: &[u8])
        requires within { image < length (kept self.old).rows }
        requires opened { IsTrue (is_part_open (part_at (kept self.old) image)) }
        requires size { size_of (part_at (kept self.old) image) + length bytes.now
            ≤ slot_room_of (kept self.old).rows image }
        ensures appends { AppendsPart (kept self.old) image bytes.now (kept self.new) }
    {
        if image == 0 {
            let size = self.parts[image].size() as usize;
            keep_front(&mut self.front, size, bytes);
        }
        match &mut self.parts[image] {
            Part::Open { size, hasher } => {
                hasher.update(bytes);
                *size += bytes.len() as u32;
            }
            Part::Nothing | Part::Committed { .. } => {}
        }
    }

    /// From here on nothing is kept of any image, and no handle is open. A package may be staged, or
    /// not.
    pub fn restart(&mut self, staging: bool)
        ensures restarts { Restarts staging (kept self.old) (kept self.new) }
    {
        self.staging = staging;
        self.parts = no_parts();
        self.handles = [Handle::Free; 32];
    }

    /// The handle of a number from 1 to 32 reads an image or, where there is none, the directory,
    /// from this place on. Place and total of what it reads are in bytes.
    pub fn set_reader(&mut self, number: u32, image: Option<u32>, at: u32, total: u32)
        requires number { (1 ≤ number) × (number ≤ 32) }
        requires within { at ≤ total }
        ensures { kept self.new ≡ with_handle (kept self.old) number (Handle.Reads image at total) }
    {
        self.handles[number as usize - 1] = Handle::Reads { image, at, total };
    }

    /// The handle of a number from 1 to 32 is free from here on.
    pub fn close(&mut self, number: u32)
        requires number { (1 ≤ number) × (number ≤ 32) }
        ensures { kept self.new ≡ with_handle (kept self.old) number Handle.Free }
    {
        self.handles[number as usize - 1] = Handle::Free;
    }

    /// An image of the staged package is open from here on, without bytes, and the handle of a
    /// number from 1 to 32 writes it.
    pub fn open_part(&mut self, number: u32, image: u32)
        requires number { (1 ≤ number) × (number ≤ 32) }
        requires within { image < length (kept self.old).rows }
        requires staging { (kept self.old).staging ≡ true }
        requires closed { is_part_open (part_at (kept self.old) image) ≡ false }
        ensures opens { OpensPart (kept self.old) image (number - 1) (kept self.new) }
    {
        self.parts[image as usize] = Part::Open {
            size: 0,
            hasher: Sha256::new(),
        };
        self.handles[number as usize - 1] = Handle::Writes { image };
    }

    /// The image that the handle of a number from 1 to 32 writes is committed, with this bit, and
    /// the handle is free.
    pub fn commit_part(&mut self, number: u32, image: u32, bit: bool)
        requires number { (1 ≤ number) × (number ≤ 32) }
        requires writes { handle_kept (kept self.old) (number - 1) ≡ Handle.Writes image }
        ensures commits { CommitsPart (kept self.old) image (number - 1) bit (kept self.new) }
    {
        let part = mem::replace(&mut self.parts[image as usize], Part::Nothing);
        self.parts[image as usize] = part.committed(bit);
        self.handles[number as usize - 1] = Handle::Free;
    }

    /// How many bytes an image has room for.
    pub fn slot(&self, image: usize) -> u32
        requires { image < length (kept self.now).rows }
        ensures { result ≡ slot_room_of (kept self.now).rows image }
    {
        BLOCK_BYTES * self.rows[image].slots
    }

    /// How many bytes were written of an image.
    pub fn size(&self, image: usize) -> u32
        requires { image < 16 }
        ensures { result ≡ size_of (part_at (kept self.now) image) }
    {
        self.parts[image].size()
    }
}
