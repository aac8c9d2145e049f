//! A flash that a device has in partitions.

ghost use Rattle.std.specs.Prelude.{◌≡◌, ◌+◌, ◌*◌, ◌%◌, ◌<◌, ◌≤◌, ℕ, Bool, List, IsTrue};
ghost use Rattle.base_core.specs.Block.{block_bytes};
ghost use Rattle.flash_core.specs.Told.{NothingDirty, IsSound, Told, is_guarded};
ghost use Rattle.flash_core.specs.May.{Guards, May};
ghost use Rattle.gpt_core.specs.declared.layout.Places.{Places};
ghost use Rattle.gpt_core.specs.Places.{Fit, behind, through};
ghost use Rattle.gpt_core.specs.View.{view_of};
ghost use Rattle.gpt_core.specs.Beside.{Beside, TouchesPlaces};

use crate::layout::Places;
use base_core::BLOCK_BYTES;
use flash_core::{Flash, FlashStop};
use std::marker::{Brand, PhantomData};

/// The places through which a device's flash is seen, how many blocks the device has, and what it told when it first was. Also how
/// often each block was erased or programmed by then.
pub trait Start {
    ghost use Rattle.std.specs.Prelude.{ℕ};
    ghost use Rattle.gpt_core.specs.declared.layout.Places.{Places};
    ghost use Rattle.flash_core.specs.Told.{Told};

    ghost at: { Places };

    ghost blocks: { ℕ };

    ghost was: { Told };

    ghost writes: { ℕ → ℕ };
}

impl Start for Brand {
    ghost use Rattle.std.specs.Prelude.{[], ◌∷◌};
    ghost use Rattle.flash_core.specs.Told.{fresh};

    ghost at = { record { store_first = 0; store_blocks = 0; replicas = 0 ∷ 0 ∷ [] } };

    ghost blocks = { 0 };

    ghost was = { fresh [] [] };

    ghost writes = { λ b. 0 };
}

/// The flash that a device has at these places. No other block of the device is erased or programmed. Where nothing was dirty at
/// the start, what else the device has stays as it was then.
#[derive(Drop)]
pub struct Mapped<D: Flash, K: Start> {
    flash: D,
    places: Places,
    start: PhantomData<K>,
    ghost fits: { Fit (D.blocks flash) places },
    ghost is_at: { places ≡ K.at },
    ghost has_blocks: { D.blocks flash ≡ K.blocks },
    ghost beside: { IsTrue D.tells → NothingDirty K.was → Beside places K.was (D.told flash) },
    ghost touches: { TouchesPlaces places K.writes (D.writes flash) },
}

impl<D: Flash, K: Start> Mapped<D, K> {
    ghost use Rattle.std.specs.Prelude.{◌≡◌, ◌+◌, ◌*◌, ◌%◌, ◌<◌, ◌≤◌, length, slice_range, IsTrue, OnOk};
    ghost use Rattle.flash_core.specs.Calls.{Reads};
    ghost use Rattle.gpt_core.specs.Places.{through};
    ghost use Rattle.gpt_core.specs.Mapped.{device, places_of};

    /// The flash that a device has at places that fit it.
    pub fn new(flash: D, places: Places) -> Mapped<D, K>
        requires fit { Fit (D.blocks flash) places }
        requires at { places ≡ K.at }
        requires size { D.blocks flash ≡ K.blocks }
        requires start { IsTrue D.tells → D.told flash ≡ K.was }
        requires writes { D.writes flash ≡ K.writes }
        ensures device { device result ≡ flash }
        ensures places { places_of result ≡ places }
    {
        Mapped {
            flash,
            places,
            start: PhantomData,
        }
    }

    /// The device.
    pub fn into_flash(self) -> D
        ensures device { result ≡ device self }
        ensures places { places_of self ≡ K.at }
        ensures size { D.blocks result ≡ K.blocks }
        ensures beside { IsTrue D.tells → NothingDirty K.was → Beside K.at K.was (D.told result) }
        ensures touches { TouchesPlaces K.at K.writes (D.writes result) }
    {
        self.flash
    }

    /// Reads a range that lies in one block where it meets blocks 0 to 2.
    fn read_piece(&mut self, at: u32, out: &mut [u8]) -> Result<(), FlashStop>
        requires on { IsTrue (D.on (device self.old)) }
        requires inside { at + length out.old ≤ block_bytes * (places_of self.old).store_blocks }
        requires some { 0 < length out.old }
        requires one_block { at < 3 * block_bytes → at % block_bytes + length out.old ≤ block_bytes }
        ensures bytes { OnOk result (IsTrue D.tells
            → out.new ≡ slice_range (through (places_of self.old) (D.told (device self.old)).now) at (at + length out.old)) }
        ensures places { places_of self.new ≡ places_of self.old }
        ensures reads { Reads D.Flash result (device self.old) (device self.new) }
    {
        let place = self.places.byte(at);
        self.flash.read(place, out)
    }

    /// Reads a range, in pieces where it meets blocks 0 to 2.
    fn read_pieces(&mut self, at: u32, out: &mut [u8]) -> Result<(), FlashStop>
        requires on { IsTrue (D.on (device self.old)) }
        requires inside { at + length out.old ≤ block_bytes * (places_of self.old).store_blocks }
        ensures bytes { OnOk result (IsTrue D.tells
            → out.new ≡ slice_range (through (places_of self.old) (D.told (device self.old)).now) at (at + length out.old)) }
        ensures places { places_of self.new ≡ places_of self.old }
        ensures reads { Reads D.Flash result (device self.old) (device self.new) }
    {
        if out.is_empty() {
            return Ok(());
        }
        let size = piece_of(at, out.len());
        if size == out.len() {
            return self.read_piece(at, out);
        }
        let (piece, rest) = out.split_at_mut(size);
        self.read_piece(at, piece)?;
        self.read_pieces(at + size as u32, rest)
    }
}

/// How many of so many bytes from there on stand in one piece.
fn piece_of(at: u32, size: usize) -> usize
    requires { 0 < size }
    ensures most { result ≤ size }
    ensures some { 0 < result }
    ensures one_block { at < 3 * block_bytes → at % block_bytes + result ≤ block_bytes }
{
    if at >= 3 * BLOCK_BYTES {
        return size;
    }
    size.min((BLOCK_BYTES - at % BLOCK_BYTES) as usize)
}

impl<D: Flash, K: Start> Flash for Mapped<D, K> {
    ghost use Rattle.std.specs.Prelude.{Option, Bool, ℕ};
    ghost use Rattle.gpt_core.specs.View.{view_of, landed_told, writes_seen};
    ghost use Rattle.gpt_core.specs.Sound.{view_sound};

    ghost on = { λ m. D.on m.flash };

    ghost blocks = { λ m. m.places.store_blocks };

    ghost tells = { D.tells };

    ghost told = { λ m. view_of m.places (D.told m.flash) };

    ghost landed = { λ m. landed_told D.tells m.places (D.told m.flash).under (D.landed m.flash) };

    ghost arming = { λ m. D.arming m.flash };

    ghost counts = { λ m. D.counts m.flash };

    ghost writes = { λ m. writes_seen m.places (D.writes m.flash) };

    ghost sizes = { λ m. m.fits.sizes };

    ghost sound = { λ m tells.
        view_sound m.places (D.blocks m.flash) (D.on m.flash) (D.told m.flash) m.fits (D.sound m.flash tells) };

    ghost ahead = { λ m. D.ahead m.flash };

    fn blocks(&self) -> u32 {
        self.places.store_blocks
    }

    fn is_on(&self) -> bool {
        self.flash.is_on()
    }

    fn read(&mut self, at: u32, out: &mut [u8]) -> Result<(), FlashStop> {
        self.read_pieces(at, out)
    }

    fn erase(&mut self, block: u32) -> Result<(), FlashStop> {
        let place = self.places.block(block);
        self.flash.erase(place)
    }

    fn program(&mut self, at: u32, bytes: &[u8]) -> Result<(), FlashStop> {
        let place = self.places.byte(at);
        self.flash.program(place, bytes)
    }

    fn barrier(&mut self) -> Result<(), FlashStop> {
        self.flash.barrier()
    }

    fn arm(&mut self, n: u32, k: u32) {
        self.flash.arm(n, k);
    }

    fn power_on(&mut self) {
        self.flash.power_on();
    }
}

/// What a loss may leave of a device is seen as what a loss may leave of the flash that it has at these
/// places. Where the device guards the blocks behind blocks 1 to 7, the flash guards these.
pub fn losses_are_seen_through_places()
    ensures images { (blocks : ℕ) (on : Bool) (p : Places) (t : Told) (image : List ℕ) → Fit blocks p
        → IsSound blocks on t → May t image → May (view_of p t) (through p image) }
    ensures guards { (blocks : ℕ) (p : Places) (t : Told) → Fit blocks p
        → ((b : ℕ) → 1 ≤ b → b ≤ 7 → IsTrue (is_guarded t (behind p b))) → Guards 1 7 (view_of p t) }
{}
