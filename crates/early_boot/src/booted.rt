//! A boot that started a bank.
ghost use Rattle.std.specs.Prelude.{◌≡◌, ◌<◌, ◌≤◌, length, take, IsTrue};
ghost use Rattle.fwu_formats.specs.Layout.{blocks_needed, slot_bytes};
ghost use Rattle.fwu_formats.specs.Metadata.{fits_meta};
ghost use Rattle.early_boot.specs.Choosing.{LengthsFitSlots, IsCandidate};
ghost use Rattle.early_boot.specs.Tells.{started_as};
ghost use Rattle.early_boot.specs.Knows.{KnowsStarted};
ghost use Rattle.fwu_formats.specs.Places.{trial_limit};

use crate::choosing::Chosen;
use crate::numbers::Numbers;
use crate::showing::Shown;
use flash_core::Flash;
use fwu_formats::BankState;
use meta_layout::{Layout, Meta};

/// The bank that was started, with what its flash shows, and the device, which is on. What it tells stays as it was at the boot.
#[derive(Drop)]
pub struct Booted<D: Flash> {
    pub(crate) flash: D,
    pub(crate) shown: Shown,
    pub(crate) chosen: Chosen,
    ghost power: { IsTrue (D.on flash) },
    ghost fits: { IsTrue (fits_meta shown.layout shown.meta.meta) },
    ghost few: { shown.trials ≤ trial_limit },
    ghost candidate: { IsCandidate shown.layout chosen },
    ghost inside: { blocks_needed shown.layout ≤ D.blocks flash },
    ghost knows: { IsTrue D.tells → KnowsStarted (started_as shown chosen) (D.told flash) },
}

impl<D: Flash> Booted<D> {
    ghost use Rattle.std.specs.Prelude.{slice_index_or};
    ghost use Rattle.fwu_formats.specs.Metadata.{state_at, bit_at};
    ghost use Rattle.early_boot.specs.Numbers.{numbers};
    ghost use Rattle.early_boot.specs.Started.{started, started_numbers, device};

    /// The layout of the flash.
    pub fn layout(&self) -> &Layout
        ensures { result.now ≡ (started self.now).layout }
    {
        &self.shown.layout
    }

    /// The bank that was started.
    pub fn bank(&self) -> u32
        ensures value { result ≡ (started self.now).bank }
        ensures below { result < (started self.now).layout.banks }
    {
        self.chosen.bank
    }

    /// The security version of the package in the bank that was started.
    pub fn version(&self) -> u32
        ensures { result ≡ (started self.now).version }
    {
        self.chosen.version
    }

    /// The bank that boot tries first.
    pub fn active(&self) -> u32
        ensures { result ≡ (started self.now).meta.meta.active }
    {
        self.shown.meta.active()
    }

    /// The bank that was active before.
    pub fn previous(&self) -> u32
        ensures { result ≡ (started self.now).meta.meta.previous }
    {
        self.shown.meta.previous()
    }

    /// The state of a bank.
    pub fn state(&self, bank: u32) -> BankState
        requires { bank < (started self.now).layout.banks }
        ensures { result ≡ state_at (started self.now).meta.meta bank }
    {
        self.shown.meta.state(bank)
    }

    /// Whether an image in a bank is accepted.
    pub fn bit(&self, bank: u32, image: u32) -> bool
        requires below { bank < (started self.now).layout.banks }
        requires within { image < length (started self.now).layout.rows }
        ensures { result ≡ bit_at (started self.now).meta.meta bank image }
    {
        self.shown.meta.bit(bank, image)
    }

    /// How often the active bank was started on trial, and 0 where it is not on trial.
    pub fn trials(&self) -> u32
        ensures value { result ≡ (started self.now).trials }
        ensures few { result ≤ trial_limit }
    {
        self.shown.trials
    }

    /// The anti-rollback counter.
    pub fn counter(&self) -> u32
        ensures { result ≡ (started self.now).counter }
    {
        self.shown.counter
    }

    /// The numbers of the flash after the boot.
    pub fn numbers(&self) -> Numbers
        ensures { numbers result ≡ started_numbers (started self.now) }
    {
        Numbers::of(&self.shown.meta, self.shown.trials, self.shown.counter)
    }

    /// Whether the previous bank was started in place of the active one.
    pub fn fallback(&self) -> bool
        ensures { result ≡ (started self.now).fallback }
    {
        self.chosen.bank != self.shown.meta.active()
    }

    /// The length in bytes of an image of the bank that was started.
    pub fn image_bytes(&self, image: u32) -> u32
        requires { image < length (started self.now).layout.rows }
        ensures value { result ≡ slice_index_or (started self.now).lengths image 0 }
        ensures within { result ≤ slot_bytes (started self.now).layout image }
    {
        self.chosen.lengths.get(image as usize)
    }

    /// The lengths in bytes of the images of the bank that was started, one for each image of the layout,
    /// at the front of 16 numbers.
    pub fn lengths(&self) -> [u32; 16]
        ensures front { take (length (started self.now).lengths) result ≡ (started self.now).lengths }
        ensures count { length (started self.now).lengths ≡ length (started self.now).layout.rows }
        ensures within { LengthsFitSlots (started self.now).layout (started self.now).lengths }
        ensures all { length result ≡ 16 }
    {
        self.chosen.lengths.all()
    }

    /// The device, which is on, the layout, and the metadata, which both replicas hold in version 2 when the boot ends.
    pub fn into_parts(self) -> (D, Layout, Meta)
        ensures device { result.0 ≡ device self }
        ensures power { IsTrue (D.on result.0) }
        ensures layout { result.1 ≡ (started self).layout }
        ensures metadata { result.2 ≡ (started self).meta }
        ensures fits { IsTrue (fits_meta result.1 result.2.meta) }
        ensures inside { blocks_needed result.1 ≤ D.blocks result.0 }
        // What the boot knows of its flash, sound or not.
        ensures knows { IsTrue D.tells → KnowsStarted (started self) (D.told result.0) }
    {
        let Booted {
            flash,
            shown,
            chosen: _,
        } = self;
        (flash, shown.layout, shown.meta)
    }
}
