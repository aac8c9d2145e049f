//! What a flash shows, and what is found of the package in each bank.
ghost use Rattle.std.specs.Prelude.{◌≡◌, ◌⊎◌, ◌<◌, ◌≤◌, true, false, drop, length, slice_index_or, IfSome, Ok};
ghost use Rattle.fwu_formats.specs.Metadata.{bit_number};
ghost use Rattle.base_core.specs.Block.{block_bytes};
ghost use Rattle.fwu_formats.specs.Image.{layout_seen};
ghost use Rattle.early_boot.specs.Numbers.{AreNumbers, ShowsNumbers, numbers};
ghost use Rattle.fwu_c.specs.Handed.{HasFlashSize};
ghost use Rattle.fwu_c.specs.Shows.{ShowsBy, TellsBanks, TellsNumbers, TellsShown, bank_shown, bits_of};
ghost use Rattle.fwu_c.specs.Shows.{image_told, state_code, verdict_code, version_told};

use crate::handing::unmade_number;
use crate::layouts::fault_number;
use base_core::BLOCK_BYTES;
use early_boot::{Numbers, Unshown, read_numbers_in};
use fwu_formats::{BankState, LayoutFault};
use image_check::{Verdict, check};
use meta_layout::{Bits, Layout};
use std::alloc::Global;
use step_flash::StepFlash;
use verify_core::AnyManifest;

/// What is shown of a bank.
#[repr(C)]
#[derive(Clone, Copy)]
pub struct BankShown {
    /// 0: invalid. 1: valid; where the bank is active it is on trial. 2: accepted.
    pub state: u32,
    /// What is found of the bank's package, the first of these that is so. 1: it has no manifest of the layout's images. 3: an
    /// image is not what its row says. 4: its security version is below the counter. 0: none of these. 2 would be the refusal of a
    /// verifier, and here there is none.
    pub verdict: u32,
    /// At 0 and 4 the security version of the package, else 0.
    pub version: u32,
    /// At 3 the number of the lowest such image, else 0.
    pub image: u32,
    /// For each image, in the order of the layout, 1 where it was accepted, else 0; and 0 behind them.
    pub accepted: [u8; 16],
}

/// What a flash shows.
#[repr(C)]
#[derive(Clone, Copy)]
pub struct FlashShown {
    /// The version of the metadata, 1 or 2.
    pub form: u32,
    /// The active bank.
    pub active: u32,
    /// The bank that was active before.
    pub previous: u32,
    /// How often the active bank was started on trial, and 0 where it is not on trial.
    pub trials: u32,
    /// The anti-rollback counter.
    pub counter: u32,
    /// The number of the layout's first fault.
    pub layout_fault: u32,
    /// How many banks there are.
    pub banks: u32,
    /// How many images each bank has.
    pub images: u32,
    /// What is shown of each bank.
    pub bank: [BankShown; 4],
}

const _: () = prove!(size_of::<BankShown>() == 32);

const _: () = prove!(size_of::<FlashShown>() == 160);

/// What a flash that lies in memory shows, and what is found of the package in each bank. Nothing is repaired, and no step told.
/// 0: `shown` tells it. 1: block 0 is no layout. 2: neither replica is metadata. 6: these bytes are no flash. 7: memory is wanting.
#[unsafe(no_mangle)]
pub extern "C" fn fwu_show(alloc: Global, image: &[u8], shown: &mut FlashShown) -> u32
    ensures answers { result ≤ 7 }
    ensures shows { result ≤ 5 → ShowsBy image.now result shown.new }
    // Whatever it answers: nothing is told behind the last bank, at 1 nothing but the fault, and from 2 on nothing.
    ensures tells { TellsShown image.now result shown.old shown.new }
{
    let mut flash = match StepFlash::new(alloc, image, 0) {
        Ok(flash) => flash,
        Err(why) => return unmade_number(why),
    };
    let Ok(mut block) = Vec::from_elem(alloc, 0u8, BLOCK_BYTES as usize) else {
        return 7;
    };
    match read_numbers_in(&mut flash, &mut block[..BLOCK_BYTES as usize]) {
        Ok(read) => show_all(alloc, image, &read, &mut block, shown),
        Err(Unshown::Layout(fault)) => {
            shown.layout_fault = fault_number(fault);
            1
        }
        Err(Unshown::Metadata) => 2,
        // no read of this device fails
        Err(Unshown::Flash(_)) => 7,
    }
}

/// The layout in block 0 of a flash, or its first fault.
fn layout_in(image: &[u8]) -> Result<Layout, LayoutFault>
    requires { HasFlashSize image.now }
    ensures { result ≡ layout_seen image.now }
{
    let blocks = (image.len() / BLOCK_BYTES as usize) as u32;
    Layout::read(&image[..BLOCK_BYTES as usize], blocks)
}

/// Tells the numbers of a flash, and all of its banks.
fn show_all(
    alloc: Global,
    image: &[u8],
    read: &Numbers,
    block: &mut [u8],
    shown: &mut FlashShown,
) -> u32
    requires room { length block.old ≡ block_bytes }
    requires size { HasFlashSize image.now }
    requires numbers { ShowsNumbers image.now (numbers read.now) }
    requires are { AreNumbers (numbers read.now) }
    ensures answers { (result ≡ 0) ⊎ (result ≡ 7) }
    ensures shows { result ≤ 5 → ShowsBy image.now result shown.new }
    ensures tells { TellsShown image.now result shown.old shown.new }
{
    // without a layout there are no numbers
    let Ok(layout) = layout_in(image) else {
        return 7;
    };
    let mut told = *shown;
    put_numbers(&layout, read, &mut told);
    if !show_banks(alloc, image, &layout, read, block, &mut told) {
        return 7;
    }
    *shown = told;
    0
}

/// Tells the numbers of a flash.
fn put_numbers(layout: &Layout, read: &Numbers, shown: &mut FlashShown)
    requires { AreNumbers (numbers read.now) }
    ensures told { TellsNumbers layout.now (numbers read.now) shown.new }
    ensures banks { shown.new.bank ≡ shown.old.bank }
    ensures fault { shown.new.layout_fault ≡ shown.old.layout_fault }
{
    shown.form = read.form;
    shown.active = read.active;
    shown.previous = read.previous;
    shown.trials = read.trials;
    shown.counter = read.counter;
    shown.banks = read.states.len() as u32;
    shown.images = layout.rows().len() as u32;
}

/// Tells each bank, and says whether all could be read.
fn show_banks(
    alloc: Global,
    image: &[u8],
    layout: &Layout,
    read: &Numbers,
    block: &mut [u8],
    shown: &mut FlashShown,
) -> bool
    requires room { length block.old ≡ block_bytes }
    requires layout { layout_seen image.now ≡ Ok layout.now }
    requires numbers { ShowsNumbers image.now (numbers read.now) }
    requires are { AreNumbers (numbers read.now) }
    requires told { TellsNumbers layout.now (numbers read.now) shown.old }
    ensures banks { result ≡ true → TellsBanks image.now layout.now (numbers read.now) shown.new }
    ensures behind { result ≡ true → drop shown.new.banks shown.new.bank ≡ drop shown.new.banks shown.old.bank }
    ensures told { TellsNumbers layout.now (numbers read.now) shown.new }
    ensures fault { shown.new.layout_fault ≡ shown.old.layout_fault }
{
    for bank in 0..read.states.len() {
        let Some(found) = find_bank(alloc, image, layout, read, bank as u32, block) else {
            return false;
        };
        shown.bank[bank] = found;
    }
    true
}

/// What is shown of a bank. None where there is no memory for a device, or a read failed.
fn find_bank(
    alloc: Global,
    image: &[u8],
    layout: &Layout,
    read: &Numbers,
    bank: u32,
    block: &mut [u8],
) -> Option<BankShown>
    requires room { block_bytes ≤ length block.old }
    requires layout { layout_seen image.now ≡ Ok layout.now }
    requires numbers { ShowsNumbers image.now (numbers read.now) }
    requires are { AreNumbers (numbers read.now) }
    requires bank { bank < length (numbers read.now).states }
    ensures found { IfSome result (λ found. found ≡ bank_shown image.now layout.now (numbers read.now) bank) }
    ensures room { length block.new ≡ length block.old }
{
    let Ok(mut flash) = StepFlash::new(alloc, image, 0) else {
        return None;
    };
    let block = &mut block[..BLOCK_BYTES as usize];
    let Ok(verdict) = check(&mut flash, layout, bank, read.counter, block, &AnyManifest) else {
        return None;
    };
    Some(BankShown {
        state: state_number(read.states.get(bank as usize)),
        verdict: verdict_number(verdict),
        version: version_in(verdict),
        image: image_in(verdict),
        accepted: accepted_in(read.bits.get(bank as usize)),
    })
}

/// The number of a bank's state.
fn state_number(state: BankState) -> u32
    ensures { result ≡ state_code state }
{
    match state {
        BankState::Invalid => 0,
        BankState::Valid => 1,
        BankState::Accepted => 2,
    }
}

/// The number of what is found of a bank.
fn verdict_number(verdict: Verdict) -> u32
    ensures { result ≡ verdict_code verdict }
{
    match verdict {
        Verdict::Good { .. } => 0,
        Verdict::BadManifest => 1,
        Verdict::NotAccepted => 2,
        Verdict::BadImage { .. } => 3,
        Verdict::BelowCounter { .. } => 4,
    }
}

/// The security version of a complete package, else 0.
fn version_in(verdict: Verdict) -> u32
    ensures { result ≡ version_told verdict }
{
    match verdict {
        Verdict::Good { version } | Verdict::BelowCounter { version, .. } => version,
        Verdict::BadManifest | Verdict::NotAccepted | Verdict::BadImage { .. } => 0,
    }
}

/// The number of the lowest image that is bad, else 0.
fn image_in(verdict: Verdict) -> u32
    ensures { result ≡ image_told verdict }
{
    match verdict {
        Verdict::BadImage { image } => image,
        Verdict::Good { .. }
        | Verdict::BadManifest
        | Verdict::NotAccepted
        | Verdict::BelowCounter { .. } => 0,
    }
}

/// 1 where an image was accepted, else 0; and 0 where there is no such image.
fn bit_in(bits: &Bits, image: usize) -> u8
    ensures { result ≡ bit_number (slice_index_or bits.now image false) }
{
    if image < bits.len() {
        return u8::from(bits.get(image));
    }
    0
}

/// 1 for each image that was accepted, and 0 for each other.
fn accepted_in(bits: &Bits) -> [u8; 16]
    ensures { result ≡ bits_of bits.now }
{
    let mut accepted = [0; 16];
    for image in 0..16 {
        accepted[image] = bit_in(bits, image);
    }
    accepted
}
