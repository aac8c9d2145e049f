//! Taking up a bank that an earlier boot started: what an agent begins with, in the firmware that runs.
ghost use Rattle.flash_core.specs.Calls.{Goes};
ghost use Rattle.std.specs.Prelude.{◌≡◌, ◌≤◌, ℕ, None, length, IsTrue, IfOk, IfSome};
ghost use Rattle.base_core.specs.Block.{block_bytes};
ghost use Rattle.fwu_formats.specs.Metadata.{fits_meta, state_at};
ghost use Rattle.replicas.specs.Stores.{TouchesRepair};
ghost use Rattle.early_boot.specs.Showing.{HasShown};
ghost use Rattle.early_boot.specs.Choosing.{IsFound};
ghost use Rattle.early_boot.specs.TakenUp.{BootedRuns, IsTakeUp, MendsFound, OnceFound, SpendsFound, device_left, may_run, running_bank, running_in, taken_as, unshown_as, was_started};

use crate::booted::Booted;
use crate::choosing::{Chosen, candidate};
use crate::mending::{mend, mended};
use crate::showing::{Shown, Unshown, read_shown};
use base_core::BLOCK_BYTES;
use flash_core::{Flash, FlashStop};
use fwu_formats::{BankState, LayoutFault};
use verify_core::Verifier;

/// How taking up a bank ends: by an answer, with the flash on, or stopped by the flash, which is then off.
#[derive(Drop)]
pub enum TakeUpEnd<D: Flash> {
    /// The bank was taken up. Both replicas hold the metadata in version 2; no start was counted, and no counter raised.
    Taken(Booted<D>),
    /// Block 0 holds no layout. Nothing was written.
    BadLayout(D, LayoutFault),
    /// Neither replica is metadata of the layout, in version 2 or 1. Nothing was written.
    NoMetadata(D),
    /// By the numbers that the flash shows, and by what the bank holds, no boot started this bank. Nothing was written.
    NotStarted(D),
    /// The flash stopped it, before the repair of the replicas or in it.
    Stopped(D, FlashStop),
}

/// Whether a boot may have counted a start of a bank in this state.
fn was_started(state: BankState, trials: u32) -> bool
    ensures { result ≡ was_started state trials }
{
    state.is_accepted() || (state.is_valid() && trials > 0)
}

/// Whether a boot may have started the bank, by the numbers that the flash shows.
fn may_run(shown: &Shown, bank: u32) -> bool
    requires { IsTrue (fits_meta shown.now.layout shown.now.meta.meta) }
    ensures { let m = shown.now.meta.meta in result ≡ may_run bank m.active m.previous (state_at m bank) shown.now.trials }
{
    let meta = &shown.meta;
    if bank == meta.active() {
        was_started(meta.state(bank), shown.trials)
    } else {
        bank == meta.previous() && meta.state(bank).is_accepted()
    }
}

/// The bank, where it may be taken up; then the replicas are repaired.
// its frame is gone before the agent is made: that keeps the stack small
#[inline(never)]
fn check_and_mend<D: Flash, V: Verifier>(
    flash: &mut D,
    shown: &Shown,
    bank: u32,
    verifier: &V,
    buf: &mut [u8],
) -> Result<Option<Chosen>, FlashStop>
    requires has { HasShown D.Flash flash.old shown.now }
    requires room { block_bytes ≤ length buf.old }

    ensures running { let passes = V.passes verifier.now in
        IfOk result (λ found. IsTrue D.tells → found ≡ running_in passes (D.told flash.old).now shown.now bank) }
    ensures found { let Is : ℕ → Type 0 = λ b. running_bank shown.now bank ≡ Some b in
        IfOk result (λ found. IfSome found (IsFound (V.passes verifier.now) shown.now Is)) }
    ensures mends { IsTrue D.tells → MendsFound result shown.now (D.told flash.old) (D.told flash.new) }
    ensures goes { Goes D.Flash result flash.old flash.new }
    // on every device: no block but the replicas that are to be written
    ensures touches { TouchesRepair shown.now.which (D.writes flash.old) (D.writes flash.new) }
    ensures refused { IfOk result (λ found. found ≡ None → D.writes flash.new ≡ D.writes flash.old) }
    ensures spent { IfOk result (λ found.
        SpendsFound shown.now found (D.arming flash.old) (D.arming flash.new) (D.counts flash.old) (D.counts flash.new)) }
    ensures once { IfOk result (λ found. IsTrue D.tells →
        OnceFound shown.now (D.told flash.old).now found (D.arming flash.old) (D.arming flash.new)) }
{
    let running = may_run(shown, bank).then_some(bank);
    let Some(chosen) = candidate(flash, shown, running, verifier, buf)? else {
        return Ok(None);
    };
    mend(flash, shown, buf)?;
    Ok(Some(chosen))
}

/// The flash shows nothing, or stopped the reading.
fn unshown<D: Flash>(flash: D, why: Unshown) -> TakeUpEnd<D>
    ensures device { device_left result ≡ flash }
    ensures taken { taken_as result ≡ unshown_as why }
{
    match why {
        Unshown::Layout(fault) => TakeUpEnd::BadLayout(flash, fault),
        Unshown::Metadata => TakeUpEnd::NoMetadata(flash),
        Unshown::Flash(stop) => TakeUpEnd::Stopped(flash, stop),
    }
}

/// Takes up a bank that an earlier boot started, for an agent in the firmware that runs. No start is counted, and no counter
/// raised.
///
/// It reads the layout in block 0 (`BadLayout`), the metadata in blocks 1 and 2 (`NoMetadata`), the trials and the counter. The
/// bank is the active one, which is accepted or was started on trial at least once, or the previous one, which is accepted. It
/// holds a complete package that is permitted: of a security version not below the counter, and with a manifest that the verifier
/// accepts. Any other bank is `NotStarted`. Only then is something written: the metadata in version 2 over each replica that
/// lacks it.
///
/// The caller's buffer has 4096 bytes at least. It holds the blocks that are read, and the metadata that is written. What stands
/// in it before and afterwards means nothing.
// in the frame of its caller, which takes the end apart at once: that keeps the stack small
#[inline(always)]
pub fn take_up<D: Flash, V: Verifier>(
    flash: D,
    bank: u32,
    verifier: &V,
    buf: &mut [u8],
) -> TakeUpEnd<D>
    requires on { IsTrue (D.on flash) }
    requires room { block_bytes ≤ length buf.old }

    ensures takes { IsTakeUp D.Flash (V.passes verifier.now) bank flash (taken_as result) (device_left result) }
{
    let mut flash = flash;
    let shown = match read_shown(&mut flash, &mut buf[..BLOCK_BYTES as usize]) {
        Ok(shown) => shown,
        Err(why) => return unshown(flash, why),
    };
    match check_and_mend(&mut flash, &shown, bank, verifier, buf) {
        Ok(Some(chosen)) => {
            let booted = Booted {
                flash,
                shown: mended(&shown),
                chosen,
            };
            TakeUpEnd::Taken(booted)
        }
        Ok(None) => TakeUpEnd::NotStarted(flash),
        Err(stop) => TakeUpEnd::Stopped(flash, stop),
    }
}

/// In the state that a boot leaves, the bank that it started may be taken up.
pub fn booted_banks_are_taken_up()
    ensures { BootedRuns }
{}
