//! The verdict on a bank.
ghost use Rattle.std.specs.Prelude.{◌≡◌, ◌-◌, ◌<◌, ◌≤◌, ℕ, Bool, List, length, take, IsTrue, IfOk};
ghost use Rattle.base_core.specs.Block.{block_bytes};
ghost use Rattle.flash_core.specs.Calls.{Reads};
ghost use Rattle.fwu_formats.specs.Layout.{blocks_needed, start, ImageRow as Row};
ghost use Rattle.fwu_formats.specs.Manifest as model;
ghost use Rattle.manifest_core.specs.Sizes.{most_manifest_bytes};
ghost use Rattle.image_check.specs.Passed.{HasPackage, HasPackageBy, HasPassed, IsVerdictBy};
ghost use Rattle.image_check.specs.Verdict.{found, front_of, by_counter, verdict_on};
ghost use Rattle.image_check.specs.Taken.{AreThere};

use crate::image::Images;
use crate::images::first_bad;
use base_core::BLOCK_BYTES;
use flash_core::{Flash, FlashStop};
use manifest_core::{MOST_MANIFEST_BYTES, manifest_size, test};
use meta_layout::Layout;
use verify_core::Verifier;

/// What is found of a bank is the first of these that is so. Its manifest is none of the layout's images; the verifier
/// refuses the manifest; an image, the lowest, has not the digest that its row says. Or the security version is below
/// the counter. Else it is good.
#[derive(Clone, Copy, Debug, PartialEq, Eq)]
pub enum Verdict {
    Good { version: u32 },
    BadManifest,
    NotAccepted,
    BadImage { image: u32 },
    BelowCounter { version: u32, counter: u32 },
}

fn of_counter(version: u32, counter: u32) -> Verdict
    ensures verdict { result ≡ by_counter counter version }
    ensures passed { (passes : List ℕ → Bool) (rows : List Row)
        → HasPackage passes rows version → HasPassed passes rows counter result }
    ensures by_manifest { (passes : List ℕ → Bool) (rows : List Row) (manifest : List ℕ)
        → HasPackageBy passes rows manifest version → IsVerdictBy passes rows manifest result }
{
    if version < counter {
        Verdict::BelowCounter { version, counter }
    } else {
        Verdict::Good { version }
    }
}

/// The verdict on a bank that has this manifest at its front.
fn check_manifest<D: Flash, V: Verifier>(
    flash: &mut D,
    images: &Images<'_>,
    counter: u32,
    buf: &mut [u8],
    verifier: &V,
) -> Result<Verdict, FlashStop>
    requires room { block_bytes ≤ length buf.old }
    requires there { AreThere D.Flash flash.old images.now }
    ensures verdict { IfOk result (λ verdict. IsTrue D.tells →
        verdict ≡ found (V.passes verifier.now) counter (D.told flash.old).now images.now.rows.now images.now.first
        images.now.manifest.now) }
    ensures passed { IfOk result (HasPassed (V.passes verifier.now) images.now.rows.now counter) }
    ensures by_manifest { IfOk result (IsVerdictBy (V.passes verifier.now) images.now.rows.now images.now.manifest.now) }
    ensures reads { Reads D.Flash result flash.old flash.new }
{
    let version = match test(images.manifest, images.rows) {
        Ok(version) => version,
        Err(_) => return Ok(Verdict::BadManifest),
    };
    if !verifier.accepts(images.manifest) {
        return Ok(Verdict::NotAccepted);
    }
    match first_bad(flash, images, buf)? {
        Some(image) => Ok(Verdict::BadImage { image }),
        None => Ok(of_counter(version, counter)),
    }
}

/// Which bank of a layout is checked, and the anti-rollback counter that its version may not be below.
#[derive(Clone, Copy, Drop)]
pub struct Asked<'a> {
    pub layout: &'a Layout,
    pub bank: u32,
    pub counter: u32,
}

/// The verdict on a bank as `check` gives it, and what was read of the bank's manifest, by which it is. That is left at the front
/// of `front`, which has room for the largest. The images are read through `buf`, as there.
pub fn check_keeping_manifest<D: Flash, V: Verifier>(
    flash: &mut D,
    asked: &Asked<'_>,
    front: &mut [u8],
    buf: &mut [u8],
    verifier: &V,
) -> Result<Verdict, FlashStop>
    requires on { IsTrue (D.on flash.old) }
    requires front { most_manifest_bytes ≤ length front.old }
    requires room { block_bytes ≤ length buf.old }
    requires fits { blocks_needed asked.now.layout.now ≤ D.blocks flash.old }
    requires bank { asked.now.bank < asked.now.layout.now.banks }
    ensures verdict { IfOk result (λ verdict. IsTrue D.tells →
        verdict ≡ verdict_on (V.passes verifier.now) asked.now.counter asked.now.layout.now (D.told flash.old).now asked.now.bank) }
    ensures passed { IfOk result (HasPassed (V.passes verifier.now) asked.now.layout.now.rows asked.now.counter) }
    // On every device the verdict is by the manifest that is kept. It is none, or it is refused, or it passes, with an image for
    // each row or for each before the bad one.
    ensures by_manifest { let manifest = take (model.manifest_size (length asked.now.layout.now.rows - 1)) front.new in
        IfOk result (IsVerdictBy (V.passes verifier.now) asked.now.layout.now.rows manifest) }
    ensures manifest { let manifest = take (model.manifest_size (length asked.now.layout.now.rows - 1)) front.new in
        IfOk result (λ verdict. IsTrue D.tells →
        manifest ≡ front_of (D.told flash.old).now asked.now.layout.now.rows (start asked.now.layout.now asked.now.bank 0)) }
    ensures front { length front.new ≡ length front.old }
    ensures reads { Reads D.Flash result flash.old flash.new }
{
    let layout = asked.layout;
    let rows = layout.rows();
    let first = layout.start(asked.bank, 0);
    let size = manifest_size(rows);
    flash.read(BLOCK_BYTES * first, &mut front[..size])?;
    let images = Images {
        rows,
        first,
        manifest: &front[..size],
    };
    check_manifest(flash, &images, asked.counter, buf, verifier)
}

/// The verdict on a bank, by what the flash holds. The bank's manifest stands at the front of the slot of image 0, and
/// its images are the first bytes of their slots, of the lengths that their rows say. The verifier is asked only of a
/// manifest that passes, and given exactly its bytes. The images are read through the buffer, of at least 4096 bytes:
/// three or more side by side where it has `LANES_BYTES` or more, and else one after another. What stands in it before
/// and afterwards means nothing. The flash is only read. No memory is taken.
pub fn check<D: Flash, V: Verifier>(
    flash: &mut D,
    layout: &Layout,
    bank: u32,
    counter: u32,
    buf: &mut [u8],
    verifier: &V,
) -> Result<Verdict, FlashStop>
    requires on { IsTrue (D.on flash.old) }
    requires room { block_bytes ≤ length buf.old }
    requires fits { blocks_needed layout.now ≤ D.blocks flash.old }
    requires bank { bank < layout.now.banks }
    ensures verdict { IfOk result (λ verdict. IsTrue D.tells →
        verdict ≡ verdict_on (V.passes verifier.now) counter layout.now (D.told flash.old).now bank) }
    // on every device: what is good, or below the counter, is so by some complete package that passes
    ensures passed { IfOk result (HasPassed (V.passes verifier.now) layout.now.rows counter) }
    ensures reads { Reads D.Flash result flash.old flash.new }
{
    let mut front = [0; MOST_MANIFEST_BYTES];
    let asked = Asked {
        layout,
        bank,
        counter,
    };
    check_keeping_manifest(flash, &asked, &mut front, buf, verifier)
}
