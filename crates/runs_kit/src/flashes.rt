//! The bytes of flashes, from docs/FORMATS.md by Python's zlib and hashlib: checks/model/check_vectors.py
//! makes them again.
use crate::stops::NotMade;
use std::alloc::Global;

/// Two banks of a manifest of 1 block, tb-fw of 2 and nt-fw of 4.
pub const LAYOUT: &str =
    "e9cef4cb4657554c0200000003000000680000000000000000000000000000004657554d414e4946455354000000000101000000000000005ff9ec0b4d223e4da544c39d81c73f0a0200000000000000d6d0eea7fcead54b97829934f234b6e40400000000000000";

/// Bank 0 is active and accepted, and bank 1 invalid.
pub const METADATA: &str =
    "fc726b040200000000000000000000001801000020000000fcffffff0000000002000300500018004657554d414e49464553540000000001000000000000000000000000000000004657554d414e4946455354000000000101000000000000004657554d414e4946455354000000000100000000000000005ff9ec0b4d223e4da544c39d81c73f0a000000000000000000000000000000005ff9ec0b4d223e4da544c39d81c73f0a01000000000000005ff9ec0b4d223e4da544c39d81c73f0a0000000000000000d6d0eea7fcead54b97829934f234b6e400000000000000000000000000000000d6d0eea7fcead54b97829934f234b6e40100000000000000d6d0eea7fcead54b97829934f234b6e40000000000000000";

/// Bank 1 is active and valid, and bank 0, the previous one, accepted.
pub const ON_TRIAL: &str =
    "1fceb7f10200000001000000000000001801000020000000fcfeffff0000000002000300500018004657554d414e49464553540000000001000000000000000000000000000000004657554d414e4946455354000000000101000000000000004657554d414e4946455354000000000100000000000000005ff9ec0b4d223e4da544c39d81c73f0a000000000000000000000000000000005ff9ec0b4d223e4da544c39d81c73f0a01000000000000005ff9ec0b4d223e4da544c39d81c73f0a0000000000000000d6d0eea7fcead54b97829934f234b6e400000000000000000000000000000000d6d0eea7fcead54b97829934f234b6e40100000000000000d6d0eea7fcead54b97829934f234b6e40000000000000000";

/// Metadata of version 1: bank 0 is active, with all its bits.
pub const VERSION_1: &str =
    "2d3ced7e0100000000000000000000004657554d414e49464553540000000001000000000000000000000000000000004657554d414e4946455354000000000101000000000000004657554d414e4946455354000000000100000000000000005ff9ec0b4d223e4da544c39d81c73f0a000000000000000000000000000000005ff9ec0b4d223e4da544c39d81c73f0a01000000000000005ff9ec0b4d223e4da544c39d81c73f0a0000000000000000d6d0eea7fcead54b97829934f234b6e400000000000000000000000000000000d6d0eea7fcead54b97829934f234b6e40100000000000000d6d0eea7fcead54b97829934f234b6e40000000000000000";

/// The manifest of the images `abc` and `hello`, of security version 1.
pub const MANIFEST: &str =
    "46574d460100000001000000020000005ff9ec0b4d223e4da544c39d81c73f0a0300000007000000ba7816bf8f01cfea414140de5dae2223b00361a396177a9cb410ff61f20015add6d0eea7fcead54b97829934f234b6e405000000090000002cf24dba5fb0a30e26e83b2ac5b9e29e1b161e5c1fa7425e73043362938b9824dfb762568ec809e6a8e136de9bae264bf9ebe5fecc8f297f2f37b0393cbb8273";

/// The same of security version 2.
pub const MANIFEST_2: &str =
    "46574d460100000002000000020000005ff9ec0b4d223e4da544c39d81c73f0a0300000007000000ba7816bf8f01cfea414140de5dae2223b00361a396177a9cb410ff61f20015add6d0eea7fcead54b97829934f234b6e405000000090000002cf24dba5fb0a30e26e83b2ac5b9e29e1b161e5c1fa7425e73043362938b98243e4fddc75c0ea9600912d33069cf761c2f408f57591b2947853625b2c0c4fb00";

/// The same of security version 5.
pub const MANIFEST_5: &str =
    "46574d460100000005000000020000005ff9ec0b4d223e4da544c39d81c73f0a0300000007000000ba7816bf8f01cfea414140de5dae2223b00361a396177a9cb410ff61f20015add6d0eea7fcead54b97829934f234b6e405000000090000002cf24dba5fb0a30e26e83b2ac5b9e29e1b161e5c1fa7425e73043362938b982442e7d19a318702068e9be8a10e3e8ca7c143888b834cf9aa1b7883cd0821548a";

/// A list of the SHA-256 of the manifest of security version 1.
pub const LIST: &str = "6d807d1bea783d90ce1f9ee1bf8667e94ddc31fa6f5474f8a891bcc89d56fb9a\n";

/// Puts the bytes that the digits spell into the image, where it has room for them.
pub fn put(alloc: Global, image: &mut Vec<u8>, at: u32, digits: &str) -> Result<(), NotMade> {
    let Ok(bytes) = hex::decode(alloc, digits) else {
        return Err(NotMade);
    };
    let first = at as usize;
    let end = first + bytes.len();
    if let Some(place) = image.as_mut_slice().get_mut(first..end) {
        place.copy_from_slice(bytes.as_slice());
    }
    Ok(())
}

/// So many blocks without data.
pub fn blank(alloc: Global, blocks: u32) -> Result<Vec<u8>, NotMade> {
    Ok(vec![in alloc; 0xFF; 4096 * blocks as usize]?)
}

/// A bank, from this place on, with this manifest and the images `abc` and `hello`.
pub fn put_bank(
    alloc: Global,
    image: &mut Vec<u8>,
    at: u32,
    manifest: &str,
) -> Result<(), NotMade> {
    put(alloc, image, at, manifest)?;
    put(alloc, image, at.wrapping_add(4096), "616263")?;
    put(alloc, image, at.wrapping_add(3 * 4096), "68656c6c6f")
}

/// Puts metadata into both replicas.
pub fn put_metadata(alloc: Global, image: &mut Vec<u8>, metadata: &str) -> Result<(), NotMade> {
    put(alloc, image, 4096, metadata)?;
    put(alloc, image, 2 * 4096, metadata)
}

/// 22 blocks, two banks, bank 0 accepted with this manifest and the images `abc` and `hello`, bank 1 invalid, and no mark of
/// the counter.
pub fn with_manifest(alloc: Global, manifest: &str) -> Result<Vec<u8>, NotMade> {
    let mut image = blank(alloc, 22)?;
    put(alloc, &mut image, 0, LAYOUT)?;
    put_metadata(alloc, &mut image, METADATA)?;
    put_bank(alloc, &mut image, 8 * 4096, manifest)?;
    Ok(image)
}

/// The same with version 1.
pub fn formatted(alloc: Global) -> Result<Vec<u8>, NotMade> {
    with_manifest(alloc, MANIFEST)
}

/// The same with one mark of the counter, so that the first boot writes nothing.
pub fn two_banks(alloc: Global) -> Result<Vec<u8>, NotMade> {
    let mut image = formatted(alloc)?;
    let mark = "00000000000000000000000000000000";
    put(alloc, &mut image, 4 * 4096, mark)?;
    Ok(image)
}

/// The same with version 2 in bank 1, which is active and on trial.
pub fn on_trial(alloc: Global) -> Result<Vec<u8>, NotMade> {
    let mut image = two_banks(alloc)?;
    put_metadata(alloc, &mut image, ON_TRIAL)?;
    put_bank(alloc, &mut image, 15 * 4096, MANIFEST_2)?;
    Ok(image)
}
