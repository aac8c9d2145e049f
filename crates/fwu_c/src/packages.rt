//! Packages (the FIP layout of Trusted Firmware-A) and manifests (own format).
ghost use Rattle.std.specs.Prelude.{◌≡◌, ◌≤◌, is_some, unwrap_or};
ghost use Rattle.fwu_formats.specs.Layout.{layout_of};
ghost use Rattle.fwu_formats.specs.Package.{toc_of};
ghost use Rattle.fwu_c.specs.Found.{FindsEntry, FindsIn, security_version};

use base_core::Guid;
use fip_tables::{Entry, StreamToc};
use meta_layout::Layout;

/// As many payloads as a layout may have images, the manifest among them.
pub const MOST_PLACES: usize = 16;

/// Where a payload stands: bytes from the package's first byte, and how many.
#[repr(C)]
#[derive(Clone, Copy)]
pub struct Place {
    pub offset: u64,
    pub size: u64,
}

const _: () = prove!(size_of::<Place>() == 16);

/// Tells where an entry's payload stands, where there is one. 0: there is one; 1: there is none.
fn put_place(entry: Option<Entry>, place: &mut Place) -> u32
    ensures { FindsEntry entry result place.old place.new }
{
    match entry {
        Some(entry) => {
            place.offset = entry.offset;
            place.size = entry.size;
            0
        }
        None => 1,
    }
}

/// Where the payload of a type stands in a package. 0: `place` says it. 1: the package has no entry of the type. 2: the bytes are
/// no package. At 1 and 2 `place` stays as it was.
#[unsafe(no_mangle)]
pub extern "C" fn fwu_find(bytes: &[u8], guid: &[u8; 16], place: &mut Place) -> u32
    ensures { FindsIn guid.now (toc_of bytes.now) result place.old place.new }
{
    // the table is read where it stands: a fault that `feed` tells is told by `toc` again
    let mut stream = StreamToc::new();
    let _fault = stream.feed(bytes);
    match stream.toc() {
        Ok(toc) => put_place(toc.entries.find(&Guid::of(*guid)), place),
        Err(_) => 2,
    }
}

/// Writes where the first payloads of a package begin, and answers how many it wrote: none where the bytes are no package. No
/// clause says which.
// kept apart, so that the table is on the stack only while it is read
#[inline(never)]
pub fn read_places(file: &[u8], places: &mut [usize; MOST_PLACES]) -> usize
    ensures { result ≤ 16 }
{
    let mut stream = StreamToc::new();
    let _fault = stream.feed(file);
    let Ok(toc) = stream.toc() else {
        return 0;
    };
    let entries = toc.entries.as_slice();
    let count = entries.len().min(MOST_PLACES);
    for i in 0..count {
        let entry = entries[i];
        places[i] = entry.offset as usize;
    }
    count
}

/// Whether the bytes begin with a manifest of the layout in this block, of a flash of so many blocks. Where they do, `version` is
/// its security version, else it stays as it was.
#[unsafe(no_mangle)]
pub extern "C" fn fwu_manifest(
    manifest: &[u8],
    block: &[u8],
    blocks: u32,
    version: &mut u32,
) -> bool
    ensures passes { result ≡ is_some (security_version manifest.now (layout_of block.now blocks)) }
    ensures version { version.new ≡ unwrap_or (security_version manifest.now (layout_of block.now blocks)) version.old }
{
    let Ok(layout) = Layout::read(block, blocks) else {
        return false;
    };
    match manifest_core::test(manifest, layout.rows()) {
        Ok(told) => {
            *version = told;
            true
        }
        Err(_) => false,
    }
}
