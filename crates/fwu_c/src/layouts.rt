//! Layouts (own format).
ghost use Rattle.std.specs.Prelude.{◌≡◌};
ghost use Rattle.fwu_formats.specs.Layout.{layout_of};
ghost use Rattle.fwu_c.specs.Reports.{fault_code, layout_code};

use fwu_formats::LayoutFault;
use meta_layout::Layout;

/// The number of a layout's fault, from 1 on in the order in which they come.
pub fn fault_number(fault: LayoutFault) -> u32
    ensures { result ≡ fault_code fault }
{
    match fault {
        LayoutFault::Short => 1,
        LayoutFault::BadMagic => 2,
        LayoutFault::BadSize => 3,
        LayoutFault::BadCrc => 4,
        LayoutFault::BadField => 5,
        LayoutFault::BeyondFlash => 6,
    }
}

/// 0 where the block is the layout of a flash of so many blocks, else the number of its first fault. 1 is short, 2 magic
/// number, 3 size, 4 checksum, 5 a field, 6 beyond the flash.
#[unsafe(no_mangle)]
pub extern "C" fn fwu_layout(block: &[u8], blocks: u32) -> u32
    ensures { result ≡ layout_code (layout_of block.now blocks) }
{
    match Layout::read(block, blocks) {
        Ok(_) => 0,
        Err(fault) => fault_number(fault),
    }
}
