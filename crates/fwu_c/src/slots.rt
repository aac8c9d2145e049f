//! Where a bank keeps its images.
ghost use Rattle.std.specs.Prelude.{◌≡◌, ◌<◌, ◌≤◌, length, IfOk};
ghost use Rattle.fwu_formats.specs.Layout.{layout_of};
ghost use Rattle.fwu_c.specs.Reports.{slots_code};
ghost use Rattle.fwu_c.specs.Found.{slot_of, TellsSlots};

use crate::layouts::fault_number;
use base_core::BLOCK_BYTES;
use meta_layout::Layout;

/// Where a bank keeps an image.
#[repr(C)]
#[derive(Clone, Copy)]
pub struct Slot {
    /// The image's type: the bytes of a UUID, in the order of its text.
    pub guid: [u8; 16],
    /// Where the slot begins, in bytes from the flash's first one.
    pub offset: u64,
    /// The bytes of the slot, which are whole blocks.
    pub size: u64,
}

/// What a layout says of a bank.
#[repr(C)]
#[derive(Clone, Copy)]
pub struct Slots {
    /// How many banks there are.
    pub banks: u32,
    /// How many images each bank has.
    pub images: u32,
    /// A slot for each image, in the order of the layout.
    pub slots: [Slot; 16],
}

const _: () = prove!(size_of::<Slot>() == 32);

const _: () = prove!(size_of::<Slots>() == 520);

/// The slot of an image.
fn slot_at(layout: &Layout, bank: u32, image: usize) -> Slot
    requires bank { bank < layout.now.banks }
    requires image { image < length layout.now.rows }
    ensures { result ≡ slot_of layout.now bank image }
{
    let row = &layout.rows()[image];
    let mut guid = [0; 16];
    guid.copy_from_slice(row.guid.bytes());
    Slot {
        guid,
        offset: u64::from(BLOCK_BYTES) * u64::from(layout.start(bank, image as u32)),
        size: u64::from(BLOCK_BYTES) * u64::from(row.slots),
    }
}

/// Tells the slots of a bank.
fn put_slots(layout: &Layout, bank: u32, slots: &mut Slots)
    requires { bank < layout.now.banks }
    ensures { TellsSlots layout.now bank slots.old slots.new }
{
    let images = layout.rows().len();
    for image in 0..images {
        slots.slots[image] = slot_at(layout, bank, image);
    }
    slots.banks = layout.banks();
    slots.images = images as u32;
}

/// Where a bank keeps its images, by the layout in this block, of a flash of so many blocks. 0: `slots` tells it. 1 to 6: the
/// number of the layout's first fault. 7: there is no such bank. From 1 on `slots` stays as it was.
#[unsafe(no_mangle)]
pub extern "C" fn fwu_slots(block: &[u8], blocks: u32, bank: u32, slots: &mut Slots) -> u32
    ensures code { result ≡ slots_code bank (layout_of block.now blocks) }
    ensures slots { result ≡ 0 → IfOk (layout_of block.now blocks) (λ L. TellsSlots L bank slots.old slots.new) }
    ensures kept { 1 ≤ result → slots.new ≡ slots.old }
{
    let layout = match Layout::read(block, blocks) {
        Ok(layout) => layout,
        Err(fault) => return fault_number(fault),
    };
    if bank >= layout.banks() {
        return 7;
    }
    put_slots(&layout, bank, slots);
    0
}
