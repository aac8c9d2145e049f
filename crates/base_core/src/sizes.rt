/// The bytes of a block, which an erase takes.
pub const BLOCK_BYTES: u32 = 4096;

/// The bytes of a granule, of which a program takes whole ones.
pub const GRANULE_BYTES: u32 = 16;

/// A flash has so many blocks at least.
pub const FEWEST_BLOCKS: u32 = 8;

/// A flash has so many blocks at most.
pub const MOST_BLOCKS: u32 = 65536;

/// A layout has so many banks at least.
pub const FEWEST_BANKS: u32 = 2;

/// A layout has so many banks at most.
pub const MOST_BANKS: u32 = 4;

/// A layout has so many images at least, the manifest among them.
pub const FEWEST_IMAGES: usize = 2;

/// A layout has so many images at most, the manifest among them.
pub const MOST_IMAGES: usize = 16;

/// An image has so many blocks of 4096 bytes in each bank at most.
pub const MOST_SLOTS: u32 = 256;
