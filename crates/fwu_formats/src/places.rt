//! Where things lie on a flash: which block holds what, and how many marks of a block count.

/// The block of the layout.
pub const LAYOUT_BLOCK: u32 = 0;

/// The blocks of the two replicas of the metadata.
pub const FIRST_REPLICA: u32 = 1;

pub const SECOND_REPLICA: u32 = 2;

/// The block of the marks that count starts on trial.
pub const TRIAL_BLOCK: u32 = 3;

/// The block of the marks that count security versions.
pub const COUNTER_BLOCK: u32 = 4;

/// The blocks of the two records of the counter.
pub const FIRST_RECORD: u32 = 5;

pub const SECOND_RECORD: u32 = 6;

/// The first block of bank 0. The blocks before it are the front.
pub const FIRST_BANK_BLOCK: u32 = 8;

/// How many starts on trial there are at most.
pub const TRIAL_LIMIT: u32 = 3;

/// How many marks of the counter there are at most; greater values have records alone.
pub const COUNTER_LIMIT: u32 = 223;
