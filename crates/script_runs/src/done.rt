//! How the program ended.
use flash_core::Flash;
use flash_format::InputFault;
use fwu_journal::Journal;
use fwu_model::NoBoot;

/// Why a device has no flash behind a GUID partition table.
#[derive(Clone, Copy, Debug, PartialEq, Eq)]
pub enum NoTable {
    /// Neither copy of the table is valid.
    Table,
    /// Not exactly one partition is a store.
    Store,
    /// So many partitions are for metadata, and not two.
    Replicas(u32),
    /// The store has fewer than 8 or more than 65,536 blocks, or one of the three isn't in the usable blocks, or two share a block.
    TooSmall,
}

/// What a run met, where its status alone doesn't tell it.
#[derive(Clone, Copy, Debug, PartialEq, Eq)]
pub enum Note {
    Nothing,
    /// The first line of the script that is none, from 1.
    BadLine(u32),
    /// The first line of the list of digests that is none, from 1.
    BadList(u64),
    /// Why no bank was started.
    Boot(NoBoot),
    /// Why a flash was not formatted, by what was given.
    Input(InputFault),
    /// Why there was no flash to run on.
    NoTable(NoTable),
}

/// What the program ended with.
#[derive(Drop)]
pub struct Done<D: Flash> {
    /// The exit status. 0 is done, 1 usage, 2 that the source or a file was not read. (The file is a list of digests, a package
    /// to format with, or what a line of `send` names, after whose line the run ended.) 3 is that the sink failed, 4 no script, 5
    /// that the flash failed, or that power was lost in `show`, in a format, of a soak too, or before the turns of `--gpt`. 6 is
    /// nothing to boot, 7 no layout or package that a flash can be formatted with, 8 a script or requests that are too long, 9 no
    /// memory. 10 is no partition table that gives a flash, 11 bytes that are no frame, 12 that power was lost while requests were
    /// served, 13 no list of digests.
    pub status: u8,
    /// What the run met, where its status alone doesn't tell it.
    pub note: Note,
    /// The flash as it was left.
    pub flash: D,
    /// The turns that were done.
    pub journal: Journal,
}
