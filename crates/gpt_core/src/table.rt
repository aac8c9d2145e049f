//! The copies of a table.

/// A copy of the table.
#[derive(Clone, Copy)]
pub enum TableCopy {
    Primary,
    Backup,
}

/// What reading found. Same: both copies are valid and say the same table. RepairPrimary: the primary isn't valid, and the backup
/// is. RepairBackup: the primary is valid, and the backup isn't, or says another table.
#[derive(Clone, Copy, Debug, PartialEq, Eq)]
pub enum WhichTable {
    Same,
    RepairPrimary,
    RepairBackup,
}
