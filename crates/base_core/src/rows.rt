use crate::guid::Guid;

/// An image of a flash layout: its type, and the blocks of 4096 bytes of its slot in each bank.
#[derive(Clone, Copy, Debug, PartialEq, Eq)]
pub struct ImageRow {
    pub guid: Guid,
    pub slots: u32,
}
