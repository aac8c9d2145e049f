//! Files that are made of pieces of files.

/// A piece of a file that is made: so many bytes of a file, from place `at` on, behind the next
/// `gap` bytes of the made file's frame. All are counts of bytes.
#[derive(Clone, Copy, Debug)]
pub struct Piece<'a> {
    pub gap: usize,
    pub file: &'a str,
    pub at: u64,
    pub count: u64,
}
