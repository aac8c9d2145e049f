//! A file that stays open between reads.

ghost use Rattle.std.specs.Prelude.{◌≡◌, ◌≤◌, IfSome, OnOk};

use std::io::{self, Read, Seek, SeekFrom};

// How many bytes the name of such a file may have.
const NAME_ROOM: usize = 256;

/// A file that stays open, with its name.
#[derive(Drop)]
pub struct KeptFile<F> {
    file: F,
    name: [u8; NAME_ROOM],
    length: usize,
    ghost within: { length ≤ 256 },
}

impl<F: Read + Seek + Drop> KeptFile<F> {
    ghost use Rattle.std.specs.Prelude.{◌≡◌, IfSome, IsTrue, take};
    ghost use Rattle.host_io.specs.Kept.{ReadsAt};

    /// The file of this name, or none where the name is too long to be kept.
    pub fn new(file: F, name: &str) -> Option<KeptFile<F>>
        ensures file { IfSome result (λ kept. kept.file ≡ file) }
        ensures name { IfSome result (λ kept. take kept.length kept.name ≡ name.now) }
    {
        let bytes = name.as_bytes();
        let length = bytes.len();
        if length > NAME_ROOM {
            return None;
        }
        let mut room = [0; NAME_ROOM];
        room[..length].copy_from_slice(bytes);
        Some(KeptFile {
            file,
            name: room,
            length,
        })
    }

    /// Whether it is the file of this name.
    pub fn is_named(&self, name: &str) -> bool
        ensures { IsTrue result → name.now ≡ take self.now.length self.now.name }
    {
        &self.name[..self.length] == name.as_bytes()
    }

    /// Fills `out` with its bytes from place `at` on.
    pub fn read_at(&mut self, at: u64, out: &mut [u8]) -> io::Result<()>
        ensures bytes { OnOk result (ReadsAt F.stream_position F.remaining at out.new self.old.file self.new.file) }
        ensures name { self.new.name ≡ self.old.name }
        ensures length { self.new.length ≡ self.old.length }
    {
        self.file.seek(SeekFrom::Start(at))?;
        self.file.read_exact(out)
    }
}
