//! Where the bytes of a program stand in a package.
ghost use Rattle.std.specs.Prelude.{◌≡◌, IfSome, IsTrue};
ghost use Rattle.step_flash.specs.Steps.{StandsAt};

/// Bytes that the caller lent beside the image, and the places where the bytes of programs are looked for in them.
#[derive(Drop)]
pub(crate) struct LentFile<'a> {
    pub(crate) bytes: &'a [u8],
    // behind the bytes that were found last
    next: usize,
    // each place that is tried where they do not stand there
    places: &'a [usize],
}

/// Whether these bytes stand in a package from a place on.
fn stands_at(file: &[u8], from: usize, bytes: &[u8]) -> bool
    ensures { IsTrue result → StandsAt file.now from bytes.now }
{
    if from > file.len() || file.len() - from < bytes.len() {
        return false;
    }
    &file[from..from + bytes.len()] == bytes
}

impl<'a> LentFile<'a> {
    pub(crate) fn new(bytes: &'a [u8], places: &'a [usize]) -> LentFile<'a>
        ensures { result.bytes.now ≡ bytes.now }
    {
        LentFile {
            bytes,
            next: 0,
            places,
        }
    }

    fn place_of(&self, bytes: &[u8]) -> Option<usize>
        ensures { IfSome result (λ from. StandsAt self.now.bytes.now from bytes.now) }
    {
        if stands_at(self.bytes, self.next, bytes) {
            return Some(self.next);
        }
        for place in self.places {
            if stands_at(self.bytes, *place, bytes) {
                return Some(*place);
            }
        }
        None
    }

    /// A place where these bytes stand, if they stand at one that is tried.
    pub(crate) fn find(&mut self, bytes: &[u8]) -> Option<u32>
        ensures found { IfSome result (λ from. StandsAt self.old.bytes.now from bytes.now) }
        ensures same { self.new.bytes.now ≡ self.old.bytes.now }
    {
        let place = self.place_of(bytes)?;
        let from = u32::try_from(place).ok()?;
        self.next = place + bytes.len();
        Some(from)
    }
}
