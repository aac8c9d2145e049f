//! How much was written.

ghost use Rattle.std.specs.Prelude.{◌≡◌};
ghost use Rattle.host_io.specs.Calls.{done_once, failed_once, torn_once};

/// How many files were written whole, how many writes failed, and how many of these may have torn their
/// file: it may be neither as it was nor whole. No number falls, and one that stands at the greatest u64
/// stays there.
#[derive(Clone, Copy, Debug)]
pub struct Writes {
    pub done: u64,
    pub failed: u64,
    pub torn: u64,
}

impl Writes {
    /// Nothing was written.
    pub fn none() -> Writes
        ensures { result ≡ record { done = 0; failed = 0; torn = 0 } }
    {
        Writes {
            done: 0,
            failed: 0,
            torn: 0,
        }
    }

    /// Counts a file that was written.
    pub fn pass(&mut self)
        ensures { self.new ≡ done_once self.old }
    {
        self.done = self.done.saturating_add(1);
    }

    /// Counts a write that failed, and left its file as it was.
    pub fn fail(&mut self)
        ensures { self.new ≡ failed_once self.old }
    {
        self.failed = self.failed.saturating_add(1);
    }

    /// Counts a write that failed, and may have torn its file.
    pub fn tear(&mut self)
        ensures { self.new ≡ torn_once self.old }
    {
        self.failed = self.failed.saturating_add(1);
        self.torn = self.torn.saturating_add(1);
    }
}
