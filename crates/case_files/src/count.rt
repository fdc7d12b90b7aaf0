// How many cases passed, and how many failed.

ghost use Rattle.std.specs.Prelude.{◌≡◌, ◌<◌, ◌↔◌, IsTrue};
ghost use Rattle.case_files.specs.Counts.{counted};

/// How many cases passed, and how many failed.
#[derive(Clone, Copy)]
pub struct Count {
    pub passed: u64,
    pub failed: u64,
}

impl Count {
    /// Counts a case that passed or failed. A count stays at the last value of 64 bits.
    pub fn add(&mut self, has_passed: bool)
        ensures { self.new ≡ counted has_passed self.old }
    {
        if has_passed {
            self.passed = self.passed.saturating_add(1);
        } else {
            self.failed = self.failed.saturating_add(1);
        }
    }

    /// Whether a case failed.
    pub fn has_failed(&self) -> bool
        ensures { IsTrue result ↔ 0 < self.now.failed }
    {
        0 < self.failed
    }
}
