ghost use Rattle.std.specs.Prelude.{◌≡◌, ℕ, ◌≤◌, List, [], length, Option, IfSome, IfNone, OnOk, OnErr};
ghost use Rattle.outside.specs.Files.{Contents, HasFile, CountsRead, AnswersUpTo, TakesMore, max_file};

/// The most bytes that a file may have.
pub const MAX_FILE: usize = 1_048_576;

/// Why a read gave no content.
#[derive(Clone, Copy, Debug, PartialEq, Eq)]
pub enum ReadFail {
    /// The file is missing, or reading it failed: a fault was counted.
    Failed,
    /// The file is longer than was allowed.
    TooBig,
    /// Memory ran out.
    NoMemory,
}

/// A store of files by name. It may tell its contents to contracts. It counts its faults and the bytes that it took from
/// outside, both in 64 bits, where a count stays at the last value that it can have.
pub trait Files {
    // The whole store, where it tells it.
    ghost contents: { Self → Option Contents };

    // How many reads failed by a fault.
    ghost faults: { Self → ℕ };

    // How many bytes were taken from outside. Where the contents are told, nothing else is said of it.
    ghost taken: { Self → ℕ };

    // No read of a file that is there will fail.
    ghost sound: { Self → Type 0 };

    /// Reads the whole file of this name into an empty buffer, where it has at most `most` bytes. `Failed` counts a fault, and
    /// nothing else does. `TooBig` comes where the file has more than `most` bytes. After each error the buffer is empty.
    fn read_upto(&mut self, name: &str, most: u32, into: &mut Vec<u8>) -> Result<(), ReadFail>
        requires { into.old.items ≡ [] }
        ensures contents_stay { contents self.new ≡ contents self.old }
        ensures cause { CountsRead (faults self.old) (faults self.new) result }
        ensures never_falls { taken self.old ≤ taken self.new }
        ensures told { IfSome (contents self.old) (λ files. AnswersUpTo most files name.now result into.new.items) }
        ensures untold { IfNone (contents self.old) (result ≡ Err ReadFail.TooBig → TakesMore most (taken self.old) (taken self.new)) }
        ensures small { OnOk result (length into.new.items ≤ most) }
        ensures empty { OnErr result (into.new.items ≡ []) }
        ensures holds { sound self.old → IfSome (contents self.old) (λ files. HasFile files name.now → faults self.new ≡ faults self.old) }
        ensures stays_sound { sound self.old → sound self.new };

    /// Reads the whole file of this name into an empty buffer, where it has at most `MAX_FILE` bytes.
    fn read(&mut self, name: &str, into: &mut Vec<u8>) -> Result<(), ReadFail>
        requires { into.old.items ≡ [] }
        ensures contents_stay { contents self.new ≡ contents self.old }
        ensures cause { CountsRead (faults self.old) (faults self.new) result }
        ensures never_falls { taken self.old ≤ taken self.new }
        ensures told { IfSome (contents self.old) (λ files. AnswersUpTo max_file files name.now result into.new.items) }
        ensures untold { IfNone (contents self.old) (result ≡ Err ReadFail.TooBig → TakesMore max_file (taken self.old) (taken self.new)) }
        ensures small { OnOk result (length into.new.items ≤ max_file) }
        ensures empty { OnErr result (into.new.items ≡ []) }
        ensures holds { sound self.old → IfSome (contents self.old) (λ files. HasFile files name.now → faults self.new ≡ faults self.old) }
        ensures stays_sound { sound self.old → sound self.new }
    {
        self.read_upto(name, MAX_FILE as u32, into)
    }
}
