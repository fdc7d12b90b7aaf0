/// Why reading the files of a command stopped; the number is that of the file among their names, from 0 on.
#[derive(Clone, Copy, Debug, PartialEq, Eq)]
pub enum ReadingStop {
    /// The file is missing, or reading it failed: a fault was counted.
    Failed(usize),
    /// The file is longer than a file may be.
    TooBig(usize),
    /// With this file all files that were read are longer than they may be together.
    TooMuch(usize),
    /// Memory ran out.
    NoMemory,
}
