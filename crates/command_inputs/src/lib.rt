//! The files of a command: their texts by what they are for, or the answer where they can't be read.
#![tactic(auto)]

mod halts;
mod limited;
mod names;
mod reading;

pub use halts::Halt;
pub use limited::{LimitedFile, read_beside};
pub use names::{CommandNames, CommandTexts, NamedText};
pub use reading::{read_files, texts_of};
