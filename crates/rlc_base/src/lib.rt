//! What every layer of the leak checker speaks of: places in files, text, names and sets of names, refusals.
#![tactic(auto)]

mod byte_text;
mod code;
mod faults;
mod name_id;
mod name_set;
mod name_table;
mod place;

pub use byte_text::Text;
pub use code::Code;
pub use faults::{InternFail, NoMemory, Refusal, Stop};
pub use name_id::NameId;
pub use name_set::NameSet;
pub use name_table::{MAX_NAMES, Names};
pub use place::Pos;
