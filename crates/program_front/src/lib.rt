//! The front of a check: the settings of its settings file, and the syntax trees of its stub files and Java sources.
#![tactic(auto)]

mod files;
mod lexing;
mod parsing;
mod settings;
mod trees;

pub use files::{CutFile, InputFile};
pub use lexing::lex_files;
pub use parsing::{parse_sources, parse_stubs};
pub use settings::settings_of;
pub use trees::{Trees, read_trees};
