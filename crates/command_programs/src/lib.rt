//! The settings and the program of the files of a command, or the answer where they are refused.
#![tactic(auto)]

mod programs;
mod settings;
mod stops;

pub use program_reading::file_names;
pub use programs::program_under;
pub use settings::settings_for;
pub use stops::halt_of;
