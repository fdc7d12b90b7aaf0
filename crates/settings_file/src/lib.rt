//! The settings file of a check: a TOML document, read and printed.
#![tactic(auto)]

mod document;
mod printing;
mod reading;
mod values;

pub use java_syntax::Settings;
pub use printing::print_settings;
pub use reading::{default_settings, read_settings};
