//! Stub files: the declarations of library classes without bodies, those of the core stub and those that users write.
#![tactic(auto)]

mod core_stub;
mod stub;

pub use core_stub::{CORE_NAME, core_text};
pub use settings_file::{Settings, default_settings, print_settings, read_settings};
pub use stub::read_stub;
