//! The settings of a check.

ghost use Rattle.std.specs.Prelude.{option_map};
ghost use Rattle.program_front.specs.Settings.{AreSettings};

use java_syntax::Settings;
use rlc_base::Stop;
use settings_file::{default_settings, read_settings};
use std::alloc::Global;

/// The settings that a settings file of this number says, or the default ones where there is no such file. Refused as by
/// `read_settings`.
pub fn settings_of(alloc: Global, file: u32, bytes: Option<&[u8]>) -> Result<Settings, Stop>
    ensures { AreSettings file (option_map (λ text. text.now) bytes.entry) result }
{
    match bytes {
        None => match default_settings(alloc) {
            Ok(settings) => Ok(settings),
            Err(_) => Err(Stop::NoMemory),
        },
        Some(bytes) => read_settings(alloc, file, bytes),
    }
}
