//! The settings are determined by the bytes of their file. Each law is the contract of a function that does nothing.

ghost use Rattle.std.specs.Prelude.{◌≡◌, ℕ, List};
ghost use Rattle.settings_file.specs.Reading.{IsCause, IsDefault, IsRead};
ghost use Rattle.reading_laws.specs.SameSettings.{AreSameSettings};

use java_syntax::Settings;
use rlc_base::Code;

/// The bytes of a settings file say one thing.
pub fn settings_are_one()
    ensures { (bytes : List ℕ) (s t : Settings) → IsRead bytes s → IsRead bytes t → AreSameSettings s t }
{}

/// Where there is no settings file, one thing is taken for granted.
pub fn default_settings_are_one()
    ensures { (s t : Settings) → IsDefault s → IsDefault t → AreSameSettings s t }
{}

/// A settings file that is read is not refused.
pub fn read_settings_have_no_cause()
    ensures { (bytes : List ℕ) (s : Settings) (code : Code) → IsRead bytes s → IsCause bytes code → ⊥ }
{}

/// A settings file is refused by one code.
pub fn cause_is_one()
    ensures { (bytes : List ℕ) (code other : Code) → IsCause bytes code → IsCause bytes other → code ≡ other }
{}
