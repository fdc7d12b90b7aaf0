//! The text for words that the command does not take.

ghost use Rattle.std.specs.Prelude.{◌≡◌};
ghost use Rattle.command_words.specs.Usage.{usage_text};

/// How the command is to be called: a line for each mode.
#[tactic(auto, unfolding(crate::specs::Usage::usage_text))]
pub fn usage() -> &'static [u8]
    ensures { result.now ≡ usage_text }
{
    b"usage: rlc check [--config FILE] FILE..\nusage: rlc run --main CLASS [--choices FILE] [--steps N] [--config FILE] FILE..\nusage: rlc gen --seed K --methods M\nusage: rlc settings --config FILE\nusage: rlc certify [--config FILE] FILE..\nusage: rlc verify --cert FILE [--config FILE] FILE..\n"
}
