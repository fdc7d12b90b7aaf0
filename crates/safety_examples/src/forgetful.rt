//! The laws. Each is the contract of a function that does nothing.

ghost use Rattle.std.specs.Prelude.{◌≡◌, [], ◌∷◌};
ghost use Rattle.soundness_laws.specs.Runs.{run};
ghost use Rattle.soundness_laws.specs.Safety.{IsSafe};
ghost use Rattle.safety_examples.specs.CarefulPrograms.{main_method};
ghost use Rattle.safety_examples.specs.ForgetfulControls.{closed, leaked, renewed};
ghost use Rattle.safety_examples.specs.ForgetfulPrograms.{forgetful};
ghost use Rattle.safety_examples.specs.Runs.{birth, plainly};

/// A run of the program that closes its socket and lends it to a method of its own that creates its obligation anew: the library makes the socket, which `main`
/// owns; `close` is called on it; the obligation is created anew as the call of `renew` ends, whose body does nothing; and `main` ends, by which the socket leaks.
pub fn forgetful_run_leaks()
    ensures { (run forgetful main_method plainly 18).config.entries ≡ birth ∷ closed ∷ renewed ∷ leaked ∷ [] }
{}

/// So it is not safe.
pub fn forgetful_is_not_safe()
    ensures { IsSafe forgetful → ⊥ }
{}
