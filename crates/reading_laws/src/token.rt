//! The tokens of a file are determined by its bytes. Each law is the contract of a function that does nothing.

ghost use Rattle.std.specs.Prelude.{◌≡◌, ℕ, List};
ghost use Rattle.rlc_base.specs.declared.faults.Stop.TheVariants as stops;
ghost use Rattle.java_lexer.specs.Cut.{IsCut, IsStopAt};

use java_syntax::Token;
use rlc_base::{Refusal, Stop};

/// The bytes of a file are cut into one list of tokens.
pub fn tokens_are_one()
    ensures { (file : ℕ) (bytes : List ℕ) (tokens others : List Token) → IsCut file bytes tokens → IsCut file bytes others → tokens ≡ others }
{}

/// Bytes that are cut into tokens have no refusal.
pub fn cut_has_no_stop()
    ensures { (file : ℕ) (bytes : List ℕ) (tokens : List Token) (stop : Stop) → IsCut file bytes tokens → IsStopAt file bytes stop → stop ≡ stops.NoMemory }
{}

/// Bytes that have no cut have one refusal, with one code at one place.
pub fn stop_is_one()
    ensures { (file : ℕ) (bytes : List ℕ) (r q : Refusal) → IsStopAt file bytes (stops.Refused r) → IsStopAt file bytes (stops.Refused q) → r ≡ q }
{}
