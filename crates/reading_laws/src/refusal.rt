//! What tells two refusals apart. Each law is the contract of a function that does nothing.

ghost use Rattle.std.specs.Prelude.{◌≡◌, false};
ghost use Rattle.rlc_base.specs.Codes.{number_of};
ghost use Rattle.refusal_order.specs.Refusals.{is_before};

use rlc_base::{Code, Refusal};

/// Codes of one number are one code.
pub fn code_is_one()
    ensures { (c d : Code) → number_of c ≡ number_of d → c ≡ d }
{}

/// Two refusals are one where neither comes before the other.
pub fn first_refusal_is_one()
    ensures { (x y : Refusal) → is_before x y ≡ false → is_before y x ≡ false → x ≡ y }
{}
