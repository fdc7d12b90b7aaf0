//! Which overrides are refused for what they ask, promise or take.

ghost use Rattle.std.specs.Prelude.{◌≡◌};
ghost use Rattle.program_model.specs.Validity.{IsNumbered};
ghost use Rattle.refusal_order.specs.Refusals.{least, verdict_of};
ghost use Rattle.must_call_sets.specs.OverrideCases.{override_cases};

use override_rules::{OverrideRule, least_override};
use program_model::Program;
use refusal_order::verdict_of;
use rlc_base::Refusal;

/// Refuses the program by the least of the overrides whose owning marks, promises or preconditions differ against those of
/// the overridden method (code 53). It takes no memory.
pub fn override_rule(p: &Program) -> Result<(), Refusal>
    requires { IsNumbered p.now }
    ensures { result ≡ verdict_of (least (override_cases p.now)) }
{
    verdict_of(least_override(p, OverrideRule::Owning))
}
