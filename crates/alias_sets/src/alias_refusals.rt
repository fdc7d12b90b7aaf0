//! Which resource aliases are refused.

ghost use Rattle.std.specs.Prelude.{◌≡◌};
ghost use Rattle.program_model.specs.Validity.{IsNumbered};
ghost use Rattle.refusal_order.specs.Refusals.{least, verdict_of};
ghost use Rattle.must_call_sets.specs.AliasCases.{alias_cases};

use crate::alias_classes::class_cases;
use crate::alias_methods::method_cases;
use override_rules::{OverrideRule, least_override};
use program_model::Program;
use refusal_order::{lesser_of, verdict_of};
use rlc_base::Refusal;

/// Refuses the program by the least of its bad resource aliases (code 52): of its methods, of its classes with an alias
/// constructor, and of its overriding methods. It takes no memory.
#[tactic(auto, using(crate::proofs::AliasLaws::three_parts))]
pub fn alias_rule(p: &Program) -> Result<(), Refusal>
    requires { IsNumbered p.now }
    ensures { result ≡ verdict_of (least (alias_cases p.now)) }
{
    let of_methods = method_cases(p);
    let of_classes = class_cases(p);
    let of_overrides = least_override(p, OverrideRule::Alias);
    verdict_of(lesser_of(lesser_of(of_methods, of_classes), of_overrides))
}
