//! The passes over the effective signatures of a program.

ghost use Rattle.std.specs.Prelude.{◌≡◌, OnOk};
ghost use Rattle.program_model.specs.Validity.{IsNumbered};
ghost use Rattle.owning_fields.specs.Refusals.{verdict_of};
ghost use Rattle.signature_rules.specs.RulePasses.{HasNoRuleCase, rule_refusal};

use crate::owners::owner_rule;
use crate::results::result_rule;
use crate::text_fields::text_field_rule;
use crate::texts::text_rule;
use alias_sets::alias_rule;
use called_methods::override_rule;
use must_call_reset::reset_rule;
use owning_fields::owning_rule;
use program_model::Program;
use rlc_base::Refusal;

/// Refuses a program by the rules on its effective signatures (Checker Framework manual, Resource Leak Checker). There are eight
/// passes: over resource aliases (code 52), over what overriding methods ask, promise and take (code 53), over owning fields
/// (codes 54 and 55), over methods that create obligations anew (code 56), over what is said of texts (code 52), over results of overriding methods that
/// lose an obligation (code 53), over classes under those that declare owning fields (code 55), and over owning fields that may hold a text (code 55). It takes no memory.
///
/// # Errors
///
/// The first pass that has a case refuses, at its least place, and there by the least code.
pub fn rule_refusal(p: &Program) -> Result<(), Refusal>
    requires { IsNumbered p.now }
    ensures first { result ≡ verdict_of (rule_refusal p.now) }
    ensures right { OnOk result (HasNoRuleCase p.now) }
{
    alias_rule(p)?;
    override_rule(p)?;
    owning_rule(p)?;
    reset_rule(p)?;
    text_rule(p)?;
    result_rule(p)?;
    owner_rule(p)?;
    text_field_rule(p)
}
