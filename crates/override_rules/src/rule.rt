//! The rules, and when each refuses an overriding.

ghost use Rattle.std.specs.Prelude.{◌≡◌};
ghost use Rattle.must_call_sets.specs.AliasCases.{is_same_position};
ghost use Rattle.override_rules.specs.Rules.{case_of};

use crate::bad_overrides::is_bad_override;
use program_model::{Method, Program};
use refusal_order::where_true;
use rlc_base::{Code, Pos, Refusal};

/// A rule on overriding methods.
#[derive(Clone, Copy, PartialEq, Eq)]
pub enum OverrideRule {
    /// The overriding method has the alias position of the overridden one.
    Alias,
    /// What a caller sees of the overridden method's owning marks, promises and preconditions holds of the overriding one.
    Owning,
    /// The overriding method creates no obligation anew that the overridden one does not.
    Reset,
}

fn is_same_position(position: Option<u32>, other: Option<u32>) -> bool
    ensures { result ≡ is_same_position position other }
{
    match (position, other) {
        (None, None) => true,
        (Some(j), Some(k)) => j == k,
        (None, Some(_)) => false,
        (Some(_), None) => false,
    }
}

// The refusal of an overriding by the rule.
pub(crate) fn override_case(
    p: &Program,
    rule: OverrideRule,
    by: &Method,
    overridden: &Method,
    pos: Pos,
) -> Option<Refusal>
    ensures { result ≡ case_of rule p.now (record { by = by.now; overridden = overridden.now; pos = pos }) }
{
    match rule {
        OverrideRule::Alias => {
            let same = is_same_position(by.sig.alias, overridden.sig.alias);
            where_true(!same, Code::BadAlias, pos)
        }
        OverrideRule::Owning => where_true(
            is_bad_override(p, by, overridden),
            Code::BadOwningOverride,
            pos,
        ),
        OverrideRule::Reset => {
            let same = is_same_position(by.sig.reset, overridden.sig.reset);
            where_true(by.sig.reset.is_some() && !same, Code::BadReset, pos)
        }
    }
}
