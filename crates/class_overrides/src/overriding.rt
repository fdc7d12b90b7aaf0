//! Whether one method may override another (JLS 8.4.8.1 to 8.4.8.3).

ghost use Rattle.std.specs.Prelude.{◌≡◌, not};
ghost use Rattle.program_model.specs.Lookups.{optional};
ghost use Rattle.rlc_base.specs.declared.code.Code.TheVariants as refused;
ghost use Rattle.refusal_order.specs.Refusals.{where_true};
ghost use Rattle.class_overrides.specs.Cases.{are_static_alike, may_override};

use crate::alike::is_static_kind;
use class_members::{is_result_under, throws_no_more};
use program_model::{Method, Program};
use rlc_base::{Code, Pos, Refusal};

fn are_static_alike(m: &Method, n: &Method) -> bool
    ensures { result ≡ are_static_alike m.now n.now }
{
    if is_static_kind(m.kind) {
        is_static_kind(n.kind)
    } else {
        !is_static_kind(n.kind)
    }
}

/// Whether `m` may override `n`: its result may stand for that of `n` (JLS 8.4.5), its throws clause has no checked class
/// more (JLS 8.4.8.3), both are static or neither is (JLS 8.4.8.1, 8.4.8.2), and `n` is not final (JLS 8.4.3.3).
pub fn may_override(p: &Program, m: &Method, n: &Method) -> bool
    ensures { result ≡ may_override p.now m.now n.now }
{
    is_result_under(p, m.sig.result, n.sig.result)
        && throws_no_more(p, m, n)
        && are_static_alike(m, n)
        && !n.is_final
}

// The refusal of an overriding of `n` by `m` that may not be.
pub(crate) fn override_refusal(p: &Program, m: &Method, n: &Method, pos: Pos) -> Option<Refusal>
    ensures { optional result ≡ where_true (not (may_override p.now m.now n.now)) refused.BadOverride pos }
{
    if may_override(p, m, n) {
        None
    } else {
        Some(Refusal {
            code: Code::BadOverride,
            pos,
        })
    }
}
