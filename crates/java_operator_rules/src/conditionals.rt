//! The rule of conditional expressions (JLS 15.25).

ghost use Rattle.std.specs.Prelude.{◌≡◌};
ghost use Rattle.java_operator_rules.specs.Conditionals.{conditional_by, conditional_of, suit_context, type_in_context};

use crate::operators::constant_as;
use java_constants::folded_conditional;
use java_conversions::{fits, is_boolean, is_reference_conditional, standalone_conditional};
use java_typed_trees::{Answer, Facts, Shape, mismatch, type_of};
use program_model::{Program, VType};
use rlc_base::Pos;

fn suit_context(p: &Program, wanted: VType, a: VType, b: VType) -> bool
    ensures { result ≡ suit_context p.now wanted a b }
{
    is_reference_conditional(a, b) && (fits(p, a, wanted) && fits(p, b, wanted))
}

fn type_in_context(
    p: &Program,
    wanted: Option<VType>,
    m: Option<i64>,
    a: VType,
    n: Option<i64>,
    b: VType,
) -> Option<VType>
    ensures { result ≡ type_in_context p.now wanted m a n b }
{
    match wanted {
        None => standalone_conditional(p, m, a, n, b),
        Some(target) => {
            if suit_context(p, target, a, b) {
                Some(target)
            } else {
                standalone_conditional(p, m, a, n, b)
            }
        }
    }
}

fn conditional_of(pos: Pos, condition: VType, vtype: Option<VType>, constant: Option<i64>) -> Answer
    ensures { result ≡ conditional_of pos condition vtype constant }
{
    if is_boolean(condition) {
        constant_as(Shape::Conditional, pos, vtype, constant)
    } else {
        mismatch(pos)
    }
}

/// `c ? a : b` (JLS 15.25). `wanted` is the type that the assignment or invocation wants in which the expression stands, if it
/// stands in one: two references that both suit it have it, as JLS 15.25.3 has it; where they don't, the expression has their
/// least upper bound, which does not suit it either.
pub fn conditional_by(
    p: &Program,
    wanted: Option<VType>,
    pos: Pos,
    c: Facts,
    a: Facts,
    b: Facts,
) -> Answer
    ensures { result ≡ conditional_by p.now wanted pos c a b }
{
    match type_of(c) {
        None => Answer::Silent(pos),
        Some(condition) => match type_of(a) {
            None => Answer::Silent(pos),
            Some(left) => match type_of(b) {
                None => Answer::Silent(pos),
                Some(right) => {
                    let vtype = type_in_context(p, wanted, a.constant, left, b.constant, right);
                    let value = folded_conditional(c.constant, a.constant, b.constant);
                    conditional_of(pos, condition, vtype, value)
                }
            },
        },
    }
}
