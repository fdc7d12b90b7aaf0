//! The rules of casts (JLS 15.16) and of `instanceof` (JLS 15.20.2).

ghost use Rattle.std.specs.Prelude.{◌≡◌};
ghost use Rattle.std.specs.Option.{option_map};
ghost use Rattle.java_constants.specs.Arithmetic.{converted};
ghost use Rattle.java_operator_rules.specs.Casts.{cast_as, cast_by, constant_cast, instance_of, instance_of_by};

use java_constants::converted;
use java_conversions::{Cast, cast_of, is_tested};
use java_typed_trees::{Answer, Facts, Shape, constant_at, mismatch, type_of, value_at};
use program_model::{Primitive, Program, VType};
use rlc_base::Pos;

fn converted_constant(to: Primitive, constant: Option<i64>) -> Option<i64>
    ensures { result ≡ option_map (converted to) constant }
{
    match constant {
        None => None,
        Some(value) => Some(converted(to, value)),
    }
}

fn constant_cast(to: VType, constant: Option<i64>) -> Option<i64>
    ensures { result ≡ constant_cast to constant }
{
    match to {
        VType::Primitive(to) => converted_constant(to, constant),
        _ => None,
    }
}

fn cast_as(pos: Pos, to: VType, constant: Option<i64>, cast: Cast) -> Answer
    ensures { result ≡ cast_as pos to constant cast }
{
    match cast {
        Cast::Primitive => {
            let facts = constant_at(pos, to, constant_cast(to, constant));
            Answer::Is(Shape::PrimitiveCast, facts)
        }
        Cast::Reference => Answer::Is(Shape::ReferenceCast, value_at(pos, to)),
        Cast::Illegal => mismatch(pos),
    }
}

/// `(T) a` (JLS 15.16). The type that is written is None where its name is refused.
pub fn cast_by(p: &Program, pos: Pos, written: Option<VType>, a: Facts) -> Answer
    ensures { result ≡ cast_by p.now pos written a }
{
    match written {
        None => Answer::Silent(pos),
        Some(to) => match type_of(a) {
            None => Answer::Silent(pos),
            Some(from) => cast_as(pos, to, a.constant, cast_of(p, from, to)),
        },
    }
}

fn instance_of(pos: Pos, tested: VType, is_legal: bool) -> Answer
    ensures { result ≡ instance_of pos tested is_legal }
{
    if is_legal {
        let facts = value_at(pos, VType::Primitive(Primitive::Boolean));
        Answer::Is(Shape::InstanceOf(tested), facts)
    } else {
        mismatch(pos)
    }
}

/// `a instanceof T` (JLS 15.20.2). The type that is written is None where its name is refused.
pub fn instance_of_by(p: &Program, pos: Pos, written: Option<VType>, a: Facts) -> Answer
    ensures { result ≡ instance_of_by p.now pos written a }
{
    match written {
        None => Answer::Silent(pos),
        Some(tested) => match type_of(a) {
            None => Answer::Silent(pos),
            Some(operand) => instance_of(pos, tested, is_tested(p, operand, tested)),
        },
    }
}
