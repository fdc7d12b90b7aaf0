//! The rule of simple assignments (JLS 15.26.1), and what may be assigned (JLS 4.12.4, 8.3.1.2, 15.26).

ghost use Rattle.std.specs.Prelude.{◌≡◌};
ghost use Rattle.java_member_rules.specs.Assignments.{assignment_by, assignment_of, is_initialized_in, may_assign_field, target_in};

use java_conversions::is_assignable;
use java_typed_trees::{Answer, Facts, Shape, TargetShape, mismatch, type_of, value_at};
use program_model::{ClassId, Field, Program, VType};
use rlc_base::Pos;

fn is_initialized_in(initialized: Option<ClassId>, through_this: bool, field: &Field) -> bool
    ensures { result ≡ is_initialized_in initialized through_this field.now }
{
    match initialized {
        None => false,
        Some(class) => through_this && field.class == class,
    }
}

/// Whether the field may be assigned: a final field only in the constructors and initialisers of its class, through `this`
/// (JLS 8.3.1.2). `initialized` is the class of the constructor or initialiser that the assignment stands in, if it stands in
/// one.
pub fn may_assign_field(initialized: Option<ClassId>, through_this: bool, field: &Field) -> bool
    ensures { result ≡ may_assign_field initialized through_this field.now }
{
    !field.is_final || is_initialized_in(initialized, through_this, field)
}

/// The left-hand side that an expression of the shape is (JLS 15.26): a variable, a field or an element.
pub fn target_in(shape: Shape) -> Option<TargetShape>
    ensures { result ≡ target_in shape }
{
    match shape {
        Shape::Local(variable) => Some(TargetShape::Local(variable)),
        Shape::Field(field) => Some(TargetShape::Field(field)),
        Shape::StaticField(field) => Some(TargetShape::StaticField(field)),
        Shape::Element => Some(TargetShape::Element),
        _ => None,
    }
}

fn assignment_of(
    p: &Program,
    pos: Pos,
    target: Option<TargetShape>,
    value: Facts,
    to: VType,
    from: VType,
) -> Answer
    ensures { result ≡ assignment_of p.now pos target value to from }
{
    match target {
        None => mismatch(pos),
        Some(found) => {
            if is_assignable(p, value.constant, from, to) {
                Answer::Is(Shape::Assignment(found), value_at(pos, to))
            } else {
                mismatch(pos)
            }
        }
    }
}

/// `x = e` (JLS 15.26.1). The target is None where it is none that may be assigned.
pub fn assignment_by(
    p: &Program,
    pos: Pos,
    target: Option<TargetShape>,
    x: Facts,
    e: Facts,
) -> Answer
    ensures { result ≡ assignment_by p.now pos target x e }
{
    match type_of(x) {
        None => Answer::Silent(pos),
        Some(to) => match type_of(e) {
            None => Answer::Silent(pos),
            Some(from) => assignment_of(p, pos, target, e, to, from),
        },
    }
}
