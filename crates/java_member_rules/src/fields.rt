//! The rules of field access (JLS 15.11): `e.f`, and `C.f` by the class.

ghost use Rattle.std.specs.Prelude.{◌≡◌};
ghost use Rattle.program_model.specs.Lookups.{field_at};
ghost use Rattle.java_member_rules.specs.Fields.{class_field_by, field_access_by, instance_field, member_access, static_field};

use crate::names::{library_constant_by, no_such_name};
use java_typed_trees::{
    Answer, Facts, NameMeaning, Shape, constant_at, mismatch, type_of, value_at,
};
use program_model::{FieldId, Program};
use rlc_base::Pos;

fn instance_field(p: &Program, pos: Pos, field: FieldId) -> Answer
    ensures { result ≡ instance_field pos field (field_at p.now field) }
{
    match p.field(field) {
        None => no_such_name(pos),
        Some(found) => {
            if found.is_static {
                mismatch(pos)
            } else {
                Answer::Is(Shape::Field(field), value_at(pos, found.vtype))
            }
        }
    }
}

fn member_access(p: &Program, pos: Pos, member: NameMeaning) -> Answer
    ensures { result ≡ member_access p.now pos member }
{
    match member {
        NameMeaning::Variable(_) => no_such_name(pos),
        NameMeaning::Field(field) => instance_field(p, pos, field),
        NameMeaning::LibraryConstant(_) => mismatch(pos),
        NameMeaning::NoVariable => no_such_name(pos),
    }
}

/// `e.f` (JLS 15.11.1), where the name means this as a member of the class of e's type: an instance field of a program class.
/// The length of an array is another rule's.
pub fn field_access_by(p: &Program, pos: Pos, member: NameMeaning, e: Facts) -> Answer
    ensures { result ≡ field_access_by p.now pos member e }
{
    match type_of(e) {
        None => Answer::Silent(pos),
        Some(_) => member_access(p, pos, member),
    }
}

fn static_field(p: &Program, pos: Pos, constant: Option<i64>, field: FieldId) -> Answer
    ensures { result ≡ static_field pos constant field (field_at p.now field) }
{
    match p.field(field) {
        None => no_such_name(pos),
        Some(found) => {
            if found.is_static {
                let facts = constant_at(pos, found.vtype, constant);
                Answer::Is(Shape::StaticField(field), facts)
            } else {
                mismatch(pos)
            }
        }
    }
}

/// `C.f` (JLS 6.5.6.2), where the name means this as a member of the class. `constant` is the value of the field where that is
/// a constant variable (JLS 4.12.4).
pub fn class_field_by(p: &Program, pos: Pos, constant: Option<i64>, member: NameMeaning) -> Answer
    ensures { result ≡ class_field_by p.now pos constant member }
{
    match member {
        NameMeaning::Variable(_) => no_such_name(pos),
        NameMeaning::Field(field) => static_field(p, pos, constant, field),
        NameMeaning::LibraryConstant(method) => library_constant_by(p, pos, method),
        NameMeaning::NoVariable => no_such_name(pos),
    }
}
